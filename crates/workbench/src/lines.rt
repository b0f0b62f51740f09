//! The table of command lines: what the program does for each, on the files of `data`, and on those that rows write.
//!
//! Each line of the table is a row, and a line `| ..` a line of the text of the row before it: a line feed stands between each two, and
//! none behind the last. A line `# ..` is a comment: it is not printed. Where a row is there for a wrong body that gives up by size, or
//! takes memory by size, the comment in front of it names that body.
//!
//! | The row | What it does |
//! |---|---|
//! | `text PATH` | writes its text into a file, and prints nothing |
//! | `made PATH` | writes what its text is the recipe of (`making`), and prints how many bytes that has |
//! | `link NEW OLD` | makes a symbolic link at NEW that leads to OLD, and prints nothing |
//! | `allow PATH BITS` | gives what is at a path these permission bits, in octal, and prints nothing |
//! | `line WORDS` | a command line, without the program's name |
//! | `closed WORDS` | one whose standard output is a closed pipe |
//! | `full WORDS` | one whose standard output lies on a full disk |
//! | `given PATH WORDS` | one whose standard input is a file |
//! | `terminal WORDS` | one whose standard error is a terminal, with a clock that goes two seconds from one look to the next |
//! | `kept PATH WORDS` | one whose standard output goes into a file |
//! | `unkeyed WORDS` | one to which the system gives no random numbers |
//! | `garbled WORDS` | one whose words come with bytes that aren't UTF-8 |
//! | `file PATH`, `first PATH`, `library PATH` | prints what a file has; its first line; what stands behind its line `library` |
//! | `sorted PATH` | prints the lines in front of a file's line `library`, sorted, without the `S.T ` of script and transaction |
//! | `exported PATH FROM` | writes what stands behind the line `library` of FROM into a file |
//! | `length PATH` | prints how many bytes a file has |
//! | `same PATH PATH` | whether behind their lines `library` two files have the same |
//! | `among PATH PATH ..` | whether the first of these files has just what one of the others has |
//! | `mode PATH` | prints the permission bits of what is at a path, behind links, in octal |
//! | `lead PATH` | prints where the link at a path leads, or that there is none |
//!
//! The files `rN.*` are those of row N, as `docs/DEFINITIONS.md` counts the rows that its rules were read against; the files `sN.mm` are
//! sources in the whole language. What is to be printed was worked out by hand from the README's tables, and stands in `stdout`, of clap's
//! texts the first line. The gate compares the two.

pub(crate) mod stage;

use crate::lines::stage::Mode;
use crate::making::{cut, made};
use std::alloc::{AllocError, Global};
use std::fs::Permissions;
use std::os::unix::fs::{PermissionsExt, symlink};
use std::rt::Files;
use std::{fs, io};

/// The line in front of a library.
const LIBRARY: &[u8] = b"library";

/// The words of a text, between single spaces.
pub(crate) fn words_of(alloc: Global, text: &str) -> Result<Vec<String>, AllocError> {
    let mut words = Vec::new(alloc);
    for word in text.split(' ') {
        words.push(String::from_str(alloc, word)?)?;
    }
    Ok(words)
}

/// The text of lines, each of which has it behind two bytes.
fn text_of(alloc: Global, lines: &[Vec<u8>]) -> Result<Vec<u8>, AllocError> {
    let mut text = Vec::new(alloc);
    for (place, line) in lines.iter().enumerate() {
        if place > 0 {
            text.push(b'\n')?;
        }
        text.extend_from_slice(line.get(2..).unwrap_or(b""))?;
    }
    Ok(text)
}

/// Writes a text into a file.
fn write_text(rt: &(impl Files + AllocGlobal), path: &str, lines: &[Vec<u8>]) -> io::Result<()> {
    let text = text_of(rt.alloc(), lines)?;
    fs::write(rt, path, text.as_slice())
}

/// What the recipe makes that is the text of lines.
fn made_of(alloc: Global, lines: &[Vec<u8>]) -> Result<Vec<u8>, AllocError> {
    let recipe = text_of(alloc, lines)?;
    made(alloc, recipe.as_slice())
}

/// Writes a text into a file, and prints how many bytes that has.
fn write_counted(
    rt: &(impl Files + AllocGlobal + Print),
    path: &str,
    text: &[u8],
) -> io::Result<()> {
    fs::write(rt, path, text)?;
    println!(rt; "{} bytes", text.len())
}

/// Writes what a recipe makes into a file.
fn write_made(
    rt: &(impl Files + AllocGlobal + Print),
    path: &str,
    lines: &[Vec<u8>],
) -> io::Result<()> {
    let text = made_of(rt.alloc(), lines)?;
    write_counted(rt, path, text.as_slice())
}

/// What stands behind the first line that is `library`. It is all of a text that has no such line.
fn library_of(text: &[u8]) -> &[u8] {
    let mut rest = text;
    for _ in text {
        let (line, behind) = cut(rest, b'\n');
        if line == LIBRARY {
            return behind;
        }
        rest = behind;
    }
    text
}

/// The part of a file that a row prints, and what ends it: a first line is all of its line.
fn part_of<'t>(row: &str, text: &'t [u8]) -> (&'t [u8], &'static [u8]) {
    match row {
        "first" => (cut(text, b'\n').0, b"\n"),
        "library" => (library_of(text), b""),
        _ => (text, b""),
    }
}

/// Writes what stands behind a file's line `library` into another file.
fn write_exported(rt: &(impl Files + AllocGlobal), paths: &str) -> io::Result<()> {
    let (path, from) = paths.split_once(' ').unwrap_or((paths, ""));
    let text = fs::read(rt, from)?;
    fs::write(rt, path, library_of(text.as_slice()))
}

/// A line of a report without the numbers of its script and its transaction, if it begins with these.
fn without_place(line: &str) -> &str {
    match line.split_once(' ') {
        Some((place, behind)) if place.contains('.') => behind,
        _ => line,
    }
}

/// The lines of a report in front of its library, sorted, without the numbers of their scripts and transactions.
fn sorted_lines<'t>(alloc: Global, text: &'t str) -> Result<Vec<&'t str>, AllocError> {
    let mut lines = Vec::new(alloc);
    for line in text.lines() {
        if line.as_bytes() == LIBRARY {
            break;
        }
        lines.push(without_place(line))?;
    }
    lines.sort_unstable();
    Ok(lines)
}

/// Prints the lines of a report in an order that the schedule doesn't change.
fn print_sorted(rt: &(impl Files + AllocGlobal + Print), path: &str) -> io::Result<()> {
    let text = fs::read_to_string(rt, path)?;
    for line in sorted_lines(rt.alloc(), text.as_str())? {
        println!(rt; "{line}")?;
    }
    Ok(())
}

/// Prints the part of a text that a row prints of a file.
fn print_part(rt: &impl Print, row: &str, text: &[u8]) -> io::Result<()> {
    let (part, end) = part_of(row, text);
    rt.write_all(part)?;
    rt.write_all(end)
}

/// Prints a part of what a file has.
fn print_file(rt: &(impl Files + AllocGlobal + Print), row: &str, path: &str) -> io::Result<()> {
    match fs::read(rt, path) {
        Ok(text) => print_part(rt, row, text.as_slice()),
        Err(_) => println!(rt; "no such file"),
    }
}

/// Prints how many bytes a file has.
fn print_length(rt: &(impl Files + AllocGlobal + Print), path: &str) -> io::Result<()> {
    let text = fs::read(rt, path)?;
    println!(rt; "{} bytes", text.len())
}

/// Prints whether a text and a file have the same behind their lines `library`.
fn print_same_as(
    rt: &(impl Files + AllocGlobal + Print),
    one: &[u8],
    path: &str,
) -> io::Result<()> {
    let other = fs::read(rt, path)?;
    let is_same = library_of(one) == library_of(other.as_slice());
    println!(rt; "{is_same}")
}

/// Prints whether two files have the same behind their lines `library`.
fn print_same(rt: &(impl Files + AllocGlobal + Print), paths: &str) -> io::Result<()> {
    let (one, other) = paths.split_once(' ').unwrap_or((paths, ""));
    let one = fs::read(rt, one)?;
    print_same_as(rt, one.as_slice(), other)
}

/// Whether a file has just these bytes.
fn has_bytes(rt: &(impl Files + AllocGlobal), path: &str, bytes: &[u8]) -> io::Result<bool> {
    let text = fs::read(rt, path)?;
    Ok(text.as_slice() == bytes)
}

/// Prints whether one of the files has just these bytes.
fn print_found(
    rt: &(impl Files + AllocGlobal + Print),
    bytes: &[u8],
    paths: &str,
) -> io::Result<()> {
    let mut is_found = false;
    for path in paths.split(' ') {
        is_found = is_found || has_bytes(rt, path, bytes)?;
    }
    println!(rt; "{is_found}")
}

/// Prints whether the first of these files has just what one of the others has.
fn print_among(rt: &(impl Files + AllocGlobal + Print), paths: &str) -> io::Result<()> {
    let (one, others) = paths.split_once(' ').unwrap_or((paths, ""));
    let one = fs::read(rt, one)?;
    print_found(rt, one.as_slice(), others)
}

/// Makes a symbolic link at the first of two paths, which leads to the second.
fn make_link(rt: &impl Files, paths: &str) -> io::Result<()> {
    let (link, old) = paths.split_once(' ').unwrap_or((paths, ""));
    symlink(rt, old, link)
}

/// Gives what is at a path the permission bits that stand behind it, in octal.
fn allow(rt: &impl Files, words: &str) -> io::Result<()> {
    let (path, bits) = words.split_once(' ').unwrap_or((words, ""));
    match u32::from_str_radix(bits, 8) {
        Ok(bits) => fs::set_permissions(rt, path, Permissions::from_mode(bits)),
        Err(_) => Err(io::Error::from(io::ErrorKind::InvalidInput)),
    }
}

/// Prints the permission bits of what is at a path, behind links.
fn print_mode(rt: &(impl Files + Print), path: &str) -> io::Result<()> {
    let bits = fs::metadata(rt, path)?.permissions().mode() & 0o7777;
    println!(rt; "{bits:o}")
}

/// Prints where the link at a path leads.
fn print_lead(rt: &(impl Files + AllocGlobal + Print), path: &str) -> io::Result<()> {
    match fs::read_link(rt, path) {
        Ok(old) => println!(rt; "{}", old.display()),
        Err(_) => println!(rt; "no link"),
    }
}

/// How the streams of a row's command line are. None of a row that is none.
pub(crate) fn mode_of(row: &str) -> Option<Mode> {
    match row.split_once(' ').unwrap_or((row, "")).0 {
        "line" => Some(Mode::Open),
        "closed" => Some(Mode::Closed),
        "full" => Some(Mode::Full),
        "given" => Some(Mode::Given),
        "terminal" => Some(Mode::Terminal),
        "kept" => Some(Mode::Kept),
        "unkeyed" => Some(Mode::Unkeyed),
        "garbled" => Some(Mode::Garbled),
        _ => None,
    }
}

/// Whether nothing is printed of a row: it is empty, a comment, writes its text, makes a link, or gives permissions.
pub(crate) fn is_silent(row: &str) -> bool {
    let word = row.split_once(' ').unwrap_or((row, "")).0;
    word.is_empty() || word.starts_with("#") || matches!(word, "text" | "link" | "allow")
}

/// Does what a row asks for that is no command line.
///
/// # Errors
///
/// Those of printing, and of files that a row writes or tells of.
pub(crate) fn do_row(
    rt: &(impl Files + AllocGlobal + Print),
    row: &str,
    lines: &[Vec<u8>],
) -> io::Result<()> {
    let (word, behind) = row.split_once(' ').unwrap_or((row, ""));
    match word {
        "text" => write_text(rt, behind, lines),
        "made" => write_made(rt, behind, lines),
        "link" => make_link(rt, behind),
        "allow" => allow(rt, behind),
        "length" => print_length(rt, behind),
        "same" => print_same(rt, behind),
        "sorted" => print_sorted(rt, behind),
        "exported" => write_exported(rt, behind),
        "among" => print_among(rt, behind),
        "mode" => print_mode(rt, behind),
        "lead" => print_lead(rt, behind),
        _ if is_silent(row) => Ok(()),
        _ => print_file(rt, word, behind),
    }
}
