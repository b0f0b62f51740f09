//! What lines are answered.

use crate::disk::{Failing, Memory, Silent};
use outside::{Host, Trouble, Unwritten, World, unwritten_text};
use std::alloc::{AllocError, Global};
use std::io::ErrorKind;

/// The file that is there.
const OLD: &str = "set.mm";

/// The path at which nothing is.
const NEW: &str = "out.mm";

/// Puts words behind others.
fn show(out: &mut Vec<u8>, text: &str) -> Result<(), AllocError> {
    out.extend_from_slice(text.as_bytes())
}

/// Puts the text where a line says.
fn put(
    alloc: Global,
    host: &mut Host<Memory, Silent>,
    verb: &str,
) -> Option<Result<(), Unwritten>> {
    match verb {
        "replace" => Some(host.replace(alloc, OLD, b"new")),
        "write" | "deny" => Some(host.write(alloc, OLD, b"new")),
        "create" => Some(host.write(alloc, NEW, b"new")),
        _ => None,
    }
}

/// Shows what became of it, and what stands on the disk.
fn show_answer(
    out: &mut Vec<u8>,
    host: &Host<Memory, Silent>,
    answer: &Result<(), Unwritten>,
) -> Result<(), AllocError> {
    show(out, if answer.is_ok() { "done" } else { "refused" })?;
    for held in host.disk.files() {
        show(out, "; ")?;
        show(out, held.path.as_str())?;
        show(out, " has ")?;
        out.extend_from_slice(held.text.as_slice())?;
    }
    if let Err(why) = answer {
        show(out, "; ")?;
        show(out, text_of(why.trouble))?;
        if let Some(path) = why.left.as_ref() {
            show(out, "; left ")?;
            show(out, path.as_str())?;
        }
    }
    Ok(())
}

/// What is said of a trouble.
fn text_of(trouble: Trouble) -> &'static str {
    match trouble {
        Trouble::NoMemory => "no memory",
        Trouble::Refused(why) => unwritten_text(why),
    }
}

/// The kind of error that a word names. None for any other word.
fn kind_of(word: &str) -> Option<ErrorKind> {
    Some(match word {
        "" | "full" => ErrorKind::StorageFull,
        "absent" => ErrorKind::NotFound,
        "denied" => ErrorKind::PermissionDenied,
        "folder" => ErrorKind::IsADirectory,
        "no-folder" => ErrorKind::NotADirectory,
        "quota" => ErrorKind::QuotaExceeded,
        "read-only" => ErrorKind::ReadOnlyFilesystem,
        "long" => ErrorKind::InvalidFilename,
        "links" => ErrorKind::TooManyLinks,
        "circle" => ErrorKind::FilesystemLoop,
        "taken" => ErrorKind::AlreadyExists,
        "large" => ErrorKind::FileTooLarge,
        "busy" => ErrorKind::ResourceBusy,
        "executed" => ErrorKind::ExecutableFileBusy,
        "pipe" => ErrorKind::BrokenPipe,
        "memory" => ErrorKind::OutOfMemory,
        "late" => ErrorKind::TimedOut,
        _ => return None,
    })
}

/// What a line asks for: what is done, and which deeds fail. None where it can't be read.
fn asked(line: &str) -> Option<(&str, Failing)> {
    let (verb, rest) = line.split_once(' ')?;
    let (way, rest) = rest.split_once(' ')?;
    let (number, word) = rest.split_once(' ').unwrap_or((rest, ""));
    let first = number.parse::<usize>().ok()?;
    let failing = Failing {
        first,
        lasts: way == "from",
        kind: kind_of(word)?,
        denies: verb == "deny",
    };
    Some((verb, failing))
}

/// Answers a line.
fn answer_line(alloc: Global, out: &mut Vec<u8>, line: &str) -> Result<(), AllocError> {
    let Some((verb, failing)) = asked(line) else {
        return show(out, "cannot do this line");
    };
    let mut host = Host {
        disk: Memory::new(alloc, OLD, b"old", failing)?,
        streams: Silent {},
    };
    match put(alloc, &mut host, verb) {
        Some(answer) => show_answer(out, &host, &answer),
        None => show(out, "cannot do this line"),
    }
}

/// The answers to the lines of a table, each behind its line.
///
/// # Errors
///
/// Want of memory.
pub fn answer_files(alloc: Global, lines: &[Vec<u8>]) -> Result<Vec<u8>, AllocError> {
    let mut out = Vec::new(alloc);
    for line in lines {
        let text = str::from_utf8(line.as_slice()).unwrap_or("");
        if text.is_empty() || text.starts_with('#') {
            continue;
        }
        show(&mut out, text)?;
        show(&mut out, ": ")?;
        answer_line(alloc, &mut out, text)?;
        show(&mut out, "\n")?;
    }
    Ok(out)
}
