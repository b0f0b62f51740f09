//! The text that tells the faults of scripts.

ghost use Rattle.std.specs.Prelude.{◌≡◌, ◌++◌, ◌+◌, ◌-◌, ◌∷◌, [], IfOk, OnOk, map, slice_index_or, string_bytes};
ghost use Rattle.mmtext.specs.Views.{seen};
ghost use Rattle.spreading.specs.Views.{seen_misfit};
ghost use Rattle.expanding.specs.Views.{seen_discouraged};
ghost use Rattle.editscripts.specs.Encouraged.{discouraged_text, discouraged_line};
ghost use Rattle.editscripts.specs.Refusals.{misfit_text, misfit_line, barred_text, barred_line};
ghost use Rattle.editscripts.specs.Faults.{fault_line, line_of_fault, rest_lines, told_lines, lines_text};
ghost use Rattle.editscripts.specs.Views.{seen_texts, seen_what, seen_fault, seen_lines};

use crate::faults::{MOST_TOLD, ScriptFault, What, discouraged_word, misfit_word};
use crate::telling::{path_at, text_at};
use expanding::Discouraged;
use locating::{spot_at, text_line, told_at};
use mmtext::Token;
use replylines::shown;
use spreading::Misfit;
use std::alloc::{AllocError, Global};

/// Why a word of a script doesn't fit a source.
fn misfit_text(alloc: Global, misfit: Misfit<'_>) -> Result<String, AllocError>
    ensures { IfOk result (λ text. string_bytes text ≡ misfit_text (seen_misfit misfit.entry)) }
{
    match misfit {
        Misfit::Unknown(label) => {
            let label = shown(label.text);
            format!(in alloc; "the source has no assertion {label}")
        }
        Misfit::Numbered(_) => format!(in alloc; "a rank has no meaning for a source"),
        Misfit::NotAlone(_) => format!(in alloc; "replace * stands beside another command"),
    }
}

/// The line that says so.
fn misfit_line(
    alloc: Global,
    path: &str,
    text: &[u8],
    misfit: Misfit<'_>,
) -> Result<String, AllocError>
    ensures { IfOk result (λ line. string_bytes line ≡ misfit_line path.now text.now (seen_misfit misfit.entry)) }
{
    let spot = spot_at(text, misfit_word(misfit).place);
    let said = misfit_text(alloc, misfit)?;
    told_at(alloc, path, text, Some(spot), said.as_str())
}

/// Why a command can't be done that names an assertion, which a theorem cites.
fn barred_text(alloc: Global, word: Token<'_>, by: &[u8]) -> Result<String, AllocError>
    ensures { IfOk result (λ text. string_bytes text ≡ barred_text (seen word.entry) by.now) }
{
    let (label, by) = (shown(word.text), shown(by));
    format!(in alloc;
        "{label} can't leave its place: {by} cites it, and no script moves that or gives it another proof"
    )
}

/// The line that says so.
fn barred_line(
    alloc: Global,
    path: &str,
    text: &[u8],
    word: Token<'_>,
    by: &[u8],
) -> Result<String, AllocError>
    ensures { IfOk result (λ line. string_bytes line ≡ barred_line path.now text.now (seen word.entry) by.now) }
{
    let spot = spot_at(text, word.place);
    let said = barred_text(alloc, word, by)?;
    told_at(alloc, path, text, Some(spot), said.as_str())
}

/// What the comment says of its label.
fn discouraged_text(alloc: Global, what: Discouraged<'_>) -> Result<String, AllocError>
    ensures { IfOk result (λ text. string_bytes text ≡ discouraged_text (seen_discouraged what.entry)) }
{
    match what {
        Discouraged::Modifies(word) => {
            let label = shown(word.text);
            format!(in alloc; "{label}: proof modification is discouraged")
        }
        Discouraged::Uses(word) => {
            let label = shown(word.text);
            format!(in alloc; "{label}: new usage is discouraged")
        }
    }
}

/// The line that says so.
fn discouraged_line(
    alloc: Global,
    path: &str,
    text: &[u8],
    what: Discouraged<'_>,
) -> Result<String, AllocError>
    ensures { IfOk result (λ line. string_bytes line ≡ discouraged_line path.now text.now (seen_discouraged what.entry)) }
{
    let spot = spot_at(text, discouraged_word(what).place);
    let said = discouraged_text(alloc, what)?;
    told_at(alloc, path, text, Some(spot), said.as_str())
}

/// The line of a fault of a script with this path and text.
fn fault_line(alloc: Global, path: &str, text: &[u8], what: What<'_>) -> Result<String, AllocError>
    ensures { IfOk result (λ line. string_bytes line ≡ fault_line path.now text.now (seen_what what.entry)) }
{
    match what {
        What::Wordless(fault) => text_line(alloc, path, text, fault),
        What::Unfit(misfit) => misfit_line(alloc, path, text, misfit),
        What::Forbidden(word, by) => barred_line(alloc, path, text, word, by),
        What::Discouraged(what) => discouraged_line(alloc, path, text, what),
    }
}

/// The path of a script, from 0: in front of the paths of the scripts stands that of the source.
fn path_of<'p>(paths: &[&'p str], script: usize) -> &'p str
    ensures { result.now ≡ slice_index_or (map (λ p. p.now) paths.now) (script + 1) [] }
{
    match paths.split_first() {
        None => "",
        Some((_, scripts)) => path_at(scripts, script),
    }
}

/// The line of a fault.
fn line_of_fault(
    alloc: Global,
    paths: &[&str],
    texts: &[Vec<u8>],
    fault: ScriptFault<'_>,
) -> Result<String, AllocError>
    ensures { IfOk result (λ line. string_bytes line
        ≡ line_of_fault (map (λ p. p.now) paths.now) (seen_texts texts.now) (seen_fault fault.entry)) }
{
    let (path, text) = (path_of(paths, fault.script), text_at(texts, fault.script));
    fault_line(alloc, path, text, fault.what)
}

/// The lines of faults.
fn lines_of<'a>(
    alloc: Global,
    paths: &[&str],
    texts: &[Vec<u8>],
    faults: &[ScriptFault<'a>],
) -> Result<Vec<String>, AllocError>
    ensures { IfOk result (λ lines. seen_lines lines.items
        ≡ map (line_of_fault (map (λ p. p.now) paths.now) (seen_texts texts.now)) (map seen_fault faults.now)) }
{
    let mut lines = Vec::new(alloc);
    for fault in faults {
        lines.push(line_of_fault(alloc, paths, texts, *fault)?)?;
    }
    Ok(lines)
}

/// Puts how many more faults there are, if there are more.
fn put_rest(alloc: Global, lines: &mut Vec<String>, more: usize) -> Result<(), AllocError>
    ensures { OnOk result (seen_lines lines.new.items ≡ seen_lines lines.old.items ++ rest_lines more) }
{
    if more == 0 {
        return Ok(());
    }
    let line = format!(in alloc; "faults of the scripts that are not shown: {more}")?;
    lines.push(line)?;
    Ok(())
}

/// Puts a line behind others.
fn put_line(text: &mut String, line: &str) -> Result<(), AllocError>
    ensures { OnOk result (string_bytes text.new ≡ string_bytes text.old ++ 10 ∷ line.now) }
{
    text.push_str("\n")?;
    text.push_str(line)?;
    Ok(())
}

/// Lines as a text, with a line end between two.
fn lines_text(alloc: Global, lines: &[String]) -> Result<String, AllocError>
    ensures { IfOk result (λ text. string_bytes text ≡ lines_text (seen_lines lines.now)) }
{
    let mut text = String::new(alloc);
    let Some((first, others)) = lines.split_first() else {
        return Ok(text);
    };
    text.push_str(first.as_str())?;
    for line in others {
        put_line(&mut text, line.as_str())?;
    }
    Ok(text)
}

/// The text that tells faults in order: the first hundred, a line each, and how many more there are. The paths are those of the source and
/// of the scripts.
pub(crate) fn faults_text(
    alloc: Global,
    paths: &[&str],
    texts: &[Vec<u8>],
    faults: &[ScriptFault<'_>],
) -> Result<String, AllocError>
    ensures { IfOk result (λ text. string_bytes text
        ≡ lines_text (told_lines (map (λ p. p.now) paths.now) (seen_texts texts.now) (map seen_fault faults.now))) }
{
    let (told, more) = faults.split_at(faults.len().min(MOST_TOLD));
    let mut lines = lines_of(alloc, paths, texts, told)?;
    put_rest(alloc, &mut lines, more.len())?;
    lines_text(alloc, lines.as_slice())
}
