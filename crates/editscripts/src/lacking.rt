//! The transactions that weren't done, each with its line.

ghost use Rattle.std.specs.Prelude.{◌≡◌, ◌≢◌, ◌++◌, [], false, codes, IfOk, IsTrue, OnOk, map, option_map, slice_index_or, string_bytes};
ghost use Rattle.std.specs.Fmt.{decimal};
ghost use Rattle.transaction.specs.Closings.{lists_of};
ghost use Rattle.locating.specs.Lines.{line_at};
ghost use Rattle.library.specs.Reasons.{printed_reason};
ghost use Rattle.editscripts.specs.Undone.{IsUndoneText, refused_text, undone_of, all_undone};
ghost use Rattle.editscripts.specs.Views.{seen_texts, beginnings_of};

use crate::run::RunScripts;
use crate::telling::{path_at, text_at};
use expanding::Laid;
use library::{Command, Reason, Script, Transaction};
use locating::lines_of;
use replylines::command_text;
use std::alloc::{AllocError, Global};
use transaction::Outcome;

/// That a command, if it is there, is refused for a reason.
fn refused_text(
    alloc: Global,
    command: Option<&Command>,
    reason: &Reason,
) -> Result<String, AllocError>
    ensures { IfOk result (λ text. string_bytes text ≡ refused_text (option_map (λ c. c.now) command.entry) (printed_reason reason.now)) }
{
    let Some(command) = command else {
        return format!(in alloc; "{reason}");
    };
    let command = command_text(alloc, command)?;
    format!(in alloc; "{command}: {reason}")
}

/// Why a transaction with these commands wasn't done. None where it was.
fn undone_text(
    alloc: Global,
    commands: &[Command],
    outcome: &Outcome,
) -> Result<Option<String>, AllocError>
    ensures { IfOk result (λ text. IsUndoneText commands.now outcome.now text) }
{
    let text = match outcome {
        Outcome::Committed { .. } | Outcome::Read { .. } => return Ok(None),
        Outcome::Refused { index, reason, .. } => {
            refused_text(alloc, commands.get(index.saturating_sub(1)), reason)?
        }
        Outcome::Conflict { .. } => format!(in alloc; "conflict")?,
        Outcome::StoreFull => format!(in alloc; "store full")?,
        Outcome::NumbersUsed => format!(in alloc; "numbers used")?,
        Outcome::TooManyCommands => format!(in alloc; "too many commands")?,
        Outcome::NoMemory => format!(in alloc; "no memory")?,
    };
    Ok(Some(text))
}

/// The commands of a transaction of a script, from 0; none where it has no such transaction.
pub(crate) fn commands_at(script: &[Transaction], place: usize) -> &[Command]
    ensures { result.now ≡ slice_index_or script.now place [] }
{
    match script.get(place) {
        Some(transaction) => transaction.as_slice(),
        None => &[],
    }
}

/// The line on which a transaction begins, of which a place counts from 0.
pub(crate) fn line_at(lines: &[usize], place: usize) -> usize
    ensures { result ≡ slice_index_or lines.now place 0 }
{
    match lines.get(place) {
        Some(line) => *line,
        None => 0,
    }
}

/// The line of a transaction that begins on a line of a script, and why it wasn't done.
fn undone_line(alloc: Global, path: &str, line: usize, text: &str) -> Result<String, AllocError>
    ensures { IfOk result (λ said. string_bytes said ≡ path.now ++ (codes ":" ++ (decimal line ++ (codes ": " ++ text.now)))) }
{
    format!(in alloc; "{path}:{line}: {text}")
}

/// Puts the lines of the transactions of a script behind others, which begin on these lines.
fn put_undone(
    alloc: Global,
    said: &mut Vec<String>,
    path: &str,
    lines: &[usize],
    script: &[Transaction],
    outcomes: &[Outcome],
) -> Result<(), AllocError>
    ensures { OnOk result (map string_bytes said.new.items
        ≡ map string_bytes said.old.items ++ undone_of path.now lines.now script.now outcomes.now) }
{
    for (k, outcome) in outcomes.iter().enumerate() {
        if let Some(text) = undone_text(alloc, commands_at(script, k), outcome)? {
            said.push(undone_line(alloc, path, line_at(lines, k), text.as_str())?)?;
        }
    }
    Ok(())
}

/// The lines on which the transactions of a script begin, of which a place counts from 0.
pub(crate) fn lines_at(
    alloc: Global,
    texts: &[Vec<u8>],
    laid: &[Laid],
    place: usize,
) -> Result<Vec<usize>, AllocError>
    ensures { IfOk result (λ lines. lines.items ≡ map (λ at. line_at (slice_index_or (seen_texts texts.now) place []) at)
        (slice_index_or (beginnings_of laid.now) place [])) }
{
    match laid.get(place) {
        Some(script) => lines_of(alloc, text_at(texts, place), script.beginnings.as_slice()),
        None => Ok(Vec::new(alloc)),
    }
}

/// The transactions of the script at a place, from 0; none where there is no such script.
pub(crate) fn transactions_at(scripts: &[Script], place: usize) -> &[Transaction]
    ensures { result.now ≡ slice_index_or scripts.now place [] }
{
    match scripts.get(place) {
        Some(script) => script.as_slice(),
        None => &[],
    }
}

/// A line for each transaction that wasn't done, by the scripts and in their order.
pub fn undone(alloc: Global, run: &RunScripts<'_>) -> Result<Vec<String>, AllocError>
    ensures { let r = run.now in IfOk result (λ said. map string_bytes said.items ≡ all_undone
        (map (λ p. p.now) r.paths.now) (seen_texts r.texts.now) (beginnings_of r.laid.now) r.scripts.now (lists_of r.rows.now)) }
{
    let rows = run.rows;
    let mut said = Vec::new(alloc);
    for (n, row) in rows.iter().enumerate() {
        let lines = lines_at(alloc, run.texts, run.laid, n)?;
        let (path, script) = (path_at(run.paths, n + 1), transactions_at(run.scripts, n));
        put_undone(
            alloc,
            &mut said,
            path,
            lines.as_slice(),
            script,
            row.as_slice(),
        )?;
    }
    Ok(said)
}

/// Whether a source is printed by these lines of what wasn't done: there is none, or a part is asked for.
pub fn may_print(partial: bool, lines: &[String]) -> bool
    ensures whole { IsTrue result → partial ≡ false → lines.now ≡ [] }
    ensures some { result ≡ false → (lines.now ≢ []) × (partial ≡ false) }
{
    lines.is_empty() || partial
}
