//! The line of a transaction.

ghost use Rattle.std.specs.Prelude.{◌≡◌, ◌++◌, ◌-◌, false, IfOk, OnOk, slice_get, string_bytes};
ghost use Rattle.serde_json.specs.View.{view};
ghost use Rattle.serde_json.specs.Written.{has_float};
ghost use Rattle.reports.specs.Reports.{IsReportable};
ghost use Rattle.replylines.specs.ReplyLines.{committed_data, read_data, refused_data, undone_data};
ghost use Rattle.replylines.specs.ReplyLines.{said_command, reply_data, json_line, reply_line, not_done_data, not_done_line};

use crate::naming::command_text;
use crate::replies::replies_value;
use library::Command;
use mmsyntax::Prelude;
use serde_json::{Value, json};
use std::alloc::{AllocError, Global};
use transaction::Outcome;

/// What the line of a transaction says, whatever became of it.
#[derive(Clone, Copy)]
pub struct Header<'a> {
    /// The path of its script.
    pub path: &'a str,
    /// The line on which it begins, from 1.
    pub line: usize,
    /// Whether the database with the edits was written.
    pub written: bool,
}

/// What is said of an entry of the history.
fn committed_value(
    alloc: Global,
    header: Header<'_>,
    number: u64,
    replies: Value,
) -> Result<Value, AllocError>
    ensures { IfOk result (λ value. view value
        ≡ committed_data header.entry.written header.entry.path.now header.entry.line number (view replies)) }
{
    let Header {
        path,
        line,
        written,
    } = header;
    json!(in alloc; {
        "line": line, "number": number, "outcome": "committed", "replies": replies, "script": path, "written": written
    })
}

/// What is said of a transaction that only read, behind so many entries of the history.
fn read_value(
    alloc: Global,
    header: Header<'_>,
    place: u64,
    replies: Value,
) -> Result<Value, AllocError>
    ensures { IfOk result (λ value. view value
        ≡ read_data header.entry.written header.entry.path.now header.entry.line place (view replies)) }
{
    let Header {
        path,
        line,
        written,
    } = header;
    json!(in alloc; {
        "line": line, "outcome": "read", "place": place, "replies": replies, "script": path, "written": written
    })
}

/// What is said of a transaction that is refused at a command, from 1, behind so many entries of the history.
fn refused_value(
    alloc: Global,
    header: Header<'_>,
    place: u64,
    index: usize,
    said: String,
    reason: String,
) -> Result<Value, AllocError>
    ensures { IfOk result (λ value. view value
        ≡ refused_data header.entry.written header.entry.path.now header.entry.line place index (string_bytes said) (string_bytes reason)) }
{
    let Header {
        path,
        line,
        written,
    } = header;
    json!(in alloc; {
        "command": index, "line": line, "outcome": "refused", "place": place, "reason": reason, "said": said, "script": path,
        "written": written
    })
}

/// What is said of a transaction that did nothing for another cause.
fn undone_value(alloc: Global, header: Header<'_>, cause: &str) -> Result<Value, AllocError>
    ensures { IfOk result (λ value. view value ≡ undone_data header.entry.written header.entry.path.now header.entry.line cause.now) }
{
    let Header {
        path,
        line,
        written,
    } = header;
    json!(in alloc; {"line": line, "outcome": cause, "script": path, "written": written})
}

/// The command that is refused, from 1; nothing where there is no such command.
fn said_command(alloc: Global, commands: &[Command], index: usize) -> Result<String, AllocError>
    ensures { IfOk result (λ text. string_bytes text ≡ said_command (slice_get commands.now (index - 1))) }
{
    match commands.get(index.saturating_sub(1)) {
        Some(command) => command_text(alloc, command),
        None => Ok(String::new(alloc)),
    }
}

/// What became of a transaction with these commands, which begins on this line of the script at this path.
fn outcome_value(
    alloc: Global,
    prelude: &Prelude,
    header: Header<'_>,
    commands: &[Command],
    outcome: &Outcome,
) -> Result<Value, AllocError>
    requires { IsReportable prelude.now outcome.now }
    ensures { IfOk result (λ value. view value
        ≡ reply_data header.entry.written prelude.now header.entry.path.now header.entry.line commands.now outcome.now) }
{
    match outcome {
        Outcome::Committed { number, replies } => {
            let replies = replies_value(alloc, prelude, replies.as_slice())?;
            committed_value(alloc, header, *number, replies)
        }
        Outcome::Read { place, replies } => {
            let replies = replies_value(alloc, prelude, replies.as_slice())?;
            read_value(alloc, header, *place, replies)
        }
        Outcome::Refused {
            place,
            index,
            reason,
        } => {
            let said = said_command(alloc, commands, *index)?;
            let reason = format!(in alloc; "{reason}")?;
            refused_value(alloc, header, *place, *index, said, reason)
        }
        Outcome::Conflict { .. } => undone_value(alloc, header, "conflict"),
        Outcome::StoreFull => undone_value(alloc, header, "store full"),
        Outcome::NumbersUsed => undone_value(alloc, header, "numbers used"),
        Outcome::TooManyCommands => undone_value(alloc, header, "too many commands"),
        Outcome::NoMemory => undone_value(alloc, header, "no memory"),
    }
}

/// Puts behind `out` a JSON object, and a line feed.
fn put_value(alloc: Global, out: &mut Vec<u8>, value: &Value) -> Result<(), AllocError>
    requires { has_float (view value.now) ≡ false }
    ensures { OnOk result (out.new.items ≡ out.old.items ++ json_line (view value.now)) }
{
    let text = value.to_vec(alloc)?;
    out.extend_from_slice(text.as_slice())?;
    out.push(b'\n')?;
    Ok(())
}

/// Puts behind `out` what became of a transaction with these commands: a JSON object and a line feed. The outcome is no conflict, and its
/// replies are within the limits of the prelude.
///
/// # Errors
///
/// Want of memory. After it nothing is promised of the bytes in `out`.
pub fn put_line(
    alloc: Global,
    out: &mut Vec<u8>,
    prelude: &Prelude,
    header: Header<'_>,
    commands: &[Command],
    outcome: &Outcome,
) -> Result<(), AllocError>
    requires { IsReportable prelude.now outcome.now }
    ensures { OnOk result (out.new.items ≡ out.old.items
        ++ reply_line header.entry.written prelude.now header.entry.path.now header.entry.line commands.now outcome.now) }
{
    let value = outcome_value(alloc, prelude, header, commands, outcome)?;
    put_value(alloc, out, &value)
}

/// What is said where nothing was done.
fn not_done_value(alloc: Global, said: &str, reason: &str) -> Result<Value, AllocError>
    ensures { IfOk result (λ value. view value ≡ not_done_data said.now reason.now) }
{
    json!(in alloc; {"outcome": "not done", "reason": reason, "said": said, "written": false})
}

/// The one line where nothing was done: for this reason, in front of which this is said, as a path.
///
/// # Errors
///
/// Want of memory.
pub fn not_done_line(alloc: Global, said: &str, reason: &str) -> Result<Vec<u8>, AllocError>
    ensures { IfOk result (λ out. out.items ≡ not_done_line said.now reason.now) }
{
    let value = not_done_value(alloc, said, reason)?;
    let mut out = Vec::new(alloc);
    put_value(alloc, &mut out, &value)?;
    Ok(out)
}
