//! The line of a refusal.

ghost use Rattle.std.specs.Prelude.{◌≡◌, IfOk, string_bytes};
ghost use Rattle.checking.specs.FaultLines.{file_of};
ghost use Rattle.givetext.specs.Refusals.{edits_text, side_text, text_at_fault, that_of, replay_line, refusal_line, refusal_text, replayed_file, seen_paths, seen_texts};

use crate::answering::Paths;
use crate::refusal::Refusal;
use arranging::Side;
use checking::Fault;
use locating::{printed_name as shown, source_line, text_line};
use sourceediting::Refusal as Unwritten;
use std::alloc::{AllocError, Global};

/// The texts.
#[derive(Clone, Copy)]
pub(crate) struct Texts<'t> {
    /// That of the source.
    pub(crate) source: &'t [u8],
    /// That of the library that was taken of it.
    pub(crate) library: &'t [u8],
    /// That of the history over the library.
    pub(crate) history: &'t [u8],
}

/// The text at fault.
#[derive(Clone, Copy, Debug, PartialEq, Eq)]
pub(crate) enum File {
    /// The source.
    Source,
    /// The library that was taken of it.
    Library,
    /// The history over the library.
    History,
}

/// The text that a fault of a replay is of.
fn replayed_file(fault: &Fault) -> File
    ensures { result ≡ replayed_file (file_of fault.now) }
{
    match fault.file() {
        Some(0) => File::Library,
        _ => File::History,
    }
}

/// The text at fault.
fn text_at_fault(why: &Refusal) -> File
    ensures { result ≡ text_at_fault why.now }
{
    match why {
        Refusal::Source(_) => File::Source,
        Refusal::NotTaken => File::Library,
        Refusal::Replay(fault) => replayed_file(fault),
        _ => File::History,
    }
}

/// Its path.
fn path_of<'p>(paths: Paths<'p>, file: File) -> &'p str
    ensures { result.now ≡ that_of (seen_paths paths.entry) file }
{
    match file {
        File::Source => paths.source,
        File::Library => paths.library,
        File::History => paths.history,
    }
}

/// Its bytes.
fn text_of<'t>(texts: Texts<'t>, file: File) -> &'t [u8]
    ensures { result.now ≡ that_of (seen_texts texts.entry) file }
{
    match file {
        File::Source => texts.source,
        File::Library => texts.library,
        File::History => texts.history,
    }
}

/// A side of an assertion.
fn side_text(side: Side) -> &'static str
    ensures { result.now ≡ side_text side }
{
    match side {
        Side::Behind => "behind",
        Side::InFront => "in front of",
    }
}

/// What a refusal says of edits that can't be written.
fn edits_text(alloc: Global, why: &Unwritten) -> Result<String, AllocError>
    ensures { IfOk result (λ text. string_bytes text ≡ edits_text why.now) }
{
    match why {
        Unwritten::StillCited { label, by } => {
            let (label, by) = (shown(label.as_slice()), shown(by.as_slice()));
            format!(in alloc; "{label} is still cited by {by}, which was not taken")
        }
        Unwritten::InFront { label, next, name } => {
            let (label, next) = (shown(label.as_slice()), shown(next.as_slice()));
            let name = shown(name.as_slice());
            format!(in alloc;
                "{label} can't stand in front of {next}: {name} is declared behind that"
            )
        }
        Unwritten::Unwritten(label) => {
            let label = shown(label.as_slice());
            format!(in alloc; "the proof of {label} can't be written")
        }
        Unwritten::Unplaced { label, next, side } => {
            let (label, next) = (shown(label.as_slice()), shown(next.as_slice()));
            let side = side_text(*side);
            format!(in alloc;
                "{label} can't stand {side} {next}: a heading stands {side} that in its block"
            )
        }
        Unwritten::Bare => format!(in alloc; "an axiom of the source would have a proof"),
        Unwritten::NoMemory => format!(in alloc; "no memory"),
    }
}

/// What a refusal says, without the path of the text at fault.
pub fn refusal_text(alloc: Global, why: &Refusal) -> Result<String, AllocError>
    ensures { IfOk result (λ text. string_bytes text ≡ refusal_text why.now) }
{
    match why {
        Refusal::Source(fault) => format!(in alloc; "text {fault}"),
        Refusal::NotTaken => format!(in alloc; "not what `take` prints of the source"),
        Refusal::Replay(fault) => format!(in alloc; "{fault}"),
        Refusal::NameTaken(label) => {
            let label = shown(label.as_slice());
            format!(in alloc; "{label} is a name of the source already")
        }
        Refusal::Edits(why) => edits_text(alloc, why),
        Refusal::NoMemory => format!(in alloc; "no memory"),
        Refusal::StandsBehind { label, by } => {
            let (label, by) = (shown(label.as_slice()), shown(by.as_slice()));
            format!(in alloc; "{label} would stand behind {by}, which cites it")
        }
        Refusal::Unread(fault) => format!(in alloc; "the source with these edits: text {fault}"),
        Refusal::Changes(label) => {
            let label = shown(label.as_slice());
            format!(in alloc; "with these edits {label} changes, which was not taken")
        }
        Refusal::AnotherAssertion => {
            format!(in alloc; "with these edits another assertion is there")
        }
        Refusal::Untaken => {
            format!(in alloc; "with these edits the library can't be taken again")
        }
        Refusal::AnotherLibrary => format!(in alloc; "with these edits another library is taken"),
        Refusal::CommentLost => format!(in alloc; "with these edits a comment would be lost"),
    }
}

/// The line of a fault of a replay, at the path of a text: where in that it is, if the text has it.
fn replay_line(alloc: Global, path: &str, text: &[u8], fault: &Fault) -> Result<String, AllocError>
    ensures { IfOk result (λ line. string_bytes line ≡ replay_line path.now text.now fault.now) }
{
    match fault {
        Fault::Text { fault, .. } => text_line(alloc, path, text, *fault),
        _ => format!(in alloc; "{path}: {fault}"),
    }
}

/// The line of a refusal, behind the path of the text at fault and, of a fault of that, where in it that is.
pub(crate) fn line_of(
    alloc: Global,
    paths: Paths<'_>,
    texts: Texts<'_>,
    why: &Refusal,
) -> Result<String, AllocError>
    ensures { IfOk result (λ line. string_bytes line ≡ refusal_line (seen_paths paths.entry) (seen_texts texts.entry) why.now) }
{
    let file = text_at_fault(why);
    let (path, text) = (path_of(paths, file), text_of(texts, file));
    match why {
        Refusal::Source(fault) => source_line(alloc, path, text, *fault),
        Refusal::Replay(fault) => replay_line(alloc, path, text, fault),
        _ => {
            let said = refusal_text(alloc, why)?;
            format!(in alloc; "{path}: {said}")
        }
    }
}
