//! The canonical text of a history.

ghost use Rattle.std.specs.Prelude.{◌≡◌, ◌++◌, All, OnOk, IfOk};
ghost use Rattle.std.specs.List.{flat_map};
ghost use Rattle.library.specs.Fitting.{CommandFits, ReplyFits};
ghost use Rattle.historytext.specs.Layout.{reply_text, entry_text, history_text, EntryFitsText};

use crate::numbers::put_number;
use crate::replies::put_reply;
use crate::transactions::put_transaction;
use library::{Command, Entry, Reply};
use mmsyntax::Prelude;
use std::alloc::{AllocError, Global};

fn put_replies(
    alloc: Global,
    out: &mut Vec<u8>,
    prelude: &Prelude,
    replies: &[Reply],
) -> Result<(), AllocError>
    requires { All (ReplyFits prelude.now) replies.now }
    ensures { OnOk result (out.new.items ≡ out.old.items ++ flat_map (reply_text prelude.now) replies.now) }
{
    for reply in replies {
        put_reply(alloc, out, prelude, reply)?;
    }
    Ok(())
}

/// The lines of a committed transaction and of its replies.
fn put_done(
    alloc: Global,
    out: &mut Vec<u8>,
    prelude: &Prelude,
    commands: &[Command],
    replies: &[Reply],
) -> Result<(), AllocError>
    requires commands { All (CommandFits prelude.now) commands.now }
    requires replies { All (ReplyFits prelude.now) replies.now }
    ensures { OnOk result (out.new.items ≡ out.old.items ++ entry_text prelude.now (Entry.Done commands.now replies.now)) }
{
    out.extend_from_slice(b"done\n")?;
    put_transaction(out, prelude, commands)?;
    put_replies(alloc, out, prelude, replies)
}

fn put_entry(
    alloc: Global,
    out: &mut Vec<u8>,
    prelude: &Prelude,
    entry: &Entry,
) -> Result<(), AllocError>
    requires { EntryFitsText prelude.now entry.now }
    ensures { OnOk result (out.new.items ≡ out.old.items ++ entry_text prelude.now entry.now) }
{
    match entry {
        Entry::Void => out.extend_from_slice(b"void\n"),
        Entry::Done { commands, replies } => {
            put_done(alloc, out, prelude, commands.as_slice(), replies.as_slice())
        }
    }
}

fn put_entries(
    alloc: Global,
    out: &mut Vec<u8>,
    prelude: &Prelude,
    entries: &[Entry],
) -> Result<(), AllocError>
    requires { All (EntryFitsText prelude.now) entries.now }
    ensures { OnOk result (out.new.items ≡ out.old.items ++ flat_map (entry_text prelude.now) entries.now) }
{
    for entry in entries {
        put_entry(alloc, out, prelude, entry)?;
    }
    Ok(())
}

/// The canonical text of a history over a prelude.
///
/// It spells the history wherever some text does: where each step of another proof names a `$f` that there is, an assertion, or one of
/// the first 1,000 hypotheses, and every label may stand in a text. So it does for a legal history (`legal_histories_are_spelled`).
pub fn write_history(
    alloc: Global,
    prelude: &Prelude,
    history: &[Entry],
) -> Result<Vec<u8>, AllocError>
    requires { All (EntryFitsText prelude.now) history.now }
    ensures { IfOk result (λ text. text.items ≡ history_text prelude.now history.now) }
{
    let mut out = Vec::new(alloc);
    out.extend_from_slice(b"history")?;
    put_number(&mut out, history.len() as u64)?;
    out.push(b'\n')?;
    put_entries(alloc, &mut out, prelude, history)?;
    Ok(out)
}
