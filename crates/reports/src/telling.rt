//! The report of a run: a line for each transaction, then its replies.

ghost use Rattle.std.specs.Prelude.{◌≡◌, ◌++◌, ◌∷◌, [], All, IfOk, OnOk, map};
ghost use Rattle.std.specs.List.{flat_map};
ghost use Rattle.std.specs.Fmt.{decimal};
ghost use Rattle.mmsyntax.specs.Layout.{line};
ghost use Rattle.library.specs.Fitting.{ReplyFits};
ghost use Rattle.historytext.specs.Layout.{reply_text};
ghost use Rattle.transaction.specs.declared.outcome.Outcome.TheVariants as outcome;
ghost use Rattle.reports.specs.Reports.{IsReportable, AreReportable, outcome_text, script_text_from, report_text};

use historytext::put_reply;
use library::{Reason, Reply};
use mmsyntax::Prelude;
use std::alloc::{AllocError, Global};
use transaction::Outcome;

/// The lines of replies, in order.
fn put_replies(
    alloc: Global,
    out: &mut Vec<u8>,
    prelude: &Prelude,
    replies: &[Reply],
) -> Result<(), AllocError>
    requires { All (ReplyFits prelude.now) replies.now }
    ensures { OnOk result (out.new.items ≡ out.old.items ++ flat_map (reply_text prelude.now) replies.now) }
{
    for reply in replies {
        put_reply(alloc, out, prelude, reply)?;
    }
    Ok(())
}

/// The line of a refusal behind `S.T `.
fn put_refusal(
    alloc: Global,
    out: &mut Vec<u8>,
    prelude: &Prelude,
    place: u64,
    index: usize,
    reason: Reason,
) -> Result<(), AllocError>
    ensures { OnOk result (out.new.items ≡ out.old.items ++ outcome_text prelude.now (outcome.Refused place index reason)) }
{
    let line = format!(in alloc; "refused {place} at {index}: {reason}\n")?;
    out.extend_from_slice(line.as_bytes())
}

/// A line with a word and a number, and the lines of replies.
fn put_answered(
    alloc: Global,
    out: &mut Vec<u8>,
    prelude: &Prelude,
    word: &str,
    number: u64,
    replies: &[Reply],
) -> Result<(), AllocError>
    requires { All (ReplyFits prelude.now) replies.now }
    ensures { OnOk result (out.new.items ≡ out.old.items
        ++ (line (word.now ∷ decimal number ∷ []) ++ flat_map (reply_text prelude.now) replies.now)) }
{
    let line = format!(in alloc; "{word} {number}\n")?;
    out.extend_from_slice(line.as_bytes())?;
    put_replies(alloc, out, prelude, replies)
}

/// The lines of one transaction behind `S.T `. Its outcome is no conflict.
fn put_outcome(
    alloc: Global,
    out: &mut Vec<u8>,
    prelude: &Prelude,
    outcome: &Outcome,
) -> Result<(), AllocError>
    requires { IsReportable prelude.now outcome.now }
    ensures { OnOk result (out.new.items ≡ out.old.items ++ outcome_text prelude.now outcome.now) }
{
    match outcome {
        Outcome::Committed { number, replies } => {
            put_answered(
                alloc,
                out,
                prelude,
                "committed",
                *number,
                replies.as_slice(),
            )
        }
        Outcome::Read { place, replies } => {
            put_answered(alloc, out, prelude, "read", *place, replies.as_slice())
        }
        Outcome::Refused {
            place,
            index,
            reason,
        } => put_refusal(alloc, out, prelude, *place, *index, *reason),
        Outcome::Conflict { .. } => unreachable!(),
        Outcome::StoreFull => out.extend_from_slice(b"store full\n"),
        Outcome::NumbersUsed => out.extend_from_slice(b"numbers used\n"),
        Outcome::TooManyCommands => out.extend_from_slice(b"too many commands\n"),
        Outcome::NoMemory => out.extend_from_slice(b"no memory\n"),
    }
}

/// The lines of a script, which counts from 1.
fn put_script(
    alloc: Global,
    out: &mut Vec<u8>,
    prelude: &Prelude,
    script: u64,
    outcomes: &[Outcome],
) -> Result<(), AllocError>
    requires { All (IsReportable prelude.now) outcomes.now }
    ensures { OnOk result (out.new.items ≡ out.old.items ++ script_text_from prelude.now script 1 outcomes.now) }
{
    for (i, outcome) in outcomes.iter().enumerate() {
        let transaction = i as u64 + 1;
        let number = format!(in alloc; "{script}.{transaction} ")?;
        out.extend_from_slice(number.as_bytes())?;
        put_outcome(alloc, out, prelude, outcome)?;
    }
    Ok(())
}

/// The report of a run: for each transaction of each script a line with both numbers, which count from 1, and its outcome, and then the
/// lines of its replies. The outcomes are no conflicts, and their replies within the limits of the prelude. Those of each script are let go
/// once they are told.
///
/// # Errors
///
/// Want of memory.
pub fn report(
    alloc: Global,
    prelude: &Prelude,
    rows: Vec<Vec<Outcome>>,
) -> Result<Vec<u8>, AllocError>
    requires { AreReportable prelude.now (map (λ row. row.items) rows.items) }
    ensures { IfOk result (λ out. out.items ≡ report_text prelude.now (map (λ row. row.items) rows.items)) }
{
    let mut out = Vec::new(alloc);
    let mut script = 0;
    for row in rows {
        script += 1;
        put_script(alloc, &mut out, prelude, script, row.as_slice())?;
    }
    Ok(out)
}
