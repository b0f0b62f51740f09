//! The lines of outcomes, and of openings that fail.

use historytext::put_reply;
use library::{Reason, Reply};
use mmsyntax::{Prelude, fits};
use std::alloc::Global;
use transaction::{OpenError, Outcome};
use wordrows::Written;

/// Writes the line of a transaction that is refused at a place.
pub fn put_refusal(out: &mut Written, place: u64, index: usize, reason: Reason) {
    out.show(format_args!("refused {place} at {index}: {reason}\n"));
}

/// Writes the lines of replies, and `  unfit` for one whose assertion isn't one over the prelude.
pub fn put_replies(alloc: Global, out: &mut Written, prelude: &Prelude, replies: &[Reply]) {
    for reply in replies {
        match reply {
            Reply::Shown { assertion, .. } if !fits(prelude, assertion) => out.put(b"  unfit\n"),
            _ => {
                let done = put_reply(alloc, &mut out.bytes, prelude, reply);
                out.note(done);
            }
        }
    }
}

/// Writes the lines of an outcome.
pub fn put_outcome(alloc: Global, out: &mut Written, prelude: &Prelude, outcome: &Outcome) {
    match outcome {
        Outcome::Committed { number, replies } => {
            out.show(format_args!("committed {number}\n"));
            put_replies(alloc, out, prelude, replies.as_slice());
        }
        Outcome::Read { place, replies } => {
            out.show(format_args!("read {place}\n"));
            put_replies(alloc, out, prelude, replies.as_slice());
        }
        Outcome::Refused {
            place,
            index,
            reason,
        } => put_refusal(out, *place, *index, *reason),
        Outcome::Conflict { .. } => out.put(b"conflict\n"),
        Outcome::StoreFull => out.put(b"store full\n"),
        Outcome::NumbersUsed => out.put(b"numbers used\n"),
        Outcome::TooManyCommands => out.put(b"too many commands\n"),
        Outcome::NoMemory => out.is_short = true,
    }
}

/// Writes the line of a library that isn't opened.
pub fn put_unopened(out: &mut Written, error: OpenError) {
    let (number, name) = (error.number(), error.name());
    match error {
        OpenError::NoMemory => out.is_short = true,
        OpenError::ProofFails(index, fault) => {
            out.show(format_args!("not opened: {number} {name} {index} {fault}\n"));
        }
        _ => out.show(format_args!("not opened: {number} {name}\n")),
    }
}
