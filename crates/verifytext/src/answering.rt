//! The answer of the program where all proofs of a source are checked.

ghost use Rattle.std.specs.Prelude.{IfOk};
ghost use Rattle.verifytext.specs.Answers.{IsVerifyAnswer};

use crate::verifying_text::verify;
use crate::wording::{ok_line, refusal_line};
use following::Follow;
use std::alloc::{AllocError, Global};
use std::hash::RandomState;
use std::thread::Threads;

/// What the program answers where all proofs of a source are checked.
#[derive(Debug, Drop)]
pub enum Verdict {
    /// The source verifies. This is printed on the standard output.
    Verified(String),
    /// Nothing is printed but this line, on the standard error.
    Refused(String),
}

/// Checks all proofs of the source in the text of a file, and gives what the program answers.
///
/// So many threads check beside one another, from 1 to 64, or as many as there are processors. Who follows is told how far it is.
///
/// # Errors
///
/// Want of memory for what is told.
pub fn answer_verify(
    rt: &(impl Threads + Sync),
    alloc: Global,
    keys: RandomState,
    path: &str,
    source: &[u8],
    workers: Option<usize>,
    follow: &(impl Follow + Sync),
) -> Result<Verdict, AllocError>
    ensures { IfOk result (IsVerifyAnswer path.now source.now) }
{
    match verify(rt, alloc, keys, source, workers, follow) {
        Ok(verified) => Ok(Verdict::Verified(ok_line(alloc, verified)?)),
        Err(why) => Ok(Verdict::Refused(refusal_line(alloc, path, source, why)?)),
    }
}
