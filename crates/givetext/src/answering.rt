//! The answer of the program where edits are to be given back.

ghost use Rattle.std.specs.Prelude.{IfOk};
ghost use Rattle.givetext.specs.Answers.{IsGiveAnswer};
ghost use Rattle.givetext.specs.Refusals.{seen_paths};

use crate::call::give;
use crate::refusal::Refusal;
use crate::refusing::{Texts, line_of};
use intake::Follow;
use std::alloc::{AllocError, Global};
use std::hash::RandomState;
use std::thread::Threads;

/// What the program answers where edits are to be given back.
#[derive(Debug, Drop)]
pub enum Returned {
    /// This is printed on the standard output.
    Printed(Vec<u8>),
    /// Nothing is printed but this line, on the standard error.
    Refused(String),
}

/// The paths of the texts, as a line names them.
#[derive(Clone, Copy)]
pub struct Paths<'p> {
    /// That of the source.
    pub source: &'p str,
    /// That of the library that was taken of it.
    pub library: &'p str,
    /// That of the history over the library.
    pub history: &'p str,
}

/// Gives the edits of a history back into the source that its library was taken of, and gives what the program answers.
///
/// What is printed is the source, in which labels are changed and proofs exchanged, and each other byte is as it was: from it the edited
/// library is taken, and each other assertion is as it was. The line of a refusal says why nothing is printed. Who follows is told how far
/// the reading is.
///
/// # Errors
///
/// Want of memory for what is told.
pub fn answer_give(
    rt: &(impl Threads + Sync),
    alloc: Global,
    keys: RandomState,
    paths: Paths<'_>,
    source: &[u8],
    library: &[u8],
    history: &[u8],
    follow: &impl Follow,
) -> Result<Returned, AllocError>
    ensures { IfOk result (IsGiveAnswer (seen_paths paths.entry) source.now library.now history.now) }
{
    let given = give(rt, alloc, keys, source, library, history, follow);
    follow.end();
    let texts = Texts {
        source,
        library,
        history,
    };
    match given {
        Ok(out) => Ok(Returned::Printed(out)),
        Err(Refusal::NoMemory) => Err(AllocError),
        Err(why) => Ok(Returned::Refused(line_of(alloc, paths, texts, &why)?)),
    }
}
