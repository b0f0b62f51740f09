//! The answer of the program where a library is to be taken.

ghost use Rattle.std.specs.Prelude.{◌≡◌, IfOk};
ghost use Rattle.intake.specs.Intakes.{IsTakenByWish};
ghost use Rattle.taketext.specs.Answers.{taken_text, IsTakeAnswer};

use crate::comment::put_comment;
use crate::refusing::{long_line, refusal_line};
use choosing::Wish;
use intake::{Follow, Taken, take};
use mmsyntax::MOST_BYTES;
use mmwriter::write_database;
use std::alloc::{AllocError, Global};
use std::hash::RandomState;
use std::thread::Threads;

/// What the program answers where a library is to be taken.
#[derive(Debug, Drop)]
pub enum Told {
    /// This is printed on the standard output.
    Printed(Vec<u8>),
    /// Nothing is printed but this line, on the standard error.
    Refused(String),
}

/// The text of a library that was taken of the text of a file, behind its comment.
pub fn write_taken(
    alloc: Global,
    path: &[u8],
    source: &[u8],
    wish: Wish<'_>,
    taken: &Taken<'_>,
) -> Result<Vec<u8>, AllocError>
    ensures { IfOk result (λ out. out.items ≡ taken_text path.now source.now wish.entry taken.now) }
{
    let library = write_database(alloc, &taken.database)?;
    let mut out = Vec::new(alloc);
    put_comment(alloc, &mut out, path, source, wish, taken)?;
    out.extend_from_slice(library.as_slice())?;
    Ok(out)
}

/// The answer where a library is taken.
fn tell_taken(
    alloc: Global,
    path: &str,
    source: &[u8],
    wish: Wish<'_>,
    taken: &Taken<'_>,
) -> Result<Told, AllocError>
    requires { IsTakenByWish source.now wish taken.now }
    ensures { IfOk result (IsTakeAnswer path.now source.now wish.entry) }
{
    // For the proof: some text spells a database.
    let _assertions = taken.database.assertions();
    let out = write_taken(alloc, path.as_bytes(), source, wish, taken)?;
    let count = out.as_slice().len();
    if count > MOST_BYTES {
        return Ok(Told::Refused(long_line(alloc, path, count)?));
    }
    Ok(Told::Printed(out))
}

/// Takes a library from the text of a file, and gives what the program answers.
///
/// What is printed is the library's canonical text behind a comment that tells where it comes from, and is read by `check`, `run` and
/// `replay` as it stands. The line of a refusal says why nothing is printed. Who follows is told how far the taking is.
///
/// # Errors
///
/// Want of memory for what is told.
pub fn answer_take<'w>(
    rt: &(impl Threads + Sync),
    alloc: Global,
    keys: RandomState,
    path: &str,
    source: &[u8],
    wish: Wish<'w>,
    follow: &impl Follow,
) -> Result<Told, AllocError>
    ensures { IfOk result (IsTakeAnswer path.now source.now wish.entry) }
{
    match take(rt, alloc, keys, source, wish, follow) {
        Ok(taken) => tell_taken(alloc, path, source, wish, &taken),
        Err(why) => Ok(Told::Refused(refusal_line(alloc, path, source, &why)?)),
    }
}
