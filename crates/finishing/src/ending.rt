//! Finishes libraries.

ghost use Rattle.std.specs.Prelude.{◌≡◌, All, List, map, IfOk};
ghost use Rattle.transaction.specs.Members.{Home, Member, IsSessionOf};
ghost use Rattle.transaction.specs.Closings.{IsClosed};
ghost use Rattle.finishing.specs.Finishes.{Finishes};
ghost use Rattle.finishing.specs.Shown.{ShowsAtEnd, IsShownBy};

use crate::error::FinishError;
use crate::ordering::{first_held, first_missing, in_order, whole};
use library::{History, PlainLibrary};
use mmsyntax::Prelude;
use plaincells::PlainCells;
use shows::entries;
use std::alloc::{AllocError, Global};
use tlwords::{ClosedCell, ClosedWords};
use transaction::{ClosedLibrary, Library, Session};

/// Ends a library: its whole history, into which grows what each of these sessions had seen, and the library after it. The sessions, none
/// too, are of this library.
///
/// # Errors
///
/// Want of memory. `Missing`: a number up to the clock was drawn by none of these sessions; it is the least. `Held`: no number is missing,
/// and the lock of a cell is held; it is the least. It is held by a session that was not handed in, and that was lost in the middle of a
/// run: one at rest holds nothing, and each call on a session leaves it at rest, so no call of this workspace can lose one so. The contract
/// says this of closed words that there are, into whose history grows what each of these sessions had seen. So where a session is left out,
/// it doesn't say that these are the words that the library had at its end. Where all the library's sessions are handed in, no lock is
/// held, and the clock is how many numbers they drew; where each of them has the name that it got at the opening, too, no number is
/// missing. The library and the sessions are gone then.
pub fn finish(
    alloc: Global,
    library: Library,
    sessions: Vec<Session>,
) -> Result<(History, PlainLibrary), FinishError>
    requires { All (IsSessionOf library) sessions.items }
    ensures { Finishes library sessions.items result }
{
    let closed = library.close_taken(alloc, sessions)?;
    conclude(alloc, closed)
}

/// The history and the library that a closed library leaves.
fn conclude(alloc: Global, closed: ClosedLibrary) -> Result<(History, PlainLibrary), FinishError>
    requires { (home : Home) × (members : List Member) × IsClosed home members closed }
    ensures { (home : Home) (members : List Member) → IsClosed home members closed → Finishes home members result }
{
    let ClosedLibrary {
        prelude,
        given,
        words,
        records,
    } = closed;
    let ordered = in_order(alloc, words.clock, records)?;
    if let Some(index) = first_missing(ordered.as_slice()) {
        return Err(FinishError::Missing(index as u64 + 1));
    }
    if let Some(cell) = first_held(words.cells.as_slice()) {
        return Err(FinishError::Held(cell));
    }
    let history = whole(alloc, ordered)?;
    let library = shown(alloc, prelude, given.slots, words)?;
    Ok((history, library))
}

/// The library that closed words show, of which no lock is held.
fn shown(
    alloc: Global,
    prelude: Prelude,
    slots: usize,
    words: ClosedWords,
) -> Result<PlainLibrary, AllocError>
    requires { ShowsAtEnd (record { prelude = prelude; slots = slots }) words }
    ensures { IfOk result (λ library. IsShownBy (record { prelude = prelude; slots = slots }) words library) }
{
    let values = values_of(alloc, words.cells.as_slice())?;
    let mut cells = PlainCells::of_words(alloc, prelude, slots, values, words.store)?;
    let Ok(found) = entries(alloc, &mut cells) else {
        return Err(AllocError);
    };
    Ok(PlainLibrary::sorted(cells.into_prelude(), slots, found))
}

/// The values of these cells.
fn values_of(alloc: Global, cells: &[ClosedCell]) -> Result<Vec<u64>, AllocError>
    ensures { IfOk result (λ values. values.items ≡ map (λ x. x.value) cells.now) }
{
    let mut values = Vec::with_capacity(alloc, cells.len())?;
    for cell in cells {
        values.push_reserved(cell.value);
    }
    Ok(values)
}
