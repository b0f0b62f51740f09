//! Opens a library in plain cells from a database.

ghost use Rattle.cells.specs.State.{most_words};
ghost use Rattle.mmsyntax.specs.declared.limits.TheConstants.{MOST_ASSERTIONS};
ghost use Rattle.std.specs.Prelude.{◌≡◌, ◌≢◌, ◌≤◌, ◌<◌, ◌*◌, ◌+◌, ◌↔◌, [], length, IfOk, IfErr, IsTrue, MatchOption};
ghost use Rattle.derivation.specs.Databases.{AllCheck};
ghost use Rattle.plaincells.specs.Measures.{body_length, all_bodies_length, IsLeft};
ghost use Rattle.bodystore.specs.Bodies.{expressions_words};
ghost use Rattle.plaincells.specs.Opening.{CellsOpen, front, CellsRefuse};

use crate::plain::PlainCells;
use cells::resolve;
use chains::fill;
use mmsyntax::{Assertion, Database, Expr};
use std::alloc::{AllocError, Global};
use thiserror::Error;

/// Why a database is not opened as a library in cells.
#[derive(Clone, Copy, Debug, PartialEq, Eq, Error)]
pub enum OpenError {
    /// It has more assertions than slots.
    #[error("more assertions than slots")]
    TooMany,
    /// The bodies of its assertions have more words than the store.
    #[error("the bodies of the assertions have more words than the store")]
    StoreFull,
    /// Memory ran out.
    #[error("out of memory")]
    NoMemory,
}

impl OpenError {
    ghost use Rattle.plaincells.specs.Reasons.{open_number_of, open_name_of};

    /// The number of the reason, from 1 to 3.
    pub fn number(self) -> u32
        ensures { result ≡ open_number_of self }
    {
        match self {
            OpenError::TooMany => 1,
            OpenError::StoreFull => 2,
            OpenError::NoMemory => 3,
        }
    }

    /// The name of the reason.
    pub fn name(self) -> &'static str
        ensures { result.now ≡ open_name_of self }
    {
        match self {
            OpenError::TooMany => "TooMany",
            OpenError::StoreFull => "StoreFull",
            OpenError::NoMemory => "NoMemory",
        }
    }
}

impl From<AllocError> for OpenError {
    ghost use Rattle.std.specs.Prelude.{◌≡◌};
    ghost use Rattle.plaincells.specs.declared.opening.OpenError.TheVariants.{NoMemory};

    ghost from_gives = { λ _ e. e ≡ NoMemory };

    fn from(_error: AllocError) -> Self {
        OpenError::NoMemory
    }
}

impl PlainCells {
    /// The opening library of a database whose proofs check, in so many slots, with a store that has room for so many words. The
    /// assertions are put in in their order, into the slots from 0 up.
    ///
    /// # Errors
    ///
    /// In this order: `TooMany`, exactly where there are more assertions than slots; `StoreFull`, exactly where their bodies have more
    /// words than the room; want of memory.
    pub fn open(
        alloc: Global,
        database: &Database,
        slots: usize,
        room: usize,
    ) -> Result<PlainCells, OpenError>
        requires checks { AllCheck database.now }
        requires some { 1 ≤ slots }
        requires few { slots ≤ MOST_ASSERTIONS }
        requires roomy { room ≤ most_words }
        ensures within { IfOk result (λ _. (length database.now.assertions ≤ slots) × (all_bodies_length database.now.assertions ≤ room)) }
        ensures ok { IfOk result (λ made. CellsOpen database.now slots room made) }
        ensures err { IfErr result (λ error. CellsRefuse database.now slots room error) }
    {
        let assertions = database.assertions();
        if assertions.len() > slots {
            return Err(OpenError::TooMany);
        }
        if !fit_into(assertions, room) {
            return Err(OpenError::StoreFull);
        }
        let mut cells = PlainCells::empty(alloc, database.prelude().copy(alloc)?, slots, room)?;
        for index in 0..assertions.len() {
            put_next(alloc, &mut cells, database, index)?;
        }
        Ok(cells)
    }
}

/// Puts the next assertion of a database into the next slot: that many before it stand in those below.
fn put_next(
    alloc: Global,
    cells: &mut PlainCells,
    database: &Database,
    index: usize,
) -> Result<(), AllocError>
    requires next { index < length database.now.assertions }
    requires fits { length database.now.assertions ≤ cells.old.slots }
    requires checks { AllCheck database.now }
    requires opened { CellsOpen (front index database.now) cells.old.slots cells.old.room cells.old }
    ensures { IfOk result (λ _. CellsOpen (front (index + 1) database.now) cells.old.slots cells.old.room cells.new) }
{
    let assertions = database.assertions();
    let assertion = &assertions[index];
    let rank = 100 * (index as u32 + 1);
    let steps = match resolve(alloc, cells, &assertion.proof) {
        Ok(Some(steps)) => steps,
        Ok(None) => unreachable!(),
        Err(_) => return Err(AllocError),
    };
    match fill(alloc, cells, index, rank, assertion, steps.as_slice()) {
        Ok(()) => {
            cells.keep();
            Ok(())
        }
        // the room was tested, so it is memory that ran out
        Err(_) => Err(AllocError),
    }
}

/// Whether the bodies of the assertions have at most as many words as the room.
fn fit_into(assertions: &[Assertion], room: usize) -> bool
    ensures { IsTrue result ↔ all_bodies_length assertions.now ≤ room }
{
    let mut left = room;
    for assertion in assertions {
        match room_behind(assertion, left) {
            Some(rest) => left = rest,
            None => return false,
        }
    }
    true
}

/// How many words are left of a room behind the bodies of an assertion: its label, its statement, and a word for each step of its proof.
/// None where they don't fit.
pub fn room_behind(assertion: &Assertion, room: usize) -> Option<usize>
    ensures { IsLeft room (body_length assertion.now) result }
{
    let left = room
        .checked_sub(assertion.label.as_slice().len())?
        .checked_sub(assertion.pairs.as_slice().len())?
        .checked_sub(assertion.proof.len())?
        .checked_sub(3)?;
    room_behind_expressions(assertion.hyps.as_slice(), left)?
        .checked_sub(1)?
        .checked_sub(assertion.statement.as_slice().len())
}

/// What is left of the room behind expressions, each with its length; none where they don't fit.
fn room_behind_expressions(expressions: &[Expr], room: usize) -> Option<usize>
    ensures { IsLeft room (length (expressions_words expressions.now)) result }
{
    let mut left = room;
    for expression in expressions {
        left = left
            .checked_sub(1)?
            .checked_sub(expression.as_slice().len())?;
    }
    Some(left)
}
