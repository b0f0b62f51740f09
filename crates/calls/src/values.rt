//! Frames, substitution, lines of assertions, and copies, over the database of one text.

use crate::same::{is_same_assertion, is_same_prelude};
use crate::samples::{DEMO, database, theorem_line};
use mmstatement::{
    Assertion, Database, Expr, Frame, Prelude, Sequence, Symbol, SymbolWord, fits, frame_of,
    read_assertion, substitute, write_assertion,
};
use std::alloc::{AllocError, AllocGlobal, Global};
use std::hash::RandomState;
use std::random::RandomSource;
use std::test::Fail;

/// The assertion of a database that has a label.
fn labelled<'a>(db: &'a Database, label: &[u8]) -> Result<&'a Assertion, Fail> {
    for assertion in db.assertions() {
        if assertion.label.as_slice() == label {
            return Ok(assertion);
        }
    }
    Err(Fail::from("an assertion of this label"))
}

/// Whether a frame has the `$f` at these places, so many hypotheses, and no pairs.
fn has_just(frame: &Frame, floats: &[u32], hyps: usize) -> bool {
    frame.floats.as_slice() == floats
        && frame.hyps.as_slice().len() == hyps
        && frame.pairs.as_slice().is_empty()
}

/// The frame of the rule `mp` has the `$f` of P and of Q, which are the fourth and the fifth, its two hypotheses, and no pairs.
pub(crate) fn has_frame(rt: &(impl AllocGlobal + RandomSource)) -> Result<bool, Fail> {
    let db = database(rt, DEMO.as_bytes())?;
    let rule = labelled(&db, b"mp")?;
    let frame = frame_of(rt.alloc(), db.prelude(), rule)?;
    Ok(has_just(&frame, [3, 4].as_slice(), 2))
}

/// Whether an assertion is written as a line.
fn is_written(
    alloc: Global,
    prelude: &Prelude,
    assertion: &Assertion,
    line: &[u8],
) -> Result<bool, AllocError> {
    if !fits(prelude, assertion) {
        return Ok(false);
    }
    Ok(write_assertion(alloc, prelude, assertion)?.as_slice() == line)
}

/// The line of the theorem is read as the theorem, and what was read is written as the line.
pub(crate) fn is_read_and_written(rt: &(impl AllocGlobal + RandomSource)) -> Result<bool, Fail> {
    let db = database(rt, DEMO.as_bytes())?;
    let theorem = labelled(&db, b"th1")?;
    let keys = RandomState::new(rt)?;
    let made = read_assertion(rt.alloc(), keys, db.prelude(), theorem_line())?;
    let is_written = is_written(rt.alloc(), db.prelude(), &made, theorem_line())?;
    Ok(is_written && is_same_assertion(&made, theorem))
}

/// Copies of the prelude and of the theorem are equal to them.
pub(crate) fn are_copied(rt: &(impl AllocGlobal + RandomSource)) -> Result<bool, Fail> {
    let db = database(rt, DEMO.as_bytes())?;
    let theorem = labelled(&db, b"th1")?;
    let prelude = db.prelude().copy(rt.alloc())?;
    let copied = theorem.copy(rt.alloc())?;
    Ok(is_same_prelude(&prelude, db.prelude()) && is_same_assertion(&copied, theorem))
}

/// The expression that has one symbol.
fn of_one(alloc: Global, symbol: SymbolWord) -> Result<Expr, AllocError> {
    let mut symbols = Vec::new(alloc);
    symbols.push(symbol)?;
    Ok(Sequence::from_vec(symbols))
}

/// The variable at the place 0 is replaced by the constant at the place 0.
pub(crate) fn is_replaced(alloc: Global) -> Result<bool, Fail> {
    let constant = SymbolWord::new(Symbol::Const(0));
    let variable = SymbolWord::new(Symbol::Var(0));
    let pairs = [(0, of_one(alloc, constant)?)];
    let made = substitute(alloc, &pairs, &[variable])?;
    Ok(made.as_slice() == [constant].as_slice())
}
