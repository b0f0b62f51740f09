//! Frames: what a citing proof sees of an assertion.

ghost use Rattle.std.specs.Prelude.{◌≡◌, ◌==◌, ◌||◌, ◌&&◌, ℕ, true, IfOk, OnOk, filter, nat_lt};
ghost use Rattle.std.specs.List.{list_any};
ghost use Rattle.std.specs.List.Sorted.{IsStrictlyIncreasing};
ghost use Rattle.mmframes.specs.Frames.{frame, is_mandatory, is_variable, occurs};

use mmsyntax::{Assertion, Expr, Frame, Prelude, Sequence, Symbol, SymbolWord};
use std::alloc::{AllocError, Global};

/// Adds the symbol's place, if it is a variable of one of the first `count` `$f`.
fn note_symbol(found: &mut Vec<u32>, symbol: SymbolWord, count: usize) -> Result<(), AllocError>
    ensures { OnOk result ((j : ℕ) → list_any (λ k. k == j) found.new.items
        ≡ (list_any (λ k. k == j) found.old.items || (nat_lt j count && is_variable j symbol))) }
{
    match symbol.symbol() {
        Symbol::Const(_) => {}
        Symbol::Var(k) => {
            if (k as usize) < count {
                found.push(k)?;
            }
        }
    }
    Ok(())
}

/// Adds the variables of an expression.
fn note_variables(
    found: &mut Vec<u32>,
    symbols: &[SymbolWord],
    count: usize,
) -> Result<(), AllocError>
    ensures { OnOk result ((j : ℕ) → list_any (λ k. k == j) found.new.items
        ≡ (list_any (λ k. k == j) found.old.items || (nat_lt j count && occurs j symbols.now))) }
{
    for symbol in symbols {
        note_symbol(found, *symbol, count)?;
    }
    Ok(())
}

/// Adds the variables of expressions.
fn note_all(found: &mut Vec<u32>, expressions: &[Expr], count: usize) -> Result<(), AllocError>
    ensures { OnOk result ((j : ℕ) → list_any (λ k. k == j) found.new.items
        ≡ (list_any (λ k. k == j) found.old.items || (nat_lt j count && list_any (occurs j) expressions.now))) }
{
    for expression in expressions {
        note_variables(found, expression.as_slice(), count)?;
    }
    Ok(())
}

/// The numbers in ascending order, each once.
fn in_order(numbers: Vec<u32>) -> Vec<u32>
    ensures ascend { IsStrictlyIncreasing result.items }
    ensures same { (j : ℕ) → list_any (λ k. k == j) result.items ≡ list_any (λ k. k == j) numbers.items }
{
    let mut ordered = numbers;
    ordered.sort_unstable();
    ordered.dedup();
    ordered
}

/// The mandatory `$f`, by their places, in ascending order.
fn mandatory(
    alloc: Global,
    prelude: &Prelude,
    assertion: &Assertion,
) -> Result<Vec<u32>, AllocError>
    ensures ascend { IfOk result (λ floats. IsStrictlyIncreasing floats.items) }
    ensures each { IfOk result (λ floats. (j : ℕ) → list_any (λ k. k == j) floats.items ≡ is_mandatory prelude.now assertion.now j) }
{
    let count = prelude.floats().len();
    let mut found = Vec::new(alloc);
    note_all(&mut found, assertion.hyps.as_slice(), count)?;
    note_variables(&mut found, assertion.statement.as_slice(), count)?;
    Ok(in_order(found))
}

/// Whether a number stands where it would among numbers without gaps.
fn is_at_guess(floats: &[u32], float: u32) -> bool
    ensures { result ≡ true → list_any (λ k. k == float) floats.now ≡ true }
{
    match floats.first() {
        None => false,
        Some(first) => match floats.get(float.wrapping_sub(*first) as usize) {
            None => false,
            Some(there) => *there == float,
        },
    }
}

/// Whether a number is one of those in ascending order.
fn is_among(floats: &[u32], float: u32) -> bool
    requires { IsStrictlyIncreasing floats.now }
    ensures { result ≡ list_any (λ k. k == float) floats.now }
{
    if is_at_guess(floats, float) {
        return true;
    }
    floats.binary_search(&float).is_ok()
}

/// The pairs of which both places are among those in ascending order.
fn pairs_among(
    alloc: Global,
    floats: &[u32],
    pairs: &[(u32, u32)],
) -> Result<Sequence<(u32, u32)>, AllocError>
    requires { IsStrictlyIncreasing floats.now }
    ensures { IfOk result (λ found. found
        ≡ filter (λ q. list_any (λ k. k == q.0) floats.now && list_any (λ k. k == q.1) floats.now) pairs.now) }
{
    let mut found = Vec::new(alloc);
    for pair in pairs {
        if is_among(floats, pair.0) && is_among(floats, pair.1) {
            found.push(*pair)?;
        }
    }
    Ok(Sequence::from_vec(found))
}

/// Equal hypotheses.
fn copy_hypotheses(alloc: Global, hyps: &[Expr]) -> Result<Sequence<Expr>, AllocError>
    ensures { IfOk result (λ made. made ≡ hyps.now) }
{
    let mut made = Vec::new(alloc);
    for hyp in hyps {
        made.push(hyp.copy(alloc)?)?;
    }
    Ok(Sequence::from_vec(made))
}

/// The frame of an assertion over a prelude: its mandatory `$f`, its `$e`, its mandatory pairs, its statement.
///
/// A `$f` is mandatory where its variable stands in the statement or in a `$e`. A place of the assertion that is no `$f` of the
/// prelude is in no frame. The time is that of reading the assertion, and of sorting its variables.
pub fn frame_of(
    alloc: Global,
    prelude: &Prelude,
    assertion: &Assertion,
) -> Result<Frame, AllocError>
    ensures { IfOk result (λ made. made ≡ frame prelude.now assertion.now) }
{
    let floats = mandatory(alloc, prelude, assertion)?;
    let pairs = pairs_among(alloc, floats.as_slice(), assertion.pairs.as_slice())?;
    Ok(Frame {
        floats: Sequence::from_vec(floats),
        hyps: copy_hypotheses(alloc, assertion.hyps.as_slice())?,
        pairs,
        statement: assertion.statement.copy(alloc)?,
    })
}
