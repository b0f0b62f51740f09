//! Disjoint variables: whether substitutes stay apart, by the restricted pairs of the assertion being proved.

ghost use Rattle.std.specs.Prelude.{◌↔◌, IsTrue, IfOk, MatchOption, All};
ghost use Rattle.std.specs.List.{AllZip};
ghost use Rattle.mmframes.specs.Substitution.{replacement};
ghost use Rattle.derivation.specs.Derivation.{AreApart};
ghost use Rattle.derivation.specs.Lookups.{AreVariablesOf, PassesAbove};

use crate::substitutes::Substitution;
use crate::thesis::Thesis;
use mmsyntax::{Symbol, SymbolWord};
use std::alloc::{AllocError, Global};
use std::slice;

/// The place from which the next pair of `low` is to be looked for, if `low` differs from the other variable and, where it is the
/// lower one, is restricted with it. A pair near that place is found sooner.
fn pass(thesis: &Thesis, low: u32, other: u32, near: usize) -> Option<usize>
    ensures { MatchOption result (¬ PassesAbove thesis.now.pairs low other) (λ _. PassesAbove thesis.now.pairs low other) }
{
    if other < low {
        return Some(near);
    }
    if other == low {
        return None;
    }
    thesis.place_of((low, other), near)
}

/// Whether a variable differs from each of the others, and is restricted with each higher one. Pairs of others that ascend stand close
/// together.
fn passes_each(thesis: &Thesis, low: u32, others: &[u32]) -> bool
    ensures { IsTrue result ↔ All (λ v. PassesAbove thesis.now.pairs low v) others.now }
{
    let mut near = 0;
    for v in others {
        match pass(thesis, low, *v, near) {
            None => return false,
            Some(next) => near = next,
        }
    }
    true
}

/// Whether each of the first variables passes each of the others.
fn all_pass(thesis: &Thesis, us: &[u32], vs: &[u32]) -> bool
    ensures { IsTrue result ↔ All (λ u. All (λ v. PassesAbove thesis.now.pairs u v) vs.now) us.now }
{
    for u in us {
        if !passes_each(thesis, *u, vs) {
            return false;
        }
    }
    true
}

/// The variables of an expression, ascending, each once.
fn variables_of(alloc: Global, symbols: &[SymbolWord]) -> Result<Vec<u32>, AllocError>
    ensures { IfOk result (λ found. AreVariablesOf found.items symbols.now) }
{
    let mut found = Vec::new(alloc);
    for symbol in symbols {
        if let Symbol::Var(variable) = symbol.symbol() {
            found.push(variable)?;
        }
    }
    found.sort_unstable();
    found.dedup();
    Ok(found)
}

/// The variables of each substitute, in the order of the substitution.
fn variables_of_each(
    alloc: Global,
    substitution: &Substitution,
) -> Result<Vec<Vec<u32>>, AllocError>
    ensures { IfOk result (λ found. AllZip (λ s vs. AreVariablesOf vs.items s.1) substitution.now found.items) }
{
    let mut found = Vec::new(alloc);
    for place in 0..substitution.len() {
        found.push(variables_of(alloc, substitution.at(place))?)?;
    }
    Ok(found)
}

/// The variables of what stands for a variable: of its substitute, or itself.
fn variables_for<'a>(
    substitution: &Substitution,
    found: &'a [Vec<u32>],
    variable: &'a u32,
) -> &'a [u32]
    requires { AllZip (λ s vs. AreVariablesOf vs.items s.1) substitution.now found.now }
    ensures { AreVariablesOf result.now (replacement substitution.now variable.now) }
{
    match substitution.place_of(*variable) {
        Some(place) => found[place].as_slice(),
        None => slice::from_ref(variable),
    }
}

/// Whether the substitutes of the two variables are apart: the pairs are looked for row by row of their lower variable.
fn pair_fits(
    thesis: &Thesis,
    substitution: &Substitution,
    found: &[Vec<u32>],
    pair: &(u32, u32),
) -> bool
    requires { AllZip (λ s vs. AreVariablesOf vs.items s.1) substitution.now found.now }
    ensures { IsTrue result ↔ AreApart thesis.now.pairs
        (replacement substitution.now pair.now.0)
        (replacement substitution.now pair.now.1) }
{
    let us = variables_for(substitution, found, &pair.0);
    let vs = variables_for(substitution, found, &pair.1);
    all_pass(thesis, us, vs) && all_pass(thesis, vs, us)
}

/// Whether the substitutes of each pair are apart. The variables of each substitute are collected once, where any pair is asked.
pub(crate) fn pairs_fit(
    alloc: Global,
    thesis: &Thesis,
    substitution: &Substitution,
    asked: &[(u32, u32)],
) -> Result<bool, AllocError>
    ensures { IfOk result (λ fits. IsTrue fits ↔ All (λ q. AreApart thesis.now.pairs
        (replacement substitution.now q.0)
        (replacement substitution.now q.1)) asked.now) }
{
    if asked.is_empty() {
        return Ok(true);
    }
    let found = variables_of_each(alloc, substitution)?;
    for pair in asked {
        if !pair_fits(thesis, substitution, found.as_slice(), pair) {
            return Ok(false);
        }
    }
    Ok(true)
}
