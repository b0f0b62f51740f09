//! What fits a prelude: assertions, and their labels.

ghost use Rattle.std.specs.Prelude.{◌≡◌, ◌≤◌, ◌↔◌, IsTrue, [], All, length};
ghost use Rattle.mmsyntax.specs.Assertions.{IsSymbolOf, BeginsWithConstant, IsExpression};
ghost use Rattle.mmsyntax.specs.Assertions.{IsPairOf, ComesBefore, AreAscending, CitesApart, Fits};
ghost use Rattle.mmsyntax.specs.ProofWords.{seen_step};
ghost use Rattle.mmsyntax.specs.Assertions.{is_lawful_label};
ghost use Rattle.mmsyntax.specs.declared.statement.Kind.TheVariants.{Axiom};
ghost use Rattle.mmsyntax.specs.declared.limits.TheConstants.{MOST_HYPOTHESES, MOST_PAIRS, MOST_STEPS};

use crate::dotted::is_dotted;
use crate::limits::{MOST_HYPOTHESES, MOST_NAME_BYTES, MOST_PAIRS, MOST_STEPS, MOST_SYMBOLS};
use crate::prelude::Prelude;
use crate::proof::Proof;
use crate::statement::{Assertion, Expr, Kind, Symbol};
use crate::step_ref::StepRef;
use crate::symbol_word::SymbolWord;
use mmtext::is_label_token;

/// Whether a symbol is one of the prelude.
fn is_symbol_of(prelude: &Prelude, symbol: SymbolWord) -> bool
    ensures { IsTrue result ↔ IsSymbolOf prelude.now symbol }
{
    match symbol.symbol() {
        Symbol::Const(i) => (i as usize) < prelude.constants().len(),
        Symbol::Var(j) => (j as usize) < prelude.floats().len(),
    }
}

fn begins_with_constant(symbols: &[SymbolWord]) -> bool
    ensures { IsTrue result ↔ BeginsWithConstant symbols.now }
{
    match symbols {
        [first, ..] => matches!(first.symbol(), Symbol::Const(_)),
        [] => false,
    }
}

fn are_symbols_of(prelude: &Prelude, symbols: &[SymbolWord]) -> bool
    ensures { IsTrue result ↔ All (IsSymbolOf prelude.now) symbols.now }
{
    symbols.iter().all(|s| is_symbol_of(prelude, *s))
}

/// Whether symbols may stand behind `$e`, `$a` or `$p`.
fn is_expression(prelude: &Prelude, symbols: &[SymbolWord]) -> bool
    ensures { IsTrue result ↔ IsExpression prelude.now symbols.now }
{
    begins_with_constant(symbols)
        && symbols.len() <= MOST_SYMBOLS
        && are_symbols_of(prelude, symbols)
}

/// Whether pairs are of two different `$f` of `count`, the earlier first.
fn are_pairs_of(count: usize, pairs: &[(u32, u32)]) -> bool
    ensures { IsTrue result ↔ All (IsPairOf count) pairs.now }
{
    pairs
        .iter()
        .all(|pair| pair.0 < pair.1 && (pair.1 as usize) < count)
}

fn comes_before(pair: (u32, u32), next: (u32, u32)) -> bool
    ensures { IsTrue result ↔ ComesBefore pair next }
{
    pair.0 < next.0 || (pair.0 == next.0 && pair.1 < next.1)
}

/// Whether pairs ascend: it is enough to compare each with the next.
fn are_ascending(pairs: &[(u32, u32)]) -> bool
    ensures { IsTrue result ↔ AreAscending pairs.now }
{
    let mut rest = pairs;
    while let [pair, later @ ..] = rest {
        if let [next, ..] = later
            && !comes_before(*pair, *next)
        {
            return false;
        }
        rest = later;
    }
    true
}

/// Whether hypotheses may stand before a statement.
fn are_hypotheses(prelude: &Prelude, hyps: &[Expr]) -> bool
    ensures { IsTrue result ↔ (All (IsExpression prelude.now) hyps.now × (length hyps.now ≤ MOST_HYPOTHESES)) }
{
    hyps.len() <= MOST_HYPOTHESES && hyps.iter().all(|e| is_expression(prelude, e.as_slice()))
}

/// Whether pairs may be the restrictions of an assertion over `count` `$f`.
fn are_restrictions(count: usize, pairs: &[(u32, u32)]) -> bool
    ensures { IsTrue result ↔ (All (IsPairOf count) pairs.now × AreAscending pairs.now × (length pairs.now ≤ MOST_PAIRS)) }
{
    pairs.len() <= MOST_PAIRS && are_pairs_of(count, pairs) && are_ascending(pairs)
}

/// Whether steps may prove an assertion of a kind. An axiom has none.
fn is_proof_of(kind: Kind, steps: &Proof) -> bool
    ensures { IsTrue result ↔ ((kind ≡ Axiom → steps.now ≡ []) × (length steps.now ≤ MOST_STEPS)) }
{
    (kind == Kind::Theorem || steps.is_empty()) && steps.len() <= MOST_STEPS
}

/// Whether a step, in the proof of the assertion with a label, cites no `L.k` where that is L.
fn is_citing_apart(label: &[u8], step: StepRef<'_>) -> bool
    ensures { IsTrue result ↔ CitesApart label.now (seen_step step.entry) }
{
    match step {
        StepRef::Float(_) | StepRef::Hyp(_) => true,
        StepRef::Cite(cited) => !is_dotted(label, cited),
    }
}

/// Whether no step of a proof of L cites a label `L.k`, with k from 1 to 1,000: no library has one beside L, and in a text it would name a
/// hypothesis.
pub fn are_citing_apart(label: &[u8], steps: &Proof) -> bool
    ensures { IsTrue result ↔ All (CitesApart label.now) steps.now }
{
    for i in 0..steps.len() {
        if !is_citing_apart(label, steps.step(i)) {
            return false;
        }
    }
    true
}

/// Whether an assertion is one over the prelude, within the limits, whose proof cites no label `L.k` where its own is L. Nothing else of
/// labels, or of what steps name, is looked at.
///
/// It takes no memory, and about as many turns as the assertion has symbols, pairs, hypotheses and steps.
pub fn fits(prelude: &Prelude, assertion: &Assertion) -> bool
    ensures { IsTrue result ↔ Fits prelude.now assertion.now }
{
    is_expression(prelude, assertion.statement.as_slice())
        && are_hypotheses(prelude, assertion.hyps.as_slice())
        && are_restrictions(prelude.floats().len(), assertion.pairs.as_slice())
        && is_proof_of(assertion.kind, &assertion.proof)
        && are_citing_apart(assertion.label.as_slice(), &assertion.proof)
}

/// Whether an assertion over the prelude may have a label: 1 to 255 letters, digits, `-`, `_` and `.`, and no name of the prelude.
///
/// One look-up in a map.
pub fn is_lawful_label(prelude: &Prelude, label: &[u8]) -> bool
    ensures { result ≡ is_lawful_label prelude.now label.now }
{
    label.len() >= 1
        && label.len() <= MOST_NAME_BYTES
        && is_label_token(label)
        && !prelude.look_up(label).is_some()
}
