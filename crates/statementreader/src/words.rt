//! Words that go on what a token stands in: the symbols of an expression and the steps of a proof. Most tokens of a text are one of these.

ghost use Rattle.std.specs.Prelude.{◌≡◌, true, None, length, IfOk};
ghost use Rattle.mmsyntax.specs.Rows.{Known, Units, symbol_of};
ghost use Rattle.mmsyntax.specs.Steps.{step_of};
ghost use Rattle.mmsyntax.specs.Faults.{block_of, unit_at};
ghost use Rattle.mmtext.specs.Views.{seen};
ghost use Rattle.statementreader.specs.Recalls.{IsTrueOf, RecallsTrue};
ghost use Rattle.statementreader.specs.Standing.{SuitsPlace};
ghost use Rattle.statementreader.specs.Takings.{IsSmallNamed, TakesItem, TakesWordAt, step_or_fault};
ghost use Rattle.mmunits.specs.Views.{known_of};
ghost use Rattle.statementreader.specs.Views.{seen_scope, seen_unit_place, seen_place};

use crate::labels::symbol_named;
use crate::place::{Place, Scope, Theorem, UnitPlace};
use crate::recent::{Recalled, Recent};
use crate::steps::{Named, StepPlace, push_named_near, recalled_step, step_at};
use mmsyntax::{MOST_STEPS, SymbolTable, SymbolWord};
use mmtext::{FaultKind, Stop, Token, fault_at};
use std::alloc::Global;

/// What a word names of which all is known, as a step behind `count` steps of a proof of the assertion with a label, or why it names
/// nothing.
#[tactic(auto, unfolding(mmsyntax::specs::Steps::step_of))]
fn known_step(
    symbols: &SymbolTable,
    step: StepPlace<'_>,
    scope: &Scope<'_>,
    known: &Recalled<'_>,
) -> Result<Named, FaultKind>
    requires { IsTrueOf symbols.now known.now }
    ensures named { step_or_fault known.now.word.now result
        ≡ step_of symbols.now step.entry.label.now (block_of (seen_scope scope.now)).hyps step.entry.count known.now.word.now }
    ensures small { IfOk result IsSmallNamed }
{
    if !known.is_label || step.count >= MOST_STEPS {
        return step_at(symbols, step, scope, known.word);
    }
    recalled_step(step.label, scope, known)
}

/// Puts the symbol that a word is behind others. A word with a `$` is left: whether it had none.
#[tactic(auto, unfolding(mmsyntax::specs::Rows::symbol_of))]
fn take_symbol<'a>(
    alloc: Global,
    symbols: &SymbolTable,
    recent: &mut Recent<'a>,
    expression: &mut Vec<SymbolWord>,
    token: Token<'a>,
) -> Result<bool, Stop>
    requires { RecallsTrue symbols.now recent.old }
    ensures knows { RecallsTrue symbols.now recent.new }
    ensures taken { TakesItem (seen token.entry) expression.old.items expression.new.items
        (symbol_of symbols.now (length expression.old.items) token.entry.text.now) result }
{
    let place = recent.look_up(alloc, symbols, token.text)?;
    let known = recent.at(place);
    if known.with_dollar {
        return Ok(false);
    }
    match symbol_named(known.name, expression.len()) {
        Ok(symbol) => {
            expression.push(symbol)?;
            Ok(true)
        }
        Err(kind) => Err(fault_at(token, kind)),
    }
}

/// Puts the step that a word is behind those of a proof. A word with a `$` is left: whether it had none.
fn take_step<'a>(
    alloc: Global,
    symbols: &SymbolTable,
    recent: &mut Recent<'a>,
    theorem: &mut Theorem<'a>,
    token: Token<'a>,
) -> Result<bool, Stop>
    requires { RecallsTrue symbols.now recent.old }
    ensures knows { RecallsTrue symbols.now recent.new }
    ensures kept { theorem.new ≡ record theorem.old { steps = theorem.new.steps } }
    ensures taken { TakesItem (seen token.entry) theorem.old.steps.value theorem.new.steps.value
        (step_of symbols.now theorem.old.assertion.label.now (block_of (seen_scope theorem.old.assertion.scope)).hyps
        (length theorem.old.steps.value) token.entry.text.now) result }
{
    let place = recent.look_up(alloc, symbols, token.text)?;
    let known = recent.at(place);
    if known.with_dollar {
        return Ok(false);
    }
    let hint = known.cited_at;
    let step = StepPlace {
        label: theorem.assertion.label,
        count: theorem.steps.len(),
    };
    match known_step(symbols, step, &theorem.assertion.scope, known) {
        Ok(named) => {
            let cited_at = push_named_near(alloc, &mut theorem.steps, hint, named, token.text)?;
            recent.note(place, cited_at);
            Ok(true)
        }
        Err(kind) => Err(fault_at(token, kind)),
    }
}

/// Takes a word without `$` where it stands, if that is an expression or a proof, whose symbols or steps grow where they lie. Whether it
/// did.
pub(crate) fn take_unit_word<'a>(
    alloc: Global,
    symbols: &SymbolTable,
    recent: &mut Recent<'a>,
    place: &mut UnitPlace<'a>,
    token: Token<'a>,
) -> Result<bool, Stop>
    requires { RecallsTrue symbols.now recent.old }
    ensures knows { RecallsTrue symbols.now recent.new }
    ensures taken { (u : Units) →
        TakesWordAt (known_of symbols.now u) (seen_unit_place place.old) (seen token.entry) (seen_unit_place place.new) result }
    // What is taken ends no assertion.
    ensures within { IfOk result (λ taken. taken ≡ true → (k : Known) → unit_at k (seen_unit_place place.new) ≡ None) }
    ensures stands { (k : Known) → SuitsPlace k (seen_unit_place place.old) → SuitsPlace k (seen_unit_place place.new) }
{
    match place {
        UnitPlace::InHypothesis(hypothesis) => {
            take_symbol(alloc, symbols, recent, &mut hypothesis.expression, token)
        }
        UnitPlace::InAxiom(assertion) => {
            take_symbol(alloc, symbols, recent, &mut assertion.expression, token)
        }
        UnitPlace::InTheorem(assertion) => {
            take_symbol(alloc, symbols, recent, &mut assertion.expression, token)
        }
        UnitPlace::InProof(theorem) => { take_step(alloc, symbols, recent, theorem, token) }
        _ => Ok(false),
    }
}

/// The same at any place.
pub fn take_word<'a>(
    alloc: Global,
    symbols: &SymbolTable,
    recent: &mut Recent<'a>,
    place: &mut Place<'a>,
    token: Token<'a>,
) -> Result<bool, Stop>
    requires { RecallsTrue symbols.now recent.old }
    ensures knows { RecallsTrue symbols.now recent.new }
    ensures taken { (u : Units) →
        TakesWordAt (known_of symbols.now u) (seen_place place.old) (seen token.entry) (seen_place place.new) result }
{
    match place {
        Place::Unit(place) => take_unit_word(alloc, symbols, recent, place, token),
        Place::Prelude(_) => Ok(false),
    }
}
