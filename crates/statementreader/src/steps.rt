//! The words of `$d` and the steps of proofs.

ghost use Rattle.std.specs.Prelude.{◌≡◌, ◌==◌, ◌<◌, ◌++◌, ◌∷◌, ℕ, [], None, Some, IfOk, OnOk};
ghost use Rattle.std.specs.List.{list_any};
ghost use Rattle.mmsyntax.specs.Tables.{meaning};
ghost use Rattle.mmsyntax.specs.ProofWords.{IsSmall, seen_step};
ghost use Rattle.mmsyntax.specs.Rows.{first_fault};
ghost use Rattle.mmsyntax.specs.Blocks.{typed_named, distinct_of, with_distinct};
ghost use Rattle.mmsyntax.specs.Steps.{step_tests, float_named, hypothesis_named, step_named, unless_faulty, step_of};
ghost use Rattle.mmsyntax.specs.Faults.{block_of};
ghost use Rattle.statementreader.specs.Recalls.{IsTrueOf, RecallsTrue};
ghost use Rattle.statementreader.specs.Takings.{IsSmallNamed, step_as, step_or_fault};
ghost use Rattle.statementreader.specs.Views.{seen_scope};
ghost use Rattle.mmsyntax.specs.declared.limits.TheConstants.{MOST_DECLARED, MOST_HYPOTHESES};

use crate::place::Scope;
use crate::recent::{Recalled, Recent};
use mmsyntax::{
    MOST_NAME_BYTES, MOST_PAIRS, MOST_STEPS, Name, Proof, StepRef, SymbolTable, is_dotted,
};
use mmtext::{FaultKind, contains_dollar, is_label_token};
use mmunits::Block;
use std::alloc::{AllocError, Global};

/// The variable that a word of a `$d` names, by its `$f`.
fn restricted(symbols: &SymbolTable, word: &[u8]) -> Result<u32, FaultKind>
    ensures { result ≡ typed_named (meaning symbols.now word.now) }
{
    match symbols.look_up(word) {
        Some(Name::Variable(_, Some(j))) => Ok(j),
        Some(Name::Variable(_, None)) => Err(FaultKind::NoTypeFor),
        _ => Err(FaultKind::UnknownSymbol),
    }
}

fn contains_number(numbers: &[u32], number: u32) -> bool
    ensures { result ≡ list_any (λ i. i == number) numbers.now }
{
    numbers.iter().any(|i| *i == number)
}

/// The variable that a word of a `$d` adds to earlier ones. Its pairs are put into the block.
#[tactic(auto, unfolding(mmsyntax::specs::Blocks::distinct_of))]
pub(crate) fn restrict(
    symbols: &SymbolTable,
    block: &mut Block<'_>,
    earlier: &[u32],
    word: &[u8],
) -> Result<Result<u32, FaultKind>, AllocError>
    ensures which { IfOk result (λ r. r ≡ distinct_of symbols.now earlier.now block.old.pairs word.now) }
    ensures put { IfOk result (λ r. IfOk r (λ j. block.new ≡ with_distinct block.old earlier.now j)) }
{
    if contains_dollar(word) {
        return Ok(Err(FaultKind::BadToken));
    }
    match restricted(symbols, word) {
        Err(kind) => Ok(Err(kind)),
        Ok(j) => {
            if contains_number(earlier, j) {
                return Ok(Err(FaultKind::BadToken));
            }
            block.add_pairs(j, earlier)?;
            if block.pairs() > MOST_PAIRS {
                return Ok(Err(FaultKind::TooLong));
            }
            Ok(Ok(j))
        }
    }
}

/// The fault of a step by itself, behind `count` steps.
fn step_fault(count: usize, word: &[u8]) -> Option<FaultKind>
    ensures { result ≡ first_fault (step_tests count word.now) }
{
    if word == b"?".as_slice() || word == b"(".as_slice() {
        return Some(FaultKind::OutOfProfile);
    }
    if contains_dollar(word) {
        return Some(FaultKind::BadToken);
    }
    if !is_label_token(word) {
        return Some(FaultKind::BadToken);
    }
    if count >= MOST_STEPS {
        return Some(FaultKind::TooLong);
    }
    None
}

/// The place of a hypothesis of a scope.
fn hypothesis_in(scope: &Scope<'_>, word: &[u8]) -> Option<u32>
    ensures value { result ≡ hypothesis_named (block_of (seen_scope scope.now)).hyps word.now }
    ensures few { (n : ℕ) → result ≡ Some n → n < MOST_HYPOTHESES }
{
    match scope {
        Scope::Outside => None,
        Scope::Inside(block) => block.hypothesis_place(word),
    }
}

/// The `$f` of which a name is the label.
fn float_named(name: Option<Name>) -> Option<u32>
    ensures value { result ≡ float_named name }
    ensures label { (j : ℕ) → result ≡ Some j → name ≡ Some (Name.Label j) }
{
    match name {
        Some(Name::Label(j)) => Some(j),
        _ => None,
    }
}

/// What a step of a proof names.
#[derive(Clone, Copy)]
pub enum Named {
    /// The `$f` at this place of the prelude, counted from 0.
    Float(u32),
    /// The hypothesis at this place of the assertion being proved, counted from 0.
    Hyp(u32),
    /// The assertion with the word of the step as its label.
    Assertion,
}

/// Where a step stands: behind so many steps of the proof of the assertion with a label.
#[derive(Clone, Copy)]
pub struct StepPlace<'l> {
    pub label: &'l [u8],
    pub count: usize,
}

/// What a word names in the proof of the assertion with a label, where it is the label of no `$f` and names, if any, the hypothesis at a
/// place; or why it names nothing.
fn label_named(label: &[u8], hypothesis: Option<u32>, word: &[u8]) -> Result<Named, FaultKind>
    requires { (n : ℕ) → hypothesis ≡ Some n → n < MOST_HYPOTHESES }
    ensures named { step_or_fault word.now result ≡ step_named label.now word.now None hypothesis }
    ensures small { IfOk result IsSmallNamed }
{
    if let Some(n) = hypothesis {
        return Ok(Named::Hyp(n));
    }
    if word.len() > MOST_NAME_BYTES {
        return Err(FaultKind::BadLabel);
    }
    if is_dotted(label, word) {
        return Err(FaultKind::LabelClashes);
    }
    Ok(Named::Assertion)
}

/// What a word names as a step, where it names, if any, the hypothesis at a place, counted from 0, of at most 1,000; or why it names
/// nothing. No assertion is looked up.
pub fn named_step(
    symbols: &SymbolTable,
    step: StepPlace<'_>,
    hypothesis: Option<u32>,
    word: &[u8],
) -> Result<Named, FaultKind>
    requires { (n : ℕ) → hypothesis ≡ Some n → n < MOST_HYPOTHESES }
    ensures named { step_or_fault word.now result ≡ unless_faulty (first_fault (step_tests step.entry.count word.now))
        (step_named step.entry.label.now word.now (float_named (meaning symbols.now word.now)) hypothesis) }
    ensures small { IfOk result IsSmallNamed }
{
    if let Some(kind) = step_fault(step.count, word) {
        return Err(kind);
    }
    if let Some(j) = float_named(symbols.look_up(word)) {
        return Ok(Named::Float(j));
    }
    label_named(step.label, hypothesis, word)
}

/// The step that a word is by what it names.
fn step_ref_of(named: Named, word: &[u8]) -> StepRef<'_>
    requires { IsSmallNamed named }
    ensures step { seen_step result ≡ step_as word.now named }
    ensures small { IsSmall (seen_step result) }
{
    match named {
        Named::Float(j) => StepRef::Float(j),
        Named::Hyp(n) => StepRef::Hyp(n),
        Named::Assertion => StepRef::Cite(word),
    }
}

/// Puts the step that a word is, by what it names, behind others. Its label is looked for at a hint among those that are cited, and else
/// put behind them: any number will do. The hint for this word from now on.
///
/// # Errors
///
/// Want of memory: the steps are the same then.
pub(crate) fn push_named_near(
    alloc: Global,
    steps: &mut Proof,
    hint: usize,
    named: Named,
    word: &[u8],
) -> Result<usize, AllocError>
    requires { IsSmallNamed named }
    ensures { OnOk result (steps.new ≡ steps.old ++ step_as word.now named ∷ []) }
{
    steps.push(alloc, hint, step_ref_of(named, word))
}

/// Puts the step that a word is, by what it names, behind others. Its label is put behind those that are cited, without a look at them.
///
/// # Errors
///
/// Want of memory: the steps are the same then.
pub fn push_named(
    alloc: Global,
    steps: &mut Proof,
    named: Named,
    word: &[u8],
) -> Result<(), AllocError>
    requires { IsSmallNamed named }
    ensures { OnOk result (steps.new ≡ steps.old ++ step_as word.now named ∷ []) }
{
    let behind = steps.cited().len();
    push_named_near(alloc, steps, behind, named, word)?;
    Ok(())
}

/// What a word names as a step, or why it names nothing.
#[tactic(auto, unfolding(mmsyntax::specs::Steps::step_of))]
pub(crate) fn step_at(
    symbols: &SymbolTable,
    step: StepPlace<'_>,
    scope: &Scope<'_>,
    word: &[u8],
) -> Result<Named, FaultKind>
    ensures named { step_or_fault word.now result
        ≡ step_of symbols.now step.entry.label.now (block_of (seen_scope scope.now)).hyps step.entry.count word.now }
    ensures small { IfOk result IsSmallNamed }
{
    named_step(symbols, step, hypothesis_in(scope, word), word)
}

/// As [`named_step`], of a word of which all is known.
fn name_by_recall(
    symbols: &SymbolTable,
    step: StepPlace<'_>,
    hypothesis: Option<u32>,
    known: &Recalled<'_>,
) -> Result<Named, FaultKind>
    requires known { IsTrueOf symbols.now known.now }
    requires few { (n : ℕ) → hypothesis ≡ Some n → n < MOST_HYPOTHESES }
    ensures named { step_or_fault known.now.word.now result ≡ unless_faulty (first_fault (step_tests step.entry.count known.now.word.now))
        (step_named step.entry.label.now known.now.word.now (float_named (meaning symbols.now known.now.word.now)) hypothesis) }
    ensures small { IfOk result IsSmallNamed }
{
    if !known.is_label || step.count >= MOST_STEPS {
        return named_step(symbols, step, hypothesis, known.word);
    }
    match float_named(known.name) {
        Some(j) => Ok(Named::Float(j)),
        None => label_named(step.label, hypothesis, known.word),
    }
}

/// As [`named_step`], of a word that was looked up lately or is looked up now among the same symbols.
pub fn recalled_named_step<'a>(
    alloc: Global,
    symbols: &SymbolTable,
    recent: &mut Recent<'a>,
    step: StepPlace<'_>,
    hypothesis: Option<u32>,
    word: &'a [u8],
) -> Result<Result<Named, FaultKind>, AllocError>
    requires knows { RecallsTrue symbols.now recent.old }
    requires few { (n : ℕ) → hypothesis ≡ Some n → n < MOST_HYPOTHESES }
    ensures knows { RecallsTrue symbols.now recent.new }
    ensures named { IfOk result (λ r. step_or_fault word.now r ≡ unless_faulty (first_fault (step_tests step.entry.count word.now))
        (step_named step.entry.label.now word.now (float_named (meaning symbols.now word.now)) hypothesis)) }
    ensures small { IfOk result (λ r. IfOk r IsSmallNamed) }
{
    let place = recent.look_up(alloc, symbols, word)?;
    Ok(name_by_recall(symbols, step, hypothesis, recent.at(place)))
}

/// What a word names as a step by what is known of it, or why it names nothing. Of a `$f` the block isn't asked.
pub(crate) fn recalled_step(
    label: &[u8],
    scope: &Scope<'_>,
    known: &Recalled<'_>,
) -> Result<Named, FaultKind>
    requires { (j : ℕ) → known.now.name ≡ Some (Name.Label j) → j < MOST_DECLARED }
    ensures named { step_or_fault known.now.word.now result ≡ step_named label.now known.now.word.now (float_named known.now.name)
        (hypothesis_named (block_of (seen_scope scope.now)).hyps known.now.word.now) }
    ensures small { IfOk result IsSmallNamed }
{
    if let Some(j) = float_named(known.name) {
        return Ok(Named::Float(j));
    }
    label_named(label, hypothesis_in(scope, known.word), known.word)
}
