//! The assertions of a draft: each is admitted behind those before it.

ghost use Rattle.std.specs.Prelude.{◌≡◌, ◌≢◌, ◌↔◌, ◌≤◌, ◌++◌, ◌∷◌, [], length, true, All, IsTrue, OnOk, IfOk, IfErr};
ghost use Rattle.mmsyntax.specs.Layout.{HasSpelling, IsSoundPrelude};
ghost use Rattle.mmsyntax.specs.Assertions.{IsNameable, IsUnit, is_citable_label, is_float_label};
ghost use Rattle.mmsyntax.specs.ProofWords.{seen_step};
ghost use Rattle.drafts.specs.News.{IsAdmissible};
ghost use Rattle.drafts.specs.declared.refusal.Refusal.TheVariants.{NoMemory};
ghost use Rattle.mmsyntax.specs.declared.limits.TheConstants.{MOST_ASSERTIONS};

use crate::refusal::Refusal;
use crate::words::is_plain_label;
use mmsyntax::{Assertion, Kind, Name, Prelude, Proof, Sequence, StepRef, fits, is_lawful_label};
use mmunits::Units;
use std::alloc::Global;

/// Assertions, if some text declares them behind a prelude.
pub(crate) fn admit_all(
    alloc: Global,
    prelude: &Prelude,
    assertions: Sequence<Assertion>,
) -> Result<Sequence<Assertion>, Refusal>
    requires sound { IsSoundPrelude prelude.now }
    requires few { length assertions ≤ MOST_ASSERTIONS }
    ensures made { IfOk result (λ made. made ≡ assertions) }
    ensures spelled { IfOk result (λ made. HasSpelling (record { prelude = prelude.now; assertions = made })) }
    ensures refused { IfErr result (λ why. why ≢ NoMemory
        → HasSpelling (record { prelude = prelude.now; assertions = assertions }) → ⊥) }
{
    let mut units = Units::new(alloc, prelude.keys(), true);
    for assertion in assertions.into_vec() {
        admit(alloc, prelude, &mut units, assertion)?;
    }
    Ok(Sequence::from_vec(units.into_assertions()))
}

/// One more assertion, if it is admissible.
fn admit(
    alloc: Global,
    prelude: &Prelude,
    units: &mut Units,
    assertion: Assertion,
) -> Result<(), Refusal>
    ensures made { OnOk result
        (units.new ≡ record units.old { assertions = units.old.assertions ++ assertion ∷ []; prelude_closed = true }) }
    ensures lawful { OnOk result (IsAdmissible prelude.now units.old assertion) }
    ensures refused { IfErr result (λ why. why ≢ NoMemory → IsAdmissible prelude.now units.old assertion → ⊥) }
{
    if !is_admissible(prelude, units, &assertion) {
        return Err(Refusal::Unlawful);
    }
    units.add_assertion(alloc, assertion)?;
    Ok(())
}

/// Whether an assertion may stand behind others: it is a unit over the prelude, with a lawful label that is new, and clashes with none.
fn is_admissible(prelude: &Prelude, units: &Units, assertion: &Assertion) -> bool
    ensures { IsTrue result ↔ IsAdmissible prelude.now units.now assertion.now }
{
    let label = assertion.label.as_slice();
    is_unit(prelude, assertion)
        && is_lawful_label(prelude, label)
        && !units.has_label(label)
        && !units.has_clash(label)
}

/// Whether an assertion fits a prelude, and a text can name each step, of which a theorem has one.
fn is_unit(prelude: &Prelude, assertion: &Assertion) -> bool
    ensures { IsTrue result ↔ IsUnit prelude.now assertion.now }
{
    let hyps = assertion.hyps.as_slice().len();
    let steps = &assertion.proof;
    fits(prelude, assertion)
        && (assertion.kind == Kind::Axiom || !steps.is_empty())
        && are_nameable(prelude, hyps, steps)
}

/// Whether a text can name each step in the proof of an assertion with so many hypotheses.
fn are_nameable(prelude: &Prelude, hyps: usize, steps: &Proof) -> bool
    ensures { IsTrue result ↔ All (IsNameable prelude.now hyps) steps.now }
{
    for i in 0..steps.len() {
        if !is_nameable(prelude, hyps, steps.step(i)) {
            return false;
        }
    }
    true
}

/// Whether a text can name a step in the proof of an assertion with so many hypotheses.
fn is_nameable(prelude: &Prelude, hyps: usize, step: StepRef<'_>) -> bool
    ensures { IsTrue result ↔ IsNameable prelude.now hyps (seen_step step.entry) }
{
    match step {
        StepRef::Float(place) => (place as usize) < prelude.floats().len(),
        StepRef::Hyp(place) => (place as usize) < hyps,
        StepRef::Cite(label) => is_citable(prelude, label),
    }
}

/// Whether a step can cite a label.
fn is_citable(prelude: &Prelude, label: &[u8]) -> bool
    ensures { result ≡ is_citable_label prelude.now label.now }
{
    is_plain_label(label) && !is_float_label(prelude, label)
}

/// Whether a word is the label of a `$f`.
fn is_float_label(prelude: &Prelude, word: &[u8]) -> bool
    ensures { result ≡ is_float_label prelude.now word.now }
{
    match prelude.look_up(word) {
        Some(Name::Label(_)) => true,
        _ => false,
    }
}
