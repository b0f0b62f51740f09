//! Which assertions of a source are the library's, with their proofs.

ghost use Rattle.std.specs.Prelude.{◌≡◌, IfOk, length, map};
ghost use Rattle.source.specs.Scopes.{Assertion, is_in};
ghost use Rattle.taking.specs.Reasons.{Choice};
ghost use Rattle.intake.specs.Intakes.{axioms_of};
ghost use Rattle.sourceediting.specs.Following.{own_flags};
ghost use Rattle.sourceediting.specs.Marked.{marked};

use giving::LabelMap;
use intake::Taken;
use source::Declared;
use std::alloc::{AllocError, Global};
use std::hash::RandomState;
use taking::Reason;

/// The labels of theorems that were taken as axioms, with a fast look-up.
///
/// # Errors
///
/// Want of memory.
pub fn told_of<'x>(
    alloc: Global,
    keys: RandomState,
    axioms: &[(&'x [u8], Reason)],
) -> Result<LabelMap<'x>, AllocError>
    ensures { IfOk result (λ made. made ≡ marked (map (λ p. p.0.now) axioms.now)) }
{
    let mut pairs = Vec::new(alloc);
    for (label, _) in axioms {
        pairs.push((*label, *label))?;
    }
    LabelMap::new(alloc, keys, pairs)
}

/// Of each assertion of a source: whether it was taken, and not as an axiom for some reason.
///
/// # Errors
///
/// Want of memory.
pub fn own_of<'x, D: Declared<'x>>(
    alloc: Global,
    keys: RandomState,
    declared: &D,
    taken: &Taken<'x>,
) -> Result<Vec<bool>, AllocError>
    requires { length taken.now.chosen.items ≡ length (D.scope declared.now).assertions }
    ensures many { IfOk result (λ own. length own.items ≡ length (D.scope declared.now).assertions) }
    ensures flags { (choice : Choice) → map (λ (x : Assertion). is_in choice.chosen x.label) (D.scope declared.now).assertions
        ≡ taken.now.chosen.items
        → IfOk result (λ own. own.items ≡ own_flags choice (axioms_of taken.now) (D.scope declared.now)) }
{
    let told = told_of(alloc, keys, taken.axioms.as_slice())?;
    let mut own = Vec::new(alloc);
    for place in 0..declared.assertions() {
        let Some(label) = declared.label(place) else {
            unreachable!()
        };
        let is_told = told.text_for(label).is_some();
        own.push(taken.chosen[place] && !is_told)?;
    }
    Ok(own)
}
