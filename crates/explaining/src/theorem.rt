//! What the first fault of a theorem of a source finds.

ghost use Rattle.std.specs.Prelude.{◌≡◌, ◌<◌, IfOk, Some, false, length, map, slice_get, take};
ghost use Rattle.std.specs.List.{list_any};
ghost use Rattle.source.specs.Scopes.{Assertion};
ghost use Rattle.source.specs.Letters.{is_absent};
ghost use Rattle.source.specs.Proofs.{step_of, is_unfinished};
ghost use Rattle.source.specs.Views.{seen_words, seen_proof};
ghost use Rattle.source.specs.Whole.{IsWhole};
ghost use Rattle.explaining.specs.Findings.{IsExplained};
ghost use Rattle.explaining.specs.Shown.{Tells};

use crate::assertion::assertion_at;
use crate::finding::Explained;
use crate::stepping::{Listed, Outcome, take_codes};
use source::{Declared, ProofWords};
use std::alloc::{AllocError, Global};
use taking::{Counted, count_labels, is_unfinished};

/// What comes of the steps of a finished proof of the assertion at a place.
fn take_counted<'a, D: Declared<'a>>(
    alloc: Global,
    declared: &D,
    place: usize,
    counted: &Counted<'a>,
) -> Result<Outcome<'a>, AllocError>
    requires { place < length (D.scope declared.now).assertions }
    ensures { IfOk result (λ outcome. (x : Assertion) → slice_get (D.scope declared.now).assertions place ≡ Some x
        → list_any is_absent counted.now.codes ≡ false
        → Tells (take place (D.scope declared.now).assertions) x (map (step_of (seen_words counted.now.labels.items)) counted.now.codes)
        outcome) }
{
    let theorem = assertion_at(alloc, declared, place)?;
    let listed = Listed {
        theorem: &theorem,
        labels: counted.labels.as_slice(),
    };
    take_codes(alloc, declared, place, &listed, counted.codes.as_slice())
}

/// What comes of a finished proof of the assertion at a place.
fn explain_proof<'a, D: Declared<'a>>(
    alloc: Global,
    declared: &D,
    place: usize,
    proof: &ProofWords<'a>,
) -> Result<Option<Explained<'a>>, AllocError>
    requires whole { IsWhole (D.scope declared.now) }
    requires within { place < length (D.scope declared.now).assertions }
    requires finished { is_unfinished (seen_proof proof.now) ≡ false }
    requires proved { (x : Assertion) → slice_get (D.scope declared.now).assertions place ≡ Some x → x.proof ≡ Some (seen_proof proof.now) }
    ensures { IfOk result (λ explained. (x : Assertion) → slice_get (D.scope declared.now).assertions place ≡ Some x
        → IsExplained (take place (D.scope declared.now).assertions) x explained) }
{
    let mandatory = declared.mandatory(alloc, place)?;
    let Some(counted) = count_labels(alloc, mandatory, proof)? else {
        unreachable!()
    };
    match take_counted(alloc, declared, place, &counted)? {
        Outcome::Absent => unreachable!(),
        Outcome::Derives => Ok(None),
        Outcome::Fails(explained) => Ok(Some(explained)),
    }
}

/// The first fault of the proof of the assertion at a place, from 0, of a source, and what it finds: nothing where it has none, as an axiom
/// or an unfinished proof.
///
/// It goes through the active hypotheses at each step.
///
/// # Errors
///
/// Want of memory.
pub fn explain<'a, D: Declared<'a>>(
    alloc: Global,
    declared: &D,
    place: usize,
) -> Result<Option<Explained<'a>>, AllocError>
    requires whole { IsWhole (D.scope declared.now) }
    requires within { place < length (D.scope declared.now).assertions }
    ensures { IfOk result (λ explained. (x : Assertion) → slice_get (D.scope declared.now).assertions place ≡ Some x
        → IsExplained (take place (D.scope declared.now).assertions) x explained) }
{
    let Some(proof) = declared.proof(place) else {
        return Ok(None);
    };
    if is_unfinished(proof) {
        return Ok(None);
    }
    explain_proof(alloc, declared, place, proof)
}
