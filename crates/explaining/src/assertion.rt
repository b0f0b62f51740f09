//! An assertion of a source, as it is cited or proved.

ghost use Rattle.std.specs.Prelude.{◌≡◌, ◌<◌, IfOk, Some, length, map, slice_get, take};
ghost use Rattle.source.specs.Scopes.{Assertion};
ghost use Rattle.source.specs.Views.{seen_hypothesis, seen_hypotheses};
ghost use Rattle.explaining.specs.Shown.{bare, seen_assertion, IsEarlier};

use source::{Declared, HypothesisWords};
use std::alloc::{AllocError, Global};

/// An assertion without its proof and its mandatory hypotheses.
#[derive(Drop)]
pub(crate) struct AssertionWords<'a> {
    pub(crate) label: &'a [u8],
    /// The active pairs, those of dummy variables too.
    pub(crate) pairs: Vec<(&'a [u8], &'a [u8])>,
    pub(crate) statement: Vec<&'a [u8]>,
    /// The active hypotheses, mandatory or not.
    pub(crate) active: Vec<HypothesisWords<'a>>,
}

/// The same hypothesis.
fn copy_of<'a>(
    alloc: Global,
    hypothesis: &HypothesisWords<'a>,
) -> Result<HypothesisWords<'a>, AllocError>
    ensures { IfOk result (λ copy. seen_hypothesis copy ≡ seen_hypothesis hypothesis.now) }
{
    match hypothesis {
        HypothesisWords::Typing(label, type_code, variable) => {
            Ok(HypothesisWords::Typing(*label, *type_code, *variable))
        }
        HypothesisWords::Premise(label, words) => {
            let words = Vec::from_slice(alloc, words.as_slice())?;
            Ok(HypothesisWords::Premise(*label, words))
        }
    }
}

/// The same hypotheses.
fn copies_of<'a>(
    alloc: Global,
    hypotheses: Vec<&HypothesisWords<'a>>,
) -> Result<Vec<HypothesisWords<'a>>, AllocError>
    ensures { IfOk result (λ copies. map seen_hypothesis copies.items ≡ seen_hypotheses hypotheses.entry.items) }
{
    let mut copies = Vec::with_capacity(alloc, hypotheses.len())?;
    for hypothesis in hypotheses {
        copies.push(copy_of(alloc, hypothesis)?)?;
    }
    Ok(copies)
}

/// The assertion at a place.
///
/// # Errors
///
/// Want of memory.
pub(crate) fn assertion_at<'a, D: Declared<'a>>(
    alloc: Global,
    declared: &D,
    place: usize,
) -> Result<AssertionWords<'a>, AllocError>
    requires { place < length (D.scope declared.now).assertions }
    ensures { IfOk result (λ made. (x : Assertion) → slice_get (D.scope declared.now).assertions place ≡ Some x
        → bare x ≡ seen_assertion made) }
{
    let (Some(label), Some(statement)) = (declared.label(place), declared.statement(place)) else {
        unreachable!()
    };
    let statement = Vec::from_slice(alloc, statement)?;
    let active = copies_of(alloc, declared.active(alloc, place)?)?;
    let pairs = declared.pairs(alloc, place)?;
    Ok(AssertionWords {
        label,
        pairs,
        statement,
        active,
    })
}

/// The mandatory hypotheses of the assertion at a place.
///
/// # Errors
///
/// Want of memory.
pub(crate) fn mandatory_at<'a, D: Declared<'a>>(
    alloc: Global,
    declared: &D,
    place: usize,
) -> Result<Vec<HypothesisWords<'a>>, AllocError>
    requires { place < length (D.scope declared.now).assertions }
    ensures { IfOk result (λ hs. (x : Assertion) → slice_get (D.scope declared.now).assertions place ≡ Some x
        → x.hypotheses ≡ map seen_hypothesis hs.items) }
{
    copies_of(alloc, declared.mandatory(alloc, place)?)
}

/// The place of the assertion in front of a place that has a label.
pub(crate) fn earlier_place<'a, D: Declared<'a>>(
    declared: &D,
    place: usize,
    label: &[u8],
) -> Option<usize>
    ensures { let xs = (D.scope declared.now).assertions in IsEarlier xs (take place xs) label.now result }
{
    match declared.place_of(label) {
        None => None,
        Some(found) => { if found < place { Some(found) } else { None } }
    }
}
