//! Whether a proof that isn't the library's cites an assertion that was deleted.

ghost use Rattle.std.specs.Prelude.{◌≡◌, All, IfOk, IfErr, IsTrue, OnOk, IfSome, length, map, is_some, slice_get};
ghost use Rattle.std.specs.List.{list_any};
ghost use mathlib.Core.Bool.{not};
ghost use Rattle.source.specs.Scopes.{is_in};
ghost use Rattle.source.specs.Views.{seen_words, seen_proof};
ghost use Rattle.source.specs.Whole.{labels_in};
ghost use Rattle.giving.specs.Staying.{others};
ghost use Rattle.sourceediting.specs.Following.{names_none};
ghost use Rattle.sourceediting.specs.Marked.{marked};
ghost use Rattle.sourceediting.specs.Refusals.{names, IsCitedCause};
ghost use Rattle.sourceediting.specs.declared.refusal.Refusal.TheVariants.{StillCited};

use crate::refusal::Refusal;
use giving::LabelMap;
use mmsyntax::Label;
use source::{Declared, ProofWords};
use std::alloc::{AllocError, Global};
use std::hash::RandomState;

/// Labels with a fast look-up.
///
/// # Errors
///
/// Want of memory.
pub fn marked<'x>(
    alloc: Global,
    keys: RandomState,
    labels: &[&'x [u8]],
) -> Result<LabelMap<'x>, AllocError>
    ensures { IfOk result (λ made. made ≡ marked (seen_words labels.now)) }
{
    let mut pairs = Vec::new(alloc);
    for label in labels {
        pairs.push((*label, *label))?;
    }
    LabelMap::new(alloc, keys, pairs)
}

/// The labels that stand in a proof.
pub fn proof_labels<'p, 'a>(proof: &'p ProofWords<'a>) -> &'p [&'a [u8]]
    ensures { seen_words result.now ≡ labels_in (seen_proof proof.now) }
{
    match proof {
        ProofWords::Normal(steps) => steps.as_slice(),
        ProofWords::Compressed(labels, _) => labels.as_slice(),
    }
}

/// The first of these labels that is one of those that are gone.
fn first_gone<'a>(gone: &LabelMap<'_>, labels: &[&'a [u8]]) -> Option<&'a [u8]>
    ensures some { is_some result ≡ list_any (is_in (map (λ c. c.0) gone.now)) (seen_words labels.now) }
    ensures gone { IfSome result (λ w. IsTrue (is_in (map (λ c. c.0) gone.now) w.now)) }
    ensures among { IfSome result (λ w. IsTrue (is_in (seen_words labels.now) w.now)) }
{
    for label in labels {
        if gone.text_for(label).is_some() {
            return Some(*label);
        }
    }
    None
}

/// An assertion is still cited.
fn still_cited(alloc: Global, label: &[u8], by: &[u8]) -> Result<Refusal, AllocError>
    ensures { IfOk result (λ why. why ≡ StillCited label.now by.now) }
{
    Ok(Refusal::StillCited {
        label: Label::from_slice(alloc, label)?,
        by: Label::from_slice(alloc, by)?,
    })
}

/// The first label of one that is gone which the proof of the assertion at a place names.
fn first_gone_at<'a, D: Declared<'a>>(
    declared: &D,
    gone: &LabelMap<'_>,
    place: usize,
) -> Option<&'a [u8]>
    ensures some { IfSome (slice_get (D.scope declared.now).assertions place) (λ x. is_some result
        ≡ not (names_none (map (λ c. c.0) gone.now) x.proof)) }
    ensures gone { IfSome result (λ w. IsTrue (is_in (map (λ c. c.0) gone.now) w.now)) }
    ensures named { IfSome (slice_get (D.scope declared.now).assertions place) (λ x. IfSome result (λ w. IsTrue (names w.now x.proof))) }
{
    match declared.proof(place) {
        Some(proof) => first_gone(gone, proof_labels(proof)),
        None => None,
    }
}

/// No proof of another assertion than the library's own names one that was deleted.
///
/// # Errors
///
/// The first that does, with the label that it names; want of memory.
pub fn are_uncited<'a, D: Declared<'a>>(
    alloc: Global,
    keys: RandomState,
    declared: &D,
    own: &[bool],
    gone: &[&[u8]],
) -> Result<(), Refusal>
    requires { length own.now ≡ length (D.scope declared.now).assertions }
    ensures uncited { OnOk result (All (λ x. IsTrue (names_none (seen_words gone.now) x.proof))
        (others own.now (D.scope declared.now).assertions)) }
    ensures cited { IfErr result (IsCitedCause (seen_words gone.now) (others own.now (D.scope declared.now).assertions)) }
{
    let gone = marked(alloc, keys, gone)?;
    for (place, is_own) in own.iter().enumerate() {
        if *is_own {
            continue;
        }
        if let Some(label) = first_gone_at(declared, &gone, place) {
            let Some(by) = declared.label(place) else {
                unreachable!()
            };
            return Err(still_cited(alloc, label, by)?);
        }
    }
    Ok(())
}
