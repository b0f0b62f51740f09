//! Under which labels the proofs that scripts give are quoted in the source.

ghost use Rattle.std.specs.Prelude.{◌≡◌, IfOk, map};
ghost use Rattle.std.specs.Option.{option_map};
ghost use Rattle.source.specs.Views.{seen_words};
ghost use Rattle.pasting.specs.Views.{seen_given_proof};
ghost use Rattle.sourceediting.specs.Views.{seen_followed, seen_following};
ghost use Rattle.dressing.specs.OwnWords.{proof_for, proof_then, proofs_then};

use pasting::GivenProof;
use sites::Indexed;
use sourceediting::{Followed, Following};
use std::alloc::{AllocError, Global};
use std::hash::RandomState;

/// The labels under which proofs are given.
fn labels_of<'x>(alloc: Global, given: &[GivenProof<'x>]) -> Result<Vec<&'x [u8]>, AllocError>
    ensures { IfOk result (λ labels. seen_words labels.items ≡ map (λ q. q.label.now) given.now) }
{
    let mut labels = Vec::with_capacity(alloc, given.len())?;
    for one in given {
        labels.push(one.label)?;
    }
    Ok(labels)
}

/// The first proof that is given under a label: one look-up.
fn proof_for<'x>(
    given: &[GivenProof<'x>],
    labels: &Indexed<'_>,
    label: &[u8],
) -> Option<GivenProof<'x>>
    requires { labels.now ≡ map (λ q. q.label.now) given.now }
    ensures { option_map seen_given_proof result ≡ proof_for (map seen_given_proof given.now) label.now }
{
    match labels.place(label) {
        None => None,
        Some(place) => Some(given[place]),
    }
}

/// The proof that is given for an assertion, under the label that this has in the end.
fn proof_then<'x>(
    given: &[GivenProof<'x>],
    labels: &Indexed<'_>,
    followed: &Followed<'x>,
) -> Option<GivenProof<'x>>
    requires { labels.now ≡ map (λ q. q.label.now) given.now }
    ensures { option_map seen_given_proof result ≡ proof_then (map seen_given_proof given.now) (seen_followed followed.entry.now) }
{
    let proof = match proof_for(given, labels, followed.now) {
        Some(proof) => proof,
        None => proof_for(given, labels, followed.first)?,
    };
    Some(GivenProof {
        label: followed.label_then(),
        proof: proof.proof,
    })
}

/// The proofs that are given for assertions, under the labels that these have in the end.
///
/// # Errors
///
/// Want of memory.
pub(crate) fn proofs_then<'x>(
    alloc: Global,
    keys: RandomState,
    given: &[GivenProof<'x>],
    following: &Following<'x>,
) -> Result<Vec<GivenProof<'x>>, AllocError>
    ensures { IfOk result (λ made. map seen_given_proof made.items
        ≡ proofs_then (map seen_given_proof given.now) (seen_following following.now)) }
{
    let labels = Indexed::new(alloc, keys, labels_of(alloc, given)?)?;
    let mut made = Vec::new(alloc);
    for followed in following.living.as_slice() {
        if let Some(proof) = proof_then(given, &labels, followed) {
            made.push(proof)?;
        }
    }
    Ok(made)
}
