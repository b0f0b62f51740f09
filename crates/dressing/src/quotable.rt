//! Which proofs are quoted.

ghost use Rattle.std.specs.Prelude.{◌≡◌, ◌<◌, ◌↔◌, IfOk, IfSome, IsTrue, Some, length, slice_get, take};
ghost use Rattle.source.specs.Scopes.{Assertion};
ghost use Rattle.source.specs.Views.{seen_proof, seen_words};
ghost use Rattle.source.specs.Whole.{IsWhole};
ghost use Rattle.dressing.specs.Parts.{SaysTheSame};
ghost use Rattle.dressing.specs.Quoted.{HaveSameWords, letters_in};

use crate::listing::{OwnNames, labels_in, listed};
use source::{Declared, ProofWords};
use std::alloc::{AllocError, Global};
use std::hash::RandomState;
use taking::joined_letters;

/// Whether a word is another.
fn is_word(one: &[u8], other: &[u8]) -> bool
    ensures { IsTrue result ↔ (one.now ≡ other.now) }
{
    one == other
}

/// Whether words are equal.
fn are_words(ones: &[&[u8]], others: &[&[u8]]) -> bool
    ensures { IsTrue result ↔ (seen_words ones.now ≡ seen_words others.now) }
{
    if ones.len() != others.len() {
        return false;
    }
    for (i, word) in ones.iter().enumerate() {
        if !is_word(word, others[i]) {
            return false;
        }
    }
    true
}

/// The letters of a proof, in whatever lines they stand: a normal one has none.
pub(crate) fn letters_in(alloc: Global, proof: &ProofWords<'_>) -> Result<Vec<u8>, AllocError>
    ensures { IfOk result (λ letters. letters.items ≡ letters_in (seen_proof proof.now)) }
{
    match proof {
        ProofWords::Normal(_) => Ok(Vec::new(alloc)),
        ProofWords::Compressed(_, letters) => joined_letters(alloc, letters.as_slice()),
    }
}

/// Whether proofs have the same words.
fn have_same_words(
    alloc: Global,
    one: &ProofWords<'_>,
    other: &ProofWords<'_>,
) -> Result<bool, AllocError>
    ensures { IfOk result (λ same. IsTrue same ↔ HaveSameWords (seen_proof one.now) (seen_proof other.now)) }
{
    if !are_words(labels_in(one), labels_in(other)) {
        return Ok(false);
    }
    let ones = letters_in(alloc, one)?;
    let others = letters_in(alloc, other)?;
    Ok(ones.as_slice() == others.as_slice())
}

/// Whether a proof lists the same steps, in other words, as the proof of the assertion at a place.
pub(crate) fn says_the_same<'a, D: Declared<'a>>(
    alloc: Global,
    keys: RandomState,
    declared: &D,
    names: &OwnNames<'_>,
    place: usize,
    proof: &ProofWords<'a>,
) -> Result<bool, AllocError>
    requires names { names.now.labels ≡ (D.scope declared.now).labels }
    requires whole { IsWhole (D.scope declared.now) }
    requires within { place < length (D.scope declared.now).assertions }
    ensures { IfOk result (λ same. IfSome (slice_get (D.scope declared.now).assertions place) (λ x.
        IsTrue same ↔ SaysTheSame (D.scope declared.now) place x (seen_proof proof.now))) }
{
    let Some(written) = declared.proof(place) else {
        return Ok(false);
    };
    if have_same_words(alloc, proof, written)? {
        return Ok(false);
    }
    let Some(given) = listed(alloc, keys, declared, names, place, proof)? else {
        return Ok(false);
    };
    match listed(alloc, keys, declared, names, place, written)? {
        None => Ok(false),
        Some(own) => Ok(given.has_same_steps(&own)),
    }
}
