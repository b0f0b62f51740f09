//! Whether what an assertion says and how it is proved are the same in another source, but for changed labels.

ghost use Rattle.std.specs.Prelude.{◌≡◌, ◌↔◌, IsTrue, map};
ghost use Rattle.std.specs.Option.{option_map};
ghost use Rattle.source.specs.Views.{seen_words, seen_proof, seen_hypothesis, seen_hypotheses, seen_pairs};
ghost use Rattle.giving.specs.Staying.{changed, proof_changed};

use crate::label_map::LabelMap;
use source::{HypothesisWords, ProofWords};

/// Whether a word is another.
fn is_word(one: &[u8], other: &[u8]) -> bool
    ensures { IsTrue result ↔ (one.now ≡ other.now) }
{
    one == other
}

/// Whether words are equal.
pub(crate) fn are_words(one: &[&[u8]], other: &[&[u8]]) -> bool
    ensures { IsTrue result ↔ (seen_words one.now ≡ seen_words other.now) }
{
    if one.len() != other.len() {
        return false;
    }
    for (i, word) in one.iter().enumerate() {
        if !is_word(word, other[i]) {
            return false;
        }
    }
    true
}

/// Whether labels read so once they are changed.
fn are_changed(changes: &LabelMap<'_>, old: &[&[u8]], new: &[&[u8]]) -> bool
    ensures { IsTrue result ↔ (map (changed changes.now) (seen_words old.now) ≡ seen_words new.now) }
{
    if old.len() != new.len() {
        return false;
    }
    for (i, label) in old.iter().enumerate() {
        if !changes.leads(label, new[i]) {
            return false;
        }
    }
    true
}

/// Whether proofs are the same but for changed labels.
fn is_proof(changes: &LabelMap<'_>, old: &ProofWords<'_>, new: &ProofWords<'_>) -> bool
    ensures { IsTrue result ↔ (proof_changed changes.now (seen_proof old.now) ≡ seen_proof new.now) }
{
    match (old, new) {
        (ProofWords::Normal(steps), ProofWords::Normal(others)) => are_changed(
            changes,
            steps.as_slice(),
            others.as_slice(),
        ),
        (ProofWords::Compressed(labels, letters), ProofWords::Compressed(others, codes)) => {
            are_changed(changes, labels.as_slice(), others.as_slice())
                && are_words(letters.as_slice(), codes.as_slice())
        }
        _ => false,
    }
}

/// Whether there are proofs that are the same but for changed labels, or none.
pub(crate) fn has_proof(
    changes: &LabelMap<'_>,
    old: Option<&ProofWords<'_>>,
    new: Option<&ProofWords<'_>>,
) -> bool
    ensures { IsTrue result ↔ (option_map (λ p. proof_changed changes.now (seen_proof p.now)) old.entry
        ≡ option_map (λ p. seen_proof p.now) new.entry) }
{
    match (old, new) {
        (None, None) => true,
        (Some(proof), Some(other)) => is_proof(changes, proof, other),
        _ => false,
    }
}

/// Whether hypotheses are equal.
fn is_hypothesis(one: &HypothesisWords<'_>, other: &HypothesisWords<'_>) -> bool
    ensures { IsTrue result ↔ (seen_hypothesis one.now ≡ seen_hypothesis other.now) }
{
    match (one, other) {
        (
            HypothesisWords::Typing(label, code, variable),
            HypothesisWords::Typing(name, sort, symbol),
        ) => { is_word(label, name) && is_word(code, sort) && is_word(variable, symbol) }
        (HypothesisWords::Premise(label, words), HypothesisWords::Premise(name, symbols)) => {
            is_word(label, name) && are_words(words.as_slice(), symbols.as_slice())
        }
        _ => false,
    }
}

/// Whether lists of hypotheses are equal: they are compared from their ends.
pub(crate) fn are_hypotheses(
    ones: Vec<&HypothesisWords<'_>>,
    others: Vec<&HypothesisWords<'_>>,
) -> bool
    ensures { IsTrue result ↔ (seen_hypotheses ones.entry.items ≡ seen_hypotheses others.entry.items) }
{
    let (mut ones, mut others) = (ones, others);
    while let Some(one) = ones.pop() {
        let Some(other) = others.pop() else {
            return false;
        };
        if !is_hypothesis(one, other) {
            return false;
        }
    }
    others.is_empty()
}

/// Whether lists of pairs are equal.
pub(crate) fn are_pairs(ones: &[(&[u8], &[u8])], others: &[(&[u8], &[u8])]) -> bool
    ensures { IsTrue result ↔ (seen_pairs ones.now ≡ seen_pairs others.now) }
{
    if ones.len() != others.len() {
        return false;
    }
    for (i, (first, second)) in ones.iter().enumerate() {
        let (one, other) = others[i];
        if !is_word(first, one) || !is_word(second, other) {
            return false;
        }
    }
    true
}
