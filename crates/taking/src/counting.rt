//! What the steps of a proof count: the labels that its numbers mean, and its codes.

ghost use Rattle.std.specs.Prelude.{◌≡◌, ◌+◌, ◌==◌, ◌++◌, List, map, None, IfOk, MatchOption, if◌then◌else◌};
ghost use Rattle.std.specs.List.{list_any, flat_map};
ghost use Rattle.source.specs.Statements.{normal, compressed};
ghost use Rattle.source.specs.Scopes.{Hypothesis, label_of, is_unknown};
ghost use Rattle.source.specs.declared.letters.Code.TheVariants.{Number, Unknown};
ghost use Rattle.source.specs.Proofs.{step_of_word, step_of, steps_of, is_unfinished};
ghost use Rattle.source.specs.Views.{seen_words, seen_proof, seen_hypothesis, seen_hypotheses};
ghost use Rattle.taking.specs.Counted.{IsCounted};

use mmsyntax::Sequence;
use source::{Code, HypothesisWords, ProofWords, read_letters};
use std::alloc::{AllocError, Global};

/// What the steps of a proof count.
#[derive(Drop)]
pub struct Counted<'a> {
    /// The labels that numbers mean, the first by 1.
    pub labels: Vec<&'a [u8]>,
    /// What each step says. A number past the labels means a marked subproof.
    pub codes: Sequence<Code>,
}

/// The number that follows. A source, of at most 268,435,456 bytes, has too few words for a number over `u32`.
///
/// # Errors
///
/// Were there more, they would be refused as want of memory is.
pub fn next_number(number: u32) -> Result<u32, AllocError>
    ensures { IfOk result (λ next. next ≡ number + 1) }
{
    number.checked_add(1).ok_or(AllocError)
}

/// Whether a step of a proof isn't there.
pub fn is_unfinished(proof: &ProofWords<'_>) -> bool
    ensures { result ≡ is_unfinished (seen_proof proof.now) }
{
    match proof {
        ProofWords::Normal(words) => has_unknown(words.as_slice()),
        ProofWords::Compressed(_, letters) => has_unknown_letter(letters.as_slice()),
    }
}

/// Whether a label is `?`.
fn is_unknown(word: &[u8]) -> bool
    ensures { result ≡ is_unknown word.now }
{
    word == b"?".as_slice()
}

/// Whether one of these labels is `?`.
fn has_unknown(words: &[&[u8]]) -> bool
    ensures { result ≡ list_any (λ w. is_unknown w.now) words.now }
{
    words.iter().any(|word| is_unknown(word))
}

/// Whether one of the letters of a word is `?`.
fn has_question_mark(word: &[u8]) -> bool
    ensures { result ≡ list_any (λ b. b == 63) word.now }
{
    word.contains(&b'?')
}

/// Whether one of the letters of these words is `?`.
fn has_unknown_letter(words: &[&[u8]]) -> bool
    ensures { result ≡ list_any (λ w. list_any (λ b. b == 63) w.now) words.now }
{
    words.iter().any(|word| has_question_mark(word))
}

/// The code of a word of a normal proof that has a number.
fn code_of(word: &[u8], number: u32) -> Code
    ensures { result ≡ (if is_unknown word.now then Unknown else Number number) }
{
    if is_unknown(word) {
        Code::Unknown
    } else {
        Code::Number(number)
    }
}

/// The codes that count each label of a list once, in order, where a `?` is a step that isn't there.
fn count_words(alloc: Global, words: &[&[u8]]) -> Result<Sequence<Code>, AllocError>
    ensures { IfOk result (λ codes. map (step_of (seen_words words.now)) codes ≡ map step_of_word (seen_words words.now)) }
{
    let mut codes = Vec::with_capacity(alloc, words.len())?;
    let mut number = 0;
    for word in words {
        number = next_number(number)?;
        codes.push(code_of(word, number))?;
    }
    Ok(Sequence::from_vec(codes))
}

/// A normal proof: each of its words counts as itself.
fn count_normal<'a>(alloc: Global, words: &[&'a [u8]]) -> Result<Counted<'a>, AllocError>
    ensures { IfOk result (λ made. (hs : List Hypothesis) → IsCounted hs (normal (seen_words words.now)) made) }
{
    let codes = count_words(alloc, words)?;
    let labels = Vec::from_slice(alloc, words)?;
    Ok(Counted { labels, codes })
}

/// The label of a hypothesis.
fn label_of<'a>(hypothesis: &HypothesisWords<'a>) -> &'a [u8]
    ensures { result.now ≡ label_of (seen_hypothesis hypothesis.now) }
{
    match hypothesis {
        HypothesisWords::Typing(label, _, _) => label,
        HypothesisWords::Premise(label, _) => label,
    }
}

/// The labels of hypotheses, and then others.
fn labels_with<'a>(
    alloc: Global,
    hypotheses: Vec<&HypothesisWords<'a>>,
    others: &[&'a [u8]],
) -> Result<Vec<&'a [u8]>, AllocError>
    ensures { IfOk result (λ made. seen_words made.items ≡ map label_of (seen_hypotheses hypotheses.entry.items) ++ seen_words others.now) }
{
    let mut labels = Vec::with_capacity(alloc, hypotheses.len())?;
    for hypothesis in hypotheses {
        labels.push(label_of(hypothesis))?;
    }
    labels.extend_from_slice(others)?;
    Ok(labels)
}

/// How many letters words have: no more than they have, where a `usize` can't say it.
fn count_letters(words: &[&[u8]]) -> usize {
    let mut count = 0_usize;
    for word in words {
        count = count.saturating_add(word.len());
    }
    count
}

/// The letters of words, one behind the other.
///
/// # Errors
///
/// Want of memory.
pub fn joined_letters(alloc: Global, words: &[&[u8]]) -> Result<Vec<u8>, AllocError>
    ensures { IfOk result (λ made. made.items ≡ flat_map (λ w. w) (seen_words words.now)) }
{
    let mut letters = Vec::with_capacity(alloc, count_letters(words))?;
    for word in words {
        letters.extend_from_slice(word)?;
    }
    Ok(letters)
}

/// A compressed proof: nothing where its letters may not stand so.
fn count_compressed<'a>(
    alloc: Global,
    mandatory: Vec<&HypothesisWords<'a>>,
    labels: &[&'a [u8]],
    letters: &[&'a [u8]],
) -> Result<Option<Counted<'a>>, AllocError>
    ensures { let hs = seen_hypotheses mandatory.entry.items in let proof = compressed (seen_words labels.now) (seen_words letters.now) in
        IfOk result (λ made. MatchOption made (steps_of hs proof ≡ None) (IsCounted hs proof)) }
{
    let joined = joined_letters(alloc, letters)?;
    let Some(codes) = read_letters(alloc, joined.as_slice())? else {
        return Ok(None);
    };
    let labels = labels_with(alloc, mandatory, labels)?;
    Ok(Some(Counted { labels, codes }))
}

/// What the steps of a proof count, where these are its mandatory hypotheses: nothing where its letters may not stand so (the Metamath
/// book, appendix B).
///
/// # Errors
///
/// Want of memory.
pub fn count_labels<'a>(
    alloc: Global,
    mandatory: Vec<&HypothesisWords<'a>>,
    proof: &ProofWords<'a>,
) -> Result<Option<Counted<'a>>, AllocError>
    ensures { let hs = seen_hypotheses mandatory.entry.items in
        IfOk result (λ made. MatchOption made (steps_of hs (seen_proof proof.now) ≡ None) (IsCounted hs (seen_proof proof.now))) }
{
    match proof {
        ProofWords::Normal(words) => Ok(Some(count_normal(alloc, words.as_slice())?)),
        ProofWords::Compressed(labels, letters) => {
            count_compressed(alloc, mandatory, labels.as_slice(), letters.as_slice())
        }
    }
}
