//! Where a step of a theorem's proof stands in the text of a source.

ghost use Rattle.std.specs.Prelude.{◌≡◌, ◌++◌, IfOk, OnOk, map};
ghost use Rattle.std.specs.Option.{option_map};
ghost use Rattle.std.specs.List.{flat_map};
ghost use Rattle.mmtext.specs.Views.{seen};
ghost use Rattle.locating.specs.Fronts.{says};
ghost use Rattle.locating.specs.Steps.{from_theorem, proof_words, ends_step, step_ends, whole_word, steps_of, spot_in, step_at, theorem_at};

use crate::fronts::{behind_first, says, words_of};
use crate::spot::Spot;
use mmtext::Token;
use std::alloc::{AllocError, Global};

/// From the label of a theorem on; nothing where it isn't there.
fn from_theorem<'t, 'a>(label: &[u8], words: &'t [Token<'a>]) -> &'t [Token<'a>]
    ensures { map seen result.now ≡ from_theorem label.now (map seen words.now) }
{
    let mut rest = words;
    while rest.len() >= 2 {
        if says(label, rest[0]) && says(b"$p", rest[1]) {
            return rest;
        }
        rest = &rest[1..];
    }
    &words[words.len()..]
}

/// The words of the proof of a theorem.
fn proof_words<'t, 'a>(label: &[u8], words: &'t [Token<'a>]) -> &'t [Token<'a>]
    ensures { map seen result.now ≡ proof_words label.now (map seen words.now) }
{
    let behind = behind_first(b"$=", from_theorem(label, words));
    match behind.iter().position(|token| says(b"$.", *token)) {
        Some(end) => &behind[..end],
        None => behind,
    }
}

/// Whether a letter ends a step.
fn ends_step(byte: u8) -> bool
    ensures { result ≡ ends_step byte }
{
    (byte >= b'A' && byte <= b'T') || byte == b'?'
}

/// A word, or a byte of it, at which a step ends.
#[derive(Clone, Copy, Debug)]
pub(crate) struct Ending {
    /// The first byte of the word, counted from 0.
    word: usize,
    /// How many bytes of the word stand in front.
    behind: usize,
    /// How many bytes it has.
    length: usize,
}

/// Puts the ends of the steps in a word of letters.
fn put_ends(ends: &mut Vec<Ending>, token: Token<'_>) -> Result<(), AllocError>
    ensures { OnOk result (ends.new.items ≡ ends.old.items ++ step_ends (seen token.entry)) }
{
    for (at, byte) in token.text.iter().enumerate() {
        if ends_step(*byte) {
            ends.push(Ending {
                word: token.place,
                behind: at,
                length: 1,
            })?;
        }
    }
    Ok(())
}

/// The ends of the steps in words of letters.
fn ends_in(alloc: Global, letters: &[Token<'_>]) -> Result<Vec<Ending>, AllocError>
    ensures { IfOk result (λ ends. ends.items ≡ flat_map step_ends (map seen letters.now)) }
{
    let mut ends = Vec::new(alloc);
    for word in letters {
        put_ends(&mut ends, *word)?;
    }
    Ok(ends)
}

/// A word that is a step.
fn whole_word(token: Token<'_>) -> Ending
    ensures { result ≡ whole_word (seen token.entry) }
{
    Ending {
        word: token.place,
        behind: 0,
        length: token.text.len(),
    }
}

/// Words that are steps.
fn labels_in(alloc: Global, words: &[Token<'_>]) -> Result<Vec<Ending>, AllocError>
    ensures { IfOk result (λ ends. ends.items ≡ map whole_word (map seen words.now)) }
{
    let mut ends = Vec::new(alloc);
    for word in words {
        ends.push(whole_word(*word))?;
    }
    Ok(ends)
}

/// Each step of a proof.
fn steps_of(alloc: Global, words: &[Token<'_>]) -> Result<Vec<Ending>, AllocError>
    ensures { IfOk result (λ ends. ends.items ≡ steps_of (map seen words.now)) }
{
    match words.split_first() {
        Some((first, rest)) if says(b"(", *first) => ends_in(alloc, behind_first(b")", rest)),
        _ => labels_in(alloc, words),
    }
}

/// Where a step stands that is in the text.
fn spot_in(text: &[u8], end: Ending) -> Option<Spot>
    ensures { result ≡ spot_in text.now end }
{
    let place = end.word.checked_add(end.behind)?;
    (place <= text.len()).then_some(Spot {
        place,
        length: end.length,
    })
}

/// The step with a number, from 1, in the proof of the theorem with a label; for 0 the first.
///
/// # Errors
///
/// Want of memory.
pub(crate) fn step_at(
    alloc: Global,
    text: &[u8],
    label: &[u8],
    step: usize,
) -> Result<Option<Spot>, AllocError>
    ensures { IfOk result (λ spot. spot ≡ step_at text.now label.now step) }
{
    let Some(words) = words_of(alloc, text)? else {
        return Ok(None);
    };
    let steps = steps_of(alloc, proof_words(label, words.as_slice()))?;
    match steps.get(step.saturating_sub(1)) {
        Some(end) => Ok(spot_in(text, *end)),
        None => Ok(None),
    }
}

/// The label of a theorem in the text of a source, if it has that.
///
/// # Errors
///
/// Want of memory.
pub fn theorem_at(alloc: Global, text: &[u8], label: &[u8]) -> Result<Option<Spot>, AllocError>
    ensures { IfOk result (λ spot. spot ≡ theorem_at text.now label.now) }
{
    let Some(words) = words_of(alloc, text)? else {
        return Ok(None);
    };
    match from_theorem(label, words.as_slice()).first() {
        Some(token) => Ok(Some(Spot {
            place: token.place,
            length: token.text.len(),
        })),
        None => Ok(None),
    }
}
