//! Words as a proof in the words of a source.

ghost use Rattle.std.specs.Prelude.{◌≡◌, ◌<◌, IfOk, IfSome, None, Some, drop, length, map, option_map, position, if◌then◌else◌};
ghost use Rattle.std.specs.Str.{bytes_eq};
ghost use Rattle.mmtext.specs.Views.{seen};
ghost use Rattle.source.specs.Views.{seen_proof, seen_words};
ghost use Rattle.expanding.specs.Asking.{spoken_in};
ghost use Rattle.pasting.specs.Proofs.{is_compressed, closing_in, labels_among, proof_of};

use mmtext::Token;
use source::ProofWords;
use std::alloc::{AllocError, Global};

/// Whether words begin a compressed proof.
pub(crate) fn is_compressed(words: &[Token<'_>]) -> bool
    ensures { result ≡ is_compressed (map seen words.now) }
{
    match words.first() {
        None => false,
        Some(first) => first.text == b"(".as_slice(),
    }
}

/// The words behind the `(` that begins a compressed proof.
fn behind_opening<'t, 'w>(words: &'t [Token<'w>]) -> Option<&'t [Token<'w>]>
    ensures { option_map (λ ws. map seen ws.now) result
        ≡ (if is_compressed (map seen words.now) then Some (drop 1 (map seen words.now)) else None) }
{
    let (first, behind) = words.split_first()?;
    (first.text == b"(".as_slice()).then_some(behind)
}

/// The place of the first word with a text.
fn first_place(words: &[Token<'_>], text: &[u8]) -> Option<usize>
    ensures value { result ≡ position (λ t. bytes_eq t.text.now text.now) words.now }
    ensures within { IfSome result (λ place. place < length words.now) }
{
    words.iter().position(|word| word.text == text)
}

/// The place of the `)` that ends the labels of a compressed proof.
fn closing_in(words: &[Token<'_>]) -> Option<usize>
    ensures value { result ≡ closing_in (map seen words.now) }
    ensures within { IfSome result (λ place. place < length words.now) }
{
    first_place(words, b")")
}

/// Words without their places.
fn texts_of<'w>(alloc: Global, words: &[Token<'w>]) -> Result<Vec<&'w [u8]>, AllocError>
    ensures { IfOk result (λ texts. seen_words texts.items ≡ spoken_in (map seen words.now)) }
{
    let mut texts = Vec::with_capacity(alloc, words.len())?;
    for word in words {
        texts.push(word.text)?;
    }
    Ok(texts)
}

/// The words of a proof that are labels: those in parentheses, where it is compressed.
pub(crate) fn labels_among<'t, 'w>(words: &'t [Token<'w>]) -> &'t [Token<'w>]
    ensures { map seen result.now ≡ labels_among (map seen words.now) }
{
    let Some(behind) = behind_opening(words) else {
        return words;
    };
    match closing_in(behind) {
        None => &behind[..0],
        Some(end) => &behind[..end],
    }
}

/// Words as a proof: none where they begin with `(` and have no `)`.
pub(crate) fn proof_of<'w>(
    alloc: Global,
    words: &[Token<'w>],
) -> Result<Option<ProofWords<'w>>, AllocError>
    ensures { IfOk result (λ proof. option_map seen_proof proof ≡ proof_of (map seen words.now)) }
{
    let Some(behind) = behind_opening(words) else {
        return Ok(Some(ProofWords::Normal(texts_of(alloc, words)?)));
    };
    let Some(end) = closing_in(behind) else {
        return Ok(None);
    };
    let labels = texts_of(alloc, &behind[..end])?;
    let letters = texts_of(alloc, &behind[end + 1..])?;
    Ok(Some(ProofWords::Compressed(labels, letters)))
}
