//! What the comment in front of a library tells of where it was taken: the path of the source, and the wish.

ghost use Rattle.std.specs.Prelude.{◌≡◌, ◌≢◌, ◌++◌, ◌∷◌, ◌&&◌, ℕ, false, List, All, IfOk, MatchOption, codes};
ghost use Rattle.std.specs.Str.{bytes_eq};
ghost use Rattle.choosing.specs.declared.wish.Wish.{Wish as WishOf};
ghost use Rattle.source.specs.Views.{seen_words};
ghost use Rattle.taketext.specs.Origins.{IsInLine, Tells, TellsNothing};
ghost use Rattle.taketext.specs.Reading.{IsCut, AreLines, AreWords, AreOriginLines, IsOrigin, AreWishWords};

use choosing::Wish;
use std::alloc::{AllocError, Global};

/// Where a library was taken, by the comment in front of it.
#[derive(Drop)]
pub struct Origin<'l> {
    /// The path of the source, as it is shown there.
    pub path: &'l [u8],
    /// The words that tell the wish.
    pub words: Vec<&'l [u8]>,
}

/// What stands in a text in front of the first of such bytes, and behind it. None where it has no such byte.
fn cut(text: &[u8], byte: u8) -> Option<(&[u8], &[u8])>
    ensures { MatchOption result (All (λ b. b ≢ byte) text.now) (λ p. IsCut text.now byte p.0.now p.1.now) }
{
    for (place, other) in text.iter().enumerate() {
        if *other == byte {
            return Some((&text[..place], &text[place + 1..]));
        }
    }
    None
}

/// The words of a line, between which spaces stand.
fn words_of(alloc: Global, line: &[u8]) -> Result<Vec<&[u8]>, AllocError>
    requires { IsInLine line.now }
    ensures { IfOk result (λ words. AreWords line.now (seen_words words.items)) }
{
    let mut words = Vec::new(alloc);
    let mut left = line;
    while let Some((word, behind)) = cut(left, b' ') {
        words.push(word)?;
        left = behind;
    }
    words.push(left)?;
    Ok(words)
}

/// The first and the third line of a text. None where it has no three lines.
fn lines_of(text: &[u8]) -> Option<(&[u8], &[u8])>
    ensures { MatchOption result ((first third : List ℕ) → AreLines text.now first third → ⊥) (λ p. AreLines text.now p.0.now p.1.now) }
{
    let Some((first, behind)) = cut(text, b'\n') else {
        return None;
    };
    let Some((_second, behind)) = cut(behind, b'\n') else {
        return None;
    };
    match cut(behind, b'\n') {
        Some((third, _rest)) => Some((first, third)),
        None => None,
    }
}

/// What stands in a text behind some bytes. None where it doesn't begin with them.
fn behind<'t>(text: &'t [u8], front: &[u8]) -> Option<&'t [u8]>
    ensures { MatchOption result ((rest : List ℕ) → text.now ≢ front.now ++ rest) (λ left. text.now ≡ front.now ++ left.now) }
{
    text.strip_prefix(front)
}

/// The path, and how the wish is told, where a text begins so. None where it doesn't.
fn origin_lines_of(text: &[u8]) -> Option<(&[u8], &[u8])>
    ensures { MatchOption result ((path chosen : List ℕ) → AreOriginLines text.now path chosen → ⊥)
        (λ p. AreOriginLines text.now p.0.now p.1.now) }
{
    let Some((first, third)) = lines_of(text) else {
        return None;
    };
    let Some(path) = behind(first, b"$( Taken by mmrefactor from ") else {
        return None;
    };
    match behind(third, b"   Chosen: ") {
        Some(chosen) => Some((path, chosen)),
        None => None,
    }
}

/// Where a library was taken, by the comment in front of its text. None where it has no such comment.
///
/// # Errors
///
/// Want of memory.
pub fn origin_of(alloc: Global, library: &[u8]) -> Result<Option<Origin<'_>>, AllocError>
    ensures { IfOk result (λ found. MatchOption found (TellsNothing library.now)
        (λ o. IsOrigin library.now o.path.now (seen_words o.words.items))) }
{
    let Some((path, chosen)) = origin_lines_of(library) else {
        return Ok(None);
    };
    let words = words_of(alloc, chosen)?;
    Ok(Some(Origin { path, words }))
}

/// Whether a word is the first of two, and another the second.
fn are_words(word: &[u8], other: &[u8], first: &[u8], second: &[u8]) -> bool
    ensures { result ≡ (bytes_eq word.now first.now && bytes_eq other.now second.now) }
{
    word == first && other == second
}

/// The wish that words tell of which the first is another than `for`. None where they tell none.
fn wish_behind<'w>(first: &[u8], others: &[&'w [u8]]) -> Option<Wish<'w>>
    requires { bytes_eq first.now (codes "for") ≡ false }
    ensures { MatchOption result ((w : WishOf) → AreWishWords (first.now ∷ seen_words others.now) w → ⊥)
        (AreWishWords (first.now ∷ seen_words others.now)) }
{
    match others {
        [second] if are_words(first, second, b"all", b"assertions") => Some(Wish::All),
        [from, middle, to] if are_words(first, middle, b"from", b"to") => {
            Some(Wish::Between(from, to))
        }
        _ => None,
    }
}

/// The wish that words tell. None where they tell none.
fn wish_of<'w>(words: &'w [&'w [u8]]) -> Option<Wish<'w>>
    ensures { MatchOption result ((w : WishOf) → AreWishWords (seen_words words.now) w → ⊥) (AreWishWords (seen_words words.now)) }
{
    let Some((first, others)) = words.split_first() else {
        return None;
    };
    if *first == b"for".as_slice() {
        return Some(Wish::For(others));
    }
    wish_behind(first, others)
}

impl<'l> Origin<'l> {
    /// The wish that is told. None where none is told.
    pub fn wish(&self) -> Option<Wish<'_>>
        ensures { (text : List ℕ) → IsOrigin text self.now.path.now (seen_words self.now.words.items)
            → MatchOption result (TellsNothing text) (Tells text self.now.path.now) }
    {
        wish_of(self.words.as_slice())
    }
}
