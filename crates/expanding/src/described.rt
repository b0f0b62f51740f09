//! The descriptions of what scripts add: a comment right in front of an assertion.

ghost use Rattle.std.specs.Prelude.{◌≡◌, IfOk, List, map};
ghost use Rattle.std.specs.Option.{option_map};
ghost use Rattle.mmtext.specs.Views.{seen};
ghost use Rattle.spreading.specs.Forms.{Part};
ghost use Rattle.expanding.specs.Descriptions.{Front, comment_at, comment_of, IsDescriptive, description_of, is_assertion_mark, label_in, unit_of};
ghost use Rattle.expanding.specs.InFront.{FindsFronts, seen_described};

use crate::commands::parts_in;
use crate::in_front::{comment_at, fronts_of};
use mmtext::Token;
use spreading::{begins_with, behind, place_length};
use std::alloc::{AllocError, Global};
use std::collections::HashMap;
use std::hash::RandomState;

/// The description of an assertion that a script adds.
#[derive(Clone, Copy, Debug)]
pub struct Described<'a> {
    /// Which transaction of the script adds it, from 0.
    pub transaction: usize,
    /// Its label.
    pub label: &'a [u8],
    /// The comment, from its `$(` up to the end of its `$)`.
    pub comment: &'a [u8],
}

/// `$a` or `$p`.
fn is_assertion_mark(word: Token<'_>) -> bool
    ensures { result ≡ is_assertion_mark (seen word.entry) }
{
    word.text == b"$a".as_slice() || word.text == b"$p".as_slice()
}

/// The label of an assertion: the word in front of its `$a` or `$p`.
pub(crate) fn label_in<'a>(unit: &[Token<'a>]) -> Option<Token<'a>>
    ensures { option_map seen result ≡ label_in (map seen unit.now) }
{
    let (first, rest) = unit.split_first()?;
    let mut before = *first;
    for word in rest {
        if is_assertion_mark(*word) {
            return Some(before);
        }
        before = *word;
    }
    None
}

/// The words of the assertion that a command `add` has.
pub(crate) fn unit_of<'w, 'a>(part: &'w [Token<'a>]) -> &'w [Token<'a>]
    ensures { map seen result.now ≡ unit_of (map seen part.now) }
{
    let words = behind(part, 1);
    behind(words, place_length(words))
}

/// The comment right in front of the label of an assertion, or else right in front of its first word.
fn comment_of<'a>(
    fronts: &HashMap<usize, &'a [u8], RandomState>,
    label: Token<'_>,
    unit: &[Token<'_>],
) -> Option<&'a [u8]>
    ensures { (fs : List Front) → FindsFronts fronts.now fs
        → option_map (λ c. c.now) result ≡ comment_of fs (seen label.entry) (map seen unit.now) }
{
    let first = unit.first()?;
    if let Some(comment) = comment_at(fronts, label.place) {
        return Some(comment);
    }
    comment_at(fronts, first.place)
}

/// What a part of a transaction describes.
fn description_of<'a>(
    fronts: &HashMap<usize, &'a [u8], RandomState>,
    transaction: usize,
    part: &[Token<'a>],
) -> Option<Described<'a>>
    ensures { (fs : List Front) → FindsFronts fronts.now fs
        → option_map seen_described result ≡ description_of fs transaction (map seen part.now) }
{
    if !begins_with(part, b"add") {
        return None;
    }
    let unit = unit_of(part);
    let label = label_in(unit)?;
    let comment = comment_of(fronts, label, unit)?;
    Some(Described {
        transaction,
        label: label.text,
        comment,
    })
}

/// The descriptions of what a script adds, in order: of each assertion the comment right in front of its label, or else right in front of
/// the `${` with which it begins. The words are those of the script behind `spread`, with their places in its text.
///
/// The text is gone through once, with a look-up or two for each `add`. The map draws its hashes from the keys.
///
/// # Errors
///
/// Want of memory.
pub fn described_in<'a>(
    alloc: Global,
    keys: RandomState,
    text: &'a [u8],
    words: &[Token<'a>],
) -> Result<Vec<Described<'a>>, AllocError>
    ensures { IfOk result (λ found. IsDescriptive text.now (map seen words.now) (map seen_described found.items)) }
{
    let fronts = fronts_of(alloc, keys, text)?;
    let parts = parts_in(alloc, words)?;
    let mut found = Vec::new(alloc);
    let mut begun = 0;
    for part in parts.as_slice() {
        begun += usize::from(begins_with(part, b"begin"));
        let transaction = begun.saturating_sub(1);
        if let Some(described) = description_of(&fronts, transaction, part) {
            found.push(described)?;
        }
    }
    Ok(found)
}
