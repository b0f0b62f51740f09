//! How far the proofs of a source are indented.

ghost use Rattle.std.specs.Prelude.{◌≡◌, ◌≤◌, ◌==◌, IfOk, IfSome, IsSome, length};
ghost use Rattle.std.specs.List.{list_all};
ghost use Rattle.std.specs.Option.{option_map};
ghost use Rattle.items.specs.Items.{Item as Pieces};
ghost use Rattle.items.specs.Divided.{IsDivided};
ghost use Rattle.items.specs.Layout.{indent};
ghost use Rattle.items.specs.Reading.{IsOfKind, Stands};
ghost use Rattle.items.specs.Indentations.{indentation_of, indented};
ghost use Rattle.items.specs.Walking.{AreIndentations, LeadsTo};

use crate::reading::{Item, Kind, read_item};
use giving::LabelMap;
use mmtext::next_token;
use std::alloc::{AllocError, Global};
use std::hash::RandomState;

/// Whether bytes are spaces.
pub fn are_spaces(bytes: &[u8]) -> bool
    ensures { result ≡ list_all (λ c. c == 32) bytes.now }
{
    bytes.iter().all(|b| *b == b' ')
}

/// The spaces behind the line feed that white space begins with. None where something else stands there.
pub fn indent(space: &[u8]) -> Option<&[u8]>
    ensures { option_map (λ i. i.now) result ≡ indent space.now }
{
    let (first, spaces) = space.split_first()?;
    (*first == b'\n' && are_spaces(spaces)).then_some(spaces)
}

/// Where a word of a statement stands.
#[derive(Clone, Copy)]
pub(crate) struct StatementPlace {
    /// Whether it stands in a comment.
    pub is_open: bool,
    /// Whether `$=` is in front of it.
    pub in_proof: bool,
}

/// What stands behind a word of a statement.
#[derive(Clone, Copy)]
pub(crate) enum Next<'s> {
    /// More of it.
    Goes(StatementPlace),
    /// The indentation of its proof is known, or that there is none.
    Ends(Option<&'s [u8]>),
}

impl StatementPlace {
    /// What stands behind a word, in front of which this white space is.
    fn take<'s>(self, space: &'s [u8], word: &[u8]) -> Next<'s>
        ensures { LeadsTo self space.now word.now result }
    {
        let in_proof = self.in_proof;
        if self.is_open {
            let is_open = word != b"$)".as_slice();
            return Next::Goes(StatementPlace { is_open, in_proof });
        }
        if word == b"$(".as_slice() {
            let is_open = true;
            return Next::Goes(StatementPlace { is_open, in_proof });
        }
        if !in_proof {
            let in_proof = word == b"$=".as_slice();
            return Next::Goes(StatementPlace {
                is_open: false,
                in_proof,
            });
        }
        if word == b"$.".as_slice() {
            return Next::Ends(None);
        }
        match indent(space) {
            Some(spaces) => Next::Ends(Some(spaces)),
            None => Next::Goes(self),
        }
    }
}

/// The spaces with which the first line of a proof begins that isn't the one of its `$=`: that of the item from a place of a text up to
/// another. None where there is no such line, and where something else stands in front of each.
fn indentation(text: &[u8], from: usize, end: usize) -> Option<&[u8]>
    requires order { from ≤ end }
    requires within { end ≤ length text.now }
    ensures { (x : Pieces) → Stands text.now from x end → option_map (λ i. i.now) result ≡ indentation_of x }
{
    let mut walk = StatementPlace {
        is_open: false,
        in_proof: false,
    };
    let mut at = from;
    while at < end {
        let Some(token) = next_token(text, at) else {
            return None;
        };
        match walk.take(&text[at..token.place], token.text) {
            Next::Goes(next) => walk = next,
            Next::Ends(found) => return found,
        }
        at = token.place + token.text.len();
    }
    None
}

/// The indentation of an item that begins behind a byte of a text, with its label.
fn indented<'s>(text: &'s [u8], from: usize, item: Item<'s>) -> Option<(&'s [u8], &'s [u8])>
    requires order { from ≤ item.end }
    requires within { item.end ≤ length text.now }
    ensures { (x : Pieces) → Stands text.now from x item.entry.end → IsOfKind item.entry.kind x
        → option_map (λ p. (p.0.now, p.1.now)) result ≡ indented x }
{
    let Kind::Assertion(label) = item.kind else {
        return None;
    };
    let spaces = indentation(text, from, item.end)?;
    Some((label, spaces))
}

/// The spaces with which the first lines of the proofs of a source begin, by the labels of its theorems: of those proofs that have such a
/// line behind the one of their `$=`. None where the text isn't items, one behind the other.
///
/// It costs about as much as the source has bytes.
///
/// # Errors
///
/// Want of memory.
pub fn indentations<'s>(
    alloc: Global,
    keys: RandomState,
    source: &'s [u8],
) -> Result<Option<LabelMap<'s>>, AllocError>
    ensures indentations { IfOk result (λ made. IfSome made (AreIndentations source.now)) }
    ensures all { IsDivided source.now → IfOk result IsSome }
{
    let mut pairs = Vec::new(alloc);
    let mut at = 0;
    while let Some(item) = read_item(source, at) {
        if let Some(pair) = indented(source, at, item) {
            pairs.push(pair)?;
        }
        at = item.end;
    }
    if next_token(source, at).is_some() {
        return Ok(None);
    }
    Ok(Some(LabelMap::new(alloc, keys, pairs)?))
}
