//! The items of a text, one behind the other.

ghost use Rattle.std.specs.Prelude.{◌≡◌, ◌≢◌, ◌≤◌, ◌<◌, ℕ, List, [], true, false, length, IfOk, IfSome, IsSome, MatchOption};
ghost use Rattle.mmtext.specs.Text.{mark_of};
ghost use Rattle.mmtext.specs.Words.{Word};
ghost use Rattle.mmtext.specs.Views.{seen};
ghost use Rattle.mmtext.specs.declared.mark.Mark.TheVariants.{Comment, Opening, Closing, End, Proof};
ghost use Rattle.items.specs.Items.{Item as Pieces, asserts, is_open_behind, words};
ghost use Rattle.items.specs.Divided.{AreOutside, IsDivided, IsDividedFrom};
ghost use Rattle.items.specs.Reading.{AreItems, IsItemAt, IsCommentTo, IsStatementTo, IsFirst, Stands, end_of, tokens_at};

use mmtext::{Mark, Token, mark_word, next_token};
use std::alloc::{AllocError, Global};

/// What an item is.
#[derive(Clone, Copy, Debug)]
pub enum Kind<'s> {
    /// A comment between statements.
    Comment,
    /// `${`
    Opening,
    /// `$}`
    Closing,
    /// `$a` or `$p` with its label.
    Assertion(&'s [u8]),
    /// Another statement.
    Other,
}

/// An item of a text: it begins behind the token in front, with the white space there.
#[derive(Clone, Copy, Debug)]
pub struct Item<'s> {
    /// What it is.
    pub kind: Kind<'s>,
    /// Behind its last token: a byte of the text, counted from 0.
    pub end: usize,
}

/// Where a comment ends, from the byte behind its `$(` on: behind its `$)`. None where it has none.
pub(crate) fn end_of_comment(text: &[u8], from: usize) -> Option<usize>
    requires { from ≤ length text.now }
    ensures comment { IfSome result (IsCommentTo text.now from) }
    ensures later { IfSome result (λ end. from < end) }
    ensures within { IfSome result (λ end. end ≤ length text.now) }
    ensures closed { (x : Pieces) (end : ℕ) → Stands text.now from x end → is_open_behind true (words x) ≡ false → IsSome result }
    ensures outside { (ws : List Word) → AreOutside true text.now from ws → MatchOption result ⊥ (λ end. AreOutside false text.now end ws) }
{
    let mut at = from;
    while let Some(token) = next_token(text, at) {
        at = token.place + token.text.len();
        if token.text == b"$)".as_slice() {
            return Some(at);
        }
    }
    None
}

/// `$a` or `$p`.
fn asserts(word: &[u8]) -> bool
    ensures { result ≡ asserts word.now }
{
    word == b"$a".as_slice() || word == b"$p".as_slice()
}

/// A statement behind its first word.
#[derive(Clone, Copy)]
struct Statement {
    /// Behind its `$.`.
    end: usize,
    /// Whether the first word there outside of comments is `$a` or `$p`.
    asserts: bool,
}

/// The statement from the byte behind its first word on. None where it has no `$.`, or a mark of a block stands in it.
fn end_of_statement(text: &[u8], from: usize) -> Option<Statement>
    requires { from ≤ length text.now }
    ensures statement { IfSome result (λ s. IsStatementTo text.now from s.end s.asserts) }
    ensures later { IfSome result (λ s. from < s.end) }
    ensures within { IfSome result (λ s. s.end ≤ length text.now) }
    ensures divided { IsDividedFrom true text.now from → MatchOption result ⊥ (λ s. IsDividedFrom false text.now s.end) }
{
    let mut first = None;
    let mut at = from;
    while let Some(token) = next_token(text, at) {
        let end = token.place + token.text.len();
        if token.text == b"$(".as_slice() {
            at = end_of_comment(text, end)?;
            continue;
        }
        if token.text == b"$.".as_slice() {
            let asserts = first.unwrap_or(false);
            return Some(Statement { end, asserts });
        }
        if token.text == b"${".as_slice() || token.text == b"$}".as_slice() {
            return None;
        }
        first = Some(first.unwrap_or(asserts(token.text)));
        at = end;
    }
    None
}

/// The statement that begins with a word.
fn read_statement<'s>(text: &[u8], first: Token<'s>, behind: usize) -> Option<Item<'s>>
    requires { behind ≤ length text.now }
    ensures read { (from : ℕ) → IsFirst text.now from (seen first.entry) → behind ≡ end_of (seen first.entry)
        → mark_of first.entry.text.now ≢ Comment → mark_of first.entry.text.now ≢ Opening → mark_of first.entry.text.now ≢ Closing
        → mark_of first.entry.text.now ≢ End → mark_of first.entry.text.now ≢ Proof → IfSome result (IsItemAt text.now from) }
    ensures later { IfSome result (λ i. behind < i.end) }
    ensures within { IfSome result (λ i. i.end ≤ length text.now) }
    ensures divided { IsDividedFrom true text.now behind → MatchOption result ⊥ (λ i. IsDividedFrom false text.now i.end) }
{
    let statement = end_of_statement(text, behind)?;
    let kind = if statement.asserts {
        Kind::Assertion(first.text)
    } else {
        Kind::Other
    };
    let end = statement.end;
    Some(Item { kind, end })
}

/// The item behind a byte of a text. None where no token is left, and where what is left begins with no item.
pub fn read_item(text: &[u8], from: usize) -> Option<Item<'_>>
    requires { from ≤ length text.now }
    ensures item { IfSome result (IsItemAt text.now from) }
    ensures later { IfSome result (λ i. from < i.end) }
    ensures within { IfSome result (λ i. i.end ≤ length text.now) }
    ensures divided { IsDividedFrom false text.now from
        → MatchOption result (tokens_at text.now from ≡ []) (λ i. IsDividedFrom false text.now i.end) }
{
    let first = next_token(text, from)?;
    let behind = first.place + first.text.len();
    match mark_word(first.text) {
        Mark::Comment => {
            let end = end_of_comment(text, behind)?;
            Some(Item {
                kind: Kind::Comment,
                end,
            })
        }
        Mark::Opening => Some(Item {
            kind: Kind::Opening,
            end: behind,
        }),
        Mark::Closing => Some(Item {
            kind: Kind::Closing,
            end: behind,
        }),
        Mark::End | Mark::Proof => None,
        _ => read_statement(text, first, behind),
    }
}

/// The items of a text, in order. None where it isn't items, one behind the other, and white space at its end.
///
/// # Errors
///
/// Want of memory.
pub fn read_items<'s>(alloc: Global, text: &'s [u8]) -> Result<Option<Vec<Item<'s>>>, AllocError>
    ensures found { IfOk result (λ made. IfSome made (λ found. AreItems text.now found.items)) }
    ensures all { IsDivided text.now → IfOk result IsSome }
{
    let mut items = Vec::new(alloc);
    let mut at = 0;
    while let Some(item) = read_item(text, at) {
        items.push(item)?;
        at = item.end;
    }
    Ok(next_token(text, at).is_none().then_some(items))
}
