//! Whether an assertion that is written anew stands outermost or in a block of its own, and nothing else in its text.

ghost use Rattle.std.specs.Prelude.{◌≡◌, ◌≤◌, ◌∷◌, ℕ, true, length, IfSome, IsTrue};
ghost use Rattle.items.specs.Items.{Item as Pieces, words};
ghost use Rattle.items.specs.Reading.{Stands};
ghost use Rattle.arranging.specs.Groups.{gives_frame, IsWritten};
ghost use Rattle.arranging.specs.Written.{IsPlain, IsFrame, IsFront, IsEnd, IsBack};

use crate::coming::Coming;
use crate::lines::is_in_lines;
use items::{Kind, read_item};
use mmtext::next_token;

/// Whether no comment begins in a text.
fn is_plain(text: &[u8]) -> bool
    ensures { IsTrue result → IsPlain text.now }
{
    let mut at = 0;
    while let Some(token) = next_token(text, at) {
        if token.text == b"$(".as_slice() {
            return false;
        }
        at = token.place + token.text.len();
    }
    true
}

/// Whether an item, from a place of a text up to another, gives an assertion its frame: its first word is `$d`, or its second `$e`.
fn gives_frame(text: &[u8], from: usize, end: usize) -> bool
    requires { from ≤ length text.now }
    ensures { (x : Pieces) → Stands text.now from x end → IsTrue result → gives_frame (words x) ≡ true }
{
    let Some(first) = next_token(text, from) else {
        return false;
    };
    let Some(second) = next_token(text, first.place + first.text.len()) else {
        return false;
    };
    if second.place + second.text.len() > end {
        return false;
    }
    first.text == b"$d".as_slice() || second.text == b"$e".as_slice()
}

/// Whether each item from a place of a text on gives an assertion its frame, in lines of its own, and nothing else stands there.
fn is_frame(text: &[u8], from: usize) -> bool
    requires { from ≤ length text.now }
    ensures { IsTrue result → IsFrame text.now from }
{
    let mut at = from;
    while let Some(item) = read_item(text, at) {
        if !gives_frame(text, at, item.end) || !is_in_lines(text, at, item.end) {
            return false;
        }
        at = item.end;
    }
    at == text.len()
}

/// Whether a block opens in front of an assertion, with what gives that its frame. None where something else stands there.
fn opens_block(text: &[u8]) -> Option<bool>
    ensures { IfSome result (IsFront text.now) }
{
    let Some(first) = read_item(text, 0) else {
        return text.is_empty().then_some(false);
    };
    match first.kind {
        Kind::Opening if is_in_lines(text, 0, first.end) => {
            is_frame(text, first.end).then_some(true)
        }
        _ => None,
    }
}

/// Whether the bytes of a text from a place on are the end of a block.
fn is_end(text: &[u8], from: usize) -> bool
    requires { from ≤ length text.now }
    ensures { IsTrue result → IsEnd text.now from }
{
    let Some(last) = read_item(text, from) else {
        return false;
    };
    match last.kind {
        Kind::Closing => last.end == text.len() && is_in_lines(text, from, last.end),
        _ => false,
    }
}

/// Whether a text is an assertion, and the end of a block behind it where one was opened.
fn is_back(text: &[u8], opened: bool) -> bool
    ensures { IsTrue result → IsBack text.now opened }
{
    let Some(assertion) = read_item(text, 0) else {
        return false;
    };
    let Kind::Assertion(_) = assertion.kind else {
        return false;
    };
    if !is_in_lines(text, 0, assertion.end) {
        return false;
    }
    if opened {
        is_end(text, assertion.end)
    } else {
        assertion.end == text.len()
    }
}

/// What stands in a text behind the line feed that it begins with.
fn behind_line_feed(text: &[u8]) -> Option<&[u8]>
    ensures { IfSome result (λ lines. text.now ≡ 10 ∷ lines.now) }
{
    let (first, lines) = text.split_first()?;
    (*first == b'\n').then_some(lines)
}

/// Whether the text of what comes is that of an assertion, outermost or in a block of its own: behind an empty line, and laid out in lines.
pub(crate) fn is_written(coming: Coming<'_>) -> bool
    ensures { IsTrue result → IsWritten coming.entry }
{
    let Some(lines) = behind_line_feed(coming.front) else {
        return false;
    };
    if !is_plain(lines) || !is_plain(coming.back) {
        return false;
    }
    match opens_block(lines) {
        Some(opened) => is_back(coming.back, opened),
        None => false,
    }
}
