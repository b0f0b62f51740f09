//! The lines of a text, and where on them its bytes stand.

ghost use Rattle.std.specs.Prelude.{◌≡◌, ◌≤◌, IfOk, map, length, take, drop};
ghost use Rattle.mmtext.specs.Text.{is_white};
ghost use Rattle.locating.specs.Lines.{line_at, column_at, line_front, line_rest, word_from, begins_character, ends_line};

use std::alloc::{AllocError, Global};

/// What stands in front of a place of a text, from 0; all of it, if the place is behind the text.
fn before(text: &[u8], place: usize) -> &[u8]
    ensures { result.now ≡ take place text.now }
{
    &text[..place.min(text.len())]
}

/// What stands from a place of a text on.
fn from(text: &[u8], place: usize) -> &[u8]
    ensures { result.now ≡ drop place text.now }
{
    &text[place.min(text.len())..]
}

/// The line of a text, from 1, on which the byte at a place stands, from 0; a place behind the text is on its last line.
pub fn line_at(text: &[u8], place: usize) -> usize
    ensures { result ≡ line_at text.now place }
{
    let before = &text[..place.min(text.len())];
    1 + before.iter().filter(|byte| **byte == b'\n').count()
}

/// The line of the byte at a place, where that of a byte in the text is known.
fn line_from(text: &[u8], at: usize, line: usize, place: usize) -> usize
    requires within { at ≤ length text.now }
    requires known { line ≡ line_at text.now at }
    ensures { result ≡ line_at text.now place }
{
    if place < at {
        return line_at(text, place);
    }
    line + (line_at(&text[at..], place - at) - 1)
}

/// The lines of a text on which bytes at these places stand. Where the places ascend, the text is gone through once.
///
/// # Errors
///
/// Want of memory.
pub fn lines_of(alloc: Global, text: &[u8], places: &[usize]) -> Result<Vec<usize>, AllocError>
    ensures { IfOk result (λ lines. lines.items ≡ map (λ place. line_at text.now place) places.now) }
{
    let mut lines = Vec::new(alloc);
    let mut at = 0;
    let mut line = 1;
    for place in places {
        let place = (*place).min(text.len());
        line = line_from(text, at, line, place);
        at = place;
        lines.push(line)?;
    }
    Ok(lines)
}

/// What stands in front of a place on its line.
pub(crate) fn line_front(text: &[u8], place: usize) -> &[u8]
    ensures { result.now ≡ line_front text.now place }
{
    let before = before(text, place);
    match before.iter().rposition(|byte| *byte == b'\n') {
        Some(last) => &before[last + 1..],
        None => before,
    }
}

/// Whether a byte begins a character of UTF-8.
fn begins_character(byte: u8) -> bool
    ensures { result ≡ begins_character byte }
{
    byte < 128 || byte >= 192
}

/// The column of a place on its line, from 1, in characters of UTF-8.
pub(crate) fn column_at(text: &[u8], place: usize) -> usize
    ensures { result ≡ column_at text.now place }
{
    let front = line_front(text, place);
    1 + front.iter().filter(|byte| begins_character(**byte)).count()
}

/// Whether a byte ends what is shown of a line.
fn ends_line(byte: u8) -> bool
    ensures { result ≡ ends_line byte }
{
    byte == b'\n' || byte == b'\r'
}

/// What stands on its line from a place on.
pub(crate) fn line_rest(text: &[u8], place: usize) -> &[u8]
    ensures { result.now ≡ line_rest text.now place }
{
    let rest = from(text, place);
    match rest.iter().position(|byte| ends_line(*byte)) {
        Some(end) => &rest[..end],
        None => rest,
    }
}

/// Whether a byte is white space.
fn is_white(byte: u8) -> bool
    ensures { result ≡ is_white byte }
{
    matches!(byte, b' ' | b'\t' | b'\n' | 12 | b'\r')
}

/// The word that begins at a place.
pub(crate) fn word_from(text: &[u8], place: usize) -> &[u8]
    ensures { result.now ≡ word_from text.now place }
{
    let rest = from(text, place);
    match rest.iter().position(|byte| is_white(*byte)) {
        Some(end) => &rest[..end],
        None => rest,
    }
}
