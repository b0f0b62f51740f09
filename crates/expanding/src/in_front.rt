//! The comments right in front of words of a text.

ghost use Rattle.std.specs.Prelude.{◌≡◌, ◌+◌, ◌<◌, ◌^◌, ◌++◌, ◌∷◌, [], IfOk, OnOk, List, length};
ghost use Rattle.std.specs.Option.{option_map};
ghost use Rattle.mmtext.specs.Views.{seen};
ghost use Rattle.expanding.specs.Descriptions.{Front, between, front_at, fronts, closed_at, opened_at, comment_at};
ghost use Rattle.expanding.specs.InFront.{FindsFronts};

use mmtext::{Token, next_token};
use std::alloc::{AllocError, Global};
use std::collections::HashMap;
use std::hash::RandomState;

/// The bytes of a text from one place up to another.
fn between(text: &[u8], from: usize, to: usize) -> &[u8]
    ensures { result.now ≡ between text.now from to }
{
    let front = &text[..to.min(text.len())];
    &front[from.min(front.len())..]
}

/// Where the last comment began behind a token.
fn opened_at(opened: usize, token: Token<'_>) -> usize
    ensures { result ≡ opened_at opened (seen token.entry) }
{
    if token.text == b"$(".as_slice() {
        token.place
    } else {
        opened
    }
}

/// Where a token ends that ends a comment.
fn closed_at(token: Token<'_>) -> Option<usize>
    requires { token.place + length token.text.now < 2 ^ 64 }
    ensures { result ≡ closed_at (seen token.entry) }
{
    if token.text != b"$)".as_slice() {
        return None;
    }
    Some(token.place + token.text.len())
}

/// Puts a comment right in front of the word at a place, if none was put there.
fn put_first<'a>(
    fronts: &mut HashMap<usize, &'a [u8], RandomState>,
    place: usize,
    comment: &'a [u8],
) -> Result<(), AllocError>
    ensures { (fs : List Front) → FindsFronts fronts.old fs → OnOk result (FindsFronts fronts.new (fs ++ (place, comment.now) ∷ [])) }
{
    if !fronts.contains_key(&place) {
        fronts.insert(place, comment)?;
    }
    Ok(())
}

/// Puts the comment right in front of a token, if one stands there: the last began at a place, and ended at one if it ended right in front.
fn put_front<'a>(
    fronts: &mut HashMap<usize, &'a [u8], RandomState>,
    text: &'a [u8],
    opened: usize,
    closed: Option<usize>,
    token: Token<'_>,
) -> Result<(), AllocError>
    ensures { (fs : List Front) → FindsFronts fronts.old fs
        → OnOk result (FindsFronts fronts.new (fs ++ front_at text.now opened closed (seen token.entry))) }
{
    match closed {
        Some(end) if token.text != b"$(".as_slice() => {
            put_first(fronts, token.place, between(text, opened, end))
        }
        _ => Ok(()),
    }
}

/// The comments right in front of words outside of comments, by the places of these.
pub(crate) fn fronts_of<'a>(
    alloc: Global,
    keys: RandomState,
    text: &'a [u8],
) -> Result<HashMap<usize, &'a [u8], RandomState>, AllocError>
    ensures { IfOk result (λ made. FindsFronts made (fronts text.now)) }
{
    let mut fronts = HashMap::with_hasher(alloc, keys);
    let mut at = 0;
    let mut opened = 0;
    let mut closed = None;
    while let Some(token) = next_token(text, at) {
        put_front(&mut fronts, text, opened, closed, token)?;
        opened = opened_at(opened, token);
        closed = closed_at(token);
        at = token.place + token.text.len();
    }
    Ok(fronts)
}

/// The comment right in front of the word at a place, if one stands there: one look-up.
pub(crate) fn comment_at<'a>(
    fronts: &HashMap<usize, &'a [u8], RandomState>,
    place: usize,
) -> Option<&'a [u8]>
    ensures { (fs : List Front) → FindsFronts fronts.now fs → option_map (λ c. c.now) result ≡ comment_at fs place }
{
    fronts.get(&place).copied()
}
