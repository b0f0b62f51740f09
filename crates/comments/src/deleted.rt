//! What of a source goes with assertions that were deleted: the comment in front of one, and a block of them.

ghost use Rattle.std.specs.Prelude.{◌≤◌, List, ℕ, length, IfSome, IsTrue};
ghost use Rattle.comments.specs.Deleted.{IsInFront};
ghost use Rattle.comments.specs.Outside.{tokens_at};
ghost use Rattle.comments.specs.Insides.{labels_in};
ghost use Rattle.comments.specs.Blocks.{IsBlockEnd};

use crate::inside::{Inside, asserts, is_gone};
use crate::outside::next_outside;
use giving::LabelMap;
use mmtext::next_token;

/// Whether a comment that ends at a byte of the text stands right in front of the statement of an assertion that was deleted.
pub(crate) fn is_in_front(text: &[u8], at: usize, gone: &LabelMap<'_>) -> bool
    requires { at ≤ length text.now }
    ensures { IsTrue result → (words : List (List ℕ)) → IsInFront (labels_in gone.now)
        (record { words = words; behind = tokens_at text.now at }) }
{
    let Some(label) = next_token(text, at) else {
        return false;
    };
    if !is_gone(gone, Some(label.text)) {
        return false;
    }
    match next_outside(text, label.place + label.text.len()) {
        Some(mark) => asserts(mark.text),
        None => false,
    }
}

/// Where a block ends whose assertions were all deleted, from the byte behind its `${` on: the byte behind its `$}`. None where one of
/// them wasn't deleted, none stands in it, or it isn't closed. It costs as much as there is up to the first that wasn't deleted.
pub(crate) fn end_of_deleted(text: &[u8], from: usize, gone: &LabelMap<'_>) -> Option<usize>
    requires { from ≤ length text.now }
    ensures { IfSome result (IsBlockEnd (labels_in gone.now) (tokens_at text.now from)) }
{
    let mut inside = Inside::new();
    let mut at = from;
    while let Some(token) = next_outside(text, at) {
        at = token.place + token.text.len();
        if inside.is_ended_by(token.text) {
            return Some(at);
        }
        if !inside.take(gone, token.text) {
            return None;
        }
    }
    None
}
