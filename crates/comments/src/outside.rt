//! The tokens of a text outside of comments, one behind the other.

ghost use Rattle.std.specs.Prelude.{◌≤◌, ◌<◌, ◌+◌, length, IfSome};
ghost use Rattle.mmtext.specs.Views.{seen};
ghost use Rattle.comments.specs.Outside.{tokens_at, IsNext};

use crate::passing::end_of_comment;
use mmtext::{Token, next_token};

/// The first token outside of comments from a byte of the text on that stands in no comment. None where there is none.
pub(crate) fn next_outside(text: &[u8], from: usize) -> Option<Token<'_>>
    requires { from ≤ length text.now }
    ensures next { IfSome result (λ t. let end = t.place + length t.text.now in
        IsNext (tokens_at text.now from) (tokens_at text.now end) (seen t)) }
    ensures later { IfSome result (λ t. from < t.place + length t.text.now) }
    ensures within { IfSome result (λ t. t.place + length t.text.now ≤ length text.now) }
{
    let mut at = from;
    while let Some(token) = next_token(text, at) {
        if token.text != b"$(".as_slice() {
            return Some(token);
        }
        at = end_of_comment(text, token.place + token.text.len())?;
    }
    None
}
