//! Comments, from the byte behind their `$(` on: they are passed over, or read.

ghost use Rattle.std.specs.Prelude.{◌≡◌, ◌≤◌, ◌++◌, length, true, false, [], Some, IfOk, IfSome, IfNone, MatchOption, OnOk};
ghost use Rattle.commentwords.specs.Words.{word_then};
ghost use Rattle.comments.specs.Comments.{comments_from, with_space};
ghost use Rattle.comments.specs.Outside.{tokens_at};
ghost use Rattle.comments.specs.Passing.{IsClosed};
ghost use Rattle.comments.specs.Gathered.{IsGathered};

use commentwords::CommentPlace;
use giving::LabelMap;
use mmtext::next_token;
use std::alloc::{AllocError, Global};

/// Where a comment ends: the byte behind its `$)`. None where it has none.
pub(crate) fn end_of_comment(text: &[u8], from: usize) -> Option<usize>
    requires { from ≤ length text.now }
    ensures closed { IfSome result (λ end. IsClosed true [] (tokens_at text.now from) (tokens_at text.now end) end) }
    ensures later { IfSome result (λ end. from ≤ end) }
    ensures within { IfSome result (λ end. end ≤ length text.now) }
    ensures unclosed { IfNone result (comments_from true (Some []) (tokens_at text.now from) ≡ []) }
{
    let mut at = from;
    while let Some(token) = next_token(text, at) {
        at = token.place + token.text.len();
        if token.text == b"$)".as_slice() {
            return Some(at);
        }
    }
    None
}

/// A comment that was read.
#[derive(Drop)]
pub(crate) struct Gathered {
    /// Its words, with changed labels, and a space behind each.
    pub text: Vec<u8>,
    /// The byte behind its `$)`.
    pub end: usize,
}

/// A word of a comment goes behind those that were read, as it reads with changed labels, with a space behind it.
fn put_word(
    out: &mut Vec<u8>,
    changes: &LabelMap<'_>,
    standing: CommentPlace,
    word: &[u8],
) -> Result<(), AllocError>
    ensures { OnOk result (out.new.items ≡ out.old.items ++ with_space (word_then changes.now standing word.now)) }
{
    standing.word_then(changes, word).put(out)?;
    out.push(b' ')?;
    Ok(())
}

/// Reads a comment. None where it has no `$)`.
///
/// # Errors
///
/// Want of memory.
pub(crate) fn read_comment(
    alloc: Global,
    changes: &LabelMap<'_>,
    text: &[u8],
    from: usize,
) -> Result<Option<Gathered>, AllocError>
    requires { from ≤ length text.now }
    ensures { IfOk result (λ read. MatchOption read (comments_from false (Some []) (tokens_at text.now from) ≡ [])
        (IsGathered changes.now text.now from)) }
{
    let mut read = Vec::new(alloc);
    let mut standing = CommentPlace::at_first();
    let mut at = from;
    while let Some(token) = next_token(text, at) {
        at = token.place + token.text.len();
        if token.text == b"$)".as_slice() {
            return Ok(Some(Gathered {
                text: read,
                end: at,
            }));
        }
        put_word(&mut read, changes, standing, token.text)?;
        standing = standing.behind(token.text);
    }
    Ok(None)
}
