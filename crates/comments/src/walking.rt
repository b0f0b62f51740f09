//! A walk over a source that reads its comments between statements, but those that go with assertions that were deleted.

ghost use Rattle.std.specs.Prelude.{◌≡◌, ◌≤◌, ◌<◌, ℕ, List, [], Some, length, IfOk, MatchOption};
ghost use Rattle.mmtext.specs.Text.{tokens};
ghost use Rattle.giving.specs.Staying.{Change};
ghost use Rattle.comments.specs.Comments.{stands_between, comments_from};
ghost use Rattle.comments.specs.Outside.{tokens_at};
ghost use Rattle.comments.specs.Insides.{labels_in};
ghost use Rattle.comments.specs.Walks.{MayEnd, IsCommentTaken, IsWalked, seen_texts, AreTexts};

use crate::deleted::{end_of_deleted, is_in_front};
use crate::passing::{Gathered, end_of_comment, read_comment};
use giving::LabelMap;
use mmtext::next_token;
use std::alloc::{AllocError, Global};

/// Whether a word is a keyword of a block, or ends a statement.
fn stands_between(word: &[u8]) -> bool
    ensures { result ≡ stands_between word.now }
{
    word == b"$.".as_slice() || word == b"${".as_slice() || word == b"$}".as_slice()
}

/// Up to where a deleted block stands behind a word that ends at a byte of the source, where up to `until` one stood before it.
fn until_behind(until: usize, gone: &LabelMap<'_>, source: &[u8], word: &[u8], end: usize) -> usize
    requires { end ≤ length source.now }
    ensures { MayEnd (labels_in gone.now) word.now (tokens_at source.now end) until result }
{
    if until > end || word != b"${".as_slice() {
        return until;
    }
    match end_of_deleted(source, end, gone) {
        Some(found) => found,
        None => until,
    }
}

/// How far a source was walked over, outside of comments.
#[derive(Drop)]
pub(crate) struct SourceWalk {
    /// Whether a statement is open.
    pub stating: bool,
    /// Up to this byte a block stands whose assertions were deleted; 0 where none was found so far.
    pub until: usize,
    /// How the comments read that stay.
    pub texts: Vec<Vec<u8>>,
}

impl SourceWalk {
    /// Before any token.
    fn new(alloc: Global) -> SourceWalk
        ensures { (cs : List Change) (gone : List (List ℕ)) (source : List ℕ) → IsWalked cs gone source (tokens source) 0 result }
    {
        SourceWalk {
            stating: false,
            until: 0,
            texts: Vec::new(alloc),
        }
    }

    /// A comment, from the byte behind its `$(` on: where it ends. None where it isn't closed.
    fn take_comment(
        &mut self,
        alloc: Global,
        changes: &LabelMap<'_>,
        gone: &LabelMap<'_>,
        source: &[u8],
        from: usize,
    ) -> Result<Option<usize>, AllocError>
        requires { from ≤ length source.now }
        ensures { IfOk result (λ end. MatchOption end ((comments_from self.old.stating (Some []) (tokens_at source.now from) ≡ [])
            × (self.new ≡ self.old)) (IsCommentTaken changes.now (labels_in gone.now) source.now from self.old self.new)) }
    {
        if self.stating {
            return Ok(end_of_comment(source, from));
        }
        let Some(comment) = read_comment(alloc, changes, source, from)? else {
            return Ok(None);
        };
        let Gathered { text, end } = comment;
        if end < self.until || is_in_front(source, end, gone) {
            return Ok(Some(end));
        }
        self.texts.push(text)?;
        Ok(Some(end))
    }
}

/// How the comments of a source between its statements read with changed labels, but some of those that go with assertions that were
/// deleted.
///
/// # Errors
///
/// Want of memory.
pub(crate) fn comment_texts(
    alloc: Global,
    changes: &LabelMap<'_>,
    gone: &LabelMap<'_>,
    source: &[u8],
) -> Result<Vec<Vec<u8>>, AllocError>
    ensures { IfOk result (λ texts. AreTexts changes.now (labels_in gone.now) source.now (seen_texts texts.items)) }
{
    let mut walk = SourceWalk::new(alloc);
    let mut at = 0;
    while let Some(token) = next_token(source, at) {
        let end = token.place + token.text.len();
        if token.text == b"$(".as_slice() {
            let Some(closed) = walk.take_comment(alloc, changes, gone, source, end)? else {
                return Ok(walk.texts);
            };
            at = closed;
            continue;
        }
        walk.until = until_behind(walk.until, gone, source, token.text, end);
        walk.stating = !stands_between(token.text);
        at = end;
    }
    Ok(walk.texts)
}
