//! Where comments of a text mention labels by words that speak of none.

ghost use Rattle.std.specs.Prelude.{◌≡◌, ◌≤◌, ◌+◌, ◌++◌, length, map, filter, IfOk, OnOk};
ghost use Rattle.mmtext.specs.Views.{seen};
ghost use Rattle.source.specs.Scopes.{is_in};
ghost use Rattle.commentwords.specs.Words.{parted};
ghost use Rattle.commentwords.specs.Views.{seen_if};
ghost use Rattle.mentions.specs.Mentioned.{PassesToken, mentioned_in, silent_word};

use commentwords::CommentPlace;
use giving::LabelMap;
use mmtext::{Token, next_token};
use std::alloc::{AllocError, Global};

/// A token of a comment, unless it speaks of a label.
fn silent_word<'a>(standing: CommentPlace, token: Token<'a>) -> Option<Token<'a>>
    ensures { seen_if result ≡ silent_word (seen token.entry) (parted standing token.entry.text.now) }
{
    match standing.parted(token.text) {
        Some(_) => None,
        None => Some(token),
    }
}

/// The token, if it is a word of a comment that speaks of no label, and where the words stand behind it, if a comment is open there.
fn pass<'a>(
    comment: Option<CommentPlace>,
    token: Token<'a>,
) -> (Option<Token<'a>>, Option<CommentPlace>)
    ensures { PassesToken comment (seen token.entry) result.0 result.1 }
{
    match comment {
        None if token.text == b"$(".as_slice() => (None, Some(CommentPlace::at_first())),
        None => (None, None),
        Some(_) if token.text == b"$)".as_slice() => (None, None),
        Some(standing) => (
            silent_word(standing, token),
            Some(standing.behind(token.text)),
        ),
    }
}

/// Whether a label is one of these.
pub(crate) fn is_one_of(labels: &LabelMap<'_>, label: &[u8]) -> bool
    ensures { result ≡ is_in (map (λ c. c.0) labels.now) label.now }
{
    labels.text_for(label).is_some()
}

/// A word goes behind those that were found, if it is one of these labels.
fn put_word<'a>(
    found: &mut Vec<Token<'a>>,
    labels: &LabelMap<'_>,
    word: Option<Token<'a>>,
) -> Result<(), AllocError>
    ensures { OnOk result (map seen found.new.items ≡ map seen found.old.items
        ++ filter (λ t. is_in (map (λ c. c.0) labels.now) t.text) (seen_if word.entry)) }
{
    let Some(token) = word else {
        return Ok(());
    };
    if is_one_of(labels, token.text) {
        found.push(token)?;
    }
    Ok(())
}

/// Where words of comments of a text are just one of some labels, which are the old ones of changes, and speak of none: each such word as a
/// token of the text, in order. It costs about as much as the text has bytes.
///
/// # Errors
///
/// Want of memory.
pub(crate) fn mentioned_of<'a>(
    alloc: Global,
    labels: &LabelMap<'_>,
    text: &'a [u8],
) -> Result<Vec<Token<'a>>, AllocError>
    ensures { IfOk result (λ found. map seen found.items ≡ mentioned_in (map (λ c. c.0) labels.now) text.now) }
{
    let mut found = Vec::new(alloc);
    let mut comment = None;
    let mut at = 0;
    while let Some(token) = next_token(text, at) {
        at = token.place + token.text.len();
        let (word, behind) = pass(comment, token);
        put_word(&mut found, labels, word)?;
        comment = behind;
    }
    Ok(found)
}
