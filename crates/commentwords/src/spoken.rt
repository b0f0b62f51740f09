//! Where comments of a text speak of labels.

ghost use Rattle.std.specs.Prelude.{◌≡◌, ◌≤◌, ◌+◌, ◌++◌, length, map, filter, IfOk, OnOk};
ghost use Rattle.mmtext.specs.Views.{seen};
ghost use Rattle.source.specs.Scopes.{is_in};
ghost use Rattle.commentwords.specs.Spoken.{label_from, spoken_in};
ghost use Rattle.commentwords.specs.Words.{parted};
ghost use Rattle.commentwords.specs.Views.{seen_if, TakesToken};

use crate::comment_place::CommentPlace;
use giving::LabelMap;
use mmtext::{Token, next_token};
use std::alloc::{AllocError, Global};

/// The label of which a token of a comment speaks.
fn label_of<'a>(standing: CommentPlace, token: Token<'a>) -> Option<Token<'a>>
    requires { token.place + length token.text.now ≤ usize.MAX }
    ensures { seen_if result ≡ label_from token.entry.place (parted standing token.entry.text.now) }
{
    let parted = standing.parted(token.text)?;
    Some(Token {
        place: token.place + parted.front.len(),
        text: parted.label,
    })
}

/// The label of which a token speaks, if it does, and where the words stand behind it, if a comment is open there.
fn take<'a>(
    comment: Option<CommentPlace>,
    token: Token<'a>,
) -> (Option<Token<'a>>, Option<CommentPlace>)
    requires { token.place + length token.text.now ≤ usize.MAX }
    ensures { TakesToken comment (seen token.entry) result.0 result.1 }
{
    match comment {
        None if token.text == b"$(".as_slice() => (None, Some(CommentPlace::at_first())),
        None => (None, None),
        Some(_) if token.text == b"$)".as_slice() => (None, None),
        Some(standing) => (label_of(standing, token), Some(standing.behind(token.text))),
    }
}

/// Whether a label is one of these.
fn is_one_of(labels: &LabelMap<'_>, label: &[u8]) -> bool
    ensures { result ≡ is_in (map (λ c. c.0) labels.now) label.now }
{
    labels.text_for(label).is_some()
}

/// A label goes behind those that were found, if it is one of these.
fn put_label<'a>(
    found: &mut Vec<Token<'a>>,
    labels: &LabelMap<'_>,
    label: Option<Token<'a>>,
) -> Result<(), AllocError>
    ensures { OnOk result (map seen found.new.items ≡ map seen found.old.items
        ++ filter (λ t. is_in (map (λ c. c.0) labels.now) t.text) (seen_if label.entry)) }
{
    let Some(token) = label else {
        return Ok(());
    };
    if is_one_of(labels, token.text) {
        found.push(token)?;
    }
    Ok(())
}

/// Where comments of a text speak of some labels, which are the old ones of changes: each such label as a token of the text, in order. It
/// costs about as much as the text has bytes.
///
/// # Errors
///
/// Want of memory.
pub fn spoken_of<'a>(
    alloc: Global,
    labels: &LabelMap<'_>,
    text: &'a [u8],
) -> Result<Vec<Token<'a>>, AllocError>
    ensures { IfOk result (λ found. map seen found.items ≡ spoken_in (map (λ c. c.0) labels.now) text.now) }
{
    let mut found = Vec::new(alloc);
    let mut comment = None;
    let mut at = 0;
    while let Some(token) = next_token(text, at) {
        at = token.place + token.text.len();
        let (label, behind) = take(comment, token);
        put_label(&mut found, labels, label)?;
        comment = behind;
    }
    Ok(found)
}
