//! Where comments of the source with the edits speak of assertions that were deleted.

ghost use Rattle.std.specs.Prelude.{◌≡◌, ◌++◌, codes, IfOk, map, string_bytes};
ghost use mathlib.Core.Bool.{not};
ghost use Rattle.std.specs.Fmt.{decimal};
ghost use Rattle.source.specs.Scopes.{is_in};
ghost use Rattle.checking.specs.FaultLines.{shown_label};
ghost use Rattle.mmtext.specs.Views.{seen};
ghost use Rattle.source.specs.Views.{seen_words};
ghost use Rattle.commentwords.specs.Spoken.{spoken_in};
ghost use Rattle.sourceediting.specs.Views.{seen_following};
ghost use Rattle.editedsource.specs.Gone.{lost, spoken_line};

use commentwords::spoken_of;
use giving::LabelMap;
use locating::lines_of;
use mmtext::Token;
use replylines::shown;
use sourceediting::{Following, marked};
use std::alloc::{AllocError, Global};
use std::hash::RandomState;

/// Whether a label is none of these.
fn is_lost(living: &LabelMap<'_>, label: &[u8]) -> bool
    ensures { result ≡ not (is_in (map (λ c. c.0) living.now) label.now) }
{
    living.text_for(label).is_none()
}

/// The labels in the source of assertions that were deleted, which no other has in the end.
fn lost_of<'x>(
    alloc: Global,
    keys: RandomState,
    following: &Following<'x>,
) -> Result<Vec<&'x [u8]>, AllocError>
    ensures { IfOk result (λ made. seen_words made.items ≡ lost (seen_following following.now)) }
{
    let then = following.labels_then(alloc)?;
    let living = marked(alloc, keys, then.as_slice())?;
    let mut made = Vec::new(alloc);
    for label in following.gone.as_slice() {
        if is_lost(&living, label) {
            made.push(*label)?;
        }
    }
    Ok(made)
}

/// The places of words.
fn places_of(alloc: Global, words: &[Token<'_>]) -> Result<Vec<usize>, AllocError>
    ensures { IfOk result (λ places. places.items ≡ map (λ t. t.place) words.now) }
{
    let mut places = Vec::new(alloc);
    for word in words {
        places.push(word.place)?;
    }
    Ok(places)
}

/// The line that says that a comment speaks of a label on this line.
fn line_of(alloc: Global, path: &str, line: usize, label: &[u8]) -> Result<String, AllocError>
    ensures { IfOk result (λ said. string_bytes said ≡ path.now ++ (codes ":" ++ (decimal line
        ++ (codes ": a comment speaks of " ++ (shown_label label.now ++ codes ", which was deleted"))))) }
{
    let label = shown(label);
    format!(in alloc; "{path}:{line}: a comment speaks of {label}, which was deleted")
}

/// A line for each of these words, each of which stands in a text at one of these lines.
fn said_of(
    alloc: Global,
    path: &str,
    out: &[u8],
    words: &[Token<'_>],
) -> Result<Vec<String>, AllocError>
    ensures { IfOk result (λ said. map string_bytes said.items ≡ map (spoken_line path.now out.now) (map seen words.now)) }
{
    let places = places_of(alloc, words)?;
    let lines = lines_of(alloc, out, places.as_slice())?;
    let mut said = Vec::new(alloc);
    for (line, word) in lines.iter().zip(words) {
        said.push(line_of(alloc, path, *line, word.text)?)?;
    }
    Ok(said)
}

/// A line for each word of a comment of the source with the edits that speaks of an assertion which was deleted.
///
/// # Errors
///
/// Want of memory.
pub(crate) fn spoken_lines(
    alloc: Global,
    keys: RandomState,
    path: &str,
    following: &Following<'_>,
    out: &[u8],
) -> Result<Vec<String>, AllocError>
    ensures { IfOk result (λ said. map string_bytes said.items
        ≡ map (spoken_line path.now out.now) (spoken_in (lost (seen_following following.now)) out.now)) }
{
    let lost = lost_of(alloc, keys, following)?;
    if lost.is_empty() {
        return Ok(Vec::new(alloc));
    }
    let marks = marked(alloc, keys, lost.as_slice())?;
    let found = spoken_of(alloc, &marks, out)?;
    said_of(alloc, path, out, found.as_slice())
}
