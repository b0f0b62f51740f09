//! Which part each item of a source plays where some leave their places.

ghost use Rattle.std.specs.Prelude.{◌≡◌, ◌≤◌, IfOk, List, ℕ, length, map};
ghost use Rattle.std.specs.Borrow.{Bor};
ghost use Rattle.items.specs.Items.{Item as Pieces, IsComment};
ghost use Rattle.items.specs.Reading.{AreFound, AreItems, IsOfKind, Stands};
ghost use Rattle.arranging.specs.Parts.{fate_of, is_heading, is_rule, part_of, known_labels};

use giving::LabelMap;
use items::{Item, Kind};
use leaving::{Fate, Part};
use mmtext::next_token;
use std::alloc::{AllocError, Global};

/// What becomes of the assertion with a label.
fn fate_of(gone: &LabelMap<'_>, moving: &LabelMap<'_>, label: &[u8]) -> Fate
    ensures { result ≡ fate_of (known_labels gone.now) (known_labels moving.now) label.now }
{
    if gone.text_for(label).is_some() {
        Fate::Deleted
    } else if moving.text_for(label).is_some() {
        Fate::Moves
    } else {
        Fate::Stays
    }
}

/// Whether a word begins as a line does that encloses a heading.
fn is_rule(word: &[u8]) -> bool
    ensures { result ≡ is_rule word.now }
{
    match word.get(..4) {
        Some(front) => {
            front == b"####".as_slice()
                || front == b"#*#*".as_slice()
                || front == b"=-=-".as_slice()
                || front == b"-.-.".as_slice()
        }
        None => false,
    }
}

/// Whether the comment behind a byte of a text is a heading: its first word behind the `$(` begins a line of one of these forms.
fn is_heading(text: &[u8], from: usize) -> bool
    requires { from ≤ length text.now }
    ensures { (x : Pieces) (end : ℕ) → Stands text.now from x end → IsComment x → result ≡ is_heading x }
{
    let Some(opening) = next_token(text, from) else {
        return false;
    };
    match next_token(text, opening.place + opening.text.len()) {
        Some(word) => is_rule(word.text),
        None => false,
    }
}

/// Which part an item plays that begins behind a byte of a text.
fn part_of(
    gone: &LabelMap<'_>,
    moving: &LabelMap<'_>,
    text: &[u8],
    from: usize,
    kind: Kind<'_>,
) -> Part
    requires { from ≤ length text.now }
    ensures { (x : Pieces) (end : ℕ) → Stands text.now from x end → IsOfKind kind.entry x
        → result ≡ part_of (known_labels gone.now) (known_labels moving.now) x }
{
    match kind {
        Kind::Comment if is_heading(text, from) => Part::Heading,
        Kind::Comment => Part::Description,
        Kind::Opening => Part::Opening,
        Kind::Closing => Part::Closing,
        Kind::Assertion(label) => Part::Assertion(fate_of(gone, moving, label)),
        Kind::Other => Part::Other,
    }
}

/// Which part each item of a source plays, where assertions with these labels are deleted, and others are put in elsewhere.
///
/// # Errors
///
/// Want of memory.
pub fn parts_of<'c>(
    alloc: Global,
    gone: &LabelMap<'c>,
    moving: &LabelMap<'c>,
    source: &[u8],
    items: &[Item<'_>],
) -> Result<Vec<Part>, AllocError>
    requires { AreItems source.now items.now }
    ensures { (old : List Pieces) → AreFound source.now 0 items.now old
        → IfOk result (λ parts. parts.items ≡ map (part_of (known_labels gone.now) (known_labels moving.now)) old) }
{
    let mut parts = Vec::with_capacity(alloc, items.len())?;
    let mut at = 0;
    for item in items {
        parts.push(part_of(gone, moving, source, at, item.kind))?;
        at = item.end;
    }
    Ok(parts)
}
