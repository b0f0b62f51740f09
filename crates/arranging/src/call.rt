//! The call `arrange`.

ghost use Rattle.std.specs.Prelude.{◌≡◌, ◌<◌, ℕ, List, [], IfErr, IfOk, length};
ghost use Rattle.items.specs.Items.{Item as Pieces};
ghost use Rattle.items.specs.Reading.{AreItems};
ghost use Rattle.arranging.specs.Arranged.{IsLayout};
ghost use Rattle.arranging.specs.Outcomes.{IsOutcome};
ghost use Rattle.arranging.specs.Places.{IsKnownOf};
ghost use Rattle.arranging.specs.Parts.{Edited, known_labels};

use crate::checking::Checker;
use crate::coming::{Coming, Placed};
use crate::describing::parts_of;
use crate::layout::layout_of;
use crate::naming::first_misnamed;
use crate::printing::Source;
use giving::LabelMap;
use items::Item;
use leaving::{Part, goes_of};
use std::alloc::{AllocError, Global};

/// The edits of a source.
#[derive(Clone, Copy)]
pub struct Edits<'e> {
    /// The labels that change, with their new ones.
    pub changes: &'e LabelMap<'e>,
    /// The proofs that change, by the labels of their theorems.
    pub proofs: &'e LabelMap<'e>,
    /// The labels of the assertions that are deleted.
    pub gone: &'e LabelMap<'e>,
    /// Those of the assertions that stand elsewhere then.
    pub moving: &'e LabelMap<'e>,
    /// Those of the assertions that were moved.
    pub moved: &'e LabelMap<'e>,
    /// Those in the source of all that live in the library.
    pub library: &'e LabelMap<'e>,
}

/// What becomes of a source with edits.
#[derive(Drop)]
pub enum Outcome {
    /// Its text then.
    Text(Vec<u8>),
    /// What is put in with this number, counted from 0, can't stand at its place.
    Misplaced(usize),
    /// An assertion without a proof is to have another one.
    Bare,
}

/// The layout of a source whose items play these parts, or the number of something that can't stand at its place.
fn laid_out<'t>(
    alloc: Global,
    edits: Edits<'_>,
    text: &[u8],
    items: &[Item<'_>],
    parts: &[Part],
    comings: &[Coming<'t>],
) -> Result<Result<Vec<Placed<'t>>, usize>, AllocError>
    ensures misplaced { IfOk result (λ made. IfErr made (λ number. number < length comings.now)) }
    ensures laid { (e : Edited) (old : List Pieces)
        → IsKnownOf e text.now old edits.entry.moving.now edits.entry.moved.now edits.entry.library.now items.now parts.now
        → e.comings ≡ comings.now → IfOk result (λ made. IfOk made (λ layout. IsLayout e [] old layout.items)) }
{
    let checker = Checker::new(
        alloc,
        edits.moving,
        edits.moved,
        edits.library,
        text,
        items,
        parts,
    )?;
    if let Some(number) = checker.first_misplaced(comings) {
        return Ok(Err(number));
    }
    let goes = goes_of(alloc, parts)?;
    layout_of(alloc, goes.as_slice(), comings)
}

/// The text of a source with edits, of which these are the items, and this is put in, in the order of its places: labels change, theorems
/// have other proofs, and assertions leave their places, with what describes them and with the blocks that have nothing left. Or why there
/// is no such text.
///
/// It costs about as much as the source and what is put in have bytes.
///
/// # Errors
///
/// Want of memory.
pub fn arrange(
    alloc: Global,
    edits: Edits<'_>,
    source: &[u8],
    items: &[Item<'_>],
    comings: &[Coming<'_>],
) -> Result<Outcome, AllocError>
    requires { AreItems source.now items.now }
    ensures { IfOk result (IsOutcome edits.entry.changes.now edits.entry.proofs.now
        (record {
          gone = known_labels edits.entry.gone.now;
          moving = known_labels edits.entry.moving.now;
          moved = known_labels edits.entry.moved.now;
          library = known_labels edits.entry.library.now;
          comings = comings.now;
        })
        source.now) }
{
    if let Some(number) = first_misnamed(alloc, edits.changes, comings)? {
        return Ok(Outcome::Misplaced(number));
    }
    let parts = parts_of(alloc, edits.gone, edits.moving, source, items)?;
    let layout = match laid_out(alloc, edits, source, items, parts.as_slice(), comings)? {
        Ok(layout) => layout,
        Err(number) => return Ok(Outcome::Misplaced(number)),
    };
    let source = Source {
        text: source,
        items,
        changes: edits.changes,
        proofs: edits.proofs,
    };
    match source.print(alloc, layout.as_slice())? {
        Some(text) => Ok(Outcome::Text(text)),
        None => Ok(Outcome::Bare),
    }
}
