//! Changes that were done, and how they are taken back without memory.

ghost use Rattle.std.specs.Prelude.{◌≡◌, [], Some, slice_get};
ghost use Rattle.catalog.specs.Places.{IsIndex, HasOnly, KeepsLabels};
ghost use Rattle.catalog.specs.Trunks.{AreTrunks};
ghost use Rattle.catalog.specs.Changes.{taken_back, undone, formers, CanTakeBack, CanUndo, IsForgotten};

use crate::places::{Places, forget_label, put_place};
use crate::trunks::Trunks;
use library::Ranked;
use std::mem;

/// A change that was done at a place, counted from 0: what stood there before, an assertion or none.
#[derive(Drop)]
pub struct Note {
    /// Where it was done, counted from 0.
    pub place: usize,
    /// What stood there before.
    pub former: Option<Ranked>,
}

/// Takes one change back. The note then has what was taken back.
fn take_back(entries: &mut [Option<Ranked>], places: &mut Places, note: &mut Note)
    requires indexed { IsIndex places.old entries.old }
    requires can { CanTakeBack places.old entries.old note.old }
    ensures entries { entries.new ≡ taken_back note.old entries.old }
    ensures indexed { IsIndex places.new entries.new }
    ensures labels { KeepsLabels places.old places.new }
    ensures fewer { KeepsLabels places.new places.old }
    ensures noted { slice_get entries.old note.old.place ≡ Some note.new.former }
{
    if let Some(former) = &note.former {
        put_place(places, former.assertion.label.as_slice(), note.place);
    }
    mem::swap(&mut entries[note.place], &mut note.former);
}

/// Takes all changes back, from the last to the first. The notes then have what was taken back.
pub fn take_all_back(entries: &mut [Option<Ranked>], places: &mut Places, notes: &mut [Note])
    requires indexed { IsIndex places.old entries.old }
    requires only { HasOnly places.old entries.old (formers notes.old) }
    requires can { CanUndo places.old notes.old entries.old }
    ensures entries { entries.new ≡ undone notes.old entries.old }
    ensures indexed { IsIndex places.new entries.new }
    ensures fewer { KeepsLabels places.new places.old }
    ensures only { HasOnly places.new entries.new (formers notes.new) }
{
    let mut left = notes.len();
    while left > 0 {
        left -= 1;
        take_back(entries, places, &mut notes[left]);
    }
}

/// Drops a note, and from the maps the label that it holds, unless an assertion has it.
fn forget_note(entries: &[Option<Ranked>], places: &mut Places, trunks: &mut Trunks, note: Note)
    requires indexed { IsIndex places.old entries.now }
    requires trunks { AreTrunks trunks.old places.old }
    ensures indexed { IsIndex places.new entries.now }
    ensures trunks { AreTrunks trunks.new places.new }
    ensures fewer { KeepsLabels places.new places.old }
    ensures gone { IsForgotten places.new entries.now note.former }
{
    if let Some(former) = note.former {
        forget_label(entries, places, trunks, former.assertion.label.as_slice());
    }
}

/// Drops all notes, and from the maps their labels that no assertion has.
pub fn drop_notes(
    entries: &[Option<Ranked>],
    places: &mut Places,
    trunks: &mut Trunks,
    notes: &mut Vec<Note>,
)
    requires indexed { IsIndex places.old entries.now }
    requires only { HasOnly places.old entries.now (formers notes.old.items) }
    requires trunks { AreTrunks trunks.old places.old }
    ensures indexed { IsIndex places.new entries.now }
    ensures trunks { AreTrunks trunks.new places.new }
    ensures only { HasOnly places.new entries.now [] }
    ensures empty { notes.new.items ≡ [] }
{
    while let Some(note) = notes.pop() {
        forget_note(entries, places, trunks, note);
    }
}
