//! The changes of a library that can be taken back: what is put in a place, noted with what stood there.

ghost use Rattle.std.specs.Prelude.{◌≡◌, ◌∷◌, ◌++◌, [], false, length, set, Some, None, slice_get, IfOk, OnOk};
ghost use Rattle.mmframes.specs.Frames.{frame};
ghost use Rattle.library.specs.declared.library.Ranked.{Ranked};
ghost use Rattle.library.specs.Library.{label_of};
ghost use Rattle.library.specs.Edits.{has};
ghost use Rattle.catalog.specs.Entries.{StandsIn};
ghost use Rattle.catalog.specs.Citers.{AreEntered, Covers, IsCiter};
ghost use Rattle.catalog.specs.Changes.{Succeeds};
ghost use Rattle.history.specs.Drafts.{now_in, Exchanges, KeepsStart};

use super::Draft;
use catalog::{Note, enter, enter_citer, enter_trunk};
use library::Ranked;
use mmsyntax::{Frame, Proof};
use std::alloc::{AllocError, Global};
use std::mem;

impl Draft {
    /// Puts an assertion in the place of another that has the same label and the same frame.
    pub(super) fn replace(&mut self, place: usize, new: Ranked) -> Result<(), AllocError>
        requires succeeds { Succeeds self.old.setting.prelude self.old.entries place new }
        requires covered { Covers self.old.citers (set self.old.entries place (Some new)) }
        ensures done { OnOk result (Exchanges self.old place (Some new) self.new) }
        ensures kept { KeepsStart self.old self.new }
    {
        self.notes.reserve(1)?;
        let former = mem::replace(&mut self.entries[place], Some(new));
        self.notes.push_reserved(Note { place, former });
        Ok(())
    }

    /// Takes the assertion from a place that has one.
    pub(super) fn remove(&mut self, place: usize) -> Result<(), AllocError>
        requires { (e : Ranked) × StandsIn self.old.entries place e }
        ensures done { OnOk result (Exchanges self.old place None self.new) }
        ensures kept { KeepsStart self.old self.new }
    {
        self.notes.reserve(1)?;
        let former = self.entries[place].take();
        self.notes.push_reserved(Note { place, former });
        self.count -= 1;
        Ok(())
    }

    /// Puts an assertion, whose label is free, in a place that has its frame. All memory that it takes is taken before the library
    /// changes.
    pub(super) fn put(&mut self, alloc: Global, place: usize, new: Ranked) -> Result<(), AllocError>
        requires free { has (now_in self.old) (label_of new) ≡ false }
        requires framed { slice_get self.old.frames place ≡ Some (frame self.old.setting.prelude new.assertion) }
        requires covered { Covers self.old.citers (set self.old.entries place (Some new)) }
        ensures done { OnOk result (Exchanges self.old place (Some new) self.new) }
        ensures kept { KeepsStart self.old self.new }
    {
        let label = new.assertion.label.as_slice();
        let key = Vec::from_slice(alloc, label)?;
        self.notes.reserve(1)?;
        enter_trunk(alloc, &mut self.trunks, label)?;
        self.places.insert(key, place)?;
        let former = mem::replace(&mut self.entries[place], Some(new));
        self.count += usize::from(former.is_none());
        self.notes.push_reserved(Note { place, former });
        Ok(())
    }

    /// One more place, empty, for an assertion of this frame. The library stays.
    pub(super) fn open_place(&mut self, alloc: Global, frame: Frame) -> Result<usize, AllocError>
        ensures place { IfOk result (λ p. p ≡ length self.old.entries) }
        ensures entries { OnOk result (self.new.entries ≡ self.old.entries ++ None ∷ []) }
        ensures frames { OnOk result (self.new.frames ≡ self.old.frames ++ frame ∷ []) }
        ensures kept { KeepsStart self.old self.new }
    {
        self.entries.reserve(1)?;
        self.frames.reserve(1)?;
        self.citers.push(Vec::new(alloc))?;
        self.frames.push_reserved(frame);
        self.entries.push_reserved(None);
        Ok(self.entries.len() - 1)
    }

    /// Puts a place into the list of each assertion that some steps cite. The library stays.
    pub(super) fn cite(&mut self, place: usize, steps: &Proof) -> Result<(), AllocError>
        ensures entered { OnOk result (AreEntered self.new.citers self.new.entries steps.now place) }
        ensures covered { Covers self.new.citers self.new.entries }
        ensures entries { self.new.entries ≡ self.old.entries }
        ensures frames { self.new.frames ≡ self.old.frames }
        ensures kept { KeepsStart self.old self.new }
    {
        enter_citer(
            self.entries.as_slice(),
            &self.places,
            self.citers.as_mut_slice(),
            steps,
            place,
        )
    }
    /// Puts a place into the list of the assertion at another. The library stays.
    pub(super) fn list_citer(&mut self, cited: usize, place: usize) -> Result<(), AllocError>
        requires { (e : Ranked) × StandsIn self.old.entries cited e }
        ensures listed { OnOk result (IsCiter self.new.citers cited place) }
        ensures entries { self.new.entries ≡ self.old.entries }
        ensures frames { self.new.frames ≡ self.old.frames }
        ensures kept { KeepsStart self.old self.new }
    {
        enter(&mut self.citers[cited], place)
    }
}
