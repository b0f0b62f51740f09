//! The text of what stands in a source then.

ghost use Rattle.std.specs.Prelude.{◌≡◌, ◌≤◌, ◌<◌, ◌++◌, ◌∷◌, [], List, ℕ, false, IfNone, IfOk, IfSome, IsTrue, MatchOption, drop, take};
ghost use Rattle.std.specs.Prelude.{length, slice_range};
ghost use Rattle.items.specs.Bare.{HasBare};
ghost use Rattle.items.specs.Items.{Item as Pieces, Spells};
ghost use Rattle.items.specs.Reading.{AreFound, AreItems, IsBehind};
ghost use Rattle.items.specs.Machine.{IsPut};
ghost use Rattle.arranging.specs.declared.coming.Placed.{Placed as Placing};
ghost use Rattle.arranging.specs.Parts.{Edited};
ghost use Rattle.arranging.specs.Arranged.{Says, ReadThen, IsTextOf, IsLayout};
ghost use Rattle.arranging.specs.Printing.{SaysNext};

use crate::coming::{Coming, Placed};
use giving::LabelMap;
use items::{Item, put_item};
use std::alloc::{AllocError, Global};

/// A source, and how its items read then.
#[derive(Clone, Copy)]
pub(crate) struct Source<'s> {
    pub text: &'s [u8],
    /// Its items.
    pub items: &'s [Item<'s>],
    /// The labels that change.
    pub changes: &'s LabelMap<'s>,
    /// The proofs that change, by the labels of their theorems.
    pub proofs: &'s LabelMap<'s>,
}

impl Source<'_> {
    /// Behind so many items: a byte of the text.
    fn behind(self, count: usize) -> usize
        requires items { AreItems self.text.now self.items.now }
        requires count { count ≤ length self.items.now }
        ensures behind { (old : List Pieces) → AreFound self.entry.text.now 0 self.entry.items.now old
            → IsBehind self.entry.text.now 0 self.entry.items.now old count result }
        ensures within { result ≤ length self.entry.text.now }
    {
        if count == 0 {
            0
        } else {
            self.items[count - 1].end
        }
    }

    /// Puts the items from a place up to another. Whether they could be put: no proof is for an axiom.
    fn put_items(self, out: &mut Vec<u8>, first: usize, end: usize) -> Result<bool, AllocError>
        requires { AreItems self.text.now self.items.now }
        ensures bare { IfOk result (λ put. put ≡ false → HasBare self.entry.proofs.now self.entry.text.now) }
        ensures put { (old : List Pieces) → AreFound self.entry.text.now 0 self.entry.items.now old
            → IfOk result (λ put. IsTrue put → IsPut out.old.items out.new.items
            (ReadThen self.entry.changes.now self.entry.proofs.now (slice_range old first end))) }
    {
        let Some(items) = self.items.get(first..end.min(self.items.len())) else {
            return Ok(true);
        };
        let mut at = self.behind(first);
        for item in items {
            if !put_item(out, self.changes, self.proofs, self.text, at, *item)? {
                return Ok(false);
            }
            at = item.end;
        }
        Ok(true)
    }

    /// Puts what comes. Whether it could be put.
    fn put_coming(self, out: &mut Vec<u8>, coming: Coming<'_>) -> Result<bool, AllocError>
        requires { AreItems self.text.now self.items.now }
        ensures bare { IfOk result (λ put. put ≡ false → HasBare self.entry.proofs.now self.entry.text.now) }
        ensures put { (old : List Pieces) → AreFound self.entry.text.now 0 self.entry.items.now old
            → IfOk result (λ put. IsTrue put → IsPut out.old.items out.new.items
            (IsTextOf self.entry.changes.now self.entry.proofs.now old coming.entry)) }
    {
        out.extend_from_slice(coming.front)?;
        let is_put = self.put_items(out, coming.first, coming.end)?;
        out.extend_from_slice(coming.back)?;
        Ok(is_put)
    }

    /// Puts what stands next, in front of which so many items of the source stand. So many stand in front of what follows then: none where
    /// it couldn't be put.
    fn put(
        self,
        out: &mut Vec<u8>,
        place: usize,
        placed: Placed<'_>,
    ) -> Result<Option<usize>, AllocError>
        requires { AreItems self.text.now self.items.now }
        ensures bare { (e : Edited) (old : List Pieces) (ps : List Placing) → AreFound self.entry.text.now 0 self.entry.items.now old
            → IsLayout e (take place old) (drop place old) (placed.entry ∷ ps)
            → IfOk result (λ put. MatchOption put (HasBare self.entry.proofs.now self.entry.text.now)
            (λ next. IsLayout e (take next old) (drop next old) ps)) }
        ensures put { (old : List Pieces) → AreFound self.entry.text.now 0 self.entry.items.now old
            → IfOk result (λ put. IfSome put (λ next. IsPut out.old.items out.new.items
            (SaysNext self.entry.changes.now self.entry.proofs.now old placed.entry place next))) }
    {
        match placed {
            Placed::Comes(coming) => Ok(self.put_coming(out, coming)?.then_some(place)),
            Placed::Stays if place < self.items.len() => {
                Ok(self.put_items(out, place, place + 1)?.then_some(place + 1))
            }
            Placed::Goes if place < self.items.len() => Ok(Some(place + 1)),
            _ => Ok(None),
        }
    }

    /// The text of what stands then by a layout of the items. None where a proof is for an axiom.
    pub(crate) fn print(
        self,
        alloc: Global,
        layout: &[Placed<'_>],
    ) -> Result<Option<Vec<u8>>, AllocError>
        requires { AreItems self.text.now self.items.now }
        ensures bare { (e : Edited) (old : List Pieces) → AreFound self.entry.text.now 0 self.entry.items.now old
            → IsLayout e [] old layout.now → IfOk result (λ made. IfNone made (HasBare self.entry.proofs.now self.entry.text.now)) }
        ensures printed { (old : List Pieces) → AreFound self.entry.text.now 0 self.entry.items.now old
            → IfOk result (λ made. IfSome made (λ out. (rest : List ℕ) × Spells old rest self.entry.text.now
            × Says self.entry.changes.now self.entry.proofs.now old rest old layout.now out.items)) }
    {
        let mut out = Vec::with_capacity(alloc, self.text.len())?;
        let mut place = 0;
        for placed in layout {
            let Some(next) = self.put(&mut out, place, *placed)? else {
                return Ok(None);
            };
            place = next;
        }
        if place < self.items.len() {
            return Ok(None);
        }
        out.extend_from_slice(&self.text[self.behind(self.items.len())..])?;
        Ok(Some(out))
    }
}
