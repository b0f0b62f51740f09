//! A library as a plain value.

ghost use Rattle.std.specs.Prelude.{◌≡◌, IfOk};
ghost use Rattle.library.specs.Library.{Verifies, IsInExportOrder, ShowsInOrder, entry_cmp};

use mmsyntax::{Assertion, Prelude, Sequence};
use std::alloc::{AllocError, Global};
use std::cmp::Ordering;
use std::marker::Model;

/// An assertion of a library, with its rank. A proof cites only assertions of lower rank.
#[derive(Debug, Drop)]
pub struct Ranked {
    /// From 1 to 4,294,967,295.
    pub rank: u32,
    pub assertion: Assertion,
}

impl Ranked {
    /// An equal assertion with its rank.
    pub fn copy(&self, alloc: Global) -> Result<Ranked, AllocError>
        ensures { IfOk result (λ made. made ≡ self.now) }
    {
        Ok(Ranked {
            rank: self.rank,
            assertion: self.assertion.copy(alloc)?,
        })
    }
}

/// A library that verifies, in export order: by rank, then by the bytes of the label.
pub struct PlainLibrary {
    prelude: Prelude,
    slots: usize,
    entries: Sequence<Ranked>,
}

// Proved here once: a derived drop is proved again in each crate that drops such a value.
impl Drop for PlainLibrary {
    fn drop(self) {
        let PlainLibrary {
            prelude: _,
            slots: _,
            entries: _,
        } = self;
    }
}

impl Model for PlainLibrary {
    ghost use Rattle.library.specs.Library.{Listed, Verifies, IsInExportOrder};

    ghost Value = { Listed };

    ghost view = { λ l. record { setting = record { prelude = l.prelude; slots = l.slots }; entries = l.entries } };

    ghost invariant = { λ l. Verifies (record { prelude = l.prelude; slots = l.slots }) l.entries × IsInExportOrder l.entries };
}

impl PlainLibrary {
    /// The library of these assertions, over a prelude, with room for `slots` of them. They may come in any order: they
    /// are sorted by rank, then by the bytes of the label. It takes no memory.
    pub fn sorted(prelude: Prelude, slots: usize, mut entries: Vec<Ranked>) -> Self
        requires { Verifies (record { prelude = prelude; slots = slots }) entries.items }
        ensures setting { result.setting ≡ record { prelude = prelude; slots = slots } }
        ensures shown { ShowsInOrder entries.items result.entries }
    {
        entries.sort_unstable_by(compare);
        PlainLibrary {
            prelude,
            slots,
            entries: Sequence::from_vec(entries),
        }
    }

    /// The prelude of its assertions.
    pub fn prelude(&self) -> &Prelude
        ensures { result.now ≡ self.now.setting.prelude }
    {
        &self.prelude
    }

    /// How many assertions it may hold.
    pub fn slots(&self) -> usize
        ensures { result ≡ self.now.setting.slots }
    {
        self.slots
    }

    /// The assertions with their ranks, in export order.
    pub fn entries(&self) -> &[Ranked]
        ensures value { result.now ≡ self.now.entries }
        ensures verifies { Verifies self.now.setting self.now.entries }
        ensures ordered { IsInExportOrder self.now.entries }
    {
        self.entries.as_slice()
    }

    /// An equal library.
    pub fn copy(&self, alloc: Global) -> Result<PlainLibrary, AllocError>
        ensures { IfOk result (λ made. made ≡ self.now) }
    {
        Ok(PlainLibrary {
            prelude: self.prelude.copy(alloc)?,
            slots: self.slots,
            entries: copy_entries(alloc, self.entries.as_slice())?,
        })
    }
}

fn copy_entries(alloc: Global, entries: &[Ranked]) -> Result<Sequence<Ranked>, AllocError>
    ensures { IfOk result (λ made. made ≡ entries.now) }
{
    let mut made = Vec::new(alloc);
    for entry in entries {
        made.push(entry.copy(alloc)?)?;
    }
    Ok(Sequence::from_vec(made))
}

/// The export order of two assertions: by rank, then by the bytes of the label.
fn compare(a: &Ranked, b: &Ranked) -> Ordering
    ensures { result ≡ entry_cmp a.now b.now }
{
    a.rank
        .cmp(&b.rank)
        .then_with(|| a.assertion.label.cmp(&b.assertion.label))
}
