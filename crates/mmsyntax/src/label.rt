//! Labels, in the order of their bytes.

ghost use Rattle.std.specs.Prelude.{◌≡◌, ◌++◌, ◌∷◌, [], IfOk, OnOk};
ghost use Rattle.std.proofs.Common.{rules};
ghost use Rattle.std.specs.Cmp.{partial_order_from_own_ties};
ghost use Rattle.std.specs.Cmp.Rules.{comparing};
ghost use Rattle.std.specs.Cmp.Lexicographic.{slice_cmp};
ghost use Rattle.std.specs.Ordering.{nat_cmp, as_partial_cmp};
ghost use Rattle.std.specs.Str.{bytes_eq};

use std::alloc::{AllocError, Global};
use std::cmp::Ordering;
use std::marker::Model;

/// The bytes of a label. Contracts see the list of them.
#[derive(Debug)]
pub struct Label {
    bytes: Vec<u8>,
}

impl Model for Label {
    ghost use Rattle.std.specs.Prelude.{List, ℕ};

    ghost Value = { List ℕ };

    ghost view = { λ l. l.bytes.items };
}

// A drop of its own is proved here once: a derived one is proved again in each crate that drops a label.
impl Drop for Label {
    fn drop(self) {
        let Label { bytes: _ } = self;
    }
}

impl Label {
    /// No byte yet.
    pub fn new(alloc: Global) -> Label
        ensures { result ≡ [] }
    {
        Label {
            bytes: Vec::new(alloc),
        }
    }

    /// The label of these bytes.
    pub fn from_slice(alloc: Global, bytes: &[u8]) -> Result<Label, AllocError>
        ensures { IfOk result (λ made. made ≡ bytes.now) }
    {
        Ok(Label {
            bytes: Vec::from_slice(alloc, bytes)?,
        })
    }

    /// One more byte.
    pub fn push(&mut self, byte: u8) -> Result<(), AllocError>
        ensures { OnOk result (self.new ≡ self.old ++ byte ∷ []) }
    {
        self.bytes.push(byte).map_err(AllocError::from)?;
        Ok(())
    }

    /// The label's bytes.
    pub fn as_slice(&self) -> &[u8]
        ensures { result.now ≡ self.now }
    {
        self.bytes.as_slice()
    }

    /// An equal label.
    pub fn copy(&self, alloc: Global) -> Result<Label, AllocError>
        ensures { IfOk result (λ made. made ≡ self.now) }
    {
        Label::from_slice(alloc, self.as_slice())
    }
}

impl PartialEq for Label {
    ghost eq = { bytes_eq };

    ghost laws = { Prim.search (comparing, rules) };

    fn eq(&self, other: &Label) -> bool {
        self.as_slice() == other.as_slice()
    }
}

impl Eq for Label {
    ghost laws = { Prim.search (comparing, rules) };
}

impl PartialOrd for Label {
    ghost partial_cmp = { as_partial_cmp (slice_cmp nat_cmp) };

    ghost laws = { partial_order_from_own_ties (Prim.search (comparing, rules)) (Prim.search (comparing, rules)) };

    fn partial_cmp(&self, other: &Label) -> Option<Ordering> {
        Some(self.cmp(other))
    }
}

impl Ord for Label {
    ghost cmp = { slice_cmp nat_cmp };

    ghost total = { Prim.search (comparing, rules) };

    ghost matches_partial_cmp = { Prim.search (comparing, rules) };

    ghost matches_eq = { Prim.search (comparing, rules) };

    fn cmp(&self, other: &Label) -> Ordering {
        self.as_slice().cmp(other.as_slice())
    }
}
