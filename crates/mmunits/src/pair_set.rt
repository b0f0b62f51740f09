//! Restricted pairs, ascending. Those that stand already are soon found, since a text may restrict the same ones again and again.

ghost use Rattle.std.specs.Prelude.{◌≡◌, [], length, IsTrue, IfOk, OnOk};
ghost use Rattle.mmsyntax.specs.Blocks.{with_pair, with_pairs};

use std::alloc::{AllocError, Global};
use std::collections::BTreeSet;
use std::hash::{BuildHasher, RandomState};
use std::marker::Model;

/// How many pairs are kept in the tree alone, whose few levels are as soon walked.
const FEW: usize = 64;
/// How many cells there are at first. It is a power of two, as is every later count.
const FIRST_CELLS: usize = 256;
/// How many cells a pair may stand in: its own and those behind.
const REACH: usize = 8;

/// Pairs, each once, in a tree. Each cell has a pair that stands, and most pairs that stand have a cell, which is sooner found. A pair's
/// own cell depends on a factor drawn by chance, so no text can choose pairs that meet in one.
#[derive(Drop)]
pub(crate) struct PairSet {
    pairs: BTreeSet<(u32, u32)>,
    cells: Vec<(u32, u32)>,
    /// The pair in the cells that no other has taken yet.
    filler: (u32, u32),
    factor: u64,
    alloc: Global,
    keys: RandomState,
}

impl Model for PairSet {
    ghost use Rattle.std.specs.Prelude.{ℕ, List};
    ghost use Rattle.mmunits.specs.StandingPairs.{StandAmong};

    ghost Value = { List (ℕ × ℕ) };

    ghost view = { λ s. s.pairs.keys };

    ghost invariant = { λ s. StandAmong s.pairs.keys s.cells.items };
}

impl PairSet {
    /// A set without a pair. Its tables draw their hashes from these keys.
    pub fn new(alloc: Global, keys: RandomState) -> Self
        ensures { result ≡ [] }
    {
        PairSet {
            pairs: BTreeSet::new(alloc),
            cells: Vec::new(alloc),
            filler: (0, 0),
            factor: 1,
            alloc,
            keys,
        }
    }

    /// How many pairs stand.
    pub fn len(&self) -> usize
        ensures { result ≡ length self.now }
    {
        self.pairs.len()
    }

    /// Puts the pairs of a variable and earlier ones.
    pub fn put_all(&mut self, variable: u32, earlier: &[u32]) -> Result<(), AllocError>
        ensures { OnOk result (self.new ≡ with_pairs variable earlier.now self.old) }
    {
        for other in earlier {
            let pair = if *other < variable {
                (*other, variable)
            } else {
                (variable, *other)
            };
            self.put(pair)?;
        }
        Ok(())
    }

    /// Puts a pair in its place, if it isn't there.
    fn put(&mut self, pair: (u32, u32)) -> Result<(), AllocError>
        ensures { OnOk result (self.new ≡ with_pair pair self.old) }
    {
        let place = cell_for(&self.cells, own_cell(pair, self.factor), self.filler, pair);
        if self.is_noted(place, pair) {
            return Ok(());
        }
        self.pairs.insert(pair)?;
        self.note(place, pair)
    }

    /// Whether a cell has a pair, which then stands.
    fn is_noted(&self, place: usize, pair: (u32, u32)) -> bool
        ensures { IsTrue result → with_pair pair self.now ≡ self.now }
    {
        place < self.cells.len() && self.cells[place] == pair
    }

    /// Notes a pair that stands, in a cell if there is such a one.
    fn note(&mut self, place: usize, pair: (u32, u32)) -> Result<(), AllocError>
        requires { with_pair pair self.old ≡ self.old }
        ensures { self.new ≡ self.old }
    {
        let count = self.len();
        if count > FEW && self.cells.len() / 2 < count {
            return self.widen(pair);
        }
        if place < self.cells.len() {
            self.cells[place] = pair;
        }
        Ok(())
    }

    /// Makes twice the cells, with one pair in all. The others are noted when they come again.
    fn widen(&mut self, pair: (u32, u32)) -> Result<(), AllocError>
        requires { with_pair pair self.old ≡ self.old }
        ensures { self.new ≡ self.old }
    {
        let count = self.cells.len().saturating_mul(2).max(FIRST_CELLS);
        self.cells = vec![in self.alloc; pair; count]?;
        self.filler = pair;
        self.factor = self.keys.hash_one(0u64) | 1;
        Ok(())
    }

    /// The pairs, ascending.
    pub fn into_vec(self, alloc: Global) -> Result<Vec<(u32, u32)>, AllocError>
        ensures { IfOk result (λ v. v.items ≡ self) }
    {
        let mut out = Vec::new(alloc);
        for pair in self.pairs {
            out.push(pair)?;
        }
        Ok(out)
    }
}

/// A number drawn from a pair and the factor. Its lowest bits, as many as the count of cells needs, are the pair's own cell.
fn own_cell(pair: (u32, u32), factor: u64) -> usize {
    let first = (pair.0 as u64).wrapping_mul(factor);
    let both = first.wrapping_add(pair.1 as u64).wrapping_mul(factor);
    (both >> 40) as usize
}

/// Where a pair stands or may stand: in the first cell that has it or that no other has taken, else in its own. Only a hint: what stands
/// in the cell is looked at.
fn cell_for(cells: &[(u32, u32)], own: usize, filler: (u32, u32), pair: (u32, u32)) -> usize {
    let mask = cells.len().wrapping_sub(1);
    for step in 0..REACH {
        let place = own.wrapping_add(step) & mask;
        match cells.get(place).copied() {
            Some(other) if other != pair && other != filler => (),
            _ => return place,
        }
    }
    own & mask
}
