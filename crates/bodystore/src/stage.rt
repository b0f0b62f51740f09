//! The ranges that a session has staged since its last Committed.

ghost use Rattle.std.specs.Prelude.{◌≡◌, length, OnOk, OnErr};
ghost use Rattle.std.specs.Option.{option_map};
ghost use Rattle.std.specs.FinMap as map;
ghost use Rattle.bodystore.specs.Stages.{range_at};

use ranges::Range;
use std::alloc::{AllocError, Global};
use std::collections::HashMap;
use std::hash::RandomState;
use std::marker::Model;

/// Staged ranges, found by their words with one look-up. Contracts see the map from the words of each range to where it starts.
///
/// A body whose words are those of a range that is found takes that range, and needs no words of the store.
pub struct Stage {
    starts: HashMap<Vec<u64>, usize, RandomState>,
}

// Proved here once: a derived drop is proved again in each crate that drops such a value.
impl Drop for Stage {
    fn drop(self) {
        let Stage { starts: _ } = self;
    }
}

impl Model for Stage {
    ghost use Rattle.std.specs.Prelude.{ℕ};
    ghost use Rattle.std.specs.Coded.{coded_ℕ, coded_list};
    ghost use Rattle.std.specs.FinMap as map;
    ghost use Rattle.bodystore.specs.Stages.{Staged, staged_in};

    ghost Value = { Staged };

    ghost coded = { map.code (coded_list coded_ℕ) coded_ℕ };

    ghost view = { λ s. staged_in s.starts };
}

impl Stage {
    /// No range is staged. The map draws its hashes from the keys.
    pub fn new(alloc: Global, keys: RandomState) -> Self
        ensures { result ≡ map.empty }
    {
        Stage {
            starts: HashMap::with_hasher(alloc, keys),
        }
    }

    /// The range that was noted with these words, if one was: one look-up.
    #[tactic(auto, using(crate::proofs::Staging::looked_up))]
    pub fn find(&self, words: &[u64]) -> Option<Range>
        ensures { result ≡ option_map (range_at words.now) (map.get self.now words.now) }
    {
        let start = *self.starts.get(words)?;
        Some(Range {
            start,
            len: words.len(),
        })
    }

    /// Notes that a range has these words.
    ///
    /// # Errors
    ///
    /// Want of memory: the stage is as it was.
    #[tactic(auto, using(crate::proofs::Staging::noted))]
    pub fn note(&mut self, alloc: Global, words: &[u64], range: Range) -> Result<(), AllocError>
        requires { range.len ≡ length words.now }
        ensures ok { OnOk result (self.new ≡ map.insert self.old words.now range.start) }
        ensures err { OnErr result (self.new ≡ self.old) }
    {
        let key = Vec::from_slice(alloc, words)?;
        self.starts.insert(key, range.start)?;
        Ok(())
    }

    /// Forgets all ranges, after a Committed.
    pub fn clear(&mut self)
        ensures { self.new ≡ map.empty }
    {
        self.starts.clear();
    }
}
