//! A quick hash of words by a key that was drawn.

use std::hash::{BuildHasher, FoldHasher, Hasher, RandomState};

/// The key of hashes. Who doesn't know it can't tell which words share a place of a map.
#[derive(Clone, Copy)]
pub struct WordKeys {
    begun: FoldHasher,
}

impl WordKeys {
    /// A key by one that was drawn.
    pub fn new(keys: RandomState) -> WordKeys {
        let mut begun = FoldHasher::default();
        begun.write_u64(keys.hash_one(0_u64));
        WordKeys { begun }
    }
}

impl BuildHasher for WordKeys {
    type Hasher = FoldHasher;

    ghost build_hasher = { λ s. s.begun };

    fn build_hasher(&self) -> FoldHasher {
        self.begun
    }
}
