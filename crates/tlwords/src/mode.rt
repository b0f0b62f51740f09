//! What a run may do.
#![tactic(auto)]

/// What a run may do, and what it keeps of its reads.
#[derive(Clone, Copy, Debug, PartialEq, Eq)]
pub enum Mode {
    /// It only reads, and keeps none of its reads: each is tested against the run's place, and nothing is left to look at again.
    Reading,
    /// It reads and writes, and keeps the lock word of each cell that it has read, for its commit.
    Writing,
}
