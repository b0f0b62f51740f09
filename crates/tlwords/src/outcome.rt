//! How a run ends.
#![tactic(auto)]

/// A look that ended a run.
#[derive(Clone, Copy)]
pub struct Conflict {
    /// The cell, from 0.
    pub cell: usize,
    /// The lock word that was found.
    pub word: u64,
    /// The lock word that the run's newest read of the cell had found. None exactly where no read of the cell had ended, and in a run that
    /// only reads, which keeps none.
    pub before: Option<u64>,
}

/// What a commit answers.
#[derive(Clone, Copy)]
pub enum Outcome {
    /// It wrote, and this is its number, from 1.
    Committed(u64),
    /// It wrote nothing, and saw all that had committed at this place.
    Read(u64),
    /// It met a conflict, and nothing was written.
    Conflict {
        /// The look or the try to lock that ended the run.
        conflict: Conflict,
        /// The number that this commit has drawn, from 1: it is used up. None where it has drawn none.
        drawn: Option<u64>,
    },
    /// The pass has drawn 2^40 numbers, and nothing was written.
    NumbersUsed,
}
