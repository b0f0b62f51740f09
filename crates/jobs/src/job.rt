//! What the program is asked to do, and what it prints.

/// A job over texts: what files hold, as bytes.
#[derive(Debug, Drop)]
pub enum Job {
    /// Checks the proofs of a database.
    Check {
        db: Vec<u8>,
    },
    /// Runs the scripts over the library of a database, with so many workers, 1 to 64, each of which claims the next script. The store of
    /// the library has room for so many words, at most 16,777,216.
    Run {
        db: Vec<u8>,
        scripts: Vec<Vec<u8>>,
        workers: usize,
        room: usize,
    },
    /// Does the transactions of a history again, over the library of a database, and compares their replies.
    Replay {
        db: Vec<u8>,
        history: Vec<u8>,
    },
}

/// What is asked of a run besides its job. Of other jobs nothing is.
#[derive(Clone, Copy, Debug, PartialEq, Eq)]
pub struct RunOptions {
    /// Whether the store has room for as many words as the run can need, where these are more than those of the job.
    pub may_grow: bool,
    /// Whether the text of the history is made.
    pub history: bool,
}

/// What a job prints.
#[derive(Debug, Drop)]
pub struct Printed {
    /// The text for the standard output.
    pub out: Vec<u8>,
    /// The text of a run's history, where it is asked for: for each number, from 1, the transaction that was committed with it, with its
    /// replies, or nothing. Else empty, as for other jobs.
    pub history: Vec<u8>,
}
