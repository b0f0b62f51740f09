//! What is asked of texts.

/// What is to be done with the texts of a command line.
#[derive(Clone, Copy, Debug, PartialEq, Eq)]
pub enum Task {
    /// Checks the proofs of a database.
    Check,
    /// Runs scripts over a database, with so many workers, in a store with room for so many words, if a room is given, and else for as
    /// many as the run can need. The text of the history may be asked for.
    Run {
        workers: usize,
        room: Option<usize>,
        history: bool,
    },
    /// Does a history again over a database.
    Replay,
}
