//! What an edit is asked to do.

/// What an edit is asked to do.
#[derive(Clone, Copy)]
pub struct EditOrder<'o> {
    /// The path of the source.
    pub path: &'o str,
    /// The paths of the source and of the scripts.
    pub paths: &'o [&'o str],
    /// How many workers run the scripts, 1 to 64.
    pub workers: usize,
    /// For how many words the store of the run has room, at most 16,777,216, if that is given.
    pub room: Option<usize>,
    /// Whether scripts may do what comments of the source discourage.
    pub force: bool,
    /// Whether the source is printed also where not all transactions were done.
    pub partial: bool,
    /// Whether it is told what became of each transaction.
    pub with_replies: bool,
}
