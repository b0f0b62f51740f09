//! What is told of a run of scripts beside what it prints.

use crate::counts::Counts;
use editscripts::Replies;

/// What is told of a run.
#[derive(Debug, Drop)]
pub struct Account {
    /// How many transactions were done, and how many were not.
    pub counts: Counts,
    /// A line for each transaction that wasn't done, by the scripts and in their order.
    pub undone: Vec<String>,
    /// A line for each place at which a comment of what is printed speaks of an assertion that was deleted.
    pub spoken: Vec<String>,
    /// The lines that say which labels of the source that no assertion has any more comments of what is printed still mention.
    pub mentions: Vec<String>,
    /// What became of each transaction. None where it isn't asked for.
    pub replies: Option<Replies>,
}
