//! Histories: what became of each number that was drawn.

use crate::command::{Replies, Transaction};
use mmsyntax::Sequence;

/// An entry of a history.
#[derive(Debug, Drop)]
pub enum Entry {
    /// The number was drawn by a transaction that then failed.
    Void,
    /// The transaction that committed with this number, with the reply to each command.
    Done {
        commands: Transaction,
        replies: Replies,
    },
}

/// The entries of a history, in the order of their numbers: the first has the number 1.
pub type History = Sequence<Entry>;
