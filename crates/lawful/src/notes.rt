//! What contracts are told of a library in running words, and of its transactions. A snapshot has no bytes: what it is of is for
//! contracts alone.

use library::{PlainLibrary, Refused, Reply, Transaction};
use mmsyntax::{Database, Sequence};
use std::snapshot::Snapshot;

/// What all transactions on a library share: the opening database, and how many slots the library has.
#[derive(Drop)]
pub struct Given {
    pub database: Snapshot<Database>,
    pub slots: usize,
}

/// What a transaction says of itself.
#[derive(Drop)]
pub enum Note {
    /// The commands are done, with these replies.
    Done {
        commands: Snapshot<Transaction>,
        replies: Snapshot<Sequence<Reply>>,
    },
    /// One of the commands is refused, and so the transaction is.
    Refused {
        commands: Snapshot<Transaction>,
        refused: Snapshot<Refused>,
    },
    /// The library was looked at, and it is this.
    Looked {
        library: Snapshot<PlainLibrary>,
    },
}
