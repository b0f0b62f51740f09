//! What becomes of a transaction, and of a number that it drew.

ghost use Rattle.std.specs.Prelude.{◌≡◌};
ghost use Rattle.transaction.specs.Meeting.{conflict_of, look_met, met_at, refusal_of};

use library::{PlainLibrary, Reason, Refused, Replies, Reply, Transaction};
use mmsyntax::Sequence;

/// What becomes of a transaction.
#[derive(Debug, Drop)]
pub enum Outcome {
    /// It is the entry of the history with this number, from 1; a command of it is an edit. The session's record of the number shares the
    /// replies.
    Committed {
        number: u64,
        replies: Replies,
    },
    /// It only read: the library after the first `place` entries. Nobody else has the replies.
    Read {
        place: u64,
        replies: Sequence<Reply>,
    },
    /// A command is refused over the library after the first `place` entries, and with it the transaction: it changed nothing.
    Refused {
        place: u64,
        /// Which command of the transaction, from 1.
        index: usize,
        reason: Reason,
    },
    /// It met another session, and changed nothing.
    Conflict {
        /// How many numbers were drawn before the try, as its one load of the clock found it.
        place: u64,
        /// The cell, from 0.
        cell: usize,
        /// The lock word that was found there: it is odd where the cell was locked, and half of it is the number of the last transaction
        /// that wrote the cell, or 0.
        word: u64,
        /// The lock word that this try's newest read of the cell had found. None exactly where no read of the cell had ended, and in each
        /// try that keeps no reads, as one without an edit. Where `word` is even, and half of it at most `place`, there is one, and it is
        /// another than `word`.
        before: Option<u64>,
    },
    /// The store had no room for a body that this try was to stage: it was too small behind its tail, or had been so for a body that this
    /// session was to stage before. The run met no conflict, and changed nothing.
    StoreFull,
    /// The session had drawn 2^40 numbers before this try. It changed nothing.
    NumbersUsed,
    /// It has more than 16 commands. Nothing was done.
    TooManyCommands,
    /// Memory ran out, in a run that met no conflict and lacked no room. It changed nothing.
    NoMemory,
}

/// What a look at the whole library gives.
#[derive(Drop)]
pub enum Look {
    /// The library after the first `place` entries.
    Read {
        place: u64,
        library: PlainLibrary,
    },
    /// It met another session; its fields are those of an `Outcome::Conflict`. A look keeps no reads, so `before` is none.
    Conflict {
        place: u64,
        cell: usize,
        word: u64,
        before: Option<u64>,
    },
    /// Memory ran out, in a run that met no conflict.
    NoMemory,
}

/// What became of a number that a session drew.
#[derive(Debug, Drop)]
pub struct Record {
    /// From 1.
    pub number: u64,
    /// The transaction that committed with the number, with its replies; none where it met a conflict then. Its script shares the commands,
    /// and its outcome the replies.
    pub done: Option<(Transaction, Replies)>,
}

/// The outcome of a run at a place that met this conflict.
pub(crate) fn conflict(place: u64, found: tlwords::Conflict) -> Outcome
    ensures { result ≡ conflict_of (met_at place found) }
{
    Outcome::Conflict {
        place,
        cell: found.cell,
        word: found.word,
        before: found.before,
    }
}

/// What a look at a place gives that met this conflict.
pub(crate) fn look_conflict(place: u64, found: tlwords::Conflict) -> Look
    ensures { result ≡ look_met (met_at place found) }
{
    Look::Conflict {
        place,
        cell: found.cell,
        word: found.word,
        before: found.before,
    }
}

/// The outcome of a run at a place of which a command is refused.
pub(crate) fn refusal(place: u64, refused: Refused) -> Outcome
    ensures { result ≡ refusal_of place refused }
{
    let Refused { index, reason } = refused;
    Outcome::Refused {
        place,
        index,
        reason,
    }
}
