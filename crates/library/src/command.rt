//! Commands and their replies.

ghost use Rattle.std.specs.Prelude.{◌≡◌, ◌↔◌, IfOk, IsTrue};
ghost use Rattle.library.specs.Edits.{is_edit};
ghost use Rattle.library.specs.Fitting.{CommandFits};
ghost use Rattle.library.specs.Transactions.{has_edit, has_too_many};

use crate::shared::SharedList;
use mmsyntax::{
    Assertion, Kind, Label, MOST_STEPS, Prelude, Proof, Sequence, are_citing_apart, fits,
};
use std::alloc::{AllocError, Global};

/// The highest rank.
const HIGHEST_RANK: u32 = 4_294_967_295;

/// A command on a library.
#[derive(Debug, Drop)]
pub enum Command {
    /// Adds a theorem with a rank.
    Add {
        rank: u32,
        assertion: Assertion,
    },
    /// Gives a theorem another proof.
    Reprove {
        label: Label,
        steps: Proof,
    },
    /// In the proof of a theorem, has each citation of the assertion `old` cite the assertion `new` instead, which says the same.
    Replace {
        label: Label,
        old: Label,
        new: Label,
    },
    /// Gives an assertion another label, in the assertion and in every proof that cites it.
    Rename {
        old: Label,
        new: Label,
    },
    /// Gives an assertion another rank.
    Move {
        label: Label,
        rank: u32,
    },
    /// Removes an assertion that no proof cites.
    Delete {
        label: Label,
    },
    /// Asks for an assertion.
    Show {
        label: Label,
    },
    /// Asks for all assertions, in export order.
    List,
}

impl Command {
    /// Whether the command is within the limits of a prelude: an added assertion fits it, and another proof of L has at most 16,384 steps,
    /// of which none cites `L.k`. Of a rank nothing is asked, as every `u32` is one.
    pub fn fits(&self, prelude: &Prelude) -> bool
        ensures { IsTrue result ↔ CommandFits prelude.now self.now }
    {
        match self {
            Command::Add { rank, assertion } => *rank <= HIGHEST_RANK && fits(prelude, assertion),
            Command::Reprove { label, steps } => {
                steps.len() <= MOST_STEPS && are_citing_apart(label.as_slice(), steps)
            }
            Command::Move { rank, .. } => *rank <= HIGHEST_RANK,
            Command::Replace { .. }
            | Command::Rename { .. }
            | Command::Delete { .. }
            | Command::Show { .. }
            | Command::List => { true }
        }
    }

    /// Whether the command changes the library where it is not refused.
    pub fn is_edit(&self) -> bool
        ensures { result ≡ is_edit self.now }
    {
        match self {
            Command::Add { .. }
            | Command::Reprove { .. }
            | Command::Replace { .. }
            | Command::Rename { .. }
            | Command::Move { .. }
            | Command::Delete { .. } => true,
            Command::Show { .. } | Command::List => false,
        }
    }

    /// An equal command.
    ///
    /// # Errors
    ///
    /// Want of memory.
    pub fn copy(&self, alloc: Global) -> Result<Command, AllocError>
        ensures { IfOk result (λ made. made ≡ self.now) }
    {
        Ok(match self {
            Command::Add { rank, assertion } => Command::Add {
                rank: *rank,
                assertion: assertion.copy(alloc)?,
            },
            Command::Reprove { label, steps } => Command::Reprove {
                label: label.copy(alloc)?,
                steps: steps.copy(alloc)?,
            },
            Command::Replace { label, old, new } => Command::Replace {
                label: label.copy(alloc)?,
                old: old.copy(alloc)?,
                new: new.copy(alloc)?,
            },
            Command::Rename { old, new } => Command::Rename {
                old: old.copy(alloc)?,
                new: new.copy(alloc)?,
            },
            Command::Move { label, rank } => Command::Move {
                label: label.copy(alloc)?,
                rank: *rank,
            },
            Command::Delete { label } => Command::Delete {
                label: label.copy(alloc)?,
            },
            Command::Show { label } => Command::Show {
                label: label.copy(alloc)?,
            },
            Command::List => Command::List,
        })
    }
}

/// What `Command::List` tells of an assertion.
#[derive(Debug, Drop)]
pub struct Line {
    pub rank: u32,
    pub label: Label,
    pub kind: Kind,
    /// The number of assertions whose proof cites it.
    pub citers: u64,
}

impl Line {
    /// An equal line.
    ///
    /// # Errors
    ///
    /// Want of memory.
    pub fn copy(&self, alloc: Global) -> Result<Line, AllocError>
        ensures { IfOk result (λ made. made ≡ self.now) }
    {
        Ok(Line {
            rank: self.rank,
            label: self.label.copy(alloc)?,
            kind: self.kind,
            citers: self.citers,
        })
    }
}

/// The reply to a command that was not refused.
#[derive(Debug, Drop)]
pub enum Reply {
    /// The library was changed.
    Done,
    /// An assertion with its rank, and the number of assertions whose proof cites it.
    Shown {
        rank: u32,
        citers: u64,
        assertion: Assertion,
    },
    /// All assertions, in export order.
    Listed(Sequence<Line>),
}

impl Reply {
    /// An equal reply.
    ///
    /// # Errors
    ///
    /// Want of memory.
    pub fn copy(&self, alloc: Global) -> Result<Reply, AllocError>
        ensures { IfOk result (λ made. made ≡ self.now) }
    {
        Ok(match self {
            Reply::Done => Reply::Done,
            Reply::Shown {
                rank,
                citers,
                assertion,
            } => Reply::Shown {
                rank: *rank,
                citers: *citers,
                assertion: assertion.copy(alloc)?,
            },
            Reply::Listed(lines) => Reply::Listed(copy_lines(alloc, lines.as_slice())?),
        })
    }
}

fn copy_lines(alloc: Global, lines: &[Line]) -> Result<Sequence<Line>, AllocError>
    ensures { IfOk result (λ made. made ≡ lines.now) }
{
    let mut made = Vec::new(alloc);
    for line in lines {
        made.push(line.copy(alloc)?)?;
    }
    Ok(Sequence::from_vec(made))
}

/// The replies to the commands of a transaction, one each, in their order. What became of a transaction, its session's record and its entry
/// in the history share them.
pub type Replies = SharedList<Reply>;

/// The commands of a transaction: all are done, or none. A script, a session's record and an entry of the history share them.
pub type Transaction = SharedList<Command>;

/// The most commands of a transaction.
pub const MOST_COMMANDS: usize = 16;

/// Whether some command of a transaction changes the library where it is not refused.
pub fn has_edit(commands: &[Command]) -> bool
    ensures { result ≡ has_edit commands.now }
{
    commands.iter().any(|command| command.is_edit())
}

/// Whether a transaction has more commands than the bound, which is 16.
pub fn has_too_many(commands: &[Command]) -> bool
    ensures { result ≡ has_too_many commands.now }
{
    commands.len() > MOST_COMMANDS
}

/// The transactions of a script, in order.
pub type Script = Sequence<Transaction>;
