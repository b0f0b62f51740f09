//! An editor at work: transactions one after another, and how many of them are committed.

ghost use Rattle.std.specs.Prelude.{◌≡◌, All, IfOk};
ghost use Rattle.derivation.specs.Databases.{AllCheck};
ghost use Rattle.library.specs.Fitting.{CommandFits};
ghost use Rattle.transaction.specs.Meeting.{refusal_of};
ghost use Rattle.plainediting.specs.Desks.{first_desk, Does, DoesAll};

use history::{ApplyError, Editor, OpenError};
use library::{Command, Refused, SharedList, Transaction, has_edit, has_too_many};
use mmsyntax::{Database, MOST_ASSERTIONS};
use std::alloc::{AllocError, Global};
use std::hash::RandomState;
use transaction::Outcome;

/// An editor, and how many transactions are committed on it.
#[derive(Drop)]
pub(crate) struct Desk {
    pub(crate) editor: Editor,
    pub(crate) committed: u64,
}

impl Desk {
    /// Opens the opening library of a database whose proofs check, with 4,096 slots.
    pub(crate) fn open(alloc: Global, keys: RandomState, db: &Database) -> Result<Desk, AllocError>
        requires { AllCheck db.now }
        ensures { IfOk result (λ desk. desk ≡ first_desk db.now) }
    {
        // For the proof: a database has at most as many assertions as there are slots.
        let _assertions = db.assertions();
        match Editor::open(alloc, keys, db, MOST_ASSERTIONS) {
            Ok(editor) => Ok(Desk {
                editor,
                committed: 0,
            }),
            Err(OpenError::NoMemory) => Err(AllocError),
            Err(OpenError::TooMany) => unreachable!(),
        }
    }

    /// Does a transaction. After want of memory it may be done, and not counted.
    fn take(&mut self, alloc: Global, commands: &[Command]) -> Result<Outcome, AllocError>
        requires { All (CommandFits self.old.editor.setting.prelude) commands.now }
        ensures { IfOk result (λ o. Does self.old commands.now o self.new) }
    {
        if has_too_many(commands) {
            return Ok(Outcome::TooManyCommands);
        }
        let edits = has_edit(commands);
        let place = self.committed;
        match self.editor.apply(alloc, commands) {
            Ok(replies) if edits => {
                let replies = SharedList::from_vec(alloc, replies.into_vec())?;
                // No memory holds as many outcomes as there are numbers.
                let number = place.checked_add(1).ok_or(AllocError)?;
                self.committed = number;
                Ok(Outcome::Committed { number, replies })
            }
            Ok(replies) => Ok(Outcome::Read { place, replies }),
            Err(ApplyError::Refused(refused)) => Ok(refusal(place, refused)),
            Err(ApplyError::NoMemory) => Err(AllocError),
        }
    }

    /// Does transactions one after another, whatever becomes of them.
    pub(crate) fn take_all(
        &mut self,
        alloc: Global,
        transactions: &[Transaction],
    ) -> Result<Vec<Outcome>, AllocError>
        requires { All (All (CommandFits self.old.editor.setting.prelude)) transactions.now }
        ensures { IfOk result (λ outcomes. DoesAll self.old transactions.now outcomes.items self.new) }
    {
        let mut outcomes = Vec::new(alloc);
        for commands in transactions {
            outcomes.push(self.take(alloc, commands.as_slice())?)?;
        }
        Ok(outcomes)
    }
}

/// The outcome of a transaction of which a command is refused.
fn refusal(place: u64, refused: Refused) -> Outcome
    ensures { result ≡ refusal_of place refused }
{
    let Refused { index, reason } = refused;
    Outcome::Refused {
        place,
        index,
        reason,
    }
}
