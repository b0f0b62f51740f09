//! A library in plain cells, and the transactions on it, one after another on one thread: for tests that it answers as the one-thread
//! editor does, and for measuring it.

ghost use Rattle.cells.specs.State.{most_words};
ghost use Rattle.mmsyntax.specs.declared.limits.TheConstants.{MOST_ASSERTIONS};
ghost use Rattle.std.specs.Prelude.{◌≡◌, All, IsTrue};
ghost use Rattle.library.specs.Fitting.{CommandFits};
ghost use Rattle.trials.specs.InCells.{ShowsSomeNow};

use commands::{Halt, RunError, run};
use history::{ApplyError, Editor};
use library::{Command, Reply};
use mmsyntax::{Database, Prelude, Sequence};
use plaincells::{OpenError, PlainCells};
use std::alloc::Global;

/// A library in plain cells that verifies.
pub struct InCells {
    cells: PlainCells,
    prelude: Prelude,
    ghost same: { cells.prelude ≡ prelude },
    ghost shown: { ShowsSomeNow cells },
}

// Proved here once: a derived drop is proved again in each crate that drops such a value.
impl Drop for InCells {
    fn drop(self) {
        let InCells {
            cells: _,
            prelude: _,
        } = self;
    }
}

impl InCells {
    ghost use Rattle.std.specs.Prelude.{◌≡◌, ◌≤◌};
    ghost use Rattle.derivation.specs.Databases.{AllCheck};

    /// The opening library of a database whose proofs check, in so many slots, with a store that has room for so many words.
    ///
    /// # Errors
    ///
    /// Those of `PlainCells::open`.
    pub fn open(
        alloc: Global,
        db: &Database,
        slots: usize,
        room: usize,
    ) -> Result<InCells, OpenError>
        requires checks { AllCheck db.now }
        requires slots { (1 ≤ slots) × (slots ≤ MOST_ASSERTIONS) }
        requires room { room ≤ most_words }
    {
        // For the proof: some text declares the database.
        let _assertions = db.assertions();
        let cells = PlainCells::open(alloc, db, slots, room)?;
        let prelude = db.prelude().copy(alloc)?;
        Ok(InCells { cells, prelude })
    }

    /// Does all commands of a transaction in order, and answers the reply to each.
    ///
    /// # Errors
    ///
    /// Those of `run`. What the transaction wrote is undone. Commands outside the limits of the prelude, which no script has, are not done.
    pub fn apply(
        &mut self,
        alloc: Global,
        commands: &[Command],
    ) -> Result<Sequence<Reply>, RunError> {
        if !all_fit(&self.prelude, commands) {
            return Err(RunError::Halted(Halt::NoMemory));
        }
        match run(alloc, &self.prelude, &mut self.cells, commands) {
            Ok(replies) => {
                self.cells.keep();
                Ok(replies)
            }
            Err(error) => {
                self.cells.undo();
                Err(error)
            }
        }
    }

    /// The prelude of the library's assertions.
    pub fn prelude(&self) -> &Prelude
        ensures { result.now ≡ self.now.prelude }
    {
        &self.prelude
    }
}

/// Whether all commands are within the limits of a prelude.
fn all_fit(prelude: &Prelude, commands: &[Command]) -> bool
    ensures { IsTrue result → All (CommandFits prelude.now) commands.now }
{
    commands.iter().all(|command| command.fits(prelude))
}

/// Does a transaction by the one-thread editor. One whose commands are outside the limits of its prelude, which no script has, is not done.
pub fn apply(
    editor: &mut Editor,
    alloc: Global,
    commands: &[Command],
) -> Result<Sequence<Reply>, ApplyError> {
    if all_fit(editor.prelude(), commands) {
        editor.apply(alloc, commands)
    } else {
        Err(ApplyError::NoMemory)
    }
}
