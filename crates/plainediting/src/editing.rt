//! Scripts from the opening of a database to the library after them.

ghost use Rattle.std.specs.Prelude.{All, IfOk};
ghost use Rattle.derivation.specs.Databases.{AllCheck};
ghost use Rattle.library.specs.Fitting.{CommandFits};
ghost use Rattle.transaction.specs.Closings.{lists_of};
ghost use Rattle.plainediting.specs.Outcomes.{IsEditedInOrder};

use crate::desk::Desk;
use library::{PlainLibrary, Script};
use mmsyntax::Database;
use std::alloc::{AllocError, Global};
use std::hash::RandomState;
use transaction::Outcome;

/// Does the transactions of scripts, script after script, from the opening library of a database whose proofs check, with 4,096 slots. Each
/// command is within the limits of the database's prelude.
///
/// It gives the outcome of each transaction, by scripts, and the library after them. A transaction with an edit that isn't refused is
/// `Committed`, with the next number from 1. One without an edit is `Read`, and a refused one `Refused`, with the count of the committed
/// ones so far as place. One of more than 16 commands is `TooManyCommands`, and isn't done. There are no other outcomes.
///
/// # Errors
///
/// Want of memory.
pub fn edit_all(
    alloc: Global,
    keys: RandomState,
    db: &Database,
    scripts: &[Script],
) -> Result<(Vec<Vec<Outcome>>, PlainLibrary), AllocError>
    requires checks { AllCheck db.now }
    requires fit { All (All (All (CommandFits db.now.prelude))) scripts.now }
    ensures { IfOk result (λ made. IsEditedInOrder db.now scripts.now (lists_of made.0.items) made.1) }
{
    let mut desk = Desk::open(alloc, keys, db)?;
    let mut rows = Vec::new(alloc);
    for script in scripts {
        rows.push(desk.take_all(alloc, script.as_slice())?)?;
    }
    let Desk { editor, .. } = desk;
    Ok((rows, editor.into_library()))
}
