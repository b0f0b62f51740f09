//! Runs scripts on all the sessions of a library, to its end.

ghost use Rattle.std.specs.Prelude.{◌≡◌, ◌≢◌, [], All, IfOk, IfErr, length};
ghost use Rattle.library.specs.Fitting.{CommandFits};
ghost use Rattle.lawful.specs.Lawful.{setting_given};
ghost use Rattle.transaction.specs.Openings.{IsNewSession};
ghost use Rattle.transaction.specs.Closings.{lists_of};
ghost use Rattle.editing.specs.Edits.{IsEdited, IsEditLack};

use crate::error::EditError;
use finishing::finish;
use library::{History, PlainLibrary, Script};
use std::alloc::Global;
use std::sync::Wait;
use std::thread::Threads;
use transaction::{Library, Outcome, Session};
use workers::{Gate, Worked, run_scripts};

/// What scripts leave that were run to their end.
#[derive(Drop)]
pub struct Edited {
    /// For each script, in order, the outcome of each of its transactions, in order. None is a conflict.
    pub outcomes: Vec<Vec<Outcome>>,
    /// What became of each number, from 1: the transaction that committed with it, with its replies, or nothing.
    pub history: History,
    /// The library after the whole history.
    pub library: PlainLibrary,
}

/// Runs scripts on a library that was just opened, with a worker for each of its sessions, which are all handed in, and ends it. The
/// commands of the scripts are within the limits of its prelude.
///
/// The workers claim the scripts one after another, and each submits the transactions of what it claimed in order, whatever becomes of
/// them. The gate is told of each script before and after. It may wait.
///
/// # Errors
///
/// `NoThread` where there are two sessions or more and a thread can't be had, and want of memory. The library is gone then. `Missing` is
/// never told of sessions that each have a name of their own, as `Library::open` gives them, and `Held` of none.
pub fn run_to_end<R: Threads + Wait + Sync, G: Gate + Sync>(
    rt: &R,
    alloc: Global,
    library: Library,
    sessions: Vec<Session>,
    scripts: &[Script],
    gate: &G,
) -> Result<Edited, EditError>
    requires some { sessions.items ≢ [] }
    requires all { length sessions.items ≡ library.sessions }
    requires new { All (IsNewSession library) sessions.items }
    requires fit { All (All (All (CommandFits (setting_given library.given).prelude))) scripts.now }
    ensures done { IfOk result (λ e. IsEdited library scripts.now (lists_of e.outcomes.items) e.history e.library) }
    ensures lack { IfErr result (IsEditLack sessions.items) }
{
    let Worked { outcomes, sessions } = run_scripts(rt, alloc, &library, sessions, scripts, gate)?;
    let (history, library) = finish(alloc, library, sessions)?;
    Ok(Edited {
        outcomes,
        history,
        library,
    })
}
