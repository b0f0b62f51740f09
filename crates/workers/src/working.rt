//! Runs scripts on the sessions of a library.

ghost use Rattle.std.specs.Prelude.{◌≡◌, ◌≢◌, [], All, IfOk, IfErr, length};
ghost use Rattle.library.specs.Fitting.{CommandFits};
ghost use Rattle.lawful.specs.Lawful.{setting_given};
ghost use Rattle.transaction.specs.Members.{IsSessionOf};
ghost use Rattle.transaction.specs.Closings.{lists_of};
ghost use Rattle.workers.specs.Works.{Works, IsWorkLack};
ghost use Rattle.workers.specs.Shifts.{AreWhole, AreCollected};

use crate::error::WorkError;
use crate::gate::Gate;
use crate::shift::{Row, Shift, Shop};
use crate::team::employ;
use claims::Numbers;
use library::Script;
use std::alloc::{AllocError, Global};
use std::sync::Wait;
use std::thread::Threads;
use transaction::{Library, Outcome, Session};

/// What became of scripts.
#[derive(Drop)]
pub struct Worked {
    /// For each script, in order, the outcome of each of its transactions, in order.
    pub outcomes: Vec<Vec<Outcome>>,
    /// The sessions, in the order in which they were handed in.
    pub sessions: Vec<Session>,
}

/// Runs scripts on a library, with a worker for each of these sessions of it, of which there is at least one. The commands of the scripts
/// are within the limits of its prelude. Two workers or more are each on a thread; one alone is on the calling thread, and none is started.
///
/// A worker claims the next script that nobody has claimed, tells the gate, submits the script's transactions in order, whatever becomes of
/// them, tells the gate of each, and at the end again, and goes on until all scripts are claimed. The call returns when every worker has
/// ended. It may wait.
///
/// # Errors
///
/// `NoThread` where there are two sessions or more and a thread can't be had, and want of memory. That may come before any script is run;
/// where a worker claims one, before the first of its transactions, of which none is submitted then; and behind all scripts. So each script
/// was run to its end or not at all. The sessions are gone then, and what they committed stays in the library.
pub fn run_scripts<R: Threads + Wait + Sync, G: Gate + Sync>(
    rt: &R,
    alloc: Global,
    library: &Library,
    sessions: Vec<Session>,
    scripts: &[Script],
    gate: &G,
) -> Result<Worked, WorkError>
    requires some { sessions.items ≢ [] }
    requires own { All (IsSessionOf library.now) sessions.items }
    requires fit { All (All (All (CommandFits (setting_given library.now.given).prelude))) scripts.now }
    ensures worked { IfOk result (λ worked. Works library.now.given sessions.items scripts.now
        (lists_of worked.outcomes.items) worked.sessions.items) }
    ensures lack { IfErr result (IsWorkLack sessions.items) }
{
    // For the proof: the words were opened with what the library was given.
    let _ = library.prelude();
    let rows = Vec::with_capacity(alloc, scripts.len())?;
    let (numbers, claimants) = Numbers::open(alloc, scripts.len(), sessions.len())?;
    let shop = Shop {
        library,
        scripts,
        numbers: &numbers,
        gate,
    };
    let shifts = employ(rt, alloc, shop, sessions, claimants)?;
    Ok(collect(alloc, numbers, rows, shifts)?)
}

/// What the workers did, in the order of the scripts.
fn collect(
    alloc: Global,
    numbers: Numbers,
    mut rows: Vec<Row>,
    shifts: Vec<Shift>,
) -> Result<Worked, AllocError>
    requires none { rows.items ≡ [] }
    requires whole { AreWhole numbers shifts.items }
    ensures { IfOk result (λ worked. AreCollected numbers.count shifts.items (lists_of worked.outcomes.items) worked.sessions.items) }
{
    let mut sessions = Vec::with_capacity(alloc, shifts.len())?;
    let mut claimants = Vec::with_capacity(alloc, shifts.len())?;
    for shift in shifts {
        let Shift {
            session,
            claimant,
            rows: mut own,
        } = shift;
        sessions.push_reserved(session);
        claimants.push_reserved(claimant);
        rows.append(&mut own)?;
    }
    // For the proof: each script was claimed once.
    numbers.close(claimants);
    rows.sort_unstable_by(|a, b| a.script.cmp(&b.script));
    let mut outcomes = Vec::with_capacity(alloc, rows.len())?;
    for row in rows {
        let Row {
            script: _,
            outcomes: own,
        } = row;
        outcomes.push_reserved(own);
    }
    Ok(Worked { outcomes, sessions })
}
