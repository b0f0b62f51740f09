//! Scripts run over the library of a database by workers, and what is printed of it.

ghost use Rattle.std.specs.Prelude.{◌≡◌, ℕ, ◌<◌, ◌^◌, ◌++◌, [], if◌then◌else◌, All, IfOk, IfErr, Some, length};
ghost use Rattle.derivation.specs.Databases.{AllCheck};
ghost use Rattle.library.specs.Fitting.{CommandFits};
ghost use Rattle.plaincells.specs.Measures.{all_bodies_length};
ghost use Rattle.transaction.specs.Openings.{IsOpened};
ghost use Rattle.historytext.specs.Layout.{EntryFitsText, history_text};
ghost use Rattle.transaction.specs.Closings.{lists_of};
ghost use Rattle.checking.specs.declared.fault.Fault.TheVariants.{StoreFull};
ghost use Rattle.checking.specs.Tasks.{IsWithin};
ghost use Rattle.jobs.specs.Jobs.{IsWorked, PrintsRun, Room, room_of};
ghost use Rattle.checking.specs.Checks.{RefusesWith, library_lines};
ghost use Rattle.jobs.specs.Parts.{IsOpenFault, IsWorkFault, from_edit, planned_room, shape_with};
ghost use Rattle.reports.specs.Reports.{AreReportable, report_text};

use crate::job::{Printed, RunOptions};
use crate::watching::Watch;
use checking::{Fault, SLOTS};
use editing::{EditError, Edited, run_to_end};
use export::put_library;
use historytext::write_history;
use library::{Entry, PlainLibrary, Script};
use mmstatement::{Database, Prelude};
use reports::report;
use rooms::room_for;
use std::alloc::{AllocError, Global};
use std::hash::RandomState;
use std::sync::Wait;
use std::thread::Threads;
use transaction::{Library, OpenError, Outcome, Session, Shape};

/// How a run is to be done.
#[derive(Clone, Copy)]
pub struct Plan {
    /// How many workers it has, 1 to 64.
    pub workers: usize,
    /// For how many words its store has room, at most 16,777,216.
    pub room: usize,
    /// Whether it may have room for more, and whether the text of its history is asked for.
    pub options: RunOptions,
}

/// How the library of a run lies in words: in the room that was asked for, or in a larger one that the run can need, where it may have it.
fn shape(plan: Plan, db: &Database, scripts: &[Script]) -> Shape
    requires { IsWithin plan.workers (Some plan.room) }
    ensures is { result ≡ shape_with plan.workers (room_of (planned_room plan) db.now scripts.now) }
    ensures within { IsWithin plan.workers (Some result.room) }
{
    let room = if plan.options.may_grow {
        plan.room.max(room_for(db, scripts))
    } else {
        plan.room
    };
    Shape {
        slots: SLOTS,
        room,
        sessions: plan.workers,
    }
}

/// Opens the library of a database whose proofs check, with a session for each worker.
fn open(
    alloc: Global,
    keys: RandomState,
    db: &Database,
    shape: Shape,
) -> Result<(Library, Vec<Session>), Fault>
    requires checks { AllCheck db.now }
    requires within { IsWithin shape.sessions (Some shape.room) }
    requires slots { shape.slots ≡ 4096 }
    ensures done { IfOk result (λ made. IsOpened db.now shape made.0 made.1.items) }
    ensures fault { IfErr result (IsOpenFault db.now shape.room) }
{
    // For the proof: a database has at most as many assertions as there are slots.
    let _assertions = db.assertions();
    match Library::open_checked(alloc, keys, db, shape) {
        Ok(opened) => Ok(opened),
        Err(OpenError::StoreFull) => Err(Fault::StoreFull),
        Err(OpenError::NoMemory) => Err(Fault::NoMemory),
        Err(OpenError::BadShape) => unreachable!(),
        Err(OpenError::TooMany) => unreachable!(),
        Err(OpenError::ProofFails(..)) => unreachable!(),
    }
}

/// How many transactions the scripts have, but no more than the largest number.
fn transactions_of(scripts: &[Script]) -> usize {
    let mut count: usize = 0;
    for script in scripts {
        count = count.saturating_add(script.as_slice().len());
    }
    count
}

/// The fault of a run that came to no end.
fn fault_of(error: EditError) -> Fault
    ensures { result ≡ from_edit error }
{
    match error {
        EditError::NoThread => Fault::NoThread,
        EditError::Missing(number) => Fault::Missing(number),
        EditError::Held(cell) => Fault::Held(cell),
        EditError::NoMemory => Fault::NoMemory,
    }
}

/// Runs scripts over the library of a database whose proofs check by workers, to its end. Their commands are within the limits of its
/// prelude. Who watches is told of the run. It may wait.
///
/// # Errors
///
/// `StoreFull` where the bodies of the database's assertions have more words than the room; `NoThread` where a thread for one of two
/// workers or more can't be had; want of memory.
pub fn work(
    rt: &(impl Threads + Wait + Sync),
    alloc: Global,
    keys: RandomState,
    db: &Database,
    scripts: &[Script],
    plan: Plan,
    watch: &(impl Watch + Sync),
) -> Result<Edited, Fault>
    requires checks { AllCheck db.now }
    requires within { IsWithin plan.workers (Some plan.room) }
    requires fit { All (All (All (CommandFits db.now.prelude))) scripts.now }
    ensures done { IfOk result (λ e. IsWorked db.now plan.workers (room_of (planned_room plan) db.now scripts.now) scripts.now
        (lists_of e.outcomes.items) e.history e.library) }
    ensures fault { IfErr result (IsWorkFault db.now plan.workers (room_of (planned_room plan) db.now scripts.now)) }
    ensures full { room_of (planned_room plan) db.now scripts.now < all_bodies_length db.now.assertions → RefusesWith StoreFull result }
{
    let (library, sessions) = open(alloc, keys, db, shape(plan, db, scripts))?;
    watch.begin(scripts.len(), transactions_of(scripts));
    let edited = run_to_end(rt, alloc, library, sessions, scripts, watch);
    watch.end();
    match edited {
        Ok(edited) => Ok(edited),
        Err(error) => Err(fault_of(error)),
    }
}

/// The report of a run, whose outcomes are let go as they are told, and its library's text.
fn report_run(
    alloc: Global,
    prelude: &Prelude,
    outcomes: Vec<Vec<Outcome>>,
    library: &PlainLibrary,
) -> Result<Vec<u8>, AllocError>
    requires { AreReportable prelude.now (lists_of outcomes.items) }
    ensures { IfOk result (λ v. v.items ≡ report_text prelude.now (lists_of outcomes.items) ++ library_lines library.now) }
{
    let mut out = report(alloc, prelude, outcomes)?;
    out.extend_from_slice(b"library\n")?;
    put_library(&mut out, library)?;
    Ok(out)
}

/// The number of entries of a history.
fn count_of(history: &[Entry]) -> u64
    ensures value { result ≡ length history.now }
    ensures small { result < 2 ^ 62 }
{
    history.len() as u64
}

/// The text of a history where it is asked for, and else nothing.
fn history_where(
    alloc: Global,
    asked: bool,
    prelude: &Prelude,
    history: &[Entry],
) -> Result<Vec<u8>, AllocError>
    requires { All (EntryFitsText prelude.now) history.now }
    ensures { IfOk result (λ v. v.items ≡ (if asked then history_text prelude.now history.now else [])) }
{
    if asked {
        write_history(alloc, prelude, history)
    } else {
        Ok(Vec::new(alloc))
    }
}

/// What is printed of scripts that were run over a database, and its history's text where it is asked for. The history is let go before
/// the outcomes are told, so that theirs are the last replies.
fn print_edited(
    alloc: Global,
    db: &Database,
    scripts: &[Script],
    edited: Edited,
    asked: bool,
) -> Result<Printed, AllocError>
    requires checks { AllCheck db.now }
    requires fit { All (All (All (CommandFits db.now.prelude))) scripts.now }
    requires worked { (workers : ℕ) × (room : ℕ)
        × IsWorked db.now workers room scripts.now (lists_of edited.outcomes.items) edited.history edited.library }
    ensures { (workers : ℕ) (room : Room) →
        IsWorked db.now workers (room_of room db.now scripts.now) scripts.now
        (lists_of edited.outcomes.items) edited.history edited.library →
        IfOk result (λ p. PrintsRun db.now workers room asked scripts.now p.out.items p.history.items) }
{
    // For the proof: some text declares the database; the library verifies, and is in export order; and there are no more entries than a
    // text can count.
    let _assertions = db.assertions();
    let _entries = edited.library.entries();
    let _count = count_of(edited.history.as_slice());
    let Edited {
        outcomes,
        history,
        library,
    } = edited;
    let text = history_where(alloc, asked, db.prelude(), history.as_slice())?;
    drop(history);
    Ok(Printed {
        out: report_run(alloc, db.prelude(), outcomes, &library)?,
        history: text,
    })
}

/// What the run of scripts over a database by workers prints, and its history's text where it is asked for.
pub(crate) fn print_run(
    rt: &(impl Threads + Wait + Sync),
    alloc: Global,
    keys: RandomState,
    db: &Database,
    scripts: &[Script],
    plan: Plan,
    watch: &(impl Watch + Sync),
) -> Result<Printed, Fault>
    requires checks { AllCheck db.now }
    requires within { IsWithin plan.workers (Some plan.room) }
    requires fit { All (All (All (CommandFits db.now.prelude))) scripts.now }
    ensures done { IfOk result (λ p. PrintsRun db.now plan.workers (planned_room plan) plan.options.history scripts.now p.out.items
        p.history.items) }
    ensures fault { IfErr result (IsWorkFault db.now plan.workers (room_of (planned_room plan) db.now scripts.now)) }
    ensures full { room_of (planned_room plan) db.now scripts.now < all_bodies_length db.now.assertions → RefusesWith StoreFull result }
{
    let edited = work(rt, alloc, keys, db, scripts, plan, watch)?;
    Ok(print_edited(alloc, db, scripts, edited, plan.options.history)?)
}
