//! `cells TASK DB [SCRIPT]`: what is measured of libraries in cells, for `benches/cells.py`.
//!
//! `check` reads a database and checks its proofs, `open` opens it in plain cells too, and `back` reads it back besides, slot by slot.
//! `editor` and `cells` do the transactions of a script after that, by the one-thread editor and over plain cells. It prints how many
//! assertions there are, or how many transactions were done and refused.

ghost use Rattle.derivation.specs.Databases.{AllCheck};

use crate::files::{ROOM, SLOTS};
use crate::in_cells::{InCells, apply};
use crate::measuring::{Ending, finish};
use crate::times::{Counts, End, count};
use cells::{Cells, entry, label};
use commands::RunError;
use history::{ApplyError, Editor};
use library::{Command, Script, Transaction, has_edit};
use mmstatement::Database;
use plaincells::PlainCells;
use proofcheck::check_all;
use std::alloc::Global;
use std::hash::RandomState;
use std::thread::Threads;

/// Reads the assertions in the first so many slots of plain cells back.
fn read_back(alloc: Global, cells: &mut PlainCells, slots: usize) -> Option<()> {
    for slot in 0..slots {
        if slot >= cells.slots() {
            return None;
        }
        let Ok(found) = label(alloc, cells, slot) else {
            return None;
        };
        if let Some(label) = found {
            if entry(alloc, cells, slot, label).is_err() {
                return None;
            }
        }
        cells.undo();
    }
    Some(())
}

/// Opens a database in plain cells, and reads the assertions in the first so many slots back.
fn open(alloc: Global, db: &Database, slots: usize) -> Option<()>
    requires { AllCheck db.now }
{
    let mut cells = PlainCells::open(alloc, db, SLOTS, ROOM).ok()?;
    read_back(alloc, &mut cells, slots)
}

/// How a transaction by the editor ends.
pub(crate) fn edit_once(editor: &mut Editor, alloc: Global, commands: &[Command]) -> End {
    match apply(editor, alloc, commands) {
        Ok(_) if has_edit(commands) => End::Committed,
        Ok(_) => End::Read,
        Err(ApplyError::Refused(_)) => End::Refused,
        Err(ApplyError::NoMemory) => End::Other,
    }
}

/// How a transaction over plain cells ends, where what only reads commits too.
fn write_once(cells: &mut InCells, alloc: Global, commands: &[Command]) -> End {
    match cells.apply(alloc, commands) {
        Ok(_) => End::Committed,
        Err(RunError::Refused(_)) => End::Refused,
        Err(_) => End::Other,
    }
}

/// How the transactions of a script by the editor end. None where it isn't opened.
fn edit(alloc: Global, keys: RandomState, db: &Database, script: &[Transaction]) -> Option<Counts>
    requires { AllCheck db.now }
{
    let mut editor = Editor::open(alloc, keys, db, SLOTS).ok()?;
    let mut counts = [0; 4];
    for commands in script {
        let end = edit_once(&mut editor, alloc, commands.as_slice());
        count(&mut counts, end);
    }
    Some(counts)
}

/// How the transactions of a script over plain cells end. None where they aren't opened.
fn write(alloc: Global, db: &Database, script: &[Transaction]) -> Option<Counts>
    requires { AllCheck db.now }
{
    let mut cells = InCells::open(alloc, db, SLOTS, ROOM).ok()?;
    let mut counts = [0; 4];
    for commands in script {
        let end = write_once(&mut cells, alloc, commands.as_slice());
        count(&mut counts, end);
    }
    Some(counts)
}

/// Does a task with a database alone, and prints how many assertions it has.
fn read(rt: &(impl AllocGlobal + Print), db: &Database, task: &str) -> Option<Ending>
    requires { AllCheck db.now }
{
    let count = db.assertions().len();
    let done = match task {
        "check" => Some(()),
        "open" => open(rt.alloc(), db, 0),
        "back" => open(rt.alloc(), db, SLOTS),
        _ => return Some(Ending::Misused),
    };
    match done {
        Some(()) => finish(rt, format_args!("assertions {count}")),
        None => None,
    }
}

/// Does a task with a database and a script, and prints how many transactions were done and refused.
fn change(
    rt: &(impl AllocGlobal + Print),
    keys: RandomState,
    db: &Database,
    task: &str,
    script: &[Transaction],
) -> Option<Ending>
    requires { AllCheck db.now }
{
    let [committed, read, refused, other] = match task {
        "editor" => edit(rt.alloc(), keys, db, script),
        "cells" => write(rt.alloc(), db, script),
        _ => return Some(Ending::Misused),
    }?;
    if other != 0 {
        return None;
    }
    let done = committed.saturating_add(read);
    finish(rt, format_args!("done {done} refused {refused}"))
}

/// Does a task with a database and, for the last two, a script. None where that can't be done.
pub(crate) fn run(
    rt: &(impl AllocGlobal + Print + Threads + Sync),
    keys: RandomState,
    db: &Database,
    scripts: &[Script],
    task: &str,
) -> Option<Ending> {
    check_all(rt, rt.alloc(), db).ok()?;
    match scripts {
        [] => read(rt, db, task),
        [script] => change(rt, keys, db, task, script.as_slice()),
        _ => Some(Ending::Misused),
    }
}
