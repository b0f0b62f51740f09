//! Ends of libraries.

ghost use Rattle.mmsyntax.specs.declared.limits.TheConstants.{MOST_ASSERTIONS};
ghost use Rattle.std.specs.Prelude.{◌≤◌, map, All, IfSome};
ghost use Rattle.derivation.specs.Databases.{AllCheck};
ghost use Rattle.library.specs.Histories.{seen_entry, EntriesFit};
ghost use Rattle.transaction.specs.Members.{IsSessionOf};
ghost use Rattle.trials.specs.Opened.{IsOpen};

use crate::opening::Opened;
use crate::seats::{leave_others, named};
use export::put_library;
use finishing::{FinishError, finish};
use history::{ReplayError, replay};
use library::{Entry, PlainLibrary};
use mmsyntax::Database;
use std::alloc::Global;
use std::hash::RandomState;
use tlwords::ClosedCell;
use transaction::{Library, Session};
use wordrows::Written;

/// The names of the five cells of a slot, in their order.
const PARTS: [&str; 5] = ["name", "statement", "proof", "rank", "citers"];

/// Ends the library that is open, with the sessions alone that are named, and writes what is left: its lock words, or its history.
/// Nothing is open then. False where nothing is open, or no session has such a name.
pub fn end(
    alloc: Global,
    keys: RandomState,
    out: &mut Written,
    opened: &mut Option<Opened>,
    names: &str,
    is_by_locks: bool,
) -> bool
    requires { IfSome opened.old IsOpen }
    ensures { IfSome opened.new IsOpen }
{
    let count = match opened {
        Some(opened) => opened.sessions.len(),
        None => return false,
    };
    let Some(is_named) = named(names, count) else {
        return false;
    };
    if let Some(opened) = opened.take() {
        conclude(alloc, keys, out, opened, &is_named, is_by_locks);
    }
    true
}

/// Ends a library with the sessions alone that are named.
fn conclude(
    alloc: Global,
    keys: RandomState,
    out: &mut Written,
    opened: Opened,
    is_named: &[bool],
    is_by_locks: bool,
)
    requires { IsOpen opened }
{
    let Opened {
        database,
        library,
        mut sessions,
    } = opened;
    leave_others(&library, &mut sessions, is_named);
    if is_by_locks {
        put_locks(alloc, out, library, sessions);
    } else {
        put_end(alloc, keys, out, &database, library, sessions);
    }
}

/// Ends a library with these sessions, and writes its lock words.
fn put_locks(alloc: Global, out: &mut Written, library: Library, sessions: Vec<Session>)
    requires own { All (IsSessionOf library) sessions.items }
    requires slots { library.given.slots ≤ MOST_ASSERTIONS }
{
    let slots = library.slots();
    match library.close(alloc, sessions) {
        Ok(closed) => put_moved(out, slots, closed.words.cells.as_slice()),
        Err(_) => out.is_short = true,
    }
}

/// Ends a library with these sessions, and writes its history over the database that it was opened from.
fn put_end(
    alloc: Global,
    keys: RandomState,
    out: &mut Written,
    database: &Database,
    library: Library,
    sessions: Vec<Session>,
)
    requires { IsOpen (record { database = database.now; library = library; sessions = sessions }) }
{
    let slots = library.slots();
    match finish(alloc, library, sessions) {
        Ok((history, after)) => {
            put_finished(
                alloc,
                keys,
                out,
                database,
                slots,
                history.as_slice(),
                &after,
            );
        }
        Err(FinishError::NoMemory) => out.is_short = true,
        Err(error) => out.show(format_args!("{error}\n")),
    }
}

/// Writes the lines of an end with a whole history over the database, and the library after it: the number of entries, the text of the
/// library, and whether the replay of the history gives the same.
fn put_finished(
    alloc: Global,
    keys: RandomState,
    out: &mut Written,
    database: &Database,
    slots: usize,
    history: &[Entry],
    after: &PlainLibrary,
)
    requires slots { (1 ≤ slots) × (slots ≤ MOST_ASSERTIONS) }
    requires checks { AllCheck database.now }
    requires fit { EntriesFit database.now.prelude (map seen_entry history.now) }
{
    let count = history.len();
    out.show(format_args!("finished {count}\n"));
    put_told(out, after, false);
    let mut wanted = Written::new(alloc);
    put_told(&mut wanted, after, true);
    let mut found = Written::new(alloc);
    put_replayed(alloc, keys, &mut found, database, slots, history);
    out.is_short |= wanted.is_short || found.is_short;
    let is_same = wanted.bytes.as_slice() == found.bytes.as_slice();
    let told = if is_same { "same" } else { "differs" };
    out.show(format_args!("replayed: {told}\n"));
}

/// Writes what is told of the library that the replay of a history over the database gives, ranks too; nothing where it gives none.
fn put_replayed(
    alloc: Global,
    keys: RandomState,
    out: &mut Written,
    database: &Database,
    slots: usize,
    history: &[Entry],
)
    requires slots { (1 ≤ slots) × (slots ≤ MOST_ASSERTIONS) }
    requires checks { AllCheck database.now }
    requires fit { EntriesFit database.now.prelude (map seen_entry history.now) }
{
    match replay(alloc, keys, database, slots, history) {
        Ok(library) => put_told(out, &library, true),
        Err(ReplayError::NoMemory) => out.is_short = true,
        Err(_) => {}
    }
}

/// Writes what is told of a library: its text, and the rank of each assertion too, if that is wanted.
fn put_told(out: &mut Written, library: &PlainLibrary, is_with_ranks: bool) {
    let done = put_library(&mut out.bytes, library);
    out.note(done);
    if is_with_ranks {
        for entry in library.entries() {
            out.put(&entry.rank.to_be_bytes());
        }
    }
}

/// The kind of a cell, and the number of its slot or bucket, from 0.
fn place_of(slots: usize, cell: usize) -> (&'static str, usize)
    requires { slots ≤ MOST_ASSERTIONS }
{
    if cell < 5 * slots {
        (PARTS[cell % 5], cell / 5)
    } else if cell < 6 * slots {
        ("bucket", cell - 5 * slots)
    } else {
        ("next", cell - 6 * slots)
    }
}

/// Writes the line of the cells whose lock words aren't those of the opening, which are 0: each by its kind and its slot or bucket, from
/// 0, in the order of the cells; or `none`.
fn put_moved(out: &mut Written, slots: usize, cells: &[ClosedCell])
    requires { slots ≤ MOST_ASSERTIONS }
{
    let mut behind = "none\n";
    let mut comma = "";
    for (cell, closed) in cells.iter().enumerate() {
        if closed.lock != 0 {
            let (kind, number) = place_of(slots, cell);
            out.show(format_args!("{comma}{kind} {number}"));
            comma = ", ";
            behind = "\n";
        }
    }
    out.put(behind.as_bytes());
}
