//! `meets DB SCRIPT..`: 1 to 64 scripts over one library, each by a session on a thread of its own, for `benches/soak.py`.
//!
//! It prints, script after script, a line for each try of a transaction that met another session, and one for each transaction that
//! committed: `S.T met CELL WORD PLACE`, as the conflict tells, and `S.T committed NUMBER`. Scripts and their transactions count from 1.

ghost use Rattle.std.specs.Prelude.{All};
ghost use Rattle.library.specs.Fitting.{CommandFits};
ghost use Rattle.lawful.specs.Lawful.{setting_given};
ghost use Rattle.transaction.specs.Members.{IsSessionOf};

use crate::files::{ROOM, SLOTS};
use crate::measuring::Ending;
use library::{Script, Transaction};
use mmstatement::Database;
use std::alloc::Global;
use std::hash::RandomState;
use std::sync::Wait;
use std::sync::atomic::{AtomicUsize, Ordering};
use std::thread;
use std::thread::Threads;
use transaction::{Library, Outcome, Session, Shape};
use wordrows::Written;

/// Writes the line of a try of the transaction at this place, if it has one. Whether it met another session.
fn put_try(out: &mut Written, place: (usize, usize), outcome: &Outcome) -> bool {
    let (s, t) = place;
    match outcome {
        Outcome::Conflict {
            place,
            cell,
            word,
            ..
        } => {
            out.show(format_args!("{s}.{t} met {cell} {word} {place}\n"));
            true
        }
        Outcome::Committed { number, .. } => {
            out.show(format_args!("{s}.{t} committed {number}\n"));
            false
        }
        _ => false,
    }
}

/// Tries the transaction at this place once, and writes its line. Whether it met another session.
fn meets(
    alloc: Global,
    out: &mut Written,
    library: &Library,
    session: &mut Session,
    commands: &Transaction,
    place: (usize, usize),
) -> bool
    requires own { IsSessionOf library.now session.old }
    requires fit { All (CommandFits (setting_given library.now.given).prelude) commands.now }
    ensures { IsSessionOf library.now session.new }
{
    let outcome = session.attempt(alloc, library, commands);
    put_try(out, place, &outcome)
}

/// Tries it until it meets no other session, and writes its lines. It may wait.
fn settle<R: Wait>(
    rt: &R,
    alloc: Global,
    out: &mut Written,
    library: &Library,
    session: &mut Session,
    commands: &Transaction,
    place: (usize, usize),
)
    requires own { IsSessionOf library.now session.old }
    requires fit { All (CommandFits (setting_given library.now.given).prelude) commands.now }
    ensures { IsSessionOf library.now session.new }
{
    for _ in rt.forever() {
        if !meets(alloc, out, library, session, commands, place) {
            return;
        }
        thread::yield_now();
    }
    unreachable!()
}

/// Does the transactions of the script of this number, one after another: their lines. None where memory runs out. It may wait.
fn work<R: Wait>(
    rt: &R,
    alloc: Global,
    library: &Library,
    session: Session,
    script: &Script,
    number: usize,
) -> Option<Vec<u8>>
    requires own { IsSessionOf library.now session }
    requires fit { All (All (CommandFits (setting_given library.now.given).prelude)) script.now }
{
    let mut session = session;
    let mut out = Written::new(alloc);
    let mut transaction = 0_usize;
    for commands in script.as_slice() {
        transaction = transaction.saturating_add(1);
        let place = (number, transaction);
        settle(rt, alloc, &mut out, library, &mut session, commands, place);
    }
    if out.is_short { None } else { Some(out.bytes) }
}

/// Does all scripts at once: the lines of each. None where memory runs out; that of a thread is told by its script. It may wait.
fn work_all<R: Threads + Wait + Sync>(
    rt: &R,
    alloc: Global,
    library: &Library,
    sessions: Vec<Session>,
    scripts: &[Script],
) -> Option<Vec<Option<Vec<u8>>>>
    requires own { All (IsSessionOf library.now) sessions.items }
    requires fit { All (All (All (CommandFits (setting_given library.now.given).prelude))) scripts.now }
{
    let taken = AtomicUsize::new(0);
    let taken = &taken;
    thread::map_vec(
        rt,
        sessions,
        &|session: Session| -> Option<Vec<u8>>
            requires { IsSessionOf library.now session
                × All (All (All (CommandFits (setting_given library.now.given).prelude))) scripts.now }
        {
            let place = taken.fetch_add(1, Ordering::SeqCst);
            if place >= scripts.len() {
                return None;
            }
            work(
                rt,
                alloc,
                library,
                session,
                &scripts[place],
                place.saturating_add(1),
            )
        },
    )
    .ok()
}

/// Prints the lines of each script. None where memory ran out in one, or they can't be printed.
fn print_all(rt: &impl Print, shares: &[Option<Vec<u8>>]) -> Option<Ending> {
    for share in shares {
        let Some(lines) = share else {
            return None;
        };
        rt.write_all(lines.as_slice()).ok()?;
    }
    Some(Ending::Done)
}

/// Does the scripts, and prints their lines. None where that can't be done. It may wait.
pub(crate) fn run<R>(rt: &R, keys: RandomState, db: &Database, scripts: &[Script]) -> Option<Ending>
where
    R: AllocGlobal + Print + Threads + Wait + Sync,
    requires fit { All (All (All (CommandFits db.now.prelude))) scripts.now }
{
    let shape = Shape {
        slots: SLOTS,
        room: ROOM,
        sessions: scripts.len(),
    };
    let Ok((library, sessions)) = Library::open(rt, rt.alloc(), keys, db, shape) else {
        return None;
    };
    let shares = work_all(rt, rt.alloc(), &library, sessions, scripts)?;
    print_all(rt, shares.as_slice())
}
