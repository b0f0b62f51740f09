//! `sessions sessions THREADS DB SCRIPT..`: scripts over one library by 1 to 64 threads, for `benches/sessions.py`.
//!
//! Each thread takes the next script that nobody has taken, and does its transactions in order, by a session on running words. It
//! prints how many transactions committed, how many only read, how many were refused, and how many ended otherwise; and on the standard
//! error how many microseconds they took, by the clock and of the processors, without reading and opening, and how many numbers met a
//! conflict.

ghost use Rattle.std.specs.Prelude.{All};
ghost use Rattle.library.specs.Fitting.{CommandFits};

use crate::files::{ROOM, SLOTS};
use crate::measuring::Ending;
use crate::times::{Counts, End, count, tell, times};
use library::Script;
use mmstatement::Database;
use std::hash::RandomState;
use std::rt::Clock;
use std::sync::Wait;
use std::thread::Threads;
use std::time::CpuClock;
use transaction::{Library, Outcome, Session, Shape};
use workers::{Open, run_scripts};

/// How a transaction ended.
fn end_of(outcome: &Outcome) -> End {
    match outcome {
        Outcome::Committed { .. } => End::Committed,
        Outcome::Read { .. } => End::Read,
        Outcome::Refused { .. } => End::Refused,
        _ => End::Other,
    }
}

/// How the transactions of scripts ended.
fn counts_of(scripts: &[Vec<Outcome>]) -> Counts {
    let mut counts = [0; 4];
    for outcomes in scripts {
        for outcome in outcomes {
            count(&mut counts, end_of(outcome));
        }
    }
    counts
}

/// How many numbers of these sessions met a conflict.
fn voids_of(sessions: &[Session]) -> u64 {
    let mut voids = 0_u64;
    for session in sessions {
        for record in session.records() {
            if record.done.is_none() {
                voids = voids.saturating_add(1);
            }
        }
    }
    voids
}

/// Does the scripts by sessions. None where that can't be done. It may wait.
pub(crate) fn run<R>(
    rt: &R,
    keys: RandomState,
    db: &Database,
    scripts: &[Script],
    threads: usize,
) -> Option<Ending>
where
    R: AllocGlobal + Print + Eprint + Clock + CpuClock + Threads + Wait + Sync,
    requires fit { All (All (All (CommandFits db.now.prelude))) scripts.now }
{
    let shape = Shape {
        slots: SLOTS,
        room: ROOM,
        sessions: threads,
    };
    let Ok((library, sessions)) = Library::open(rt, rt.alloc(), keys, db, shape) else {
        return None;
    };
    let start = times(rt);
    let worked = run_scripts(rt, rt.alloc(), &library, sessions, scripts, &Open).ok()?;
    let end = times(rt);
    let voids = voids_of(worked.sessions.as_slice());
    let counts = counts_of(worked.outcomes.as_slice());
    tell(rt, start, end, voids, counts)
}
