//! `check DB`: reads a database and checks its proofs eleven times, for `benches/check.py`.
//!
//! It prints in how many of the checks a fault was found; and on the standard error how many microseconds reading took, and each check.

use crate::measuring::{Ending, finish};
use mmstatement::{Database, read_database};
use proofcheck::check_all;
use std::fs;
use std::hash::RandomState;
use std::rt::{Clock, Files};
use std::thread::Threads;
use std::time::{Duration, Instant};

/// How often the proofs are checked.
const ROUNDS: usize = 11;

/// Whether the proofs check, and says how long that took. None where that can't be said.
fn check_once(
    rt: &(impl AllocGlobal + Eprint + Clock + Threads + Sync),
    db: &Database,
) -> Option<bool> {
    let start = Instant::now(rt).ok()?;
    let is_sound = check_all(rt, rt.alloc(), db).is_ok();
    let time = start.elapsed(rt).ok()?;
    eprintln!(rt; "check_us {}", time.as_micros()).ok()?;
    Some(is_sound)
}

/// Checks the proofs so often, and says how long each check took.
fn check_often(
    rt: &(impl AllocGlobal + Print + Eprint + Clock + Threads + Sync),
    db: &Database,
) -> Option<Ending> {
    let mut faults = 0_usize;
    for _ in 0..ROUNDS {
        if !check_once(rt, db)? {
            faults = faults.saturating_add(1);
        }
    }
    finish(rt, format_args!("checks {ROUNDS} faults {faults}"))
}

/// The database of a text, and says how long reading it took.
fn read_timed(
    rt: &(impl AllocGlobal + Eprint + Clock),
    keys: RandomState,
    text: &[u8],
) -> Option<Database> {
    let start = Instant::now(rt).ok()?;
    let db = read_database(rt.alloc(), keys, text).ok();
    let time = start.elapsed(rt).unwrap_or(Duration::ZERO);
    let _ = eprintln!(rt; "read_us {}", time.as_micros());
    db
}

/// Reads a database, and checks its proofs so often. None where that can't be done.
pub(crate) fn run(
    rt: &(impl AllocGlobal + Files + Print + Eprint + Clock + Threads + Sync),
    keys: RandomState,
    path: &str,
) -> Option<Ending> {
    let text = fs::read(rt, path).ok()?;
    let db = read_timed(rt, keys, text.as_slice())?;
    check_often(rt, &db)
}
