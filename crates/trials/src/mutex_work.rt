//! `sessions mutex THREADS DB SCRIPT..`: the same as by sessions (`session_work.rt`), by the one-thread editor behind a lock.

ghost use Rattle.derivation.specs.Databases.{AllCheck};

use crate::cell_work::edit_once;
use crate::files::SLOTS;
use crate::measuring::Ending;
use crate::times::{Counts, count, tell, times};
use history::Editor;
use library::Script;
use mmstatement::Database;
use proofcheck::check_all;
use std::alloc::Global;
use std::hash::RandomState;
use std::rt::Clock;
use std::sync::atomic::{AtomicUsize, Ordering};
use std::sync::{Mutex, Wait};
use std::thread;
use std::thread::Threads;
use std::time::CpuClock;

/// Takes one script after another, and does its transactions, each under the lock, until all are taken.
fn work<R: Wait>(
    rt: &R,
    alloc: Global,
    desk: &Mutex<Editor>,
    scripts: &[Script],
    taken: &AtomicUsize,
) -> Counts {
    let mut counts = [0; 4];
    for _ in scripts {
        let Some(script) = scripts.get(taken.fetch_add(1, Ordering::SeqCst)) else {
            break;
        };
        for commands in script.as_slice() {
            let end = edit_once(&mut *desk.lock(rt), alloc, commands.as_slice());
            count(&mut counts, end);
        }
    }
    counts
}

/// All that shares count, together.
fn sum_of(shares: &[Counts]) -> Counts {
    let mut sum: Counts = [0; 4];
    for [committed, read, refused, other] in shares {
        sum = [
            sum[0].saturating_add(*committed),
            sum[1].saturating_add(*read),
            sum[2].saturating_add(*refused),
            sum[3].saturating_add(*other),
        ];
    }
    sum
}

/// Does the scripts by so many threads. None where there is no memory or a clock can't be read.
fn work_all<R>(rt: &R, desk: &Mutex<Editor>, scripts: &[Script], threads: usize) -> Option<Ending>
where
    R: AllocGlobal + Print + Eprint + Clock + CpuClock + Threads + Wait + Sync,
{
    let alloc = rt.alloc();
    let taken = AtomicUsize::new(0);
    let taken = &taken;
    let start = times(rt);
    let shares = thread::map_indices(
        rt,
        alloc,
        threads,
        &|_| work(rt, alloc, desk, scripts, taken),
    )
    .ok()?;
    let end = times(rt);
    tell(rt, start, end, 0, sum_of(shares.as_slice()))
}

/// Does the scripts. None where that can't be done. It may wait.
pub(crate) fn run<R>(
    rt: &R,
    keys: RandomState,
    db: &Database,
    scripts: &[Script],
    threads: usize,
) -> Option<Ending>
where
    R: AllocGlobal + Print + Eprint + Clock + CpuClock + Threads + Wait + Sync,
{
    if !(1..=64).contains(&threads) {
        return Some(Ending::Misused);
    }
    check_all(rt, rt.alloc(), db).ok()?;
    let editor = Editor::open(rt.alloc(), keys, db, SLOTS).ok()?;
    work_all(rt, &Mutex::new(editor), scripts, threads)
}
