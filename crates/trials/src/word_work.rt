//! `words PATTERN CELLS TRANSACTIONS THREADS`: 1 to 64 threads run so many transactions each, over one memory of so many cells of value
//! 0, for `benches/words.py`.
//!
//! It prints how many transactions committed, and the sum of the values at the end. By the pattern `disjoint` each thread reads and
//! writes cells of its own part, by `uniform` all do anywhere, and by `hot` in the first eight cells; by `read` all read cells
//! anywhere, and write none.

ghost use Rattle.std.specs.Prelude.{false, ◌≡◌, ◌<◌, None, true, All, length};
ghost use Rattle.tlwords.specs.Callers.{AreOfOneOpening};
ghost use Rattle.tlwords.specs.declared.mode.Mode.TheVariants.{Writing};

use crate::measuring::{Ending, finish};
use std::sync::atomic::{AtomicUsize, Ordering};
use std::thread;
use std::thread::Threads;
use tlwords::{ClosedCell, Law, Mode, Outcome, Pass, Run, Words, begin, close};

/// How often a transaction is tried before it is given up.
const MOST_TRIES: u64 = 1 << 32;

/// What the generator splitmix64 adds to its state for each number.
const STEP: u64 = 0x9e37_79b9_7f4a_7c15;

/// The first thread's state before its first number, which is left out.
const START: u64 = 1_000_004;

/// Any transaction is lawful.
struct Anything;

impl Law for Anything {
    type Setting = ();

    type Note = ();

    ghost terms = { record { lawful = λ _ _ _ _ _. Unit {0}; opens = λ _ _ _. Unit {0}; ranged = λ _ _. false } };
}

/// What each thread does.
#[derive(Clone, Copy)]
struct Job {
    /// How many transactions it runs.
    transactions: u32,
    /// How many cells a transaction reads.
    reads: usize,
    /// To how many of these it adds one.
    writes: usize,
    /// Among how many cells they are.
    span: usize,
    /// How far the first of these is from that of the thread in front.
    stride: usize,
}

/// The cell of a state of the generator, of `span` cells from the first on. A division would take longer than all the rest.
fn cell_at(state: u64, first: usize, span: usize) -> usize {
    let mut z = state;
    z = (z ^ (z >> 30)).wrapping_mul(0xbf58_476d_1ce4_e5b9);
    z = (z ^ (z >> 27)).wrapping_mul(0x94d0_49bb_1331_11eb);
    z ^= z >> 31;
    first.wrapping_add(span.wrapping_mul((z >> 32) as usize) >> 32)
}

/// Reads a cell, and adds one to it if it is to be written. False is a conflict.
fn touch(run: &mut Run<'_, Anything>, cell: usize, writes: bool) -> bool
    requires open { run.old.over ≡ None }
    requires mode { writes ≡ true → run.old.mode ≡ Writing }
    requires cell { cell < length run.old.known.home.base }
    ensures same { (run.new.known.home ≡ run.old.known.home) × (run.new.mode ≡ run.old.mode) }
    ensures open { result ≡ true → run.new.over ≡ None }
{
    let Ok(value) = run.read(cell) else {
        return false;
    };
    if writes {
        run.write(cell, value.wrapping_add(1));
    }
    true
}

/// One try of a transaction, from a state of the generator. False is a conflict.
fn attempt(
    words: &Words<Anything>,
    pass: Pass<Anything>,
    job: Job,
    first: usize,
    start: u64,
) -> (Pass<Anything>, bool)
    requires { AreOfOneOpening words.now pass }
    ensures { AreOfOneOpening words.now result.0 }
{
    let mode = if job.writes == 0 {
        Mode::Reading
    } else {
        Mode::Writing
    };
    let mut run = begin(words, pass, mode);
    let mut state = start;
    for i in 0..job.reads {
        let cell = cell_at(state, first, job.span);
        if cell >= words.cells() || !touch(&mut run, cell, i < job.writes) {
            return (run.leave(), false);
        }
        state = state.wrapping_add(STEP);
    }
    let (pass, outcome) = run.commit(&());
    (
        pass,
        matches!(outcome, Outcome::Committed(_) | Outcome::Read(_)),
    )
}

/// The transactions of the thread with this number, from 0, each tried until it commits. It answers how many committed.
fn work(words: &Words<Anything>, pass: Pass<Anything>, job: Job, thread: usize) -> u64
    requires { AreOfOneOpening words.now pass }
{
    let mut pass = pass;
    let first = job.stride.wrapping_mul(thread);
    let behind = STEP.wrapping_mul(job.reads as u64);
    let mut state = START
        .wrapping_add(thread as u64)
        .wrapping_add(STEP)
        .wrapping_add(STEP);
    let mut committed = 0_u64;
    for _ in 0..job.transactions {
        for _ in 0..MOST_TRIES {
            let (next, is_done) = attempt(words, pass, job, first, state);
            pass = next;
            if is_done {
                committed = committed.saturating_add(1);
                break;
            }
            thread::yield_now();
        }
        state = state.wrapping_add(behind);
    }
    committed
}

/// The transactions of all threads, one for each pass. It answers how many committed; none is no memory.
fn work_all(
    rt: &(impl Threads + Sync),
    words: &Words<Anything>,
    passes: Vec<Pass<Anything>>,
    job: Job,
) -> Option<u64>
    requires passes { All (λ p. AreOfOneOpening words.now p) passes.items }
{
    let started = AtomicUsize::new(0);
    let started = &started;
    let counts = thread::map_vec(
        rt,
        passes,
        &|pass: Pass<Anything>| -> u64
            requires { AreOfOneOpening words.now pass }
        { work(words, pass, job, started.fetch_add(1, Ordering::SeqCst)) },
    )
    .ok()?;
    let mut committed = 0_u64;
    for count in &counts {
        committed = committed.saturating_add(*count);
    }
    Some(committed)
}

/// The sum of the values at the end.
fn sum_of(cells: &[ClosedCell]) -> u64 {
    let mut sum = 0_u64;
    for cell in cells {
        sum = sum.wrapping_add(cell.value);
    }
    sum
}

/// Runs the transactions over words that begin with these values: how many committed, and the sum of the values at the end. None is no
/// memory, or more cells or threads than there may be.
fn run_over(
    rt: &(impl AllocGlobal + Threads + Sync),
    values: Vec<u64>,
    threads: usize,
    job: Job,
) -> Option<(u64, u64)> {
    let store = Vec::new(rt.alloc());
    let (words, passes) = Words::<Anything>::open(rt.alloc(), &(), values, store, 0, threads).ok()?;
    let committed = work_all(rt, &words, passes, job)?;
    let closed = close(rt.alloc(), words, Vec::new(rt.alloc())).ok()?;
    Some((committed, sum_of(closed.cells.as_slice())))
}

/// Runs the transactions over so many cells, and prints what came of them. None where that can't be done.
fn run_all(
    rt: &(impl AllocGlobal + Print + Threads + Sync),
    cells: usize,
    threads: usize,
    job: Job,
) -> Option<Ending> {
    let mut values = Vec::new(rt.alloc());
    values.resize(cells, 0).ok()?;
    let (committed, sum) = run_over(rt, values, threads, job)?;
    finish(rt, format_args!("committed {committed} sum {sum}"))
}

/// Runs the transactions of a pattern. None is what `run_all` says, or no cells for a thread.
pub(crate) fn run(
    rt: &(impl AllocGlobal + Print + Threads + Sync),
    pattern: &str,
    cells: usize,
    transactions: u32,
    threads: usize,
) -> Option<Ending> {
    let part = cells.checked_div(threads)?;
    let (reads, writes, span, stride) = match pattern {
        "disjoint" => (4, 2, part, part),
        "uniform" => (4, 2, cells, 0),
        "hot" => (4, 2, cells.min(8), 0),
        "read" => (100, 0, cells, 0),
        _ => return Some(Ending::Misused),
    };
    if span == 0 {
        return None;
    }
    let job = Job {
        transactions,
        reads,
        writes,
        span,
        stride,
    };
    run_all(rt, cells, threads, job)
}

/// Does what these words ask for.
pub(crate) fn obey(
    rt: &(impl AllocGlobal + Print + Threads + Sync),
    words: &[String],
) -> Option<Ending> {
    let [pattern, cells, transactions, threads] = words else {
        return Some(Ending::Misused);
    };
    let cells = cells.as_str().parse().ok()?;
    let transactions = transactions.as_str().parse().ok()?;
    let threads = threads.as_str().parse().ok()?;
    run(rt, pattern.as_str(), cells, transactions, threads)
}
