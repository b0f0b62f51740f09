//! A line of progress on the standard error while a run goes on, a library is taken, or proofs are checked.

use following::Follow;
use jobs::{Gate, Watch};
use std::sync::atomic::Ordering::SeqCst;
use std::sync::atomic::{AtomicBool, AtomicU64, AtomicUsize};
use std::time::{Clock, Instant};

/// How long it goes on without a line, in milliseconds.
const FIRST: u64 = 1000;

/// How long a line stands at least before the next one, in milliseconds.
const PAUSE: u64 = 100;

/// Says how far a run is, or the work on a source, on the standard error where that is a terminal: one line, which each later one
/// overwrites, and which is wiped at the end. Of the workers one at a time writes, and no other waits for it. What can't be written, or has
/// no time by the clock, is left out.
#[derive(Drop)]
pub struct Progress<'r, R> {
    rt: &'r R,
    /// When this was made: times count from here. None where nothing is to be said.
    made: Option<Instant>,
    scripts: AtomicUsize,
    scripts_done: AtomicUsize,
    transactions: AtomicUsize,
    transactions_done: AtomicUsize,
    /// Whether the work is on a source: then assertions are counted.
    on_source: AtomicBool,
    assertions: AtomicUsize,
    assertions_done: AtomicUsize,
    /// From when on a line may be written, in milliseconds: never, where nothing goes on.
    due: AtomicU64,
    /// Whether a worker writes.
    busy: AtomicBool,
    /// Whether a line stands on the terminal.
    shown: AtomicBool,
}

/// The time of what never comes, in milliseconds.
const NEVER: u64 = u64::MAX;

impl<'r, R: Eprint + Clock> Progress<'r, R> {
    /// Says nothing where the standard error is no terminal, or there is no clock.
    pub fn new(rt: &'r R, is_terminal: bool) -> Self {
        let made = if is_terminal {
            Instant::now(rt).ok()
        } else {
            None
        };
        Progress {
            rt,
            made,
            scripts: AtomicUsize::new(0),
            scripts_done: AtomicUsize::new(0),
            transactions: AtomicUsize::new(0),
            transactions_done: AtomicUsize::new(0),
            on_source: AtomicBool::new(false),
            assertions: AtomicUsize::new(0),
            assertions_done: AtomicUsize::new(0),
            due: AtomicU64::new(NEVER),
            busy: AtomicBool::new(false),
            shown: AtomicBool::new(false),
        }
    }

    /// The time in milliseconds. None where nothing is to be said.
    fn now(&self) -> Option<u64> {
        let elapsed = self.made?.elapsed(self.rt).ok()?;
        u64::try_from(elapsed.as_millis()).ok()
    }

    /// Writes the line where it is due, and no other worker does.
    fn tell(&self) {
        let Some(now) = self.now() else {
            return;
        };
        if now < self.due.load(SeqCst) || self.busy.swap(true, SeqCst) {
            return;
        }
        self.due.store(now.saturating_add(PAUSE), SeqCst);
        self.shown.store(true, SeqCst);
        if self.on_source.load(SeqCst) {
            self.write_assertions();
        } else {
            self.write_run();
        }
        self.busy.store(false, SeqCst);
    }

    /// Overwrites the line that stands on the terminal, where a run goes on.
    fn write_run(&self) {
        let (done, all) = (
            self.transactions_done.load(SeqCst),
            self.transactions.load(SeqCst),
        );
        let (scripts_done, scripts) = (self.scripts_done.load(SeqCst), self.scripts.load(SeqCst));
        let _ = self.rt.eprint(format_args!(
            "\r{done} of {all} transactions, {scripts_done} of {scripts} scripts\x1b[K"
        ));
    }

    /// Overwrites the line that stands on the terminal, where the work is on a source.
    fn write_assertions(&self) {
        let (done, all) = (
            self.assertions_done.load(SeqCst),
            self.assertions.load(SeqCst),
        );
        let _ = self
            .rt
            .eprint(format_args!("\r{done} of {all} assertions\x1b[K"));
    }

    /// Wipes the line that stands on the terminal, and lets none be written.
    fn wipe(&self) {
        self.due.store(NEVER, SeqCst);
        if self.shown.swap(false, SeqCst) {
            let _ = self.rt.eprint("\r\x1b[K");
        }
    }
}

impl<R: Eprint + Clock> Gate for Progress<'_, R> {
    fn enter(&self, _script: usize) {}

    fn pass(&self, _script: usize) {
        if self.made.is_none() {
            return;
        }
        self.transactions_done.fetch_add(1, SeqCst);
        self.tell();
    }

    fn leave(&self, _script: usize) {
        if self.made.is_none() {
            return;
        }
        self.scripts_done.fetch_add(1, SeqCst);
        self.tell();
    }
}

impl<R: Eprint + Clock> Watch for Progress<'_, R> {
    fn begin(&self, scripts: usize, transactions: usize) {
        let Some(now) = self.now() else {
            return;
        };
        self.scripts.store(scripts, SeqCst);
        self.scripts_done.store(0, SeqCst);
        self.transactions.store(transactions, SeqCst);
        self.transactions_done.store(0, SeqCst);
        self.on_source.store(false, SeqCst);
        self.due.store(now.saturating_add(FIRST), SeqCst);
    }

    fn end(&self) {
        self.wipe();
    }
}

impl<R: Eprint + Clock> Follow for Progress<'_, R> {
    fn begin_reading(&self) {
        let Some(now) = self.now() else {
            return;
        };
        self.on_source.store(true, SeqCst);
        self.due.store(now.saturating_add(FIRST), SeqCst);
    }

    fn begin_assertions(&self, assertions: usize) {
        if self.made.is_none() {
            return;
        }
        self.assertions.store(assertions, SeqCst);
        self.assertions_done.store(0, SeqCst);
        self.tell();
    }

    fn pass_assertion(&self) {
        if self.made.is_none() {
            return;
        }
        self.assertions_done.fetch_add(1, SeqCst);
        self.tell();
    }

    fn end(&self) {
        self.wipe();
    }
}
