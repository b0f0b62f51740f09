//! What gates are told of scripts. Some wait for one another: workers run them at once.

ghost use Rattle.std.specs.Prelude.{All, IfOk};
ghost use Rattle.library.specs.Fitting.{CommandFits};
ghost use Rattle.lawful.specs.Lawful.{setting_given};
ghost use Rattle.transaction.specs.Members.{IsSessionOf};

use crate::samples::mini;
use crate::sessions::{end_of, opened};
use crossbeam_utils::Backoff;
use library::Script;
use scripts::read_script;
use std::alloc::{AllocError, AllocGlobal, Global};
use std::random::RandomSource;
use std::sync::Wait;
use std::sync::atomic::Ordering::SeqCst;
use std::sync::atomic::{AtomicBool, AtomicU8, AtomicUsize};
use std::test::Fail;
use std::thread::Threads;
use transaction::{Library, Outcome, Session};
use workers::{Gate, Worked, run_scripts};

/// How often a script that waits looks whether it may go on.
const TURNS: usize = 10_000_000;

/// How many calls are written down.
const CALLS: usize = 16;

/// No script.
const NONE: usize = usize::MAX;

/// Scripts that workers run, and what becomes of them. A row of texts and numbers alone costs the check little.
struct Row {
    name: &'static str,
    /// The texts of the scripts, or the one that all have.
    texts: &'static str,
    scripts: usize,
    workers: usize,
    /// The script that waits for the end of another one, and that one.
    waiting: usize,
    awaited: usize,
    /// How many entries the history has.
    entries: usize,
    /// The letter of each script's last outcome, or that of all; and what it may be in place of that.
    wanted: &'static str,
    or: &'static str,
    /// How many calls the gate has, where it is asked whether these are the right ones.
    calls: usize,
}

/// Each of the scripts shows an assertion.
const SHOW: &str = "begin show we commit";

/// Two scripts, each of which gives the same assertion another label.
const RENAMES: &str = "begin rename we u commit|begin rename we v commit";

/// Three scripts, with two transactions, with none, and with one, which is refused.
const UNEVEN: &str = "begin show we commit begin show we commit||begin show none commit";

const ROWS: [Row; 13] = [
    // So many scripts are run at once, as one of them waits for another one's end.
    Row {
        name: "two_scripts_are_run_at_once",
        texts: SHOW,
        scripts: 2,
        workers: 2,
        waiting: 0,
        awaited: 1,
        entries: 0,
        wanted: "r",
        or: "r",
        calls: 0,
    },
    Row {
        name: "two_scripts_are_run_at_once",
        texts: SHOW,
        scripts: 2,
        workers: 2,
        waiting: 1,
        awaited: 0,
        entries: 0,
        wanted: "r",
        or: "r",
        calls: 0,
    },
    Row {
        name: "three_scripts_are_run_at_once",
        texts: SHOW,
        scripts: 3,
        workers: 3,
        waiting: 0,
        awaited: 2,
        entries: 0,
        wanted: "r",
        or: "r",
        calls: 0,
    },
    Row {
        name: "three_scripts_are_run_at_once",
        texts: SHOW,
        scripts: 3,
        workers: 3,
        waiting: 2,
        awaited: 0,
        entries: 0,
        wanted: "r",
        or: "r",
        calls: 0,
    },
    Row {
        name: "four_scripts_are_run_at_once",
        texts: SHOW,
        scripts: 4,
        workers: 4,
        waiting: 0,
        awaited: 3,
        entries: 0,
        wanted: "r",
        or: "r",
        calls: 0,
    },
    Row {
        name: "four_scripts_are_run_at_once",
        texts: SHOW,
        scripts: 4,
        workers: 4,
        waiting: 3,
        awaited: 0,
        entries: 0,
        wanted: "r",
        or: "r",
        calls: 0,
    },
    Row {
        name: "sixty_four_scripts_are_run_at_once",
        texts: SHOW,
        scripts: 64,
        workers: 64,
        waiting: 0,
        awaited: 63,
        entries: 0,
        wanted: "r",
        or: "r",
        calls: 0,
    },
    Row {
        name: "sixty_four_scripts_are_run_at_once",
        texts: SHOW,
        scripts: 64,
        workers: 64,
        waiting: 63,
        awaited: 0,
        entries: 0,
        wanted: "r",
        or: "r",
        calls: 0,
    },
    // A script that waits comes behind the awaited one, which does what both ask for.
    Row {
        name: "a_script_waits_before_its_first_transaction",
        texts: RENAMES,
        scripts: 2,
        workers: 2,
        waiting: 0,
        awaited: 1,
        entries: 1,
        wanted: "1|c",
        or: "1|c",
        calls: 0,
    },
    Row {
        name: "a_script_waits_before_its_first_transaction",
        texts: RENAMES,
        scripts: 2,
        workers: 2,
        waiting: 1,
        awaited: 0,
        entries: 1,
        wanted: "c|1",
        or: "c|1",
        calls: 0,
    },
    // A gate is told of each script in its order, and where one worker alone runs them, of one script behind another.
    Row {
        name: "one_worker_tells_its_gate_of_each_script_in_turn",
        texts: UNEVEN,
        scripts: 3,
        workers: 1,
        waiting: NONE,
        awaited: NONE,
        entries: 0,
        wanted: "r|-|0",
        or: "r|-|0",
        calls: 9,
    },
    Row {
        name: "two_workers_tell_a_gate_of_each_script",
        texts: UNEVEN,
        scripts: 3,
        workers: 2,
        waiting: NONE,
        awaited: NONE,
        entries: 0,
        wanted: "r|-|0",
        or: "r|-|0",
        calls: 9,
    },
    // Of two renamings on two threads one is done, and the other refused behind it, where none waits.
    Row {
        name: "one_of_two_renames_on_threads_is_done",
        texts: RENAMES,
        scripts: 2,
        workers: 2,
        waiting: NONE,
        awaited: NONE,
        entries: 1,
        wanted: "c|1",
        or: "1|c",
        calls: 0,
    },
];

/// Keeps one script waiting until another has its last outcome, for so many turns, and writes down the first calls, one after another.
struct Watch {
    waiting: usize,
    awaited: usize,
    /// Whether the other one has.
    left: AtomicBool,
    /// Whether all turns went by before.
    gave_up: AtomicBool,
    count: AtomicUsize,
    /// Of each call `0` for `enter`, `P` for `pass` or `p` for `leave`, and added to it the number of the script, up to 15.
    calls: Vec<AtomicU8>,
}

// One call where it is dropped: a derived drop is written out at each early return.
impl Drop for Watch {
    fn drop(self) {
        let Watch {
            waiting: _,
            awaited: _,
            left: _,
            gave_up: _,
            count: _,
            calls: _,
        } = self;
    }
}

impl Watch {
    /// That script waits for the other one, and there were no calls so far.
    fn new(alloc: Global, waiting: usize, awaited: usize) -> Result<Watch, AllocError> {
        let mut calls = Vec::new(alloc);
        for _ in 0..CALLS {
            calls.push(AtomicU8::new(0))?;
        }
        Ok(Watch {
            waiting,
            awaited,
            left: AtomicBool::new(false),
            gave_up: AtomicBool::new(false),
            count: AtomicUsize::new(0),
            calls,
        })
    }

    /// One call more.
    fn note(&self, letter: u8, script: usize) {
        let at = self.count.fetch_add(1, SeqCst);
        if let Some(call) = self.calls.get(at) {
            call.store(letter | (script & 0xf) as u8, SeqCst);
        }
    }

    /// Whether these are the calls, in order: all of them, or where the mask is 15, those that speak of the script.
    fn tells(&self, mask: u8, script: u8, calls: &[u8]) -> bool {
        let mut at = 0_usize;
        for call in &self.calls {
            let call = call.load(SeqCst);
            if call != 0 && call & mask == script {
                if calls.get(at) != Some(&call) {
                    return false;
                }
                at = at.saturating_add(1);
            }
        }
        at == calls.len()
    }

    /// Whether no turns went by, and where a row asks for that, this was told of each of its scripts in order, and of one behind another
    /// where one worker runs them.
    fn is_right(&self, row: &Row) -> bool {
        let has_waited = !self.gave_up.load(SeqCst);
        if row.calls == 0 {
            return has_waited;
        }
        has_waited
            && self.count.load(SeqCst) == row.calls
            && (row.workers > 1 || self.tells(0, 0, b"0PPp1q2Rr"))
            && self.tells(15, 0, b"0PPp")
            && self.tells(15, 1, b"1q")
            && self.tells(15, 2, b"2Rr")
    }
}

impl Gate for Watch {
    fn enter(&self, script: usize) {
        self.note(b'0', script);
        if script != self.waiting {
            return;
        }
        let backoff = Backoff::new();
        for _ in 0..TURNS {
            if self.left.load(SeqCst) {
                return;
            }
            backoff.snooze();
        }
        self.gave_up.store(true, SeqCst);
    }

    fn pass(&self, script: usize) {
        self.note(b'P', script);
    }

    fn leave(&self, script: usize) {
        self.note(b'p', script);
        if script == self.awaited {
            self.left.store(true, SeqCst);
        }
    }
}

/// The part of a script in a text: one of its parts between bars, or all of a text that has none for it.
fn part_of(text: &str, script: usize) -> &str {
    text.split('|').nth(script).unwrap_or(text)
}

/// The scripts of a row.
fn scripts_of(alloc: Global, library: &Library, row: &Row) -> Result<Vec<Script>, Fail>
    ensures { IfOk result (λ scripts. All (All (All (CommandFits (setting_given library.now.given).prelude))) scripts.items) }
{
    let prelude = library.prelude();
    let mut scripts = Vec::new(alloc);
    for script in 0..row.scripts {
        let text = part_of(row.texts, script);
        scripts.push(read_script(alloc, prelude, text.as_bytes())?)?;
    }
    Ok(scripts)
}

/// The letter of a script's last outcome: it read the library at its opening, is the first entry of the history, was refused at the place
/// 0 or 1, or is another one, or there is none.
fn letter_of(outcomes: &[Outcome]) -> &'static str {
    match outcomes.last() {
        None => "-",
        Some(Outcome::Read { place: 0, .. }) => "r",
        Some(Outcome::Committed { number: 1, .. }) => "c",
        Some(Outcome::Refused { place: 0, .. }) => "0",
        Some(Outcome::Refused { place: 1, .. }) => "1",
        Some(_) => "?",
    }
}

/// Whether the last outcomes of scripts have these letters.
fn are_these(outcomes: &[Vec<Outcome>], wanted: &str) -> bool {
    for (script, own) in outcomes.iter().enumerate() {
        if letter_of(own.as_slice()) != part_of(wanted, script) {
            return false;
        }
    }
    true
}

/// Whether so many scripts as a row has had the last outcomes that it wants.
fn are_wanted(row: &Row, outcomes: &[Vec<Outcome>]) -> bool {
    outcomes.len() == row.scripts
        && (are_these(outcomes, row.wanted) || are_these(outcomes, row.or))
}

/// What becomes of the scripts of a row, where these sessions run them and a gate is told of them.
fn work<R: AllocGlobal + Threads + Wait + Sync>(
    rt: &R,
    library: &Library,
    sessions: Vec<Session>,
    row: &Row,
    gate: &Watch,
) -> Result<Worked, Fail>
    requires { All (IsSessionOf library.now) sessions.items }
    ensures { IfOk result (λ worked. All (IsSessionOf library.now) worked.sessions.items) }
{
    if sessions.is_empty() {
        return Err(Fail::from("there are sessions"));
    }
    let scripts = scripts_of(rt.alloc(), library, row)?;
    let Worked { outcomes, sessions } = run_scripts(
        rt,
        rt.alloc(),
        library,
        sessions,
        scripts.as_slice(),
        gate,
    )?;
    Ok(Worked { outcomes, sessions })
}

/// Whether the scripts of a row have the wanted outcomes, where sessions run them and a gate is told of them. At its end the library has
/// its one assertion, and an entry for each that commits.
fn is_done<R: AllocGlobal + RandomSource + Threads + Wait + Sync>(
    rt: &R,
    row: &Row,
    gate: &Watch,
) -> Result<bool, Fail> {
    let (library, sessions) = opened(rt, mini(), 1000, row.workers)?;
    let Worked { outcomes, sessions } = work(rt, &library, sessions, row, gate)?;
    let end = end_of(rt.alloc(), library, sessions);
    Ok(end == Ok((row.entries, 1)) && are_wanted(row, outcomes.as_slice()) && gate.is_right(row))
}

/// Whether the calls of a row are answered as is wanted.
fn is_answered<R: AllocGlobal + RandomSource + Threads + Wait + Sync>(
    rt: &R,
    row: &Row,
) -> Result<bool, Fail> {
    let gate = Watch::new(rt.alloc(), row.waiting, row.awaited)?;
    is_done(rt, row, &gate)
}

/// Makes the calls of this name, and says whether the answers are the wanted ones.
pub(crate) fn make(
    rt: &(impl AllocGlobal + RandomSource + Threads + Wait + Sync),
    name: &str,
) -> Result<bool, Fail> {
    let mut made = 0_usize;
    for row in &ROWS {
        if row.name == name {
            if !is_answered(rt, row)? {
                return Ok(false);
            }
            made = made.saturating_add(1);
        }
    }
    Ok(made > 0)
}
