//! The end of a run: the steps of a commit, in order.
#![tactic(auto)]

ghost use Rattle.std.specs.Prelude.{◌≡◌, ◌≢◌, ℕ, ◌^◌, ◌<◌, ◌≤◌, ◌||◌, Some, None, [], length, true, false, IfOk, IfErr};
ghost use Rattle.tlcore.specs.Seats.{is_next, all_settled};
ghost use Rattle.tlcore.specs.declared.seats.Phase.TheVariants.{Reading as AtReading, Taking, Checking};
ghost use Rattle.tlwords.specs.Plays.{IsSameSeat};
ghost use Rattle.tlwords.specs.Runs.{IsKeptOf, noted, IsRunOf, IsSeated};
ghost use Rattle.tlwords.specs.declared.mode.Mode.TheVariants.{Reading, Writing};
ghost use Rattle.tlwords.specs.declared.outcome.Outcome.TheVariants.{Read as EndsRead};
ghost use Rattle.tlwords.specs.Commits.{writes_kept, work_kept};
ghost use Rattle.tlwords.specs.Known.{going_of};
ghost use Rattle.tlwords.specs.Calls.{IsLawful};
ghost use Rattle.tlwords.specs.Committing.{held_in, locking, Goes, FailsToTake, FailsTheCheck, Passes, StoresTo, Releasing, ReleasesAll};
ghost use Rattle.tlwords.specs.Committing.{Concludes, IsPlanned};

use crate::law::Law;
use crate::log::{Log, Touched};
use crate::mode::Mode;
use crate::outcome::{Conflict, Outcome};
use crate::rule::TableSeat;
use crate::steps::{check, draw, passes, recall, release, store, take};
use crate::words::Words;
use std::marker::Brand;

// Locks the cells to be written, in ascending order. An error is the try that failed; the smaller cells are locked still.
fn take_all<L: Law>(words: &Words<L>, seat: &mut TableSeat<L>, log: &Log) -> Result<(), Conflict>
    requires planned { IsPlanned words.now seat.old log.now }
    requires run { (seat.old.me.0.seat.phase ≡ AtReading) × (seat.old.me.0.seat.held ≡ []) × (1 ≤ seat.old.me.0.rights) }
    ensures seat { IsSameSeat seat.old seat.new }
    ensures ok { IfOk result (λ _. Goes L.terms seat.old.me (locking seat.old.me.0.seat Taking AtReading
        (held_in log.now.slots 0 0 (length log.now.slots))) seat.new.me) }
    ensures err { IfErr result (λ k. FailsToTake L.terms log.now.slots k seat.old.me seat.new.me) }
{
    for i in 0..log.writes.len() {
        let Touched { cell, word, value } = log.writes[i];
        let found = take::<L, Brand>(words, seat, cell, word, value);
        if found != word {
            return Err(Conflict {
                cell,
                word: found,
                before: Some(word),
            });
        }
    }
    Ok(())
}

// Looks again at the lock words of the cells that were read and aren't written, in ascending order. It isn't needed where the run's
// number is the next one after its place.
fn check_all<L: Law>(
    words: &Words<L>,
    seat: &mut TableSeat<L>,
    log: &mut Log,
    place: u64,
    index: u64,
) -> Result<(), Conflict>
    requires planned { IsPlanned words.now seat.old log.old }
    requires run { (seat.old.me.0.seat.phase ≡ Checking index 0) × (seat.old.me.0.seat.rv ≡ place)
        × (seat.old.me.0.seat.held ≡ held_in log.old.slots 0 0 (length log.old.slots)) }
    ensures log { (log.new.slots ≡ log.old.slots) × (log.new.writes ≡ log.old.writes) }
    ensures seat { IsSameSeat seat.old seat.new }
    ensures ok { IfOk result (λ _. Passes L.terms index seat.old.me seat.new.me) }
    ensures err { IfErr result (λ k. FailsTheCheck L.terms log.old.slots index k seat.old.me seat.new.me) }
{
    if index == place {
        return Ok(());
    }
    log.plan_checks();
    for i in 0..log.checks.len() {
        let read = log.checks[i];
        let word = check(words, seat, read.cell);
        if !passes(word, place) {
            return Err(Conflict {
                cell: read.cell,
                word,
                before: Some(read.word),
            });
        }
    }
    Ok(())
}

// Stores the values, in ascending order of their cells.
fn store_all<L: Law>(
    words: &Words<L>,
    seat: &mut TableSeat<L>,
    log: &Log,
    index: u64,
    note: &L::Note,
)
    requires planned { IsPlanned words.now seat.old log.now }
    requires run { (upto : ℕ) × (seat.old.me.0.seat.phase ≡ Checking index upto)
        × ((is_next seat.old.me.0.seat index || all_settled seat.old.me.0.seat.held upto seat.old.me.0.seat.reads) ≡ true) }
    requires held { (seat.old.me.0.seat.held ≡ held_in log.now.slots 0 0 (length log.now.slots)) × (seat.old.me.0.note ≡ Some note.now) }
    requires writes { writes_kept log.now.slots ≢ [] }
    ensures seat { IsSameSeat seat.old seat.new }
    ensures stores { StoresTo L.terms log.now.slots index (work_kept seat.old.me.0.seat log.now.slots note.now) (length log.now.slots)
        seat.old.me seat.new.me }
{
    for i in 0..log.writes.len() {
        let kept = log.writes[i];
        store(words, seat, kept.cell, kept.value);
    }
}

// Sets the lock words of the cells below `high` that are held, in ascending order: each to its former value, or to the new one.
fn release_all<L: Law>(
    words: &Words<L>,
    seat: &mut TableSeat<L>,
    log: &Log,
    high: usize,
    new: Option<u64>,
)
    requires planned { IsPlanned words.now seat.old log.now }
    requires high { high ≤ length log.now.slots }
    requires run { Releasing L.terms log.now.slots high new 0 seat.old.me seat.old.me }
    ensures seat { IsSameSeat seat.old seat.new }
    ensures releases { ReleasesAll L.terms seat.old.me seat.new.me }
{
    for i in 0..log.writes.len() {
        let kept = log.writes[i];
        if kept.cell >= high {
            return;
        }
        release(words, seat, kept.cell, new.unwrap_or(kept.word));
    }
}

// How many numbers a pass may draw.
const MOST_NUMBERS: u64 = 1 << 40;

// Ends a run that is to write something, of a pass that may draw a number: locks, draws, checks, stores and gives the locks back.
fn settle<L: Law>(
    words: &Words<L>,
    seat: &mut TableSeat<L>,
    log: &mut Log,
    count: &mut u64,
    place: u64,
    note: &L::Note,
) -> Outcome
    requires planned { IsPlanned words.now seat.old log.old }
    requires run { IsRunOf seat.old.me count.old place false }
    requires lawful { IsLawful L.terms (going_of seat.old.table_id seat.old.me.0 place Writing None log.old.slots) note.now }
    requires writes { writes_kept log.old.slots ≢ [] }
    requires room { count.old < 2 ^ 40 }
    ensures log { log.new.slots ≡ log.old.slots }
    ensures ended { Concludes L.terms note.now Writing place log.old.slots count.new seat.old seat.new result }
{
    if let Err(conflict) = take_all(words, seat, log) {
        release_all(words, seat, log, conflict.cell, None);
        return Outcome::Conflict {
            conflict,
            drawn: None,
        };
    }
    let index = draw::<L, Brand>(words, seat, note);
    *count += 1;
    let number = index + 1;
    if let Err(conflict) = check_all(words, seat, log, place, index) {
        release_all(words, seat, log, words.cells, None);
        return Outcome::Conflict {
            conflict,
            drawn: Some(number),
        };
    }
    store_all(words, seat, log, index, note);
    release_all(words, seat, log, words.cells, Some(2 * number));
    Outcome::Committed(number)
}

// Ends a run in Writing mode that hasn't met a conflict, and makes what it wrote an entry of the history.
fn finish<L: Law>(
    words: &Words<L>,
    seat: &mut TableSeat<L>,
    log: &mut Log,
    count: &mut u64,
    place: u64,
    note: &L::Note,
) -> Outcome
    requires seated { IsSeated words.now seat.old }
    requires cells { length log.old.slots ≡ words.now.cells }
    requires run { IsRunOf seat.old.me count.old place false }
    requires kept { IsKeptOf seat.old.me.0.seat log.old.slots }
    requires lawful { IsLawful L.terms (going_of seat.old.table_id seat.old.me.0 place Writing None log.old.slots) note.now }
    ensures log { log.new.slots ≡ log.old.slots }
    ensures ended { Concludes L.terms note.now Writing place log.old.slots count.new seat.old seat.new result }
{
    log.plan_writes();
    if log.writes.is_empty() {
        recall::<L, Brand>(words, seat, note);
        return Outcome::Read(place);
    }
    if *count >= MOST_NUMBERS {
        return Outcome::NumbersUsed;
    }
    settle(words, seat, log, count, place, note)
}

/// Ends a run that hasn't met a conflict. The count is that of the numbers drawn.
pub(crate) fn conclude<L: Law>(
    words: &Words<L>,
    seat: &mut TableSeat<L>,
    log: &mut Log,
    count: &mut u64,
    place: u64,
    mode: Mode,
    note: &L::Note,
) -> Outcome
    requires seated { IsSeated words.now seat.old }
    requires cells { length log.old.slots ≡ words.now.cells }
    requires run { IsRunOf seat.old.me count.old place false }
    requires kept { IsKeptOf (noted mode seat.old.me.0.seat) log.old.slots }
    requires lawful { IsLawful L.terms (going_of seat.old.table_id seat.old.me.0 place mode None log.old.slots) note.now }
    ensures log { log.new.slots ≡ log.old.slots }
    ensures reading { mode ≡ Reading → result ≡ EndsRead place }
    ensures ended { Concludes L.terms note.now mode place log.old.slots count.new seat.old seat.new result }
{
    match mode {
        Mode::Reading => {
            recall::<L, Brand>(words, seat, note);
            Outcome::Read(place)
        }
        Mode::Writing => finish(words, seat, log, count, place, note),
    }
}
