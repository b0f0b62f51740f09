//! Runs: transactions as they go.
#![tactic(auto)]

ghost use Rattle.std.specs.Prelude.{◌≡◌, ◌<◌, ◌≤◌, ℕ, Some, None, length, true, Ok, Err, IfOk, IfErr};
ghost use Rattle.tlwords.specs.Runs.{word_seen, value_kept, was_read, HasKept};
ghost use Rattle.tlwords.specs.Callers.{SitsAt, AreOfOneOpening};
ghost use Rattle.tlwords.specs.Commits.{HasForgotten};
ghost use Rattle.tlwords.specs.Calls.{IsLawful, Begins, HasRead, HasStopped, Ends, Learns};
ghost use Rattle.tlwords.specs.declared.outcome.Outcome.TheVariants.{Read as EndsRead, Conflict as EndsConflict};
ghost use Rattle.tlwords.specs.declared.mode.Mode.TheVariants.{Reading, Writing};
ghost use Rattle.tlwords.specs.declared.outcome.Conflict.{Conflict as ConflictValue};

use crate::commits::conclude;
use crate::law::Law;
use crate::log::{Log, Slot};
use crate::mode::Mode;
use crate::outcome::{Conflict, Outcome};
use crate::passes::Pass;
use crate::rule::TableSeat;
use crate::steps::{self, load, look, passes, relook};
use crate::words::Words;
use std::marker::Model;

/// A transaction as it goes. Contracts see what its pass knows, its place, what it has read and what it keeps of the cells.
pub struct Run<'w, L: Law> {
    pub(crate) words: &'w Words<L>,
    pub(crate) seat: TableSeat<L>,
    pub(crate) log: Log,
    pub(crate) count: u64,
    pub(crate) place: u64,
    pub(crate) mode: Mode,
    pub(crate) over: Option<Conflict>,
    pub(crate) full: bool,
}

impl<'w, L: Law> Model for Run<'w, L> {
    ghost use Rattle.std.specs.Prelude.{is_some};
    ghost use Rattle.tlwords.specs.Known.{Going, going_of};
    ghost use Rattle.tlwords.specs.Runs.{Runs};

    ghost Value = { Going L.Setting L.Note };

    ghost view = { λ a. going_of a.seat.table_id a.seat.me.0 a.place a.mode a.over a.log.slots };

    ghost invariant = { λ a. Runs a.words.now.table.shared.table_id a.words.now.cells a.words.now.room a.seat a.log.slots a.mode a.count
        a.place (is_some a.over) a.full };
}

/// Begins a run in this mode, by one load of the clock.
pub fn begin<'w, L: Law>(words: &'w Words<L>, pass: Pass<L>, mode: Mode) -> Run<'w, L>
    requires opening { AreOfOneOpening words.now pass }
    ensures begins { Begins L.terms mode pass result }
    ensures place { length pass.seen.history ≤ result.place }
    ensures cells { length result.known.home.base ≡ words.now.cells }
{
    let (mut seat, log, count, full) = pass.into_parts();
    let place = steps::begin(words, &mut seat);
    Run {
        words,
        seat,
        log,
        count,
        place,
        mode,
        over: None,
        full,
    }
}

impl<'w, L: Law> Run<'w, L> {
    /// The number of transactions before this one, of which it sees all that committed.
    pub fn place(&self) -> u64
        ensures { result ≡ self.now.place }
    {
        self.place
    }

    // What is kept of the cell.
    fn slot(&self, cell: usize) -> Slot
        requires { cell < length self.now.known.home.base }
        ensures { (word_seen self.now.slots cell ≡ result.word) × (value_kept self.now.slots cell ≡ result.kept) }
    {
        match self.mode {
            Mode::Reading => Slot {
                word: None,
                kept: None,
            },
            Mode::Writing => self.log.slot(cell),
        }
    }

    /// The value of the cell: the one that this run keeps for it, or else that of the version at the run's place.
    ///
    /// In Reading mode nothing of it is kept. An error is a conflict, and the run is over: each later read answers the same conflict,
    /// without a step.
    pub fn read(&mut self, cell: usize) -> Result<u64, Conflict>
        requires { cell < length self.old.known.home.base }
        ensures same { (self.new.known.home ≡ self.old.known.home) × (self.new.place ≡ self.old.place) × (self.new.mode ≡ self.old.mode) }
        ensures over { (k : ConflictValue) → self.old.over ≡ Some k → (result ≡ Err k) × (self.new ≡ self.old) }
        ensures kept { (v : ℕ) → self.old.over ≡ None → value_kept self.old.slots cell ≡ Some v → (result ≡ Ok v) × (self.new ≡ self.old) }
        ensures ok { self.old.over ≡ None → value_kept self.old.slots cell ≡ None
            → IfOk result (λ v. HasRead L.terms cell v self.old self.new) }
        ensures err { self.old.over ≡ None → IfErr result (λ k. HasStopped L.terms cell k self.old self.new) }
        ensures noted { self.old.mode ≡ Writing → IfOk result (λ _. was_read self.new.slots cell ≡ true) }
    {
        if let Some(conflict) = self.over {
            return Err(conflict);
        }
        let slot = self.slot(cell);
        if let Some(value) = slot.kept {
            return Ok(value);
        }
        self.fetch(cell, slot.word)
    }

    // The three steps of a read of a cell for which no value is kept. `before` is the lock word that the run's newest read of it had found.
    fn fetch(&mut self, cell: usize, before: Option<u64>) -> Result<u64, Conflict>
        requires cell { cell < length self.old.known.home.base }
        requires open { self.old.over ≡ None }
        requires before { word_seen self.old.slots cell ≡ before }
        ensures ok { IfOk result (λ v. HasRead L.terms cell v self.old self.new) }
        ensures err { IfErr result (λ k. HasStopped L.terms cell k self.old self.new) }
        ensures noted { self.old.mode ≡ Writing → IfOk result (λ _. was_read self.new.slots cell ≡ true) }
    {
        let word = look(self.words, &mut self.seat, cell);
        if !passes(word, self.place) {
            let late = Conflict { cell, word, before };
            self.over = Some(late);
            return Err(late);
        }
        let value = load(self.words, &mut self.seat, cell, word);
        let again = relook(self.words, &mut self.seat, cell, word, value);
        if again != word {
            let changed = Conflict {
                cell,
                word: again,
                before,
            };
            self.over = Some(changed);
            return Err(changed);
        }
        self.log.note(self.mode, cell, word);
        Ok(value)
    }

    /// Keeps a value aside for a cell that this run has read, in Writing mode. It makes no step on the words.
    pub fn write(&mut self, cell: usize, value: u64)
        requires mode { self.old.mode ≡ Writing }
        requires cell { cell < length self.old.known.home.base }
        requires read { was_read self.old.slots cell ≡ true }
        ensures kept { HasKept self.old.slots self.new.slots cell value }
        ensures same { self.new ≡ record self.old { slots = self.new.slots } }
    {
        self.log.keep(cell, value);
    }

    /// Throws away what was kept aside: the run has written nothing. It makes no step on the words.
    pub fn forget(&mut self)
        ensures forgets { HasForgotten self.old.slots self.new.slots }
        ensures same { self.new ≡ record self.old { slots = self.new.slots } }
    {
        self.log.forget();
    }

    /// Ends the run, and makes what it wrote an entry of the history, with this note.
    ///
    /// It takes the locks of the cells to be written, draws a number, looks again at the other cells that were read, stores the values and
    /// gives the locks back. After a conflict each lock has its former word, and a number that was drawn is used up. A run that wrote
    /// nothing, as each one in Reading mode, only loads the spare word. One that has met a conflict answers it again, without a step and
    /// without a number.
    pub fn commit(self, note: &L::Note) -> (Pass<L>, Outcome)
        requires lawful { self.over ≡ None → IsLawful L.terms self note.now }
        ensures home { result.0.home ≡ self.entry.known.home }
        ensures over { (k : ConflictValue) → self.entry.over ≡ Some k → (result.1 ≡ EndsConflict k None) × (result.0 ≡ self.entry.known) }
        ensures reading { self.entry.over ≡ None → self.entry.mode ≡ Reading → result.1 ≡ EndsRead self.entry.place }
        ensures ended { self.entry.over ≡ None → Ends L.terms note.now self.entry result.0 result.1 }
    {
        let Run {
            words,
            mut seat,
            mut log,
            mut count,
            place,
            mode,
            over,
            full,
        } = self;
        let outcome = match over {
            Some(conflict) => Outcome::Conflict {
                conflict,
                drawn: None,
            },
            None => conclude(words, &mut seat, &mut log, &mut count, place, mode, note),
        };
        log.clear();
        let pass = Pass {
            seat,
            log,
            count,
            full,
        };
        (pass, outcome)
    }

    /// Ends the run with nothing written. It walks over the cells that the run has read.
    pub fn leave(self) -> Pass<L>
        ensures { result ≡ self.entry.known }
    {
        let Run {
            words: _,
            seat,
            mut log,
            count,
            place: _,
            mode: _,
            over: _,
            full,
        } = self;
        log.clear();
        Pass {
            seat,
            log,
            count,
            full,
        }
    }
}

/// Tells a pass what another one has seen by now, with the other's calls. It makes three loads of the spare word, and one of the clock.
pub fn learn<L: Law>(words: &Words<L>, pass: &mut Pass<L>, other: &mut Pass<L>)
    requires { SitsAt words.now pass.old × SitsAt words.now other.old }
    ensures { Learns L.terms pass.old other.old pass.new other.new }
{
    steps::refresh(words, &mut other.seat);
    steps::tell(words, &mut pass.seat, &mut other.seat);
    steps::begin(words, &mut pass.seat);
}
