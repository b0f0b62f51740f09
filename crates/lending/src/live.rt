//! A run of a library's words as the cells of a library.

ghost use Rattle.std.specs.Prelude.{◌≡◌, ◌≢◌, ◌<◌, ℕ, List, [], Some, None, true, IfOk, IfErr, slice_get};
ghost use Rattle.lending.specs.Lent.{AgreesWithSome};

use crate::kit::Kit;
use bodystore::Stage;
use cells::{Cells, Halt};
use lawful::{Given, LibraryLaw, Note};
use ranges::Range;
use std::alloc::{AllocError, Global};
use std::marker::Model;
use std::snapshot::Snapshot;
use tlwords::{Conflict, Mode, Outcome, Pass, Run, Words, begin};

/// Why a run is given up.
#[derive(Clone, Copy)]
pub enum GivenUp {
    /// A read of it met another session.
    Conflict(Conflict),
    /// The store had no room for words that it was to stage.
    StoreFull,
    /// It met neither, so memory ran out elsewhere.
    NoMemory,
}

/// A run, which commands may be given. Contracts see what its pass knew at the beginning, and the run as it goes.
pub struct Live<'w> {
    alloc: Global,
    slots: usize,
    run: Run<'w, LibraryLaw>,
    stage: Stage,
    // the conflict that ended the run
    over: Option<Conflict>,
    // whether the store had no room
    full: bool,
    may_stage: bool,
    given: Snapshot<Given>,
    began: Snapshot<Pass<LibraryLaw>>,
    ghost agrees: { ∥ AgreesWithSome (record {
      given = given.value;
      began = began.value;
      going = run;
      may_stage = may_stage;
      full = full;
      staged =
          stage;
    }) ∥₁ },
}

impl<'w> Model for Live<'w> {
    ghost use Rattle.std.specs.Prelude.{◌≡◌};
    ghost use Rattle.std.specs.Coded.{codes};
    ghost use Rattle.lending.specs.Lent.{Lent, IsLent, staged_code};

    ghost Value = { Lent };

    ghost coded = { Prim.hlevel (codes, staged_code) };

    ghost view = { λ l. record {
      run = record {
        given = l.given.value;
        began = l.began.value;
        going = l.run;
        may_stage = l.may_stage;
        full =
            l.full;
        staged = l.stage;
      };
      agrees = l.agrees;
    } };

    ghost invariant = { λ l. (l.slots ≡ l.given.value.slots)
        × IsLent (record {
          given = l.given.value;
          began = l.began.value;
          going = l.run;
          may_stage = l.may_stage;
          full = l.full;
          staged =
              l.stage;
        }) l.stage l.over };
}

impl<'w> Live<'w> {
    ghost use Rattle.std.specs.Prelude.{◌≡◌, [], None, Some};
    ghost use Rattle.ranges.specs.Pairs.{Pairs};
    ghost use Rattle.tlwords.specs.Calls.{Ends};
    ghost use Rattle.tlwords.specs.Commits.{writes_kept};
    ghost use Rattle.tlwords.specs.declared.mode.Mode.TheVariants.{Reading};
    ghost use Rattle.tlwords.specs.declared.outcome.Conflict.{Conflict as ConflictValue};
    ghost use Rattle.tlwords.specs.declared.outcome.Outcome.TheVariants.{Read as EndsRead, Conflict as EndsConflict};
    ghost use Rattle.tlwords.specs.Callers.{home_of};
    ghost use Rattle.lawful.specs.Lawful.{library_terms};
    ghost use Rattle.lawful.specs.Laws.{IsPassOn};
    ghost use Rattle.lending.specs.Lent.{Lends, IsLending};
    ghost use Rattle.lending.specs.Ends.{IsLawfulWith, IsForgotten, IsGivenUp, staged_after};

    /// Begins a run on words that were opened with what is given, to read only or to write too, that may stage words or not.
    pub fn begin(
        alloc: Global,
        words: &'w Words<LibraryLaw>,
        given: &Given,
        kit: Kit,
        mode: Mode,
        may_stage: bool,
    ) -> Live<'w>
        requires own { kit.pass.home ≡ home_of words.now }
        requires on { IsPassOn given.now kit.pass }
        ensures { Lends given.now kit mode may_stage result.run }
    {
        let Kit {
            pass,
            stage,
            lacked_room: _,
        } = kit;
        let began = Snapshot::of(&pass);
        Live {
            alloc,
            slots: given.slots,
            run: begin(words, pass, mode),
            stage,
            over: None,
            full: false,
            may_stage,
            given: Snapshot::of(given),
            began,
        }
    }

    /// The number of entries before the run, all of whose commits it sees. For contracts it also says what is so of the run at all times.
    pub fn place(&self) -> u64
        ensures value { result ≡ self.now.run.going.place }
        ensures stands { IsLending self.now.run }
    {
        self.run.place()
    }

    /// Throws away what was kept aside.
    pub fn forget(&mut self)
        ensures { IsForgotten self.old.run self.new.run }
    {
        self.run.forget();
    }

    /// Ends the run, and makes what it wrote an entry of the history, with this note; or, where it wrote nothing, a call at its place. What
    /// was staged is forgotten where it committed, and stays where it didn't.
    pub fn end(self, note: &Note) -> (Kit, Outcome)
        requires { self.run.going.over ≡ None → IsLawfulWith self.run (writes_kept self.run.going.slots) note.now }
        ensures over { (k : ConflictValue) → self.entry.run.going.over ≡ Some k → (result.1 ≡ EndsConflict k None)
            × (result.0.pass ≡ self.entry.run.going.known) }
        ensures reading { self.entry.run.going.over ≡ None → self.entry.run.going.mode ≡ Reading
            → result.1 ≡ EndsRead self.entry.run.going.place }
        ensures ended { self.entry.run.going.over ≡ None → Ends library_terms note.now self.entry.run.going result.0.pass result.1 }
        ensures staged { result.0.staged ≡ staged_after result.1 self.entry.run.staged }
        ensures taken { result.0.pass.taken ≡ self.entry.run.going.known.taken }
        ensures lacked { result.0.lacked_room ≡ self.entry.run.full }
    {
        let Live {
            run,
            mut stage,
            full,
            alloc: _,
            slots: _,
            over: _,
            may_stage: _,
            given: _,
            began: _,
        } = self;
        let (pass, outcome) = run.commit(note);
        if let Outcome::Committed(_) = outcome {
            stage.clear();
        }
        let lacked_room = Snapshot::of(&full);
        let kit = Kit {
            pass,
            stage,
            lacked_room,
        };
        (kit, outcome)
    }

    /// Ends a run that was stopped, or that is given up for want of memory, with nothing written: why. What was staged stays.
    pub fn give_up(self) -> (Kit, GivenUp)
        ensures kit { result.0.pass ≡ self.entry.run.going.known }
        ensures why { IsGivenUp self.entry.run result.1 }
        ensures staged { result.0.staged ≡ self.entry.run.staged }
        ensures lacked { result.0.lacked_room ≡ self.entry.run.full }
    {
        let Live {
            run,
            stage,
            over,
            full,
            alloc: _,
            slots: _,
            may_stage: _,
            given: _,
            began: _,
        } = self;
        let why = match over {
            Some(met) => GivenUp::Conflict(met),
            None if full => GivenUp::StoreFull,
            None => GivenUp::NoMemory,
        };
        let pass = run.leave();
        let lacked_room = Snapshot::of(&full);
        let kit = Kit {
            pass,
            stage,
            lacked_room,
        };
        (kit, why)
    }
}

impl<'w> Cells for Live<'w> {
    ghost use Rattle.std.specs.Prelude.{IsOkUnless, OnOk, ◌≡◌};
    ghost use Rattle.cells.specs.Sight.{IsCaused, Looks, Reads, Stages, ReadsWithin, ReadsNothing};
    ghost use Rattle.cells.specs.Slots.{cell_count};
    ghost use Rattle.lending.specs.Lent.{lent_sight};

    type Origin = Pass<LibraryLaw>;

    ghost sight = { λ l. lent_sight l.run };

    fn slots(&self) -> usize {
        self.slots
    }

    // the trait's clauses, and why it halts
    fn read(&mut self, cell: usize) -> Result<u64, Halt>
        requires { cell < cell_count (lent_sight self.old.run).setting.slots }
        ensures ok { IfOk result (λ v. Reads cell v (lent_sight self.old.run) (lent_sight self.new.run)) }
        ensures err { IfErr result (λ _. Looks (lent_sight self.old.run) (lent_sight self.new.run)) }
        ensures halts { IfErr result (IsCaused (lent_sight self.new.run)) }
        ensures reads { ReadsWithin (λ c. c ≡ cell) (lent_sight self.old.run) (lent_sight self.new.run) }
        ensures conflict { IsOkUnless result Halt.Conflict }
    {
        match self.run.read(cell) {
            Ok(value) => Ok(value),
            Err(conflict) => {
                self.over = Some(conflict);
                Err(Halt::Conflict)
            }
        }
    }

    fn write(&mut self, cell: usize, value: u64) {
        self.run.write(cell, value);
    }

    fn load(&mut self, range: Range, index: usize) -> u64 {
        self.run.load(range, index)
    }

    fn load_all(&mut self, range: Range, words: &mut Vec<u64>) -> Result<(), AllocError> {
        self.run.load_all(range, words)
    }

    // the trait's clauses, and why it halts; and whether the store had no room isn't told anew where it has
    fn stage(&mut self, words: &[u64]) -> Result<Range, Halt>
        requires may { (lent_sight self.old.run).may_stage ≡ true }
        requires some { words.now ≢ [] }
        ensures ok { IfOk result (λ range. Stages words.now range (lent_sight self.old.run) (lent_sight self.new.run)) }
        ensures err { IfErr result (λ _. Looks (lent_sight self.old.run) (lent_sight self.new.run)) }
        ensures halts { IfErr result (IsCaused (lent_sight self.new.run)) }
        ensures reads { ReadsNothing (lent_sight self.old.run) (lent_sight self.new.run) }
        ensures full { IsOkUnless result Halt.StoreFull }
        ensures room { OnOk result (self.new.run.full ≡ self.old.run.full) }
    {
        if let Some(range) = self.stage.find(words) {
            return Ok(range);
        }
        let Ok(range) = self.run.stage(words) else {
            self.full = true;
            return Err(Halt::StoreFull);
        };
        // Where there is no memory for the note, a later body of the same words is staged anew.
        let _ = self.stage.note(self.alloc, words, range);
        Ok(range)
    }

    ghost grounded = { λ l. l.agrees };
}
