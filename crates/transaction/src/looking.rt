//! Looks at the whole library.

ghost use Rattle.std.specs.Prelude.{◌≡◌, [], IfOk};
ghost use Rattle.library.specs.Library.{ShowsInOrder};
ghost use Rattle.cells.specs.Sight.{Looks as LooksOn};
ghost use Rattle.cells.specs.Lookups.{ForEach};
ghost use Rattle.tlwords.specs.declared.mode.Mode.TheVariants.{Reading};
ghost use Rattle.tlwords.specs.Commits.{writes_kept};
ghost use Rattle.lawful.specs.Laws.{IsPassOn};
ghost use Rattle.lawful.specs.Lawful.{setting_given};
ghost use Rattle.lending.specs.Lent.{lent_sight};
ghost use Rattle.transaction.specs.Members.{IsSessionOf};
ghost use Rattle.transaction.specs.Looks.{TakesLook, Sees};
ghost use Rattle.transaction.specs.Tries.{IsLaterPass, StoresNothing, carried_by, MayBeLooked};

use crate::outcome::{Look, look_conflict};
use crate::running::Library;
use crate::session::Session;
use cells::Halt;
use commands::entries;
use lawful::Note;
use lending::{GivenUp, Kit, Live};
use library::PlainLibrary;
use std::alloc::Global;
use std::snapshot::Snapshot;
use tlwords::Mode;

impl Session {
    /// Looks once at the whole library: its assertions after the first `place` entries of the history, which are no fewer than this session
    /// had seen or been told. It waits for nobody, keeps no read set, and draws no number.
    pub fn snapshot(&mut self, alloc: Global, library: &Library) -> Look
        requires { IsSessionOf library.now self.old }
        ensures { TakesLook self.old self.new result }
    {
        // For the proof: the library's words are opened for what was given.
        let _ = &library.words;
        let Some(kit) = self.kit.take() else {
            unreachable!()
        };
        let (kit, seen) = look(alloc, library, kit);
        self.kit = Some(kit);
        seen
    }
}

/// Runs a look once, to its end.
fn look(alloc: Global, library: &Library, kit: Kit) -> (Kit, Look)
    requires own { kit.pass.home ≡ library.now.words }
    requires on { IsPassOn library.now.given kit.pass }
    ensures later { IsLaterPass kit.pass result.0.pass }
    ensures sees { Sees kit.pass result.0.pass result.1 }
    ensures stored { StoresNothing kit result.0 }
{
    let mut live = library.begin(alloc, kit, Mode::Reading, false);
    match read_all(alloc, library, &mut live) {
        Ok(seen) => show(live, seen),
        Err(_) => stop(live),
    }
}

/// The library as the run reads it.
fn read_all(alloc: Global, library: &Library, live: &mut Live<'_>) -> Result<PlainLibrary, Halt>
    requires given { live.old.run.given ≡ library.now.given }
    requires blank { writes_kept live.old.run.going.slots ≡ [] }
    ensures looks { LooksOn (lent_sight live.old.run) (lent_sight live.new.run) }
    ensures setting { IfOk result (λ seen. seen.setting ≡ setting_given library.now.given) }
    ensures ok { IfOk result (λ seen. ForEach (lent_sight live.new.run) (λ st lib. ShowsInOrder lib seen.entries)) }
{
    let entries = entries(alloc, live)?;
    // For the proof: what the run has read is of a library that verifies.
    let _place = live.place();
    let prelude = library.prelude.copy(alloc)?;
    Ok(PlainLibrary::sorted(prelude, library.given.slots, entries))
}

/// Ends a run that has read the library.
fn show(live: Live<'_>, library: PlainLibrary) -> (Kit, Look)
    requires reading { live.run.going.mode ≡ Reading }
    requires blank { writes_kept live.run.going.slots ≡ [] }
    requires lawful { MayBeLooked live.run library }
    ensures later { IsLaterPass live.entry.run.began result.0.pass }
    ensures sees { Sees live.entry.run.began result.0.pass result.1 }
    ensures stored { StoresNothing (carried_by live.entry.run) result.0 }
{
    let place = live.place();
    let note = Note::Looked {
        library: Snapshot::of(&library),
    };
    let (kit, ended) = live.end(&note);
    drop(note);
    let seen = match ended {
        tlwords::Outcome::Read(place) => Look::Read { place, library },
        tlwords::Outcome::Conflict {
            conflict: found,
            drawn: _,
        } => look_conflict(place, found),
        tlwords::Outcome::Committed(_) | tlwords::Outcome::NumbersUsed => unreachable!(),
    };
    (kit, seen)
}

/// Ends a run that was stopped, or for which memory ran out.
fn stop(live: Live<'_>) -> (Kit, Look)
    requires reading { live.run.going.mode ≡ Reading }
    ensures later { IsLaterPass live.entry.run.began result.0.pass }
    ensures sees { Sees live.entry.run.began result.0.pass result.1 }
    ensures stored { StoresNothing (carried_by live.entry.run) result.0 }
{
    let place = live.place();
    let (kit, why) = live.give_up();
    let seen = match why {
        GivenUp::Conflict(found) => look_conflict(place, found),
        // It stages nothing, so it is memory that ran out.
        GivenUp::StoreFull | GivenUp::NoMemory => Look::NoMemory,
    };
    (kit, seen)
}
