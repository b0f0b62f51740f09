//! The workers run the scripts over the library that was taken for them, to its end.

ghost use Rattle.std.specs.Prelude.{◌≡◌, All, IfOk, IfErr, OnOk, map};
ghost use Rattle.derivation.specs.Databases.{AllCheck};
ghost use Rattle.library.specs.Fitting.{CommandFits};
ghost use Rattle.transaction.specs.Closings.{lists_of};
ghost use Rattle.checking.specs.Tasks.{IsWithin};
ghost use Rattle.jobs.specs.Jobs.{IsWorked, room_of};
ghost use Rattle.reports.specs.Reports.{AreReportable};
ghost use Rattle.standins.specs.Ending.{IsSettled, IsWithdrawn};
ghost use Rattle.standins.specs.Views.{seen_stand_ins};
ghost use Rattle.edittext.specs.Edited.{edit_room};
ghost use Rattle.edittext.specs.Refusals.{IsWorkLine};
ghost use Rattle.editscripts.specs.Refusals.{IsToldBy};

use editopening::{Begun, EditOrder};
use editscripts::{Unedited, unworked};
use jobs::{Edited, Watch, plan_of, work};
use library::{PlainLibrary, Script};
use mmsyntax::Database;
use standins::close;
use std::alloc::{AllocError, Global};
use std::hash::RandomState;
use std::sync::Wait;
use std::thread::Threads;

/// The workers run the scripts over the library that was taken, to its end.
pub(crate) fn run_over(
    rt: &(impl Threads + Wait + Sync),
    alloc: Global,
    keys: RandomState,
    order: EditOrder<'_>,
    database: &Database,
    scripts: &[Script],
    watch: &(impl Watch + Sync),
) -> Result<Edited, Unedited>
    requires checks { AllCheck database.now }
    requires within { IsWithin order.workers order.room }
    requires fit { All (All (All (CommandFits database.now.prelude))) scripts.now }
    ensures done { IfOk result (λ e. IsWorked database.now order.entry.workers
        (room_of (edit_room order.entry.room) database.now scripts.now) scripts.now (lists_of e.outcomes.items) e.history e.library) }
    ensures reportable { IfOk result (λ e. AreReportable database.now.prelude (lists_of e.outcomes.items)) }
    ensures refused { IfErr result (IsToldBy (IsWorkLine (map (λ p. p.now) order.entry.paths.now) database.now order.entry.workers
        (room_of (edit_room order.entry.room) database.now scripts.now))) }
{
    // For the proof: the database has a spelling.
    let _spelled = database.assertions();
    let plan = plan_of(order.workers, order.room);
    match work(rt, alloc, keys, database, scripts, plan, watch) {
        Ok(edited) => Ok(edited),
        Err(fault) => Err(unworked(alloc, order.paths, &fault)?),
    }
}

/// The library behind a run without its stand-ins. What is told of the library that was taken goes by what became of them.
pub(crate) fn close_run(
    alloc: Global,
    keys: RandomState,
    begun: &mut Begun<'_>,
    library: PlainLibrary,
) -> Result<PlainLibrary, AllocError>
    ensures withdrawn { IfOk result (IsWithdrawn (seen_stand_ins begun.old.opened.stand_ins.items) library) }
    ensures settled { OnOk result (IsSettled (seen_stand_ins begun.old.opened.stand_ins.items) library.entries
        begun.old.taken begun.new.taken) }
    ensures quotes { begun.new.quotes ≡ begun.old.quotes }
    ensures descriptions { begun.new.descriptions ≡ begun.old.descriptions }
{
    let stand_ins = begun.opened.stand_ins.as_slice();
    close(alloc, keys, stand_ins, &mut begun.taken, library)
}
