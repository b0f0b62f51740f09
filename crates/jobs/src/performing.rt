//! A job from bytes to bytes.

ghost use Rattle.std.specs.Prelude.{◌≢◌, ◌⊎◌, IfOk, IfErr, Some, map};
ghost use Rattle.checking.specs.declared.fault.Fault.{Fault as FaultOfJob};
ghost use Rattle.checking.specs.declared.fault.Fault.TheVariants.{NoMemory};
ghost use Rattle.checking.specs.Tasks.{IsWithin};
ghost use Rattle.jobs.specs.Jobs.{AreWithin, IsRun, DoneAsAsked};
ghost use Rattle.jobs.specs.Parts.{planned_room};
ghost use Rattle.jobs.specs.Jobs.{IsRunFault, IsRunLack, IsFaultOf, IsLackOf, AnswersItsOwn, IsPrintedBy};
ghost use Rattle.checking.specs.Checks.{RefusesWith};

use crate::job::{Job, Printed, RunOptions};
use crate::running::{Plan, print_run};
use crate::watching::Watch;
use checking::{Fault, check, read_and_check, read_scripts, replay};
use std::alloc::Global;
use std::hash::RandomState;
use std::sync::Wait;
use std::thread::Threads;

/// Runs scripts over a database by workers, as texts, and gives what is printed.
fn run(
    rt: &(impl Threads + Wait + Sync),
    alloc: Global,
    keys: RandomState,
    db: &[u8],
    scripts: &[Vec<u8>],
    plan: Plan,
    watch: &(impl Watch + Sync),
) -> Result<Printed, Fault>
    requires within { IsWithin plan.workers (Some plan.room) }
    ensures done { IfOk result (λ p. IsRun db.now (map (λ t. t.items) scripts.now) plan.workers (planned_room plan)
        plan.options.history p.out.items p.history.items) }
    ensures fault { IfErr result (λ f. f ≢ NoMemory
        → IsRunFault db.now (map (λ t. t.items) scripts.now) (planned_room plan) f ⊎ IsRunLack plan.workers f) }
    ensures refused { (f : FaultOfJob) → IsRunFault db.now (map (λ t. t.items) scripts.now) (planned_room plan) f
        → RefusesWith f result }
{
    let db = read_and_check(rt, alloc, keys, db)?;
    let scripts = read_scripts(alloc, db.prelude(), scripts)?;
    print_run(rt, alloc, keys, &db, scripts.as_slice(), plan, watch)
}

/// Does a job on texts, without files. The workers and the room of a run are within their limits. The options say whether its store may
/// have more room, and whether its history's text is made; without them it is as `RunOptions { may_grow: false, history: true }`. Who
/// watches is told of a run while its scripts are run. It may wait.
///
/// The faults are found in this order: the database's text, its proofs, then each script's text, or the history's text and the first of
/// its entries that differs; then the opening of a run's library, the run, and its end. A job that has one prints nothing.
pub fn perform(
    rt: &(impl Threads + Wait + Sync),
    alloc: Global,
    keys: RandomState,
    job: &Job,
    options: RunOptions,
    watch: &(impl Watch + Sync),
) -> Result<Printed, Fault>
    requires { AreWithin job.now }
    // The texts are read as they are spelled. A run prints the report of what becomes of all its transactions, and then, as a replay does,
    // the exported text of the library after its history. The history tells of these outcomes, and is legal; a replayed history is legal
    // too.
    ensures done { IfOk result (λ p. DoneAsAsked options job.now p) }
    // The fault is the first that the job has; or a run came to no end; or memory ran out.
    ensures fault { IfErr result (λ f. f ≢ NoMemory → IsFaultOf options job.now f ⊎ IsLackOf job.now f) }
    // The first fault that the job has is answered, unless memory runs out.
    ensures refused { (f : FaultOfJob) → IsFaultOf options job.now f → RefusesWith f result }
    // To an accepted text of at most 16,777,216 bytes, as each such export is, a check answers `ok`, unless memory runs out; and to the
    // history of a run over the same database a replay answers the library of that run.
    ensures own { AnswersItsOwn job.now (IsPrintedBy result) }
{
    let out = match job {
        Job::Check { db } => check(rt, alloc, keys, db.as_slice())?,
        Job::Run {
            db,
            scripts,
            workers,
            room,
        } => {
            let plan = Plan {
                workers: *workers,
                room: *room,
                options,
            };
            return run(
                rt,
                alloc,
                keys,
                db.as_slice(),
                scripts.as_slice(),
                plan,
                watch,
            );
        }
        Job::Replay { db, history } => {
            replay(rt, alloc, keys, db.as_slice(), history.as_slice())?
        }
    };
    Ok(Printed {
        out,
        history: Vec::new(alloc),
    })
}
