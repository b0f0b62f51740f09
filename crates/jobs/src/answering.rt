//! What the program answers to a job: what it prints, or the line of its fault.

ghost use Rattle.std.specs.Prelude.{map, IfOk};
ghost use Rattle.checking.specs.declared.fault.Fault.{Fault as FaultOfJob};
ghost use Rattle.jobs.specs.Jobs.{AreWithin, IsFaultOf, AnswersItsOwn};
ghost use Rattle.jobs.specs.Tasks.{Answers, IsLineOf, IsToldBy};

use crate::job::{Job, Printed, RunOptions};
use crate::performing::perform;
use crate::watching::Watch;
use std::alloc::{AllocError, Global};
use std::hash::RandomState;
use std::sync::Wait;
use std::thread::Threads;

/// What the program answers to a job.
#[derive(Debug, Drop)]
pub enum Answered {
    /// The job is done: this is printed.
    Done(Printed),
    /// The job has a fault: nothing is printed but this line, on the standard error.
    Refused(String),
}

/// Does a job on the texts of files, of which `paths` are the paths: the database's, then each script's, or the history's. The workers and
/// the room of a run are within their limits. Who watches is told of a run while its scripts are run. It may wait.
///
/// # Errors
///
/// Want of memory for the line of a fault.
pub fn answer(
    rt: &(impl Threads + Wait + Sync),
    alloc: Global,
    keys: RandomState,
    job: &Job,
    options: RunOptions,
    paths: &[&str],
    watch: &(impl Watch + Sync),
) -> Result<Answered, AllocError>
    requires { AreWithin job.now }
    // What is printed is the job's. The line is that of a fault of the job, and names the file that has it.
    ensures answers { IfOk result (Answers (map (λ path. path.now) paths.now) options job.now) }
    // The first fault that the job has is told, unless memory runs out.
    ensures refused { (f : FaultOfJob) → IsFaultOf options job.now f → IfOk result (IsLineOf (map (λ path. path.now) paths.now) f) }
    // To an accepted text of at most 16,777,216 bytes, as each such export is, a check answers `ok`, unless memory runs out; and to the
    // history of a run over the same database a replay answers the library of that run.
    ensures own { IfOk result (λ told. AnswersItsOwn job.now (IsToldBy told)) }
{
    match perform(rt, alloc, keys, job, options, watch) {
        Ok(printed) => Ok(Answered::Done(printed)),
        Err(fault) => Ok(Answered::Refused(fault.line(alloc, paths)?)),
    }
}
