//! The job of texts.

ghost use Rattle.std.specs.Prelude.{◌≡◌, ◌↔◌, length, map, IfSome, IsNone};
ghost use Rattle.checking.specs.Tasks.{TakesTexts};
ghost use Rattle.jobs.specs.Tasks.{IsJobOf, options_asked, plan_asked};

use crate::job::{Job, RunOptions};
use crate::running::Plan;
use checking::Task;

/// For how many words the store of a run has room at least that isn't given a room.
const LEAST_ROOM: usize = 1_048_576;

/// The job of a task on texts, the first of which is the database: a check takes no other, a run the scripts behind it, all of them and in
/// their order, and a replay the one history behind it. None for any other number of texts. A run that isn't given a room has one of
/// 1,048,576 words.
pub fn job_of(task: Task, mut texts: Vec<Vec<u8>>) -> Option<Job>
    ensures job { IfSome result (λ job. IsJobOf task (map (λ t. t.items) texts.items) job) }
    ensures none { IsNone result ↔ ¬ TakesTexts task (length texts.items) }
{
    if texts.is_empty() {
        return None;
    }
    let db = texts.remove(0);
    match task {
        Task::Check if texts.is_empty() => Some(Job::Check { db }),
        Task::Run {
            workers,
            room,
            history: _,
        } => Some(Job::Run {
            db,
            scripts: texts,
            workers,
            room: room.unwrap_or(LEAST_ROOM),
        }),
        Task::Replay if texts.len() == 1 => {
            let history = texts.pop()?;
            Some(Job::Replay { db, history })
        }
        Task::Check | Task::Replay => None,
    }
}

/// What a task asks of its run besides the job: a store that isn't given a room may have more than the least.
pub fn options_of(task: Task) -> RunOptions
    ensures { result ≡ options_asked task }
{
    match task {
        Task::Run { room, history, .. } => RunOptions {
            may_grow: room.is_none(),
            history,
        },
        Task::Check | Task::Replay => RunOptions {
            may_grow: false,
            history: false,
        },
    }
}

/// How a run of scripts is done by so many workers, with a store that is given a room or isn't. The text of its history isn't asked for.
pub fn plan_of(workers: usize, room: Option<usize>) -> Plan
    ensures { result ≡ plan_asked workers room }
{
    let words = room.unwrap_or(LEAST_ROOM);
    Plan {
        workers,
        room: words,
        options: RunOptions {
            may_grow: room.is_none(),
            history: false,
        },
    }
}
