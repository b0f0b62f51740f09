//! Runs of a given schedule.
#![tactic(auto)]

ghost use Rattle.std.specs.Prelude.{IfOk};
ghost use Rattle.tlcore.specs.Schedules.{IsLongestFront};

use crate::actions::Action;
use crate::machine::{World, step};
use std::alloc::{AllocError, Global};

/// What a schedule leaves.
#[derive(Drop)]
pub struct Ran {
    /// The world after the events that were taken.
    pub world: World,
    /// How many events were taken, from the first on.
    pub took: usize,
}

/// Takes the events of a schedule in order, each a seat and its action, up to the first that isn't lawful.
///
/// The world itself stays. The only error is want of memory.
pub fn run_schedule(
    alloc: Global,
    world: &World,
    events: &[(usize, Action)],
) -> Result<Ran, AllocError>
    ensures { IfOk result (λ r. IsLongestFront world.now events.now r.world r.took) }
{
    let mut now = world.copy(alloc)?;
    let mut took = 0;
    for event in events {
        match step(alloc, &now, event.0, event.1)? {
            Some(next) => {
                now = next;
                took += 1;
            }
            None => return Ok(Ran { world: now, took }),
        }
    }
    Ok(Ran { world: now, took })
}
