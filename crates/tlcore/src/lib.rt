//! The pure machine of Transactional Locking II, and its opacity over every schedule.
//!
//! The machine is that of Dice, Shalev, Shavit, "Transactional Locking II" (DISC 2006), section 2.2, as plain data: a global
//! version clock, a versioned lock word and a value word for each cell, and any number of seats that run transactions. An
//! event is one atomic step of one seat on one word, and a schedule is a list of events, so every interleaving is one.
//!
//! `step` takes one event and `run_schedule` a schedule. `every_schedule` and `every_event` do nothing: their contracts are
//! what holds in every schedule and of every event, for whoever runs these events on words of its own. `docs/OPACITY.md` has
//! the invariant in plain words.
#![tactic(auto)]

mod actions;
mod cells;
mod committing;
mod entries;
mod machine;
mod reading;
mod schedules;
mod seats;
mod sets;
mod theorem;

pub use crate::actions::Action;
pub use crate::cells::Cell;
pub use crate::entries::Status;
pub use crate::machine::{World, step};
pub use crate::schedules::{Ran, run_schedule};
pub use crate::seats::{Held, Phase, Read};
pub use crate::theorem::{every_event, every_schedule};
