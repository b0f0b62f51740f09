//! Cells and a store on plain vectors, for one thread, and the opening of a library in them.
#![tactic(auto)]

mod opening;
mod plain;

pub use opening::{OpenError, room_behind};
pub use plain::PlainCells;
