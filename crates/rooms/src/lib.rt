//! The room of a run: for how many words of labels, statements and proofs a store has to have room, so that the scripts of the run can be
//! run over a database.
//!
//! A store is given the room that was asked for, or what the run can need:
//!
//! ```
//! fn shape(asked: Option<usize>, db: &Database, scripts: &[Script]) -> Shape {
//!     let room = match asked {
//!         Some(room) => room,
//!         None => room_for(db, scripts),
//!     };
//!     Shape { slots: 4096, room, sessions: 1 }
//! }
//! ```
#![tactic(auto)]

mod longest;
mod needed;

pub use needed::room_for;
