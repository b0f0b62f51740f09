//! What commands on cells stand on: which cells each of them reads and writes, and how many words it takes; and what several of them do,
//! the look for a label that an assertion is to have, the tests of a proof, and another proof in a theorem's slot.
#![tactic(auto)]

mod citing;
mod known;
mod restepping;

pub use citing::{cites_not_below, test_proof};
pub use known::known_slot;
pub use restepping::put_steps;
