//! Gives a theorem of a library in cells another proof.
#![tactic(auto)]

mod reproving;

pub use reproving::reprove;
