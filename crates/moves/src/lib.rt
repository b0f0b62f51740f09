//! Gives an assertion of a library in cells another rank.
#![tactic(auto)]

mod moving;

pub use moving::move_to;
