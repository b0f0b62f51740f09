//! Removes an assertion from a library in cells.
#![tactic(auto)]

mod deleting;

pub use deleting::delete;
