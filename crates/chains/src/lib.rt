//! Assertions come into slots of a library in cells and go out of them, and slots into the chains of label buckets and out of them.
#![tactic(auto)]

mod chains;
mod filling;

pub use chains::{put_in, take_out};
pub use filling::{fill, vacate};
