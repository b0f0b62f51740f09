//! What each chosen assertion of a source says in a library of the profile, and what becomes of its proof.
#![tactic(auto)]

mod assembling;
mod flags;
mod places;
mod proving;
mod saying;

pub use assembling::{Gathered, gather};
pub use flags::Flags;
pub use places::Placed;
