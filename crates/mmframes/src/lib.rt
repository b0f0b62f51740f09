//! Frames of assertions, and substitution of expressions for variables.
#![tactic(auto)]

mod frames;
mod substitution;

pub use frames::frame_of;
pub use substitution::{SubstituteError, substitute};
