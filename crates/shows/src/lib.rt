//! Shows what a library in cells has: an assertion, a line for each, or all of them. Nothing is written.
#![tactic(auto)]

mod looking;
mod showing;

pub use looking::entries;
pub use showing::{list, show};
