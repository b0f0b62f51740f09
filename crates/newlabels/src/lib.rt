//! What gives a library in cells a label that it hasn't: a theorem is added, or an assertion gets the label in place of its own.
#![tactic(auto)]

mod adding;
mod naming;
mod renaming;

pub use adding::add;
pub use renaming::rename;
