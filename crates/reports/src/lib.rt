//! What is printed of a run: the outcome of each transaction of each script.
#![tactic(auto)]

mod telling;

pub use telling::report;
