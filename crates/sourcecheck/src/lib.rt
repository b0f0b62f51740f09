//! Checks the proofs of a source, on several threads. Symbols are numbers, and a proof writes all its expressions down in one list of them.
#![tactic(auto)]

mod checkers;
mod citing;
mod fitting;
mod naming;
mod sources;
mod stack;
mod stepping;
mod theorem;

pub use sources::{Unverified, check_source};
