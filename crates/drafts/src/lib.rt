//! A database from plain lists, where some text of the profile declares them.
#![tactic(auto)]

mod draft;
mod limits;
mod refusal;
mod symbols;
mod units;
mod words;

pub use draft::{Draft, Undeclared, declare};
pub use limits::Limit;
