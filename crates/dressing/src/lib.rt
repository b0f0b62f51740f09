//! A source dressed in what scripts give: proofs in their own words, labels of `$e`, and descriptions of what was added. All else of it
//! stays.
#![tactic(auto)]

mod call;
mod keeping;
mod labelled;
pub mod laws;
mod listing;
mod placing;
mod putting;
mod quotable;
mod quoted;
mod texts;

pub use call::{Given, dress};
