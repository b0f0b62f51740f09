//! What the comments in front of the assertions of a source discourage.
#![tactic(auto)]

mod comments;
mod phrases;
mod reading;

pub use reading::{Remarks, read_remarks};
