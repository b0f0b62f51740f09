//! The source with the edits of a run: it is written, looked at again, dressed in what scripts give in their own words, and verified; or
//! why it isn't printed. And where comments of it speak of labels that are gone, or mention them.
#![tactic(auto)]

mod completing;
mod spoken;
mod telling;
mod verified;

pub use completing::{Finished, SourceEdit, finish};
