//! The text of a source with the edits of a history over a library that was taken of it, before it is looked at again.
//!
//! Labels change, proofs are exchanged, and where the history adds, moves or deletes assertions are cut out and put in: that is said of the
//! text. That the edited library can be taken of it is found by whoever prints it (`givetext`), who looks at it again.
#![tactic(auto)]

mod axioms;
mod beside;
mod citing;
mod commands;
mod declaring;
mod filling;
mod following;
mod holding;
mod moving;
mod outline;
mod planning;
mod rearranging;
mod refusal;
mod writing;

pub use axioms::axioms_then;
pub use citing::{are_uncited, marked, proof_labels};
pub use following::{Followed, Following, opening_of};
pub use planning::Planned;
pub use refusal::Refusal;
pub use writing::write_edits;
