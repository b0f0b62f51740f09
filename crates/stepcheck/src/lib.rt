//! One proof checked against derivation trees.
//!
//! A yes means that the steps of a proof are the listing of a tree that derives the statement; a no is the first fault of the proof.
//! `check` looks at one proof over whatever may be cited.
#![tactic(auto)]

mod checking;
mod frames;
mod node;
mod pairs;
mod stack;
mod substitutes;
mod thesis;

pub use checking::check;
pub use derivation::{ProofFault, ProofFaultKind};
pub use frames::Frames;
