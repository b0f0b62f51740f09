//! The proofs of a source as trees: what the labels of each name, and its nodes.
#![tactic(auto)]

mod cited;
mod form;
mod frames;
mod naming;
mod reading;
mod roles;

pub use cited::{CitedFrames, InFront};
pub use form::{ProofForm, ProofTree};
pub use frames::{Frames, flags_of};
pub use reading::{read_given, read_proof};
pub use roles::Roles;
