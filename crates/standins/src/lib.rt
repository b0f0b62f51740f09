//! Axioms that stand in for proofs which a library has no room for, while scripts give their theorems other proofs.
#![tactic(auto)]

mod call;
mod labels;
mod opening;
mod raising;
mod settling;
mod standing;
mod withdrawing;

pub use call::{Opened, ReadScripts, close, open};
pub use opening::Unopened;
pub use standing::StandIn;
