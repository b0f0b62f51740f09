//! Derivations: which trees derive an expression, which steps are the listing of a tree, and the first fault of a proof. Definitions and
//! their laws, no checker.
#![tactic(auto)]

mod fault;
pub mod laws;

pub use fault::{ProofFault, ProofFaultKind};
