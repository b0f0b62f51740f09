//! Each proof of a database checked against derivation trees.
//!
//! A yes means that the steps of each proof are the listing of a tree that derives the statement; a no is the first proof with a fault, and
//! that fault. `check_all` looks at each proof over the assertions before it, by many threads; `check` of `stepcheck` at one.
//!
//! How many assertions a database has, if all its proofs check:
//!
//! ```
//! fn count_checked(rt: &(impl AllocGlobal + Threads + Sync), database: &Database) -> Option<usize> {
//!     match check_all(rt, rt.alloc(), database) {
//!         Ok(()) => Some(database.assertions().len()),
//!         Err((_first, _fault)) => None,
//!     }
//! }
//! ```
#![tactic(auto)]

mod checkers;
mod databases;
mod earlier;
mod labels;

pub use databases::check_all;
pub use derivation::{ProofFault, ProofFaultKind, laws};
pub use stepcheck::{Frames, check};
