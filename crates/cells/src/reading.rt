//! Reads an assertion back from its slot.

mod entries;
mod labels;
mod proofs;
mod resolving;
mod statements;

pub use entries::{citers, entry, rank};
pub use labels::label;
pub use proofs::{proof, stored_proof};
pub use resolving::resolve;
pub use statements::{frame, kind, statement};
