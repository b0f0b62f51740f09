//! The text of a library: its canonical layout, made in memory and written whole to a writer.
//!
//! The text is that of what the library shows: its prelude, then its assertions by rank, those of one rank by label. It is accepted:
//! a database is spelled by it, each of whose proofs checks over the assertions before it.
#![tactic(auto)]

mod error;
mod text;
mod writing;

pub use error::ExportError;
pub use text::{put_library, write_library};
pub use writing::export;
