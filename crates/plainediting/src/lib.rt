//! Scripts done by one editor, one after another: what becomes of each transaction, and the library after all of them. No session, no thread
//! and no shared words take part.
//!
//! The library after a script is written as a text:
//!
//! ```
//! fn edited(alloc: Global, keys: RandomState, database: &Database, text: &[u8]) -> anyhow::Result<Vec<u8>> {
//!     let script = read_script(alloc, database.prelude(), text)?;
//!     let (_, library) = edit_all(alloc, keys, database, &[script])?;
//!     Ok(write_library(alloc, &library)?)
//! }
//! ```
#![tactic(auto)]

mod desk;
mod editing;

pub use editing::edit_all;
