//! The one-thread editor, and the replay of histories.
//!
//! A history is read and done again; the library after it has so many assertions:
//!
//! ```
//! fn replayed(alloc: Global, keys: RandomState, database: &Database, text: &[u8]) -> anyhow::Result<usize> {
//!     let history = read_history(alloc, database.prelude(), text)?;
//!     let library = replay(alloc, keys, database, 4096, history.as_slice())?;
//!     Ok(library.entries().len())
//! }
//! ```
#![tactic(auto)]

mod draft;
mod editor;
mod replaying;
mod same;

pub use editor::{ApplyError, Editor, OpenError};
pub use library::{Entry, History};
pub use replaying::{ReplayError, replay};
