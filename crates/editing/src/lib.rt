//! Scripts run on all the sessions of a library, to its end: what becomes of each transaction, the whole history, and the library after it.
//!
//! A script is run to its end by four workers, and the library is written as a text:
//!
//! ```
//! fn edited<R: AllocGlobal + Threads + Wait + Sync>(
//!     rt: &R,
//!     keys: RandomState,
//!     database: &Database,
//!     text: &[u8],
//! ) -> anyhow::Result<Vec<u8>> {
//!     let shape = Shape { slots: 4096, room: 1_048_576, sessions: 4 };
//!     let (library, sessions) = Library::open(rt, rt.alloc(), keys, database, shape)?;
//!     let script = read_script(rt.alloc(), library.prelude(), text)?;
//!     let edited = run_to_end(rt, rt.alloc(), library, sessions, &[script], &Open)?;
//!     Ok(write_library(rt.alloc(), &edited.library)?)
//! }
//! ```
#![tactic(auto)]

mod editing;
mod error;

pub use editing::{Edited, run_to_end};
pub use error::EditError;
