//! Workers: each runs scripts on a session of one library, on a thread of its own, beside all the others.
//!
//! A script is run by four workers:
//!
//! ```
//! fn done_by_four<R: AllocGlobal + Threads + Wait + Sync>(
//!     rt: &R,
//!     keys: RandomState,
//!     database: &Database,
//!     text: &[u8],
//! ) -> anyhow::Result<usize> {
//!     let shape = Shape { slots: 4096, room: 1_048_576, sessions: 4 };
//!     let (library, sessions) = Library::open(rt, rt.alloc(), keys, database, shape)?;
//!     let script = read_script(rt.alloc(), library.prelude(), text)?;
//!     let worked = run_scripts(rt, rt.alloc(), &library, sessions, &[script], &Open)?;
//!     Ok(worked.outcomes.len())
//! }
//! ```
#![tactic(auto)]

mod error;
mod gate;
mod shift;
mod team;
mod working;

pub use error::WorkError;
pub use gate::{Gate, Open};
pub use working::{Worked, run_scripts};
