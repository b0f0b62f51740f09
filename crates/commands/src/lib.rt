//! Transactions on a library in cells: each command as reads and writes of slots, for whatever else the cells may hold.
//!
//! A transaction is done over plain cells, and what it wrote is kept, unless it is refused or stopped:
//!
//! ```
//! fn shown_in_cells(alloc: Global, database: &Database, transaction: &Transaction) -> anyhow::Result<usize> {
//!     let mut cells = PlainCells::open(alloc, database, 4096, 1_048_576)?;
//!     match run(alloc, database.prelude(), &mut cells, transaction.as_slice()) {
//!         Ok(replies) => {
//!             cells.keep();
//!             Ok(replies.as_slice().len())
//!         }
//!         Err(_) => {
//!             cells.undo();
//!             Ok(0)
//!         }
//!     }
//! }
//! ```
#![tactic(auto)]

mod rights;
mod running;

pub use cells::{CommandError, Halt, RunError};
pub use library::{Command, PlainLibrary, Reply};
pub use rights::{has_staging, stages};
pub use running::{run, take};
pub use shows::entries;
