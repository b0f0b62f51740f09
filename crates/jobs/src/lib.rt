//! What the program does, on texts instead of files: a job from bytes to bytes.
//!
//! The proofs of a text are checked; what is printed is `ok` and the number of its assertions:
//!
//! ```
//! fn checked_text<R: AllocGlobal + Threads + Wait + Sync>(
//!     rt: &R,
//!     keys: RandomState,
//!     db: Vec<u8>,
//! ) -> Option<Vec<u8>> {
//!     let job = Job::Check { db };
//!     let options = RunOptions { may_grow: false, history: false };
//!     match perform(rt, rt.alloc(), keys, &job, options, &Open) {
//!         Ok(printed) => Some(printed.out),
//!         Err(_fault) => None,
//!     }
//! }
//! ```
#![tactic(auto)]

mod answering;
mod job;
mod laws;
mod performing;
mod running;
mod task;
mod watching;

pub use answering::{Answered, answer};
pub use checking::{Fault, Task, spelled_scripts_fit};
pub use editing::{EditError, Edited, run_to_end};
pub use job::{Job, Printed, RunOptions};
pub use laws::{accepted_texts_check, fault_labels_are_shown, runs_are_replayed};
pub use performing::perform;
pub use running::{Plan, work};
pub use task::{job_of, options_of, plan_of};
pub use watching::Watch;
pub use workers::{Gate, Open};
