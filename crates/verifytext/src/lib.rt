//! What the program prints where all proofs of a source are checked: how many assertions it has, or the line that says why it isn't said to
//! verify.
//!
//! Whether a source verifies:
//!
//! ```
//! fn verifies<R: AllocGlobal + Threads + Sync>(
//!     rt: &R,
//!     keys: RandomState,
//!     source: &[u8],
//! ) -> Result<bool, AllocError> {
//!     match answer_verify(rt, rt.alloc(), keys, "set.mm", source, None, &Unfollowed)? {
//!         Verdict::Verified(_line) => Ok(true),
//!         Verdict::Refused(_line) => Ok(false),
//!     }
//! }
//! ```
#![tactic(auto)]

mod answering;
mod finding_lines;
mod refusal;
mod verifying_text;
mod wording;

pub use answering::{Verdict, answer_verify};
pub use following::{Follow, Unfollowed};
pub use refusal::Refusal;
pub use verifying_text::{Verified, verify, verify_read};
pub use wording::refusal_line;
