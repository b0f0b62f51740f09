//! What the program prints of a library that is taken of a source: the library's text behind a comment that tells of it, or the line of a
//! refusal. That the whole text spells the library follows from laws of texts: what may stand in front of one, and which bytes the names of
//! a source have.
//!
//! All of a source is taken:
//!
//! ```
//! fn taken<R: AllocGlobal + Threads + Sync>(
//!     rt: &R,
//!     keys: RandomState,
//!     source: &[u8],
//! ) -> Result<Option<Vec<u8>>, AllocError> {
//!     match answer_take(rt, rt.alloc(), keys, "set.mm", source, Wish::All, &Unfollowed)? {
//!         Told::Printed(text) => Ok(Some(text)),
//!         Told::Refused(_line) => Ok(None),
//!     }
//! }
//! ```
#![tactic(auto)]

mod answering;
mod comment;
mod laws;
mod origin;
mod refusing;

pub use answering::{Told, answer_take, write_taken};
pub use intake::{Follow, Unfollowed};
pub use laws::{
    comments_say_nothing, declared_behind_comments, printed_tells, sources_are_worded,
    spelled_behind_comments, tells_once, white_space_ends_words,
};
pub use locating::printed_name;
pub use origin::{Origin, origin_of};
pub use refusing::refusal_line;
