//! Runs of a library in running words as the cells of a library, which commands may be given.
//!
//! A run begins on a pass of the words and on what was staged for it. What commands read and write of it are reads and writes of the words;
//! at all times it agrees with some state that shows a library that verifies. It ends by a commit with a note, or it is given up.
#![tactic(auto)]

mod kit;
mod live;

pub use kit::Kit;
pub use live::{GivenUp, Live};
