//! The end of a library in running words: its history, and the library after it.
#![tactic(auto)]

mod ending;
mod error;
mod ordering;

pub use ending::finish;
pub use error::FinishError;
