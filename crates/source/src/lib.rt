//! What a source in the whole language of Metamath declares, as plain data.
#![tactic(auto)]

mod contents;
mod entries;
pub mod laws;
mod letters;
mod standing;

pub use contents::{Declared, HypothesisWords};
pub use entries::{Citation, Entries};
pub use letters::{Code, Turn, read_letters, take_letter};
pub use standing::{ProofWords, Standing};
