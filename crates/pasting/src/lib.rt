//! Proofs that scripts give to theorems of a source in its own words, in the words of the library that is taken of it.
#![tactic(auto)]

mod addition;
mod additions;
mod given;
mod naming;
mod own_words;
mod paster;
mod placing;
mod proving;
mod quotes;
mod reading;
mod steps;
mod theorem;
mod unpasted;
mod words;

pub use additions::Additions;
pub use own_words::{GivenLabels, GivenProof, OwnWords, Quotation, labels_among, proofs_among};
pub use paster::Paster;
pub use quotes::{Quote, quotes_in};
pub use unpasted::Unpasted;
