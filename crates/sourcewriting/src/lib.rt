//! Proofs and theorems of a library, written in the words of the source that it was taken of.
//!
//! What is written here is looked at again by whoever prints a text (`givetext`): so but for the order of arguments, the letters of a
//! compressed proof, and the layout, the form and the marks of the text of another proof, no contract says what it is.
#![tactic(auto)]

mod adding;
mod given;
mod grouping;
mod layout;
mod lettering;
mod letters;
mod listing;
mod proving;
mod reading;
mod shared;
mod walking;
mod wording;

pub use adding::{
    ByLabel, Statement, SymbolWords, Vocabulary, Written, assertion_text, names_in_source,
    symbol_words,
};
pub use given::given_text;
pub use layout::indentation_like;
pub use listing::{Cited, Kinds, Names};
pub use proving::proof_text;
