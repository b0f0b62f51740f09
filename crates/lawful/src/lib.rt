//! Libraries in running words: which transactions on the cells of a library are lawful, and what a history of lawful ones says.
//!
//! It joins two layers. `tlwords` runs words that transactions share, keeps a law of its caller's choice for each transaction, and tells
//! each session a history of them; `cells` says when such words show a library. Here stands the law of a library's transactions, and what
//! follows from it of each history that a session is told: it is a history of the library, by the definitions. Nothing runs here.
#![tactic(auto)]

mod law;
mod laws;
mod notes;

pub use law::LibraryLaw;
pub use laws::{
    closed_words_show, histories_grow, lawful_is_kept, looks_are_lawful, one_assertion_is_shown,
    runs_are_lawful, runs_suit, sessions_stand, shown_is_kept,
};
pub use notes::{Given, Note};
