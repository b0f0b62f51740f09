//! What every text of Metamath words has in common: its bytes, its tokens, its comments, and its first fault.
#![tactic(auto)]

mod comments;
mod fault;
pub mod laws;
mod mark;
mod reading;
mod texts;
mod token;

pub use comments::{Turn, comment_turn};
pub use fault::{FaultKind, Stop, TextFault, fault_at};
pub use mark::{
    Mark, contains_comment_mark, contains_dollar, contains_dot, is_label_token, is_number_from_one,
    mark_word, names_hypothesis,
};
pub use reading::{Reader, read};
pub use texts::{no_memory, text_fault, unfinished_at};
pub use token::{Token, first_bad_byte, next_token};
