//! What the program answers where scripts edit a source: the source with the edits of one history, which verifies; or why it isn't printed.
#![tactic(auto)]

mod account;
mod answering;
mod call;
mod counts;

pub use account::Account;
pub use answering::{Told, answer_edit};
pub use counts::Counts;
