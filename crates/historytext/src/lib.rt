//! The text of histories: read exactly, and written in canonical layout.
#![tactic(auto)]

mod entry_rows;
mod laws;
mod numbers;
mod place;
mod reading;
mod replies;
mod reply_rows;
mod transactions;
mod writing;

pub use laws::{
    legal_histories_are_spelled, legal_histories_fit, one_history_or_fault, texts_spell,
};
pub use reading::read_history;
pub use replies::put_reply;
pub use transactions::put_transaction;
pub use writing::write_history;
