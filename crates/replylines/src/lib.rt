//! What became of a transaction, as a line of JSON (RFC 8259), for programs that send scripts.
#![tactic(auto)]

mod lines;
mod naming;
mod replies;

pub use lines::{Header, not_done_line, put_line};
pub use naming::{command_text, shown};
