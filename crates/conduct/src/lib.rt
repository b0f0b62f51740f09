//! How each command but `edit` is done on files and streams: its files are read, and what is answered is told.
#![tactic(auto)]

mod comparing;
mod give;
mod job;
mod manner;
mod means;
mod reading;
mod take;
mod telling;
mod verify;

pub use comparing::first_same;
pub use give::follow_give;
pub use job::follow_order;
pub use manner::{INPUT, Manner};
pub use means::Means;
pub use reading::{INPUT_TWICE, Unread, is_input_twice, read_all};
pub use take::follow_take;
pub use telling::{CLOSED, misuse, print_with, refuse, tell_unprinted, tell_unwritten};
pub use verify::follow_verify;
