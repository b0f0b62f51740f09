//! The scripts of an edit, before and behind their run: on the way to those that are run, with the descriptions that they give and all
//! that is wrong with them; and what became of each of their transactions.
#![tactic(auto)]

mod described;
mod expanded;
mod fault_lines;
mod faults;
mod hearing;
mod lacking;
mod quoted;
mod replying;
mod run;
mod telling;
mod unedited;

pub use described::{descriptions_of, done_descriptions};
pub use expanded::{lay_all, read_all};
pub use hearing::faultless;
pub use lacking::{may_print, undone};
pub use quoted::{done_quotations, quotes_of};
pub use replying::{Replies, replies_if};
pub use run::RunScripts;
pub use telling::{untaken, unworked};
pub use unedited::Unedited;
