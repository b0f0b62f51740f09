//! Scripts that speak of a source: what their words ask of it, what it forbids and discourages, and the ranks of what they put in it.
#![tactic(auto)]

mod asking;
mod barred;
mod bars;
mod bearers;
mod commands;
mod cuts;
mod described;
mod discouraged;
mod in_front;
mod labels;
mod laid;
mod names;
mod ranking;
mod renamed;
mod unranked;
mod words;

pub use asking::{Asked, asked_of};
pub use barred::{Barred, barred_of};
pub use cuts::{Cut, cut_of};
pub use described::{Described, described_in};
pub use discouraged::{Discouraged, discouraged_of};
pub use laid::Laid;
pub use ranking::Ranker;
pub use unranked::Unranked;
pub use words::words_in;
