//! Assertions of a source over numbers in place of words: how each is cited, and what a citation in a proof is asked of.
#![tactic(auto)]

mod frame;
mod framing;
mod marks;
mod pairs;
mod table;
mod thesis;
mod variables;

pub use frame::{Demand, Frame, Piece};
pub use framing::frame_of;
pub use table::Table;
pub use thesis::{Thesis, thesis_of};
