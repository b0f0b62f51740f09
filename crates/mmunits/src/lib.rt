//! What the units of a text have named so far, and the block that is open: what a reader of texts keeps between two words, beside its
//! place.
#![tactic(auto)]

mod block;
mod known;
mod pair_set;
mod word_map;

pub use block::Block;
pub use known::{Units, has_name};
