//! Which items of a source leave their places: assertions that are deleted or put in elsewhere, what describes them, and blocks that have
//! nothing left. An item is seen as what part it plays there (`Part`).
#![tactic(auto)]

mod blocks;
mod going;
mod part;

pub use going::goes_of;
pub use part::{Fate, Part};
