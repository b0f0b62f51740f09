//! What stays of a source in another one, where edits of some of its assertions are given back.
#![tactic(auto)]

mod alike;
mod label_map;
mod staying;

pub use label_map::LabelMap;
pub use staying::first_not_staying;
