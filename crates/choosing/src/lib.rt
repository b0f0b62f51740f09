//! Which assertions of a source are taken.
#![tactic(auto)]

mod between;
mod choice;
pub mod laws;
mod marks;
mod nearest;
mod places;
mod spoken;
mod wish;

pub use choice::choose;
pub use spoken::{Labels, wanted_of};
pub use wish::{Selection, Unchosen, Wish};
