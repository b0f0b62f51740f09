//! Does away with the forms of a script that speak of a source: `replace *`, `behind M` and `before M`.
#![tactic(auto)]

mod forms;
mod misfit;
mod spreading;
mod star;

pub use forms::{
    begins_with, behind, first_place, is_behind, is_beside, part_length, place_length, split_place,
};
pub use misfit::Misfit;
pub use spreading::{SpreadScript, cites, labels_in, spread};
