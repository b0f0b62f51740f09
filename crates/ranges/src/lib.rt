//! Ranges of a store and the words that name them: a range is a run of store words that are written once.
//!
//! The definitions stand in `specs/`, for the layers below and above the words. The functions of `laws` do nothing: their contracts are
//! laws of the definitions.
#![tactic(auto)]

mod laws;
mod range;

pub use laws::{
    named_are_stored, names_last, openings_name_their_ranges, stored_are_coherent, words_name_one,
};
pub use range::Range;
