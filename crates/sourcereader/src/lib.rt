//! Reading a text in the whole language of Metamath, whatever keeps its tables.
#![tactic(auto)]

mod keeping;
mod place;
mod proof_rows;
mod reading;
mod rows;
mod words;

pub use reading::{MOST_BYTES, read_source};
