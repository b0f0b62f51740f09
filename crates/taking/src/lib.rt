//! What is taken of a source in the whole language of Metamath: a library of the profile.
#![tactic(auto)]

mod counting;
mod decoded;
mod decoder;
mod fresh;
pub mod laws;
pub mod lengths;
mod listing;
mod named;
mod nodes;
mod reason;
mod says;

pub use counting::{Counted, count_labels, is_unfinished, joined_letters, next_number};
pub use decoded::DecodedProof;
pub use decoder::decode;
pub use fresh::{FreeNames, Unnamed, fresh_name, library_name, library_names};
pub use listing::list;
pub use named::{Named, StepPlaces};
pub use nodes::Nodes;
pub use reason::Reason;
pub use says::{SymbolPlaces, expression};
