//! The library in cells: how a library lies in words, and what reads and writes of cells do to it.
#![tactic(auto)]

mod again;
mod cells;
mod counts;
mod ending;
mod finding;
mod halt;
mod labels;
mod places;
mod reading;
mod words;
mod writing;

pub use bodystore::cited_slots;
pub use cells::Cells;
pub use counts::{count_in, count_out, only_in};
pub use ending::{CommandError, RunError};
pub use finding::{find, free_slot};
pub use halt::Halt;
pub use labels::{Availability, availability_of};
pub use places::{
    bucket, bucket_cell, citers_cell, is_range_cell, link, name_cell, next_cell, proof_cell,
    rank_cell, slot_count, statement_cell,
};
pub use reading::{
    citers, entry, frame, kind, label, proof, rank, resolve, statement, stored_proof,
};
pub use writing::{put, put_body};
