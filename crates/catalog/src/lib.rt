//! What the one-thread editor keeps of a library: its assertions by their places, found by their labels, with who may cite them; the tests
//! of commands on them, and changes that can be taken back.
#![tactic(auto)]

mod citers;
mod citing;
mod clashing;
mod listing;
mod notes;
mod places;
mod testing;
mod trunks;

pub use citers::{Citers, enter, enter_citer, open_citers};
pub use citing::{recited, relabelled, reproved};
pub use clashing::has_clash;
pub use listing::list_lines;
pub use notes::{Note, drop_notes, take_all_back};
pub use places::{Places, entry_at, find_entry, find_label, open_entries, open_frames};
pub use testing::{
    Lower, cites, cites_not_below, cites_unknown, count_citers, has_citer_below, proof_fault,
};
pub use trunks::{Trunks, enter_trunk};
