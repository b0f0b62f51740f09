//! Laws of libraries, edits, transactions and histories: what is true of their definitions, whatever the code.
#![tactic(auto)]

mod laws;

pub use laws::{
    agreement_stays, export_order_is_one, fronts_verify, libraries_are_spelled, openings_verify,
    reads_leave_the_library, replies_are_within_limits, settled_fronts_stay, shown_libraries_check,
    transactions_verify,
};
