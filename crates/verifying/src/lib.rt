//! When a source in the whole language of Metamath verifies, and the first fault of one that does not: definitions and laws.
#![tactic(auto)]

mod laws;

pub use laws::{
    citations_are_put, derives_or_fails, entries_are_counted, finished_are_derived,
    hypotheses_are_put, letters_verify, locals_are_their_own, pairs_are_asked, parts_verify,
    tests_fail, trees_are_derived, two_lines_verify, verifies_or_fails,
};
