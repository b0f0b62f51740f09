//! Writing databases and single assertions in the canonical layout.
#![tactic(auto)]

mod writing;

pub use writing::{
    put_assertion, put_prelude, put_steps, put_word, write_assertion, write_database,
};
