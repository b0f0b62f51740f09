//! Reading the text of a database.
#![tactic(auto)]

pub mod laws;
mod reading;

pub use reading::read_database;
