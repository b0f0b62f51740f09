//! The comments of a source that stand between its statements: whether they stand in the text with edits too.
#![tactic(auto)]

mod deleted;
mod inside;
mod keeping;
mod outside;
mod passing;
mod walking;

pub use keeping::are_kept;
