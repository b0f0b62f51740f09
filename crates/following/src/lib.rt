//! Who is told how far a long piece of work on a source is. What is answered doesn't depend on who follows.
#![tactic(auto)]

mod follow;

pub use follow::{Follow, Unfollowed};
