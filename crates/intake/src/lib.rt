//! From a source in the whole language of Metamath to a library of the profile.
#![tactic(auto)]

mod call;
mod declaring;
mod drafting;
mod refusal;
mod rounds;
mod taken;

pub use call::{take, take_declared};
pub use drafting::copied_labels;
pub use following::{Follow, Unfollowed};
pub use refusal::Refusal;
pub use taken::Taken;
