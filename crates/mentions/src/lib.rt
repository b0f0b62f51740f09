//! Which labels of a source no assertion has any more once it is edited, and the lines that say which of these comments still mention, by
//! words that speak of none.
#![tactic(auto)]

mod lines;
mod mentioned;
mod vanished;

pub use lines::mention_lines;
pub use vanished::vanished_of;
