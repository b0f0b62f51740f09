//! Which words of a comment speak of labels, how these words read with changed labels, and where a text speaks of some labels.
#![tactic(auto)]

mod comment_place;
pub mod laws;
mod parted;
mod reading;
mod spoken;

pub use comment_place::CommentPlace;
pub use parted::{Parted, changed};
pub use reading::Reading;
pub use spoken::spoken_of;
