//! A source as its items, in order: comments, marks of blocks and statements, each with its bytes; and these with changed labels.
#![tactic(auto)]

mod call;
mod indentation;
mod part;
mod place;
mod reading;
mod writing;

pub use call::rewrite;
pub use indentation::{are_spaces, indent, indentations};
pub use reading::{Item, Kind, read_item, read_items};
pub use writing::put_item;
