//! The second look at a source with edits, before it is printed: the library is taken of it again, and it and all other assertions are
//! compared.
#![tactic(auto)]

mod edited;
mod looking;
mod own;
mod unlike;

pub use looking::{Edits, look_again};
pub use own::{own_of, told_of};
pub use unlike::Unlike;
