//! The library that scripts ask of a source, and the scripts as they are run over it.
#![tactic(auto)]

mod beginning;
mod order;
mod reading;

pub use beginning::{Begun, begin};
pub use order::EditOrder;
pub use reading::read_old;
