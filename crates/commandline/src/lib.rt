//! What a command line asks for: its words, as the parser of command lines knows them.
#![tactic(auto)]

mod arguments;
mod edit_order;
mod give_order;
mod order;
mod take_order;
mod verify_order;

pub use arguments::command_line;
pub use edit_order::{Allowed, Destination, EditOrder, Outputs, edit_of};
pub use give_order::{GiveOrder, give_of};
pub use order::{Order, order_of};
pub use take_order::{TakeOrder, take_of};
pub use verify_order::{VerifyOrder, verify_of};
