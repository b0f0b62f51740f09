//! A source with items that leave their places, and with what is put in: where each item stands then, and how it reads.
#![tactic(auto)]

mod call;
mod checking;
mod coming;
mod describing;
mod group;
mod headed;
mod held;
mod layout;
mod lines;
mod naming;
mod printing;
mod sections;

pub use call::{Edits, Outcome, arrange};
pub use coming::{Coming, Why};
pub use describing::parts_of;
pub use headed::{Neighbour, Side, is_headed};
pub use held::is_held_behind;
