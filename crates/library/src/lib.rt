//! A library of assertions with ranks: the commands on it and their replies, what each does, as a definition; and histories of
//! transactions.
//!
//! A transaction of one command:
//!
//! ```
//! fn renaming(alloc: Global) -> Result<Transaction, AllocError> {
//!     let old = Label::from_slice(alloc, b"th1")?;
//!     let new = Label::from_slice(alloc, b"refl")?;
//!     let mut commands = Vec::new(alloc);
//!     commands.push(Command::Rename { old, new })?;
//!     SharedList::from_vec(alloc, commands)
//! }
//! ```
#![tactic(auto)]

mod alike;
mod command;
mod history;
mod library;
mod reason;
mod shared;

pub use alike::is_alike;
pub use command::{
    Command, Line, MOST_COMMANDS, Replies, Reply, Script, Transaction, has_edit, has_too_many,
};
pub use history::{Entry, History};
pub use library::{PlainLibrary, Ranked};
pub use reason::{Reason, Refused};
pub use shared::SharedList;
