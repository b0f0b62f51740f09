//! Sessions on a library in running words: each runs transactions of commands, one after another, beside all the others.
//!
//! A library is opened from a database, with a session for each worker. A session tries a transaction, or tries it until it meets no
//! conflict, or looks at the whole library; and it learns what another session has seen. Whatever the others do meanwhile, each transaction
//! that committed is an entry of one history, whose replies are those of a one-thread editor, and every other one changes nothing.
//!
//! A transaction is tried once. The number is that of its entry, or of the entries that it read the library after:
//!
//! ```
//! fn try_once(
//!     alloc: Global,
//!     library: &Library,
//!     session: &mut Session,
//!     transaction: &Transaction,
//! ) -> Option<u64> {
//!     match session.attempt(alloc, library, transaction) {
//!         Outcome::Committed { number, .. } => Some(number),
//!         Outcome::Read { place, .. } | Outcome::Refused { place, .. } => Some(place),
//!         _ => None,
//!     }
//! }
//! ```
#![tactic(auto)]

mod attempting;
mod closing;
mod looking;
mod opening;
mod outcome;
mod running;
mod session;
mod shape;
mod submitting;

pub use closing::ClosedLibrary;
pub use outcome::{Look, Outcome, Record};
pub use running::Library;
pub use session::Session;
pub use shape::{OpenError, Shape};
