//! What of a source has a place in a library, constants, `$f` and assertions, and the names that these have there.
#![tactic(auto)]

mod active;
mod changes;
mod free;
mod gathering;
mod given;
mod indexed;
mod names;
mod sites;
mod used;

pub use active::Active;
pub use gathering::sites_of;
pub use given::active_at;
pub use indexed::Indexed;
pub use names::{LibraryNames, SourceNames, name_all};
pub use sites::Sites;
