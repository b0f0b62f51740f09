//! What lies outside of a program, its words, files and streams, and what is done there, one thing after another.
#![tactic(auto)]

mod arguments;
mod beside;
mod disk;
mod host;
mod progress;
mod reason;
mod streams;
mod system;
mod trouble;
mod whole;
mod world;

pub use arguments::{Arguments, SystemArguments};
pub use disk::{Disk, Lead};
pub use host::Host;
pub use progress::Progress;
pub use reason::{Reason, unread_text, unwritten_text};
pub use streams::Streams;
pub use system::{SystemFiles, SystemStreams};
pub use trouble::{Trouble, Unwritten};
pub use world::World;
