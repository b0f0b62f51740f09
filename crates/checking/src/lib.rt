//! What the program does with no session: texts are read, proofs are checked, and a history is done again.
#![tactic(auto)]

mod database;
mod fault;
mod laws;
mod replaying;
mod scripting;
mod task;
mod telling;
mod texts;

pub use database::read_and_check;
pub use fault::Fault;
pub use laws::spelled_scripts_fit;
pub use replaying::SLOTS;
pub use scripting::read_scripts;
pub use task::Task;
pub use texts::{check, replay, replay_library};
