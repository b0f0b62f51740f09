//! The program, as a library: what a command line asks for is done, on files and streams. The calls below it that do a job on texts, run
//! scripts by many workers or by one editor, are passed on.
#![tactic(auto)]

mod edit;
mod ending;
mod obeying;
mod running;
mod summary;

pub use jobs::{Gate, Job, perform};
pub use obeying::obey;
pub use plainediting::edit_all;
pub use running::{run, run_on, run_over};
pub use workers::run_scripts;
