//! Scripts of commands on a library, read exactly.
//!
//! A script of two transactions:
//!
//! ```
//! fn count_transactions(alloc: Global, prelude: &Prelude) -> anyhow::Result<usize> {
//!     let text = b"begin rename th1 refl show refl commit begin list commit";
//!     let script = read_script(alloc, prelude, text)?;
//!     Ok(script.as_slice().len())
//! }
//! ```
#![tactic(auto)]

mod laws;
mod script;

pub use laws::one_script_or_fault;
pub use library::{
    Command, Line, PlainLibrary, Ranked, Reason, Refused, Reply, Script, Transaction,
};
pub use mmsyntax::numeral::{count, number};
pub use script::{
    CommandPlace, Labels, Led, Verb, is_numeral, read_command_word, read_in_command, read_label,
    read_rank, read_script, take_in_command,
};
