//! Texts of the Metamath profile, read exactly and written back; frames and substitution: the front of the crates that have them.
//!
//! A text is read and written back in canonical layout:
//!
//! ```
//! fn canonical(alloc: Global, keys: RandomState, text: &[u8]) -> anyhow::Result<Vec<u8>> {
//!     let database = read_database(alloc, keys, text)?;
//!     Ok(write_database(alloc, &database)?)
//! }
//! ```
#![tactic(auto)]

pub use mmframes::{SubstituteError, frame_of, substitute};
pub use mmreader::read_database;
pub use mmsyntax::{
    Assertion, Database, Expr, Float, Frame, Kind, Label, Name, Prelude, Proof, Sequence, Step,
    StepRef, Symbol, SymbolWord, are_citing_apart, fits, hypothesis_number, is_dotted,
    is_lawful_label, laws, trunk,
};
pub use mmtext::{FaultKind, TextFault};
pub use mmwriter::{put_assertion, put_prelude, write_assertion, write_database};
pub use statementreader::read_assertion;
