//! What the first step at fault of a theorem of a source asks for, and what it finds: a checker of one proof by its words, which is called
//! where a fault is known, and so may be slow.
//!
//! What is found in the proof of an assertion at a place of a source that was read:
//!
//! ```
//! fn tell<'a, D: Declared<'a>>(alloc: Global, declared: &D, place: usize) -> Result<bool, AllocError> {
//!     match explain(alloc, declared, place)? {
//!         None => Ok(true),
//!         Some(_explained) => Ok(false),
//!     }
//! }
//! ```
#![tactic(auto)]

mod apart;
mod assertion;
mod citing;
mod filling;
mod finding;
mod fitting;
mod stack;
mod stepping;
mod theorem;

pub use finding::{Explained, Finding};
pub use theorem::explain;
