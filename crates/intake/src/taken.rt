//! What is taken of a source.

use mmsyntax::{Database, Label};
use taking::Reason;

/// A library that is taken of a source, and what is told of it. Words of the source are slices of its text.
#[derive(Drop)]
pub struct Taken<'a> {
    /// The library: its proofs check.
    pub database: Database,
    /// Each theorem that is taken as an axiom, by its label in the source, with the reason: in order of appearance.
    pub axioms: Vec<(&'a [u8], Reason)>,
    /// Each name that was changed, with that in the library: constants, variables, labels of `$f`, labels of assertions.
    pub names: Vec<(&'a [u8], Label)>,
    /// Of each assertion of the source, in order of appearance: whether it was taken.
    pub chosen: Vec<bool>,
}
