//! The law of words that hold a library.

use crate::notes::{Given, Note};
use tlwords::Law;

/// Names the law: each transaction does, to every library that the cells may show, what its note says. No value of this type is made.
pub struct LibraryLaw;

impl Law for LibraryLaw {
    ghost use Rattle.lawful.specs.Lawful.{library_terms};

    type Setting = Given;

    type Note = Note;

    ghost terms = { library_terms };
}
