//! Bodies: labels, statements and proofs as lists of words, both ways; and the ranges that a session has staged.
#![tactic(auto)]

mod citing;
mod cursor;
mod decode;
mod encode;
mod laws;
mod stage;
mod statement;
mod stored;
mod words;

pub use citing::cited_slots;
pub use decode::{decode_label, decode_proof, decode_statement};
pub use encode::{encode_label, encode_proof, encode_statement};
pub use laws::{
    bodies_have_words, fitting_are_small, proof_bodies_are_one, staged_are_ranges,
    statement_bodies_are_one,
};
pub use stage::Stage;
pub use statement::Statement;
pub use stored::StoredStep;
