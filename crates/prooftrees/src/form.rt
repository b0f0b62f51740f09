//! What the proof of an assertion is.

use taking::{DecodedProof, Named};

/// A finished proof.
#[derive(Drop)]
pub struct ProofTree<'a> {
    /// The labels that its nodes name, by their numbers from 0. One may stand twice, or be named by no node.
    pub labels: Vec<&'a [u8]>,
    /// What each of these names.
    pub named: Vec<Named>,
    /// Its nodes.
    pub proof: DecodedProof,
}

/// What the proof of an assertion is.
#[derive(Drop)]
pub enum ProofForm<'a> {
    /// It has none: an axiom.
    Absent,
    /// A step of it isn't there.
    Unfinished,
    /// A tree.
    Tree(ProofTree<'a>),
}
