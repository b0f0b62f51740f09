//! A proof that is decoded.

ghost use Rattle.std.specs.Prelude.{◌<◌, length};

use crate::nodes::Nodes;

/// A proof as nodes.
#[derive(Drop)]
pub struct DecodedProof {
    pub nodes: Nodes,
    /// The place of the node that stands for the whole.
    pub root: usize,

    // the root is a node
    ghost within: { root < length nodes },
}
