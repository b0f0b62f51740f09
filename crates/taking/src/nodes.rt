//! The nodes of a proof, in which a marked subproof stands once.

ghost use Rattle.std.specs.Prelude.{◌≡◌, ◌<◌, ◌++◌, ◌∷◌, [], length, slice_get, Some, OnOk, OnErr};
ghost use Rattle.std.specs.Option.{option_map};
ghost use Rattle.taking.specs.Nodes.{AreBelow, sizes, counted};
ghost use Rattle.taking.specs.Views.{size_over};

use std::alloc::{AllocError, Global};
use std::marker::Model;

/// A node: its arguments stand from one place of the vector of all arguments up to another.
#[derive(Clone, Copy)]
struct Node {
    /// The number of what it names.
    named: usize,
    begin: usize,
    end: usize,
    /// How many steps list it: 16,385 where they are more.
    size: usize,
}

/// Nodes, each behind its arguments. Contracts see for each the number of what it names, and the places of its arguments among the
/// nodes; both
/// count from 0.
pub struct Nodes {
    nodes: Vec<Node>,
    arguments: Vec<usize>,
}

// Proved here once: a derived drop is proved again in each crate that drops such a value.
impl Drop for Nodes {
    fn drop(self) {
        let Nodes {
            nodes: _,
            arguments: _,
        } = self;
    }
}

impl Model for Nodes {
    ghost use Rattle.std.specs.Prelude.{List};
    ghost use Rattle.taking.specs.Nodes.{Shared};
    ghost use Rattle.taking.specs.Views.{seen_nodes, AreSound};

    ghost Value = { List Shared };

    ghost view = { λ n. seen_nodes n.arguments.items n.nodes.items };

    ghost invariant = { λ n. AreSound n.arguments.items n.nodes.items };
}

impl Nodes {
    /// No node yet.
    pub fn new(alloc: Global) -> Nodes
        ensures { result ≡ [] }
    {
        Nodes {
            nodes: Vec::new(alloc),
            arguments: Vec::new(alloc),
        }
    }

    /// How many nodes there are.
    pub fn len(&self) -> usize
        ensures { result ≡ length self.now }
    {
        self.nodes.len()
    }

    /// The number of what the node at a place names.
    pub fn named(&self, place: usize) -> usize
        requires { place < length self.now }
        ensures { option_map (λ n. n.named) (slice_get self.now place) ≡ Some result }
    {
        self.nodes[place].named
    }

    /// The places of the arguments of the node at a place, in order of appearance: they stand before it.
    pub fn arguments(&self, place: usize) -> &[usize]
        requires { place < length self.now }
        ensures value { option_map (λ n. n.arguments) (slice_get self.now place) ≡ Some result.now }
        ensures below { AreBelow place result.now }
    {
        let node = self.nodes[place];
        &self.arguments[node.begin..node.end]
    }

    /// How many steps list the tree of the node at a place: 16,385 where they are more.
    pub fn size(&self, place: usize) -> usize
        requires { place < length self.now }
        ensures { option_map counted (slice_get (sizes self.now) place) ≡ Some result }
    {
        self.nodes[place].size
    }

    /// One more node, over others. After an error the nodes are as they were.
    pub fn push(&mut self, named: usize, arguments: &[usize]) -> Result<(), AllocError>
        requires { AreBelow (length self.old) arguments.now }
        ensures ok { OnOk result (self.new ≡ self.old ++ record { named = named; arguments = arguments.now } ∷ []) }
        ensures err { OnErr result (self.new ≡ self.old) }
    {
        let size = self.size_over(arguments);
        let begin = self.arguments.len();
        self.arguments.extend_from_slice(arguments)?;
        let end = self.arguments.len();
        self.nodes.push(Node {
            named,
            begin,
            end,
            size,
        })?;
        Ok(())
    }

    /// How many steps list a node over others: 16,385 where they are more.
    fn size_over(&self, arguments: &[usize]) -> usize
        requires { AreBelow (length self.now) arguments.now }
        ensures { result ≡ size_over self.now arguments.now }
    {
        let mut size = 1;
        for place in arguments {
            size = (size + self.size(*place)).min(16_385);
        }
        size
    }
}
