//! The nodes of a proof, each of which stands once.

ghost use Rattle.std.specs.Prelude.{◌≡◌, ◌<◌, ◌≤◌, [], ◌∷◌, ◌++◌, length, slice_get, All, Some, IfOk};
ghost use Rattle.std.specs.Str.{bytes_eq};
ghost use Rattle.std.specs.HashMap.{get_by};
ghost use Rattle.sourcewriting.specs.Nodes.{AreNodes, AreFew, IsNumbered, IsTakenAlike, arguments_in};
ghost use Rattle.sourcewriting.specs.Reading.{find_in, HaveOneMore};
ghost use Rattle.sourcewriting.specs.declared.shared.Node.{Node as NodeOf};

use std::alloc::{AllocError, Global};
use std::collections::HashMap;
use std::hash::RandomState;

/// A label, and how many entries it takes.
#[derive(Clone, Copy)]
pub(crate) struct CountedLabel<'x> {
    pub(crate) label: &'x [u8],
    pub(crate) takes: usize,
}

/// A node: its arguments stand from one place of the vector of all arguments up to another.
#[derive(Clone, Copy)]
struct Node {
    /// The number of the label that it names.
    word: usize,
    begin: usize,
    end: usize,
}

/// The nodes of a proof: equal subproofs are one node, which stands behind its arguments. Labels and nodes are numbered from 0, in the
/// order of their first use.
pub(crate) struct Shared<'x> {
    /// The labels that nodes name, each with how many arguments the first node has that names it.
    words: Vec<CountedLabel<'x>>,
    numbers: HashMap<&'x [u8], usize, RandomState>,
    nodes: Vec<Node>,
    arguments: Vec<usize>,
    /// Nodes by their label's number and their arguments.
    places: HashMap<Vec<usize>, usize, RandomState>,
}

// Proved once: a derived drop is written out at each exit of a function that holds such a value.
impl<'x> Drop for Shared<'x> {
    fn drop(self) {
        let Shared {
            words: _,
            numbers: _,
            nodes: _,
            arguments: _,
            places: _,
        } = self;
    }
}

/// The key of a node: the number of its label, and its arguments.
fn key_of(alloc: Global, number: usize, arguments: &[usize]) -> Result<Vec<usize>, AllocError>
    ensures { IfOk result (λ key. key.items ≡ number ∷ arguments.now) }
{
    let mut key = Vec::with_capacity(alloc, arguments.len() + 1)?;
    key.push(number)?;
    key.extend_from_slice(arguments)?;
    Ok(key)
}

impl<'x> Shared<'x> {
    /// No node yet.
    pub(crate) fn new(alloc: Global, keys: RandomState) -> Shared<'x>
        ensures words { result.words.items ≡ [] }
        ensures nodes { result.nodes.items ≡ [] }
        ensures sound { AreNodes result }
    {
        Shared {
            words: Vec::new(alloc),
            numbers: HashMap::with_hasher(alloc, keys),
            nodes: Vec::new(alloc),
            arguments: Vec::new(alloc),
            places: HashMap::with_hasher(alloc, keys),
        }
    }

    /// The labels that nodes name, by their numbers, each with how many arguments the first node has that names it.
    pub(crate) fn words(&self) -> &[CountedLabel<'x>]
        ensures { result.now ≡ self.now.words.items }
    {
        self.words.as_slice()
    }

    /// The number of a label: a new one where no node named it, with how many arguments this node has.
    fn number_of(&mut self, label: &'x [u8], takes: usize) -> Result<usize, AllocError>
        ensures more { IfOk result (λ _. HaveOneMore self.old.words.items self.new.words.items label.now takes) }
        ensures same { IfOk result (λ _. (self.new.nodes ≡ self.old.nodes) × (self.new.arguments ≡ self.old.arguments)
            × (self.new.places ≡ self.old.places)) }
        ensures numbered { IsTakenAlike self.old.words.items label.now takes → AreNodes self.old
            → IfOk result (λ number. AreNodes self.new × IsNumbered self.new label.now takes number) }
    {
        if let Some(number) = self.numbers.get(&label) {
            return Ok(*number);
        }
        let number = self.words.len();
        self.words.push(CountedLabel { label, takes })?;
        self.numbers.insert(label, number)?;
        Ok(number)
    }

    /// A new node, of the label with a number.
    fn push(&mut self, word: usize, arguments: &[usize]) -> Result<usize, AllocError>
        ensures put { IfOk result (λ node. (node ≡ length self.old.nodes.items)
            × (self.new.arguments.items ≡ self.old.arguments.items ++ arguments.now)
            × (self.new.nodes.items ≡ self.old.nodes.items ++ record {
              word = word;
              begin = length self.old.arguments.items;
              end = length self.new.arguments.items;
            } ∷ [])) }
        ensures same { IfOk result (λ _. (self.new.words ≡ self.old.words) × (self.new.numbers ≡ self.old.numbers)
            × (self.new.places ≡ self.old.places)) }
    {
        let begin = self.arguments.len();
        self.arguments.extend_from_slice(arguments)?;
        let node = self.nodes.len();
        let end = self.arguments.len();
        self.nodes.push(Node { word, begin, end })?;
        Ok(node)
    }

    /// The node of a label over nodes: the one that there is, or a new one.
    pub(crate) fn node(
        &mut self,
        alloc: Global,
        word: &'x [u8],
        arguments: &[usize],
    ) -> Result<usize, AllocError>
        ensures more { IfOk result (λ _. HaveOneMore self.old.words.items self.new.words.items word.now (length arguments.now)) }
        ensures few { IfOk result (λ _. AreFew 1 self.old self.new × (length self.old.nodes.items ≤ length self.new.nodes.items)) }
        ensures sound { All (λ a. a < length self.old.nodes.items) arguments.now
            → IsTakenAlike self.old.words.items word.now (length arguments.now) → AreNodes self.old
            → IfOk result (λ node. AreNodes self.new × (node < length self.new.nodes.items)) }
    {
        let number = self.number_of(word, arguments.len())?;
        let key = key_of(alloc, number, arguments)?;
        if let Some(node) = self.places.get(key.as_slice()) {
            return Ok(*node);
        }
        let node = self.push(number, arguments)?;
        self.places.insert(key, node)?;
        Ok(node)
    }

    /// The node of a label over nodes, if there is one.
    pub(crate) fn find(
        &self,
        alloc: Global,
        label: &[u8],
        arguments: &[usize],
    ) -> Result<Option<usize>, AllocError>
        ensures { IfOk result (λ found. found ≡ find_in self.now label.now arguments.now) }
    {
        let Some(number) = self.numbers.get(&label).copied() else {
            return Ok(None);
        };
        let key = key_of(alloc, number, arguments)?;
        Ok(self.places.get(key.as_slice()).copied())
    }

    /// The number of the label that a node names: 0 where there is no such node.
    pub(crate) fn word(&self, node: usize) -> usize
        ensures { (d : NodeOf) → slice_get self.now.nodes.items node ≡ Some d → result ≡ d.word }
    {
        match self.nodes.get(node) {
            Some(there) => there.word,
            None => 0,
        }
    }

    /// The arguments of a node, in order: none where there is no such node.
    pub(crate) fn arguments(&self, node: usize) -> &[usize]
        ensures are { AreNodes self.now → result.now ≡ arguments_in self.now node }
        ensures few { length result.now ≤ length self.now.arguments.items }
    {
        match self.nodes.get(node) {
            Some(there) => self.arguments.get(there.begin..there.end).unwrap_or(&[]),
            None => &[],
        }
    }

    /// How many nodes there are.
    pub(crate) fn len(&self) -> usize
        ensures { result ≡ length self.now.nodes.items }
    {
        self.nodes.len()
    }
}
