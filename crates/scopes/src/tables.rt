//! What is kept of the statements of a source, and where.

ghost use Rattle.std.specs.Prelude.{◌≡◌};
ghost use Rattle.scopes.specs.Views.{stand_of, kept_of};
ghost use Rattle.scopes.specs.Sound.{IsSoundTables};
ghost use Rattle.source.specs.Scopes.{outset};

use source::{HypothesisWords, ProofWords};
use std::alloc::Global;
use std::collections::HashMap;
use wordkeys::WordKeys;

/// What a word was declared as, and where it was put then. What is at that place by now may be something else.
#[derive(Clone, Copy)]
pub(crate) enum Name {
    /// A constant.
    Constant,
    /// A variable: its place among the active variables, and that of its `$f` among the active hypotheses.
    Variable(usize, Option<usize>),
    /// The label of a hypothesis, with its place among the active ones.
    Hypothesis(usize),
    /// The label of an assertion, with its place.
    Assertion(usize),
}

/// A hypothesis, and the number of the one that was the last active one before it.
#[derive(Drop)]
pub(crate) struct Link<'a> {
    pub(crate) before: Option<usize>,
    pub(crate) hypothesis: HypothesisWords<'a>,
}

/// The variables of a `$d`, and the number of the `$d` that was the last active one before it.
#[derive(Drop)]
pub(crate) struct Apart<'a> {
    pub(crate) before: Option<usize>,
    pub(crate) variables: Vec<&'a [u8]>,
}

/// The number of an active hypothesis, and whether it is mandatory for the expression that is framed.
#[derive(Clone, Copy)]
pub(crate) struct Active {
    pub(crate) link: usize,
    pub(crate) is_mandatory: bool,
}

/// An assertion, with the numbers of the last active hypothesis and the last active `$d`, and of its mandatory hypotheses, in order of
/// appearance.
#[derive(Drop)]
pub(crate) struct Asserted<'a> {
    pub(crate) label: &'a [u8],
    pub(crate) statement: Vec<&'a [u8]>,
    pub(crate) proof: Option<ProofWords<'a>>,
    pub(crate) hypotheses: Option<usize>,
    pub(crate) apart: Option<usize>,
    pub(crate) mandatory_links: Vec<usize>,
}

/// How much stood before a block, of each list.
#[derive(Clone, Copy)]
pub(crate) struct Block {
    pub(crate) constants: usize,
    pub(crate) variables: usize,
    pub(crate) active: usize,
    pub(crate) apart: Option<usize>,
    pub(crate) symbols: usize,
    pub(crate) labels: usize,
    pub(crate) assertions: usize,
}

/// All that is kept. What is active is put on top of a list, and taken off at the end of its block; what is put elsewhere stays.
pub(crate) struct Tables<'a> {
    pub(crate) names: HashMap<&'a [u8], Name, WordKeys>,
    pub(crate) constants: Vec<&'a [u8]>,
    pub(crate) variables: Vec<&'a [u8]>,
    pub(crate) symbols: Vec<&'a [u8]>,
    pub(crate) labels: Vec<&'a [u8]>,
    pub(crate) links: Vec<Link<'a>>,
    pub(crate) active: Vec<Active>,
    pub(crate) aparts: Vec<Apart<'a>>,
    pub(crate) last_apart: Option<usize>,
    pub(crate) assertions: Vec<Asserted<'a>>,
    pub(crate) blocks: Vec<Block>,
}

// Proved here once: a derived drop is proved again at each exit that drops such a value.
impl<'a> Drop for Tables<'a> {
    fn drop(self) {
        let Tables {
            names: _,
            constants: _,
            variables: _,
            symbols: _,
            labels: _,
            links: _,
            active: _,
            aparts: _,
            last_apart: _,
            assertions: _,
            blocks: _,
        } = self;
    }
}

impl<'a> Tables<'a> {
    /// Before any statement.
    pub(crate) fn new(alloc: Global, keys: WordKeys) -> Tables<'a>
        ensures sound { IsSoundTables result }
        ensures outset { stand_of (kept_of result) ≡ outset }
    {
        Tables {
            names: HashMap::with_hasher(alloc, keys),
            constants: Vec::new(alloc),
            variables: Vec::new(alloc),
            symbols: Vec::new(alloc),
            labels: Vec::new(alloc),
            links: Vec::new(alloc),
            active: Vec::new(alloc),
            aparts: Vec::new(alloc),
            last_apart: None,
            assertions: Vec::new(alloc),
            blocks: Vec::new(alloc),
        }
    }
}
