//! Places in the grammar.

ghost use Rattle.std.specs.Prelude.{◌≡◌};
ghost use Rattle.statementreader.specs.Views.{seen_place, seen_behind, is_outermost};

use mmsyntax::{Proof, SymbolWord};
use mmtext::{Mark, Token};
use mmunits::Block;
use std::alloc::Global;

/// A token, and what it is by itself.
#[derive(Clone, Copy)]
pub struct MarkedToken<'a> {
    pub token: Token<'a>,
    pub mark: Mark,
}

/// Outermost, or in a block that holds this much.
#[derive(Drop)]
pub enum Scope<'a> {
    Outside,
    Inside(Block<'a>),
}

/// A `$f` up to its end.
#[derive(Clone, Copy)]
pub struct OpenFloat<'a> {
    pub label: &'a [u8],
    /// The place of its type among the constants, counted from 0.
    pub type_code: u32,
    /// The variable as it stands.
    pub word: &'a [u8],
    /// The place of the variable, counted from 0.
    pub variable: u32,
}

/// What was read of the `$c`, `$v` or `$f` that a token stands in.
#[derive(Drop)]
pub enum PreludePlace<'a> {
    /// Behind `$c`, and whether a symbol stood.
    InConstants(bool),
    /// Behind `$v`, and whether a symbol stood.
    InVariables(bool),
    /// Behind a label and `$f`.
    FloatType(&'a [u8]),
    /// Behind the type.
    FloatVariable(&'a [u8], u32),
    /// Behind the variable.
    FloatEnd(OpenFloat<'a>),
}

/// A `$e` up to a symbol of its expression.
#[derive(Drop)]
pub struct OpenHypothesis<'a> {
    pub block: Block<'a>,
    pub label: &'a [u8],
    pub expression: Vec<SymbolWord>,
}

/// A `$a` or `$p` up to a symbol of its expression.
#[derive(Drop)]
pub struct OpenAssertion<'a> {
    pub scope: Scope<'a>,
    pub label: &'a [u8],
    pub expression: Vec<SymbolWord>,
}

/// What was read of the assertion or of the block that a token stands in.
#[derive(Drop)]
pub enum UnitPlace<'a> {
    /// At the start of a statement.
    AtStart(Scope<'a>),
    /// In a block, behind its assertion.
    AtClose,
    /// Behind a label.
    AfterLabel(Scope<'a>, Token<'a>),
    /// Behind `$d` and variables, each by its `$f`.
    InDistinct(Block<'a>, Vec<u32>),
    /// Behind a label, `$e` and symbols.
    InHypothesis(OpenHypothesis<'a>),
    /// Behind a label, `$a` and symbols.
    InAxiom(OpenAssertion<'a>),
    /// Behind a label, `$p` and symbols.
    InTheorem(OpenAssertion<'a>),
    /// Behind `$=` and steps.
    InProof(Theorem<'a>),
}

/// A `$p` up to a step of its proof.
#[derive(Drop)]
pub struct Theorem<'a> {
    pub assertion: OpenAssertion<'a>,
    /// On the heap: a place moves with each token.
    pub steps: Box<Proof, Global>,
}

/// What was read of the statement that a token stands in.
#[derive(Drop)]
pub enum Place<'a> {
    Prelude(PreludePlace<'a>),
    Unit(UnitPlace<'a>),
}

/// Where a text goes on behind an assertion.
#[derive(Clone, Copy)]
pub(crate) enum Behind {
    /// At the start of a statement, outermost.
    Statement,
    /// In the block of the assertion, whose end has to follow.
    BlockEnd,
}

impl Behind {
    /// The place there.
    pub fn place<'a>(self) -> Place<'a>
        ensures { seen_place result ≡ seen_behind self }
    {
        match self {
            Behind::Statement => Place::Unit(UnitPlace::AtStart(Scope::Outside)),
            Behind::BlockEnd => Place::Unit(UnitPlace::AtClose),
        }
    }
}

/// Whether a place is outermost, between statements.
pub fn is_outermost(place: &Place<'_>) -> bool
    ensures { result ≡ is_outermost (seen_place place.now) }
{
    match place {
        Place::Unit(UnitPlace::AtStart(Scope::Outside)) => true,
        _ => false,
    }
}
