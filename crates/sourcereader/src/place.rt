//! Places in a statement, as the reader keeps them.

use mmtext::Token;
use source::{Citation, Entries};

/// What was read of the statement that a token stands in. Its words are slices of the text.
#[derive(Drop)]
pub(crate) enum Place<'a> {
    /// At the start of a statement.
    AtStart,
    /// Behind a label.
    AfterLabel(Token<'a>),
    /// Behind `$c`, and whether a symbol stood.
    InConstants(bool),
    /// Behind `$v`, and whether a symbol stood.
    InVariables(bool),
    /// Behind `$d` and variables.
    InDistinct(Vec<&'a [u8]>),
    /// Behind a label and `$f`.
    FloatType(&'a [u8]),
    /// Behind the type.
    FloatVariable(&'a [u8], &'a [u8]),
    /// Behind the variable.
    FloatEnd(OpenFloat<'a>),
    /// Behind a label, `$e` and symbols.
    InHypothesis(&'a [u8], Vec<&'a [u8]>),
    /// Behind a label, `$a` and symbols.
    InAxiom(&'a [u8], Vec<&'a [u8]>),
    /// Behind a label, `$p` and symbols.
    InTheorem(&'a [u8], Vec<&'a [u8]>),
    /// Behind a label, `$p`, symbols and `$=`.
    InProof(OpenProof<'a>),
}

/// A `$p` up to a word of its proof.
#[derive(Drop)]
pub(crate) struct OpenProof<'a> {
    pub theorem: Theorem<'a>,
    pub place: ProofPlace<'a>,
}

/// A `$f` up to its end.
#[derive(Clone, Copy)]
pub(crate) struct OpenFloat<'a> {
    pub label: &'a [u8],
    pub type_code: &'a [u8],
    pub variable: &'a [u8],
}

/// The label and the symbols of a `$p`.
#[derive(Drop)]
pub(crate) struct Theorem<'a> {
    pub label: &'a [u8],
    pub expression: Vec<&'a [u8]>,
}

/// What was read of the proof that a token stands in.
#[derive(Drop)]
pub(crate) enum ProofPlace<'a> {
    /// Behind steps.
    InSteps(NormalProof<'a>),
    /// Behind `(` and labels.
    InLabels(Numbered<'a>),
    /// Behind `)` and words of letters.
    InLetters(CompressedProof<'a>),
}

/// A normal proof up to a step.
#[derive(Drop)]
pub(crate) struct NormalProof<'a> {
    pub steps: Vec<&'a [u8]>,
    /// What the steps left.
    pub entries: Entries,
}

/// A compressed proof up to a word of letters.
#[derive(Drop)]
pub(crate) struct CompressedProof<'a> {
    pub numbered: Numbered<'a>,
    pub letters: Vec<&'a [u8]>,
    /// What the letters left.
    pub entries: Entries,
}

/// What the numbers of letters count in front of marked subproofs.
#[derive(Drop)]
pub(crate) struct Numbered<'a> {
    /// How many mandatory hypotheses the `$p` has.
    pub hypotheses: usize,
    /// The labels in parentheses.
    pub labels: Vec<&'a [u8]>,
    /// What each of these names.
    pub citations: Vec<Citation>,
}
