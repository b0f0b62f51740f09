//! What a database consists of: symbols, expressions, steps and assertions as plain data.

ghost use Rattle.std.specs.Prelude.{◌≡◌, IfOk};

use crate::label::Label;
use crate::proof::Proof;
use crate::sequence::Sequence;
use crate::symbol_word::SymbolWord;
use std::alloc::{AllocError, Global};

/// A math symbol by its place, as clauses see it. Places count from 0. An expression keeps it as a `SymbolWord`.
#[derive(Clone, Copy, Debug, PartialEq, Eq)]
pub enum Symbol {
    /// The constant declared at this place.
    Const(u32),
    /// The variable of the `$f` at this place.
    Var(u32),
}

/// The symbols of a statement or of a hypothesis.
pub type Expr = Sequence<SymbolWord>;

/// A step of a proof, as clauses see it: what it names. A `Proof` keeps its steps as words, and lends each as a `StepRef`.
#[derive(Debug, Drop)]
pub enum Step {
    /// The `$f` at this place of the prelude, counted from 0.
    Float(u32),
    /// The hypothesis at this place of the assertion being proved, counted from 0.
    Hyp(u32),
    /// An assertion, by its label.
    Cite(Label),
}

/// Whether an assertion is taken for granted (`$a`) or proved (`$p`).
#[derive(Clone, Copy, Debug, PartialEq, Eq)]
pub enum Kind {
    Axiom,
    Theorem,
}

/// A `$f`: its label, and the places of its type among the constants and of its variable among the variables.
#[derive(Debug, Drop)]
pub struct Float {
    pub label: Label,
    pub type_code: u32,
    pub variable: u32,
}

/// An assertion with all that its scope holds.
#[derive(Debug, Drop)]
pub struct Assertion {
    pub label: Label,
    pub kind: Kind,
    /// The pairs that `$d` restricts, as places of `$f`: the lower first, ascending, each once.
    pub pairs: Sequence<(u32, u32)>,
    /// The `$e`, in order.
    pub hyps: Sequence<Expr>,
    /// The symbols behind `$a` or `$p`.
    pub statement: Expr,
    /// The steps of the proof: none of an axiom.
    pub proof: Proof,
}

/// What a citing proof sees of an assertion.
#[derive(Debug, Drop)]
pub struct Frame {
    /// The places of the mandatory `$f`, ascending.
    pub floats: Sequence<u32>,
    /// The `$e`, in order.
    pub hyps: Sequence<Expr>,
    /// The mandatory pairs, as places of `$f`.
    pub pairs: Sequence<(u32, u32)>,
    /// The symbols of the statement.
    pub statement: Expr,
}

impl Assertion {
    /// An equal assertion.
    pub fn copy(&self, alloc: Global) -> Result<Assertion, AllocError>
        ensures { IfOk result (λ made. made ≡ self.now) }
    {
        Ok(Assertion {
            label: self.label.copy(alloc)?,
            kind: self.kind,
            pairs: self.pairs.copy(alloc)?,
            hyps: copy_expressions(alloc, self.hyps.as_slice())?,
            statement: self.statement.copy(alloc)?,
            proof: self.proof.copy(alloc)?,
        })
    }
}

impl Float {
    /// An equal `$f`.
    pub fn copy(&self, alloc: Global) -> Result<Float, AllocError>
        ensures { IfOk result (λ made. made ≡ self.now) }
    {
        Ok(Float {
            label: self.label.copy(alloc)?,
            type_code: self.type_code,
            variable: self.variable,
        })
    }
}

impl Frame {
    /// An equal frame.
    pub fn copy(&self, alloc: Global) -> Result<Frame, AllocError>
        ensures { IfOk result (λ made. made ≡ self.now) }
    {
        Ok(Frame {
            floats: self.floats.copy(alloc)?,
            hyps: copy_expressions(alloc, self.hyps.as_slice())?,
            pairs: self.pairs.copy(alloc)?,
            statement: self.statement.copy(alloc)?,
        })
    }
}

fn copy_expressions(alloc: Global, expressions: &[Expr]) -> Result<Sequence<Expr>, AllocError>
    ensures { IfOk result (λ made. made ≡ expressions.now) }
{
    let mut made = Vec::new(alloc);
    for expression in expressions {
        made.push(expression.copy(alloc)?)?;
    }
    Ok(Sequence::from_vec(made))
}
