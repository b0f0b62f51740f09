//! Copies of assertions with another label, and with another label in the place of one that the proof cites.

ghost use Rattle.std.specs.Prelude.{◌≡◌, IfOk};
ghost use Rattle.library.specs.Edits.{with_proof};
ghost use Rattle.catalog.specs.Changes.{with_label, citing};

use library::Ranked;
use mmsyntax::{Assertion, Expr, Label, Proof, Sequence};
use std::alloc::{AllocError, Global};

fn copy_expressions(alloc: Global, expressions: &[Expr]) -> Result<Sequence<Expr>, AllocError>
    ensures { IfOk result (λ made. made ≡ expressions.now) }
{
    let mut made = Vec::new(alloc);
    for expression in expressions {
        made.push(expression.copy(alloc)?)?;
    }
    Ok(Sequence::from_vec(made))
}

/// What an assertion says, without its label and its proof.
#[derive(Drop)]
struct Said {
    pairs: Sequence<(u32, u32)>,
    hyps: Sequence<Expr>,
    statement: Expr,
}

fn copy_said(alloc: Global, assertion: &Assertion) -> Result<Said, AllocError>
    ensures { IfOk result (λ made. made ≡ record {
      pairs = assertion.now.pairs;
      hyps = assertion.now.hyps;
      statement = assertion.now.statement;
    }) }
{
    let pairs = assertion.pairs.copy(alloc)?;
    let hyps = copy_expressions(alloc, assertion.hyps.as_slice())?;
    let statement = assertion.statement.copy(alloc)?;
    Ok(Said {
        pairs,
        hyps,
        statement,
    })
}

/// An assertion with another proof: the proof that it has isn't copied.
///
/// # Errors
///
/// Want of memory.
pub fn reproved(alloc: Global, entry: &Ranked, proof: Proof) -> Result<Ranked, AllocError>
    ensures { IfOk result (λ made. made ≡ with_proof proof entry.now) }
{
    let label = entry.assertion.label.copy(alloc)?;
    let said = copy_said(alloc, &entry.assertion)?;
    Ok(Ranked {
        rank: entry.rank,
        assertion: Assertion {
            label,
            kind: entry.assertion.kind,
            pairs: said.pairs,
            hyps: said.hyps,
            statement: said.statement,
            proof,
        },
    })
}

/// An assertion with a label in the place of another in its proof.
///
/// # Errors
///
/// Want of memory.
pub fn recited(alloc: Global, entry: &Ranked, old: &[u8], new: &Label) -> Result<Ranked, AllocError>
    ensures { IfOk result (λ made. made ≡ citing old.now new.now entry.now) }
{
    let mut proof = entry.assertion.proof.copy(alloc)?;
    proof.rename(alloc, old, new.as_slice())?;
    reproved(alloc, entry, proof)
}

/// An assertion with another label.
///
/// # Errors
///
/// Want of memory.
pub fn relabelled(alloc: Global, entry: &Ranked, label: &Label) -> Result<Ranked, AllocError>
    ensures { IfOk result (λ made. made ≡ with_label label.now entry.now) }
{
    let mut made = entry.copy(alloc)?;
    made.assertion.label = label.copy(alloc)?;
    Ok(made)
}
