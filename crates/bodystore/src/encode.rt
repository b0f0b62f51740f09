//! From labels, statements and proofs to the words of their bodies.

ghost use Rattle.std.specs.Prelude.{◌≡◌, ◌++◌, map, IfOk, OnOk};
ghost use Rattle.bodystore.specs.Bodies.{label_body, expression_words, expressions_words, statement_body, statement_of, proof_body};

use crate::stored::StoredStep;
use crate::words::{kind_word, pair_word, symbol_word};
use mmsyntax::{Assertion, Expr, SymbolWord};
use std::alloc::{AllocError, Global};

/// The body of a label: one word for each byte.
///
/// # Errors
///
/// Want of memory.
pub fn encode_label(alloc: Global, label: &[u8]) -> Result<Vec<u64>, AllocError>
    ensures { IfOk result (λ made. made.items ≡ label_body label.now) }
{
    let mut words = Vec::with_capacity(alloc, label.len())?;
    for byte in label {
        words.push(*byte as u64)?;
    }
    Ok(words)
}

/// The body of an assertion's statement: its kind, the numbers of its pairs and of its hypotheses, each pair, each hypothesis and
/// the statement, each expression with its length before it.
///
/// # Errors
///
/// Want of memory.
pub fn encode_statement(alloc: Global, assertion: &Assertion) -> Result<Vec<u64>, AllocError>
    ensures { IfOk result (λ made. made.items ≡ statement_body (statement_of assertion.now)) }
{
    let mut words = Vec::new(alloc);
    words.push(kind_word(assertion.kind))?;
    words.push(assertion.pairs.as_slice().len() as u64)?;
    words.push(assertion.hyps.as_slice().len() as u64)?;
    for pair in assertion.pairs.as_slice() {
        words.push(pair_word(*pair))?;
    }
    push_expressions(&mut words, assertion.hyps.as_slice())?;
    push_expression(&mut words, assertion.statement.as_slice())?;
    Ok(words)
}

/// The body of a proof: one word for each step.
///
/// # Errors
///
/// Want of memory.
pub fn encode_proof(alloc: Global, steps: &[StoredStep]) -> Result<Vec<u64>, AllocError>
    ensures { IfOk result (λ made. made.items ≡ proof_body steps.now) }
{
    let mut words = Vec::with_capacity(alloc, steps.len())?;
    for step in steps {
        words.push(step.word())?;
    }
    Ok(words)
}

fn push_expression(words: &mut Vec<u64>, symbols: &[SymbolWord]) -> Result<(), AllocError>
    ensures { OnOk result (words.new.items ≡ words.old.items ++ expression_words symbols.now) }
{
    words.push(symbols.len() as u64)?;
    for symbol in symbols {
        words.push(symbol_word(*symbol))?;
    }
    Ok(())
}

fn push_expressions(words: &mut Vec<u64>, expressions: &[Expr]) -> Result<(), AllocError>
    ensures { OnOk result (words.new.items ≡ words.old.items ++ expressions_words expressions.now) }
{
    for expression in expressions {
        push_expression(words, expression.as_slice())?;
    }
    Ok(())
}
