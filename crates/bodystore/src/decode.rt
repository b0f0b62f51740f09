//! From the words of bodies back to labels, statements and proofs.
//!
//! Words of a body give what it is of. Other words give some value, in memory in proportion to their number.

ghost use Rattle.std.specs.Prelude.{◌≡◌, ℕ, ◌^◌, ◌<◌, List, ◌++◌, map, All, IfOk};
ghost use Rattle.bodystore.specs.Bodies.{label_body, pair_word, expression_words, statement_body, proof_body};
ghost use Rattle.bodystore.specs.Bodies.{IsSmallPair, IsSmallSymbol, IsSmallStatement, IsSmallStep};

use crate::cursor::Cursor;
use crate::statement::Statement;
use crate::stored::StoredStep;
use crate::words::{kind_of, pair_of, symbol_of};
use mmsyntax::{Expr, Label, Sequence};
use std::alloc::{AllocError, Global};

/// The label whose body has these words.
///
/// # Errors
///
/// Want of memory.
pub fn decode_label(alloc: Global, words: &[u64]) -> Result<Label, AllocError>
    ensures { (label : List ℕ) → All (λ byte. byte < 2 ^ 8) label → label_body label ≡ words.now → IfOk result (λ made. made ≡ label) }
{
    let mut label = Label::new(alloc);
    for word in words {
        label.push((*word & 0xff) as u8)?;
    }
    Ok(label)
}

/// The statement whose body has these words.
///
/// # Errors
///
/// Want of memory.
pub fn decode_statement(alloc: Global, words: &[u64]) -> Result<Statement, AllocError>
    ensures { (s : _) → IsSmallStatement s → statement_body s ≡ words.now → IfOk result (λ made. made ≡ s) }
{
    let mut cursor = Cursor::new(words);
    let kind = kind_of(cursor.next());
    let pair_count = cursor.count();
    let hyp_count = cursor.count();
    let pairs = pairs_of(alloc, cursor.take(pair_count))?;
    let mut hyps = Vec::with_capacity(alloc, hyp_count)?;
    for _ in 0..hyp_count {
        hyps.push_reserved(read_expression(alloc, &mut cursor)?);
    }
    let statement = read_expression(alloc, &mut cursor)?;
    Ok(Statement {
        kind,
        pairs: Sequence::from_vec(pairs),
        hyps: Sequence::from_vec(hyps),
        statement,
    })
}

/// The steps of the proof whose body has these words.
///
/// # Errors
///
/// Want of memory.
pub fn decode_proof(alloc: Global, words: &[u64]) -> Result<Vec<StoredStep>, AllocError>
    ensures { (steps : _) → All IsSmallStep steps → proof_body steps ≡ words.now → IfOk result (λ made. made.items ≡ steps) }
{
    let mut steps = Vec::with_capacity(alloc, words.len())?;
    for word in words {
        steps.push_reserved(StoredStep::of_word(*word));
    }
    Ok(steps)
}

/// The pairs of words, one of each.
fn pairs_of(alloc: Global, words: &[u64]) -> Result<Vec<(u32, u32)>, AllocError>
    ensures { (pairs : List _) → All IsSmallPair pairs → map pair_word pairs ≡ words.now → IfOk result (λ made. made.items ≡ pairs) }
{
    let mut pairs = Vec::with_capacity(alloc, words.len())?;
    for word in words {
        pairs.push_reserved(pair_of(*word));
    }
    Ok(pairs)
}

/// The next expression: its length, and as many symbols.
fn read_expression(alloc: Global, cursor: &mut Cursor<'_>) -> Result<Expr, AllocError>
    ensures { (e : List _) (more : List ℕ) → All IsSmallSymbol e → cursor.old ≡ expression_words e ++ more
        → IfOk result (λ made. (made ≡ e) × (cursor.new ≡ more)) }
{
    let count = cursor.count();
    let words = cursor.take(count);
    let mut symbols = Vec::with_capacity(alloc, words.len())?;
    for word in words {
        symbols.push_reserved(symbol_of(*word));
    }
    Ok(Sequence::from_vec(symbols))
}
