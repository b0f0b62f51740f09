//! Bodies made by hand: the words come from the layout, worked out by hand.

use crate::same::are_same;
use crate::samples::database;
use bodystore::{
    Statement, StoredStep, decode_label, decode_proof, decode_statement, encode_label,
    encode_proof, encode_statement,
};
use mmstatement::Database;
use mmsyntax::Assertion;
use std::alloc::{AllocError, AllocGlobal, Global};
use std::random::RandomSource;
use std::test::Fail;

/// The words of the label `we`.
const LABEL_WORDS: &[u64] = &[119, 101];

const STEPS: &[StoredStep] = &[
    StoredStep::Float(2),
    StoredStep::Hyp(1),
    StoredStep::Slot(3),
    StoredStep::Slot(0),
];

const STEP_WORDS: &[u64] = &[6, 4, 11, 2];

/// Whether the words that were made are the wanted ones.
fn are_these(made: Result<Vec<u64>, AllocError>, wanted: &[u64]) -> Result<bool, AllocError> {
    Ok(made?.as_slice() == wanted)
}

/// Whether words are read as the label.
fn is_label(alloc: Global) -> Result<bool, AllocError> {
    Ok(decode_label(alloc, LABEL_WORDS)?.as_slice() == b"we".as_slice())
}

/// Whether words are read as the proof.
fn is_proof(alloc: Global) -> Result<bool, AllocError> {
    Ok(decode_proof(alloc, STEP_WORDS)?.as_slice() == STEPS)
}

/// A label has a word for each byte, and a proof one for each step.
pub(crate) fn are_words(alloc: Global) -> Result<bool, AllocError> {
    Ok(
        are_these(encode_label(alloc, b"we"), LABEL_WORDS)?
            && are_these(encode_proof(alloc, STEPS), STEP_WORDS)?
            && is_label(alloc)?
            && is_proof(alloc)?,
    )
}

/// An axiom, and a theorem with two pairs and two hypotheses.
const TEXT: &[u8] =
    b"$c wff |- $. $v x y z $. wx $f wff x $. wy $f wff y $. wz $f wff z $. we $a wff $.
${ $d x y $. $d y z $. th.1 $e |- x $. th.2 $e |- z $. th $p |- x y $= wx $. $}";

/// The statement of the axiom.
const AXIOM_WORDS: &[u64] = &[0, 0, 0, 1, 0];

/// The theorem's kind, how many pairs and hypotheses it has, each pair, and each expression behind its length.
const THEOREM_WORDS: &[u64] = &[1, 2, 2, 1, 4_294_967_298, 2, 2, 1, 2, 2, 5, 3, 2, 1, 3];

/// Whether a statement is that of an assertion.
fn is_of(made: &Statement, assertion: &Assertion) -> bool {
    made.kind == assertion.kind
        && made.pairs.as_slice() == assertion.pairs.as_slice()
        && made.statement.as_slice() == assertion.statement.as_slice()
        && are_same(made.hyps.as_slice(), assertion.hyps.as_slice())
}

/// Whether words are read as the statement of an assertion.
fn is_read(alloc: Global, assertion: &Assertion, words: &[u64]) -> Result<bool, AllocError> {
    Ok(is_of(&decode_statement(alloc, words)?, assertion))
}

/// Whether the statement of an assertion has these words, and they are those of the statement.
fn is_in_words(alloc: Global, assertion: &Assertion, words: &[u64]) -> Result<bool, AllocError> {
    Ok(is_read(alloc, assertion, words)? && are_these(encode_statement(alloc, assertion), words)?)
}

/// Whether those of a database of an axiom and a theorem have.
fn are_in_words(alloc: Global, db: &Database) -> Result<bool, AllocError> {
    let [axiom, theorem] = db.assertions() else {
        return Ok(false);
    };
    Ok(is_in_words(alloc, axiom, AXIOM_WORDS)? && is_in_words(alloc, theorem, THEOREM_WORDS)?)
}

/// The statements of an axiom and a theorem are written and read as words.
pub(crate) fn are_statements_words(rt: &(impl AllocGlobal + RandomSource)) -> Result<bool, Fail> {
    let db = database(rt, TEXT)?;
    are_in_words(rt.alloc(), &db).map_err(Fail::from)
}
