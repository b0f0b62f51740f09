//! Symbols of expressions and words of proofs, which grow where they lie.

ghost use Rattle.std.specs.Prelude.{◌≡◌, OnOk};
ghost use Rattle.mmtext.specs.Takings.{TakesWord};
ghost use Rattle.mmtext.specs.Views.{seen};
ghost use Rattle.mmsyntax.specs.Rows.{first_fault};
ghost use Rattle.source.specs.Counts.{mandatory_marks};
ghost use Rattle.source.specs.Faults.{source_language};
ghost use Rattle.source.specs.Tests.{symbol_tests};
ghost use Rattle.source.specs.Views.{seen_words};
ghost use Rattle.sourcereader.specs.Standing.{IsCounted, IsReadySource};
ghost use Rattle.sourcereader.specs.Takings.{TakesItem};
ghost use Rattle.sourcereader.specs.Views.{seen_at};
ghost use Rattle.sourcereader.specs.declared.place.Place.TheVariants.{InProof};

use crate::place::{OpenProof, Place, ProofPlace};
use crate::proof_rows::{put_label, put_letters, put_step};
use mmtext::{Stop, Token, contains_dollar, fault_at};
use source::Standing;

/// A symbol of an expression.
fn take_symbol<'a, S: Standing<'a>>(
    standing: &mut S,
    words: &mut Vec<&'a [u8]>,
    token: Token<'a>,
) -> Result<bool, Stop>
    ensures same { S.stand standing.new ≡ S.stand standing.old }
    ensures taken { let old = seen_words words.old.items in
        TakesItem (seen token.entry) (first_fault (symbol_tests (S.stand standing.old).scope old token.entry.text.now)) old
        (seen_words words.new.items) result }
    ensures marks { S.marks standing.old ≡ mandatory_marks (S.stand standing.old).scope (seen_words words.old.items)
        → OnOk result (S.marks standing.new ≡ mandatory_marks (S.stand standing.old).scope (seen_words words.new.items)) }
{
    if contains_dollar(token.text) {
        return Ok(false);
    }
    if let Some(kind) = standing.symbol_fault(words, token.text) {
        return Err(fault_at(token, kind));
    }
    words.push(token.text)?;
    Ok(true)
}

/// A word in a proof where it stands, if it goes on there: whether it was taken.
fn take_in_proof<'a, S: Standing<'a>>(
    standing: &S,
    begun: &mut OpenProof<'a>,
    token: Token<'a>,
) -> Result<bool, Stop>
    requires { IsCounted (S.stand standing.now).scope (S.marks standing.now) (InProof begun.old) }
    ensures counted { OnOk result (IsCounted (S.stand standing.now).scope (S.marks standing.now) (InProof begun.new)) }
    ensures taken { let s = S.stand standing.now in
        TakesWord source_language (seen_at s (InProof begun.old)) (seen token.entry) (seen_at s (InProof begun.new)) result }
{
    if contains_dollar(token.text) {
        return Ok(false);
    }
    match &mut begun.place {
        ProofPlace::InSteps(normal) => {
            if normal.steps.is_empty() && token.text == b"(".as_slice() {
                return Ok(false);
            }
            put_step(standing, normal, token)?;
        }
        ProofPlace::InLabels(numbered) => {
            if token.text == b")".as_slice() {
                return Ok(false);
            }
            put_label(standing, &begun.theorem, numbered, token)?;
        }
        ProofPlace::InLetters(compressed) => put_letters(compressed, token)?,
    }
    Ok(true)
}

/// A word where it stands, if that is an expression or a proof: whether it was taken.
fn take_in_place<'a, S: Standing<'a>>(
    standing: &mut S,
    place: &mut Place<'a>,
    token: Token<'a>,
) -> Result<bool, Stop>
    requires { IsReadySource (S.stand standing.old) (S.marks standing.old) place.old }
    ensures same { S.stand standing.new ≡ S.stand standing.old }
    ensures counted { OnOk result (IsCounted (S.stand standing.old).scope (S.marks standing.new) place.new) }
    ensures taken { TakesWord source_language (seen_at (S.stand standing.old) place.old) (seen token.entry)
        (seen_at (S.stand standing.old) place.new) result }
{
    match place {
        Place::InHypothesis(_, words) => take_symbol(standing, words, token),
        Place::InAxiom(_, words) => take_symbol(standing, words, token),
        Place::InTheorem(_, words) => take_symbol(standing, words, token),
        Place::InProof(begun) => take_in_proof(standing, begun, token),
        _ => Ok(false),
    }
}

/// Takes a word without `$` where it stands, if that is an expression or a proof: whether it did.
pub(crate) fn take_word<'a, S: Standing<'a>>(
    standing: &mut S,
    place: &mut Place<'a>,
    token: Token<'a>,
) -> Result<bool, Stop>
    requires { IsReadySource (S.stand standing.old) (S.marks standing.old) place.old }
    ensures ready { OnOk result (IsReadySource (S.stand standing.new) (S.marks standing.new) place.new) }
    ensures taken { TakesWord source_language (seen_at (S.stand standing.old) place.old) (seen token.entry)
        (seen_at (S.stand standing.new) place.new) result }
{
    take_in_place(standing, place, token)
}
