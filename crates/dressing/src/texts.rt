//! The texts of proofs that are quoted.

ghost use Rattle.std.specs.Prelude.{◌≡◌, IfOk, IfSome, IsTrue, List, MatchOption, is_some, map};
ghost use Rattle.std.specs.List.{list_any};
ghost use mathlib.Core.Bool.{not};
ghost use Rattle.items.specs.Items.{Item};
ghost use Rattle.items.specs.Indentations.{indentations};
ghost use Rattle.source.specs.Sources.{DeclaresText};
ghost use Rattle.source.specs.Views.{seen_proof};
ghost use Rattle.source.specs.Whole.{IsWhole};
ghost use Rattle.giving.specs.Changes.{seen_texts};
ghost use Rattle.sourcewriting.specs.Indentations.{IsIndentation};
ghost use Rattle.dressing.specs.Quoted.{AreQuoted, CanBeWritten, HasQuoted, IsQuotable, IsQuotedAs, IsTextOf};
ghost use Rattle.pasting.specs.Views.{seen_given_proof};

use crate::listing::{OwnNames, labels_in};
use crate::quotable::{letters_in, says_the_same};
use giving::LabelMap;
use items::indentations;
use pasting::GivenProof;
use prooftrees::flags_of;
use source::laws::sources_are_whole;
use source::{Declared, ProofWords};
use sourcewriting::{given_text, indentation_like};
use std::alloc::{AllocError, Global};
use std::hash::RandomState;

/// Whether not all of these hypotheses are `$f`.
fn have_premise(are_floats: &[bool]) -> bool
    ensures { result ≡ list_any not are_floats.now }
{
    are_floats.iter().any(|is_float| !*is_float)
}

/// The text of a compressed proof, in lines that begin with this indentation. None where it is normal, or its words can't be written.
fn text_of(
    alloc: Global,
    indentation: &[u8],
    proof: &ProofWords<'_>,
) -> Result<Option<Vec<u8>>, AllocError>
    requires { IsIndentation indentation.now }
    ensures text { IfOk result (λ made. IfSome made (λ text. IsTextOf indentation.now (seen_proof proof.now) text.items)) }
    ensures can { CanBeWritten (seen_proof proof.now) → IfOk result (λ made. IsTrue (is_some made)) }
{
    if let ProofWords::Normal(_) = proof {
        return Ok(None);
    }
    let letters = letters_in(alloc, proof)?;
    given_text(alloc, indentation, labels_in(proof), letters.as_slice())
}

/// The text of a proof that is quoted, where these are the indentations in the source. None where it isn't.
fn quoted<'a, D: Declared<'a>>(
    alloc: Global,
    keys: RandomState,
    declared: &D,
    names: &OwnNames<'_>,
    indented: &LabelMap<'_>,
    given: GivenProof<'a>,
) -> Result<Option<Vec<u8>>, AllocError>
    requires names { names.now.labels ≡ (D.scope declared.now).labels }
    requires whole { IsWhole (D.scope declared.now) }
    ensures { let q = seen_given_proof given.entry in (items : List Item) → indented.now ≡ indentations items
        → IfOk result (λ made. MatchOption made (IsQuotable (D.scope declared.now) q → CanBeWritten q.proof → ⊥)
        (λ text. IsQuotedAs (D.scope declared.now) items q text.items)) }
{
    let (label, proof) = (given.label, given.proof);
    let Some(place) = declared.place_of(label) else {
        return Ok(None);
    };
    if !says_the_same(alloc, keys, declared, names, place, proof)? {
        return Ok(None);
    }
    let are_floats = flags_of(alloc, declared.mandatory(alloc, place)?)?;
    let in_block = have_premise(are_floats.as_slice());
    let indentation = indentation_like(indented.text_for(label), in_block);
    text_of(alloc, indentation, proof)
}

/// The texts of proofs that are quoted, by the labels of their theorems, where these are the indentations in the source.
fn texts_of<'a, D: Declared<'a>>(
    alloc: Global,
    keys: RandomState,
    declared: &D,
    names: &OwnNames<'_>,
    indented: &LabelMap<'_>,
    given: &[GivenProof<'a>],
) -> Result<Vec<(&'a [u8], Vec<u8>)>, AllocError>
    requires names { names.now.labels ≡ (D.scope declared.now).labels }
    requires whole { IsWhole (D.scope declared.now) }
    ensures { (items : List Item) → indented.now ≡ indentations items → IfOk result (λ made.
        AreQuoted (D.scope declared.now) items (map seen_given_proof given.now) (seen_texts made.items)) }
{
    let mut texts = Vec::new(alloc);
    for one in given {
        if let Some(text) = quoted(alloc, keys, declared, names, indented, *one)? {
            texts.push((one.label, text))?;
        }
    }
    Ok(texts)
}

/// The texts of proofs that are quoted in a source, by the labels of their theorems. Where none is given, the source isn't gone through.
///
/// # Errors
///
/// Want of memory.
pub(crate) fn quoted_texts<'a, D: Declared<'a>>(
    alloc: Global,
    keys: RandomState,
    declared: &D,
    source: &[u8],
    given: &[GivenProof<'a>],
) -> Result<Vec<(&'a [u8], Vec<u8>)>, AllocError>
    requires { DeclaresText source.now (D.scope declared.now) }
    ensures { IfOk result (λ made.
        HasQuoted (D.scope declared.now) source.now (map seen_given_proof given.now) (seen_texts made.items)) }
{
    if given.is_empty() {
        return Ok(Vec::new(alloc));
    }
    let Some(indented) = indentations(alloc, keys, source)? else {
        unreachable!()
    };
    // For the proof: what is read is whole.
    sources_are_whole();
    let names = OwnNames::of(alloc, keys, declared)?;
    texts_of(alloc, keys, declared, &names, &indented, given)
}
