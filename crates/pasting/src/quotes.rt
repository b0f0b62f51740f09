//! What scripts give in their own words, part by part.

ghost use Rattle.std.specs.Prelude.{◌≡◌, ◌++◌, IfOk, OnOk, codes, map, option_map};
ghost use Rattle.mmtext.specs.Views.{seen};
ghost use Rattle.spreading.specs.Forms.{begins_with};
ghost use Rattle.expanding.specs.Views.{seen_cut};
ghost use Rattle.source.specs.Scopes.{label_of};
ghost use Rattle.source.specs.Views.{seen_hypothesis, seen_words};
ghost use Rattle.pasting.specs.Quotes.{AreQuotes, labels_of, proved_label, quote_of, quotes_of};
ghost use Rattle.pasting.specs.Views.{seen_quote};

use crate::addition::addition_of;
use crate::own_words::OwnWords;
use crate::proving::reproved;
use crate::words::{is_compressed, proof_of};
use expanding::{Cut, cut_of};
use mmtext::Token;
use source::HypothesisWords;
use spreading::part_length;
use std::alloc::{AllocError, Global};

/// What a script gives to a theorem in its own words.
#[derive(Drop)]
pub struct Quote<'a> {
    /// Which transaction of the script gives it, from 0.
    pub transaction: usize,
    /// The label of the theorem.
    pub label: &'a [u8],
    /// The words.
    pub words: OwnWords<'a>,
}

/// Whether a part begins a transaction.
fn is_beginning(part: &[Token<'_>]) -> bool
    ensures { result ≡ begins_with (codes "begin") (map seen part.now) }
{
    match part.first() {
        None => false,
        Some(first) => first.text == b"begin".as_slice(),
    }
}

/// The label of the theorem to which a command gives a proof.
fn proved_label<'w>(
    alloc: Global,
    part: &[Token<'w>],
    cut: &Cut<'_, 'w>,
) -> Result<Option<Token<'w>>, AllocError>
    ensures { IfOk result (λ label. option_map seen label ≡ proved_label (map seen part.now) (seen_cut cut.now)) }
{
    let label = reproved(cut.front);
    if label.is_some() {
        return Ok(label);
    }
    match addition_of(alloc, part)? {
        None => Ok(None),
        Some(addition) => Ok(Some(addition.label)),
    }
}

/// The compressed proof that a part of a transaction gives.
fn quote_of<'w>(
    alloc: Global,
    transaction: usize,
    part: &[Token<'w>],
) -> Result<Option<Quote<'w>>, AllocError>
    ensures { IfOk result (λ made. option_map seen_quote made ≡ quote_of transaction (map seen part.now)) }
{
    let Some(cut) = cut_of(part) else {
        return Ok(None);
    };
    if !is_compressed(cut.proof) {
        return Ok(None);
    }
    let Some(label) = proved_label(alloc, part, &cut)? else {
        return Ok(None);
    };
    match proof_of(alloc, cut.proof)? {
        None => Ok(None),
        Some(proof) => Ok(Some(Quote {
            transaction,
            label: label.text,
            words: OwnWords::Proof(proof),
        })),
    }
}

/// The label of a hypothesis.
fn label_of<'w>(hypothesis: &HypothesisWords<'w>) -> &'w [u8]
    ensures { result.now ≡ label_of (seen_hypothesis hypothesis.now) }
{
    match hypothesis {
        HypothesisWords::Typing(label, _, _) => label,
        HypothesisWords::Premise(label, _) => label,
    }
}

/// The labels of hypotheses.
fn labels_in<'w>(
    alloc: Global,
    hypotheses: &[HypothesisWords<'w>],
) -> Result<Vec<&'w [u8]>, AllocError>
    ensures { IfOk result (λ labels. seen_words labels.items ≡ map label_of (map seen_hypothesis hypotheses.now)) }
{
    let mut labels = Vec::with_capacity(alloc, hypotheses.len())?;
    for hypothesis in hypotheses {
        labels.push(label_of(hypothesis))?;
    }
    Ok(labels)
}

/// The labels that a part of a transaction gives to the `$e` of what it adds.
fn labels_of<'w>(
    alloc: Global,
    transaction: usize,
    part: &[Token<'w>],
) -> Result<Option<Quote<'w>>, AllocError>
    ensures { IfOk result (λ made. option_map seen_quote made ≡ labels_of transaction (map seen part.now)) }
{
    match addition_of(alloc, part)? {
        None => Ok(None),
        Some(addition) => {
            let labels = labels_in(alloc, addition.premises.as_slice())?;
            Ok(Some(Quote {
                transaction,
                label: addition.label.text,
                words: OwnWords::Premises(labels),
            }))
        }
    }
}

/// Puts what a part of a transaction gives.
fn put_quotes<'w>(
    alloc: Global,
    transaction: usize,
    part: &[Token<'w>],
    found: &mut Vec<Quote<'w>>,
) -> Result<(), AllocError>
    ensures { OnOk result (map seen_quote found.new.items ≡ map seen_quote found.old.items ++ quotes_of transaction (map seen part.now)) }
{
    if let Some(labels) = labels_of(alloc, transaction, part)? {
        found.push(labels)?;
    }
    if let Some(proof) = quote_of(alloc, transaction, part)? {
        found.push(proof)?;
    }
    Ok(())
}

/// What a script gives in its own words, in order: compressed proofs, and the labels of the `$e` of what it adds. The words are those of
/// the script behind `spread`.
///
/// # Errors
///
/// Want of memory.
pub fn quotes_in<'w>(alloc: Global, words: &[Token<'w>]) -> Result<Vec<Quote<'w>>, AllocError>
    ensures { IfOk result (λ found. AreQuotes (map seen words.now) (map seen_quote found.items)) }
{
    let mut found = Vec::new(alloc);
    let mut begun = 0;
    let mut at = 0;
    while at < words.len() {
        let rest = &words[at..];
        let part = &rest[..part_length(rest)];
        begun += usize::from(is_beginning(part));
        put_quotes(alloc, begun.saturating_sub(1), part, &mut found)?;
        at += part.len();
    }
    Ok(found)
}
