//! What scripts give in their own words, by the labels of theorems: proofs, and labels of `$e`.

ghost use Rattle.std.specs.Prelude.{◌≡◌, IfOk, map};
ghost use Rattle.pasting.specs.Quotes.{labels_among, proofs_among};
ghost use Rattle.pasting.specs.Views.{seen_given_labels, seen_given_proof, seen_quotation};

use source::ProofWords;
use std::alloc::{AllocError, Global};

/// What a command gives in its own words.
#[derive(Drop)]
pub enum OwnWords<'a> {
    /// The words of a compressed proof.
    Proof(ProofWords<'a>),
    /// The labels of the `$e` of what it adds, in their order.
    Premises(Vec<&'a [u8]>),
}

/// Words for the theorem with a label.
#[derive(Clone, Copy)]
pub struct Quotation<'q> {
    /// The label.
    pub label: &'q [u8],
    /// The words.
    pub words: &'q OwnWords<'q>,
}

/// The words of a proof for the theorem with a label.
#[derive(Clone, Copy)]
pub struct GivenProof<'q> {
    /// The label.
    pub label: &'q [u8],
    /// The words.
    pub proof: &'q ProofWords<'q>,
}

/// Labels for the `$e` of the theorem with a label.
#[derive(Clone, Copy)]
pub struct GivenLabels<'q> {
    /// The label.
    pub label: &'q [u8],
    /// The labels, in the order of the `$e`.
    pub premises: &'q [&'q [u8]],
}

/// The proofs among what is given, in order.
///
/// # Errors
///
/// Want of memory.
pub fn proofs_among<'q>(
    alloc: Global,
    quotations: &[Quotation<'q>],
) -> Result<Vec<GivenProof<'q>>, AllocError>
    ensures { IfOk result (λ made. map seen_given_proof made.items ≡ proofs_among (map seen_quotation quotations.now)) }
{
    let mut made = Vec::new(alloc);
    for quotation in quotations {
        if let OwnWords::Proof(proof) = quotation.words {
            let label = quotation.label;
            made.push(GivenProof { label, proof })?;
        }
    }
    Ok(made)
}

/// The labels of `$e` among what is given, in order.
///
/// # Errors
///
/// Want of memory.
pub fn labels_among<'q>(
    alloc: Global,
    quotations: &[Quotation<'q>],
) -> Result<Vec<GivenLabels<'q>>, AllocError>
    ensures { IfOk result (λ made. map seen_given_labels made.items ≡ labels_among (map seen_quotation quotations.now)) }
{
    let mut made = Vec::new(alloc);
    for quotation in quotations {
        if let OwnWords::Premises(labels) = quotation.words {
            let (label, premises) = (quotation.label, labels.as_slice());
            made.push(GivenLabels { label, premises })?;
        }
    }
    Ok(made)
}
