//! The call: a source dressed in what scripts give.

ghost use Rattle.std.specs.Prelude.{◌≡◌, [], IfOk, IsTrue, map};
ghost use Rattle.std.specs.Option.{option_map, unwrap_or};
ghost use Rattle.source.specs.Sources.{DeclaresText};
ghost use Rattle.source.specs.Views.{seen_pairs};
ghost use Rattle.giving.specs.Changes.{seen_texts};
ghost use Rattle.items.specs.Divided.{IsDivided};
ghost use Rattle.pasting.specs.Quotes.{labels_among, proofs_among};
ghost use Rattle.pasting.specs.Views.{seen_quotation};
ghost use Rattle.sourceediting.specs.Views.{seen_following};
ghost use Rattle.dressing.specs.Descriptions.{descriptions_then};
ghost use Rattle.dressing.specs.Dressed.{HasDressedItems, IsDressed};
ghost use Rattle.dressing.specs.Labels.{changes_from};
ghost use Rattle.dressing.specs.OwnWords.{labels_then, proofs_then};
ghost use Rattle.dressing.specs.Quoted.{HasQuoted};

use crate::keeping::changes_of;
use crate::labelled::labels_then;
use crate::placing::descriptions_then;
use crate::putting::{Dressing, put_item};
use crate::quoted::proofs_then;
use crate::texts::quoted_texts;
use giving::LabelMap;
use items::read_item;
use pasting::{Quotation, labels_among, proofs_among};
use source::Declared;
use sourceediting::Following;
use std::alloc::{AllocError, Global};
use std::hash::RandomState;

/// What scripts give in their own words.
#[derive(Clone, Copy)]
pub struct Given<'x> {
    /// Compressed proofs and labels of `$e`, each with the label under which they are given: of several for a label the first count.
    pub quotations: &'x [Quotation<'x>],
    /// The labels under which assertions are added, each with the comment that describes it.
    pub descriptions: &'x [(&'x [u8], &'x [u8])],
}

/// The texts of the given proofs that are quoted, under the labels that their theorems have in the end.
fn proofs_of<'q: 'a, 'a, D: Declared<'a>>(
    alloc: Global,
    keys: RandomState,
    declared: &D,
    source: &[u8],
    quotations: &[Quotation<'q>],
    following: &Following<'q>,
) -> Result<Vec<(&'a [u8], Vec<u8>)>, AllocError>
    requires { DeclaresText source.now (D.scope declared.now) }
    ensures { IfOk result (λ made. HasQuoted (D.scope declared.now) source.now
        (proofs_then (proofs_among (map seen_quotation quotations.now)) (seen_following following.now)) (seen_texts made.items)) }
{
    let proofs = proofs_among(alloc, quotations)?;
    let then = proofs_then(alloc, keys, proofs.as_slice(), following)?;
    quoted_texts(alloc, keys, declared, source, then.as_slice())
}

/// From the labels that are written for the `$e` of what was added to those that they have in the end, where they differ.
fn labels_of<'q: 'a, 'a, D: Declared<'a>>(
    alloc: Global,
    keys: RandomState,
    declared: &D,
    quotations: &[Quotation<'q>],
    following: &Following<'q>,
) -> Result<Vec<(&'a [u8], &'a [u8])>, AllocError>
    ensures { IfOk result (λ made. seen_pairs made.items ≡ changes_from (D.scope declared.now) []
        (labels_then (labels_among (map seen_quotation quotations.now)) (seen_following following.now))) }
{
    let labels = labels_among(alloc, quotations)?;
    let then = labels_then(alloc, keys, labels.as_slice(), following)?;
    changes_of(alloc, keys, declared, then.as_slice())
}

/// The descriptions of what was added, under the labels that this has in the end.
fn descriptions_of<'x>(
    alloc: Global,
    keys: RandomState,
    descriptions: &[(&'x [u8], &'x [u8])],
    following: &Following<'x>,
) -> Result<Vec<(&'x [u8], &'x [u8])>, AllocError>
    ensures { IfOk result (λ made. seen_pairs made.items
        ≡ descriptions_then (seen_pairs descriptions.now) (seen_following following.now)) }
{
    let given = LabelMap::new(alloc, keys, Vec::from_slice(alloc, descriptions)?)?;
    descriptions_then(alloc, &given, following)
}

/// A source in which each item reads as it is dressed.
fn dress_items(alloc: Global, dressing: &Dressing<'_>, source: &[u8]) -> Result<Vec<u8>, AllocError>
    requires keeps { IsTrue dressing.now.keeps_labels → dressing.now.labels ≡ [] }
    requires divided { IsDivided source.now }
    ensures { let d = dressing.now in
        IfOk result (λ out. HasDressedItems d.proofs d.labels d.descriptions source.now out.items) }
{
    let mut out = Vec::with_capacity(alloc, source.len())?;
    let mut at = 0;
    while let Some(item) = read_item(source, at) {
        put_item(&mut out, dressing, source, at, item)?;
        at = item.end;
    }
    out.extend_from_slice(&source[at..])?;
    Ok(out)
}

/// A source dressed in what scripts give. None where it stays as it is.
///
/// Compressed proofs stand letter by letter as they were given, where each lists the same steps as the proof that was written. The `$e` of
/// what was added have the labels that are given to them, as far as these are free: of a label that several ask for the first has it, and a
/// `$e` that can't have its label is called by one that was written for another. The comment that describes an assertion, `$(` to `$)`,
/// stands where its label stood, and the label in a line of its own behind it, as far indented as before. Every other byte stays.
///
/// Its items are gone through once for their indentations, and once if something changes. A proof costs as much as its words and letters
/// and both listings, the frames of the assertions that it cites, and the hypotheses that are active there.
///
/// # Errors
///
/// Want of memory.
pub fn dress<'q: 'a, 'a, D: Declared<'a>>(
    alloc: Global,
    keys: RandomState,
    declared: &D,
    source: &[u8],
    given: Given<'q>,
    following: &Following<'q>,
) -> Result<Option<Vec<u8>>, AllocError>
    requires { DeclaresText source.now (D.scope declared.now) }
    ensures { IfOk result (λ made. IsDressed (map seen_quotation given.entry.quotations.now) (seen_pairs given.entry.descriptions.now)
        (seen_following following.now) source.now (unwrap_or (option_map (λ out. out.items) made) source.now)) }
{
    let texts = proofs_of(alloc, keys, declared, source, given.quotations, following)?;
    let changes = labels_of(alloc, keys, declared, given.quotations, following)?;
    let comments = descriptions_of(alloc, keys, given.descriptions, following)?;
    if texts.is_empty() && changes.is_empty() && comments.is_empty() {
        return Ok(None);
    }
    let keeps_labels = changes.is_empty();
    let proofs = LabelMap::of_texts(alloc, keys, texts.as_slice())?;
    let labels = LabelMap::new(alloc, keys, changes)?;
    let descriptions = LabelMap::new(alloc, keys, comments)?;
    let dressing = Dressing {
        proofs,
        labels,
        keeps_labels,
        descriptions,
    };
    let dressed = dress_items(alloc, &dressing, source)?;
    Ok(Some(dressed))
}
