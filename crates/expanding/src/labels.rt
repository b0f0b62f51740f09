//! Labels, each to be found by one look-up.

ghost use Rattle.std.specs.Prelude.{◌≡◌, IfOk, map};
ghost use Rattle.mmtext.specs.Words.{Word};
ghost use Rattle.source.specs.Scopes.{is_in};
ghost use Rattle.source.specs.Views.{seen_words, seen_pairs};
ghost use Rattle.expanding.specs.Bars.{holds};

use giving::LabelMap;
use std::alloc::{AllocError, Global};
use std::hash::RandomState;

/// Each label with itself.
fn pairs_of<'a>(alloc: Global, labels: &[&'a [u8]]) -> Result<Vec<(&'a [u8], &'a [u8])>, AllocError>
    ensures { IfOk result (λ pairs. seen_pairs pairs.items ≡ map (λ w. (w, w)) (seen_words labels.now)) }
{
    let mut pairs = Vec::new(alloc);
    for label in labels {
        pairs.push((*label, *label))?;
    }
    Ok(pairs)
}

/// Labels, to be looked up.
pub(crate) fn label_set<'a>(
    alloc: Global,
    keys: RandomState,
    labels: &[&'a [u8]],
) -> Result<LabelMap<'a>, AllocError>
    ensures { IfOk result (λ made. (w : Word) → holds made w ≡ is_in (seen_words labels.now) w) }
{
    LabelMap::new(alloc, keys, pairs_of(alloc, labels)?)
}

/// Whether a word is one of some labels: one look-up.
pub(crate) fn holds(labels: &LabelMap<'_>, word: &[u8]) -> bool
    ensures { result ≡ holds labels.now word.now }
{
    labels.text_for(word).is_some()
}
