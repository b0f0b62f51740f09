//! Which labels are given to the `$e` of what was added, under its labels in the source.

ghost use Rattle.std.specs.Prelude.{◌≡◌, IfOk, map};
ghost use Rattle.std.specs.Option.{option_map};
ghost use Rattle.source.specs.Views.{seen_words};
ghost use Rattle.pasting.specs.Views.{seen_given_labels};
ghost use Rattle.sourceediting.specs.Views.{seen_followed, seen_following};
ghost use Rattle.dressing.specs.OwnWords.{labels_then, premises_for, premises_then};

use pasting::GivenLabels;
use sites::Indexed;
use sourceediting::{Followed, Following};
use std::alloc::{AllocError, Global};
use std::hash::RandomState;

/// The labels under which labels of `$e` are given.
fn labels_of<'x>(alloc: Global, given: &[GivenLabels<'x>]) -> Result<Vec<&'x [u8]>, AllocError>
    ensures { IfOk result (λ labels. seen_words labels.items ≡ map (λ g. g.label.now) given.now) }
{
    let mut labels = Vec::with_capacity(alloc, given.len())?;
    for one in given {
        labels.push(one.label)?;
    }
    Ok(labels)
}

/// The first that are given under a label: one look-up.
fn premises_for<'x>(
    given: &[GivenLabels<'x>],
    labels: &Indexed<'_>,
    label: &[u8],
) -> Option<GivenLabels<'x>>
    requires { labels.now ≡ map (λ g. g.label.now) given.now }
    ensures { option_map seen_given_labels result ≡ premises_for (map seen_given_labels given.now) label.now }
{
    match labels.place(label) {
        None => None,
        Some(place) => Some(given[place]),
    }
}

/// The labels that are given to the `$e` of an assertion, if it was added.
fn premises_then<'x>(
    given: &[GivenLabels<'x>],
    labels: &Indexed<'_>,
    followed: &Followed<'x>,
) -> Option<GivenLabels<'x>>
    requires { labels.now ≡ map (λ g. g.label.now) given.now }
    ensures { option_map seen_given_labels result
        ≡ premises_then (map seen_given_labels given.now) (seen_followed followed.entry.now) }
{
    if followed.source.is_some() {
        return None;
    }
    let found = premises_for(given, labels, followed.first)?;
    Some(GivenLabels {
        label: followed.label_then(),
        premises: found.premises,
    })
}

/// The labels that are given to the `$e` of what was added, under the labels that this has in the end.
///
/// # Errors
///
/// Want of memory.
pub(crate) fn labels_then<'x>(
    alloc: Global,
    keys: RandomState,
    given: &[GivenLabels<'x>],
    following: &Following<'x>,
) -> Result<Vec<GivenLabels<'x>>, AllocError>
    ensures { IfOk result (λ made. map seen_given_labels made.items
        ≡ labels_then (map seen_given_labels given.now) (seen_following following.now)) }
{
    let labels = Indexed::new(alloc, keys, labels_of(alloc, given)?)?;
    let mut made = Vec::new(alloc);
    for followed in following.living.as_slice() {
        if let Some(premises) = premises_then(given, &labels, followed) {
            made.push(premises)?;
        }
    }
    Ok(made)
}
