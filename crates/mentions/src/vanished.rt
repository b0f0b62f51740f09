//! The labels of a source that no assertion of it has with the edits of a run.

ghost use Rattle.std.specs.Prelude.{◌≡◌, ◌&&◌, ◌++◌, IfOk, OnOk, filter, map};
ghost use mathlib.Core.Bool.{not};
ghost use Rattle.source.specs.Scopes.{is_in};
ghost use Rattle.source.specs.Views.{seen_pairs, seen_words};
ghost use Rattle.sourceediting.specs.Views.{seen_following};
ghost use Rattle.mentions.specs.Vanished.{given_up, vanished};

use crate::mentioned::is_one_of;
use giving::LabelMap;
use source::Declared;
use sourceediting::{Following, marked};
use std::alloc::{AllocError, Global};
use std::hash::RandomState;

/// The old labels of changes.
fn old_labels<'x>(
    alloc: Global,
    changes: &[(&'x [u8], &'x [u8])],
) -> Result<Vec<&'x [u8]>, AllocError>
    ensures { IfOk result (λ made. seen_words made.items ≡ map (λ c. c.0) (seen_pairs changes.now)) }
{
    let mut labels = Vec::new(alloc);
    for change in changes {
        labels.push(change.0)?;
    }
    Ok(labels)
}

/// Puts labels behind others.
fn put_labels<'x>(labels: &mut Vec<&'x [u8]>, more: &[&'x [u8]]) -> Result<(), AllocError>
    ensures { OnOk result (seen_words labels.new.items ≡ seen_words labels.old.items ++ seen_words more.now) }
{
    for label in more {
        labels.push(*label)?;
    }
    Ok(())
}

/// The labels in the source of assertions that were given another one, or deleted.
fn given_up<'x>(alloc: Global, following: &Following<'x>) -> Result<Vec<&'x [u8]>, AllocError>
    ensures { IfOk result (λ made. seen_words made.items ≡ given_up (seen_following following.now)) }
{
    let changes = following.changes(alloc)?;
    let mut labels = old_labels(alloc, changes.as_slice())?;
    put_labels(&mut labels, following.gone.as_slice())?;
    Ok(labels)
}

/// Whether a label is one of the first of these, and none of the others.
fn is_vanished(given_up: &LabelMap<'_>, living: &LabelMap<'_>, label: &[u8]) -> bool
    ensures { result ≡ (is_in (map (λ c. c.0) given_up.now) label.now && not (is_in (map (λ c. c.0) living.now) label.now)) }
{
    is_one_of(given_up, label) && !is_one_of(living, label)
}

/// Of labels those that are among the first of these, and none of the others.
fn picked<'a>(
    alloc: Global,
    given_up: &LabelMap<'_>,
    living: &LabelMap<'_>,
    labels: &[&'a [u8]],
) -> Result<Vec<&'a [u8]>, AllocError>
    ensures { IfOk result (λ made. seen_words made.items ≡ filter
        (λ w. is_in (map (λ c. c.0) given_up.now) w && not (is_in (map (λ c. c.0) living.now) w)) (seen_words labels.now)) }
{
    let mut made = Vec::new(alloc);
    for label in labels {
        if is_vanished(given_up, living, label) {
            made.push(*label)?;
        }
    }
    Ok(made)
}

/// The labels in a source of assertions that were given another one, or deleted, and which no assertion has in the end, in the order of the
/// source. Where none was, the source isn't gone through.
///
/// # Errors
///
/// Want of memory.
pub fn vanished_of<'a, D: Declared<'a>>(
    alloc: Global,
    keys: RandomState,
    old: &D,
    following: &Following<'_>,
) -> Result<Vec<&'a [u8]>, AllocError>
    ensures { IfOk result (λ made. seen_words made.items ≡ vanished (D.scope old.now) (seen_following following.now)) }
{
    let given_up = given_up(alloc, following)?;
    if given_up.is_empty() {
        return Ok(Vec::new(alloc));
    }
    let then = following.labels_then(alloc)?;
    let marks = marked(alloc, keys, given_up.as_slice())?;
    let living = marked(alloc, keys, then.as_slice())?;
    picked(alloc, &marks, &living, old.labels())
}
