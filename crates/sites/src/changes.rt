//! Which names change: those that the profile doesn't allow.

ghost use Rattle.std.specs.Prelude.{◌≡◌, ◌||◌, map, IfOk, List};
ghost use Rattle.std.specs.List.{list_any};
ghost use Rattle.mmtext.specs.Words.{Word, has_dot, has_hypothesis_form};
ghost use Rattle.mmsyntax.specs.Dotted.{is_dotted};
ghost use Rattle.source.specs.Scopes.{is_in};
ghost use Rattle.source.specs.Views.{has, seen_words};
ghost use Rattle.sites.specs.Changes.{variables_changing};

use mmsyntax::{is_dotted, trunk};
use mmtext::{contains_dot, names_hypothesis};
use std::alloc::{AllocError, Global};
use std::collections::HashSet;
use std::hash::RandomState;

/// Which constants change: those of the form of a hypothesis' label.
pub(crate) fn constants_changing(alloc: Global, words: &[&[u8]]) -> Result<Vec<bool>, AllocError>
    ensures { IfOk result (λ made. made.items ≡ map has_hypothesis_form (seen_words words.now)) }
{
    let mut changes = Vec::new(alloc);
    for word in words {
        changes.push(names_hypothesis(word))?;
    }
    Ok(changes)
}

/// Which labels of `$f` change: those with a dot.
pub(crate) fn floats_changing(alloc: Global, labels: &[&[u8]]) -> Result<Vec<bool>, AllocError>
    ensures { IfOk result (λ made. made.items ≡ map has_dot (seen_words labels.now)) }
{
    let mut changes = Vec::new(alloc);
    for label in labels {
        changes.push(contains_dot(label))?;
    }
    Ok(changes)
}

/// Whether a variable changes before later ones.
fn is_variable_changing(later: &HashSet<&[u8], RandomState>, word: &[u8]) -> bool
    ensures { result ≡ (has_hypothesis_form word.now || has later.now word.now) }
{
    names_hypothesis(word) || later.contains(&word)
}

/// Which variables of `$f` change: those of the form of a hypothesis' label, and those that are that of a later `$f` too.
pub(crate) fn variables_changing(
    alloc: Global,
    keys: RandomState,
    words: &[&[u8]],
) -> Result<Vec<bool>, AllocError>
    ensures { IfOk result (λ made. made.items ≡ variables_changing (seen_words words.now)) }
{
    let mut later = HashSet::with_hasher(alloc, keys);
    let mut changes = Vec::new(alloc);
    for place in (0..words.len()).rev() {
        changes.push(is_variable_changing(&later, words[place]))?;
        later.insert(words[place])?;
    }
    changes.reverse();
    Ok(changes)
}

/// The words of a list, as a set.
fn set_of<'a>(
    alloc: Global,
    keys: RandomState,
    words: &[&'a [u8]],
) -> Result<HashSet<&'a [u8], RandomState>, AllocError>
    ensures { IfOk result (λ made. (w : Word) → has made w ≡ is_in (seen_words words.now) w) }
{
    let mut set = HashSet::with_hasher(alloc, keys);
    for word in words {
        set.insert(*word)?;
    }
    Ok(set)
}

/// Whether a label is L.k for one of some labels L: one look-up.
fn is_dotted_among(labels: &HashSet<&[u8], RandomState>, label: &[u8]) -> bool
    ensures { (ls : List Word) → ((w : Word) → has labels.now w ≡ is_in ls w) → result ≡ list_any (λ l. is_dotted l label.now) ls }
{
    let front = trunk(label);
    is_dotted(front, label) && labels.contains(&front)
}

/// Which labels of assertions change: those that are L.k of another of them.
pub(crate) fn labels_changing(
    alloc: Global,
    keys: RandomState,
    labels: &[&[u8]],
) -> Result<Vec<bool>, AllocError>
    ensures { let ls = seen_words labels.now in
        IfOk result (λ made. made.items ≡ map (λ p. list_any (λ l. is_dotted l p) ls) ls) }
{
    let set = set_of(alloc, keys, labels)?;
    let mut changes = Vec::new(alloc);
    for label in labels {
        changes.push(is_dotted_among(&set, label))?;
    }
    Ok(changes)
}
