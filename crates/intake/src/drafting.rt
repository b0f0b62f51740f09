//! The draft of a library: its prelude, and what is told of changed names.

ghost use Rattle.std.specs.Prelude.{◌≡◌, ◌≤◌, ◌++◌, length, map, filter, IfOk, OnOk};
ghost use Rattle.std.specs.List.{zip};
ghost use Rattle.std.specs.Str.{bytes_eq};
ghost use mathlib.Core.Bool.{not};
ghost use Rattle.source.specs.Views.{seen_words};
ghost use Rattle.gathering.specs.Placed.{floats_from};
ghost use Rattle.mmsyntax.specs.declared.limits.TheConstants.{MOST_DECLARED};

use mmsyntax::{Float, Label, Sequence};
use std::alloc::{AllocError, Global};

/// Copies of names.
///
/// # Errors
///
/// Want of memory.
pub fn copied_labels(alloc: Global, names: &[Label]) -> Result<Sequence<Label>, AllocError>
    ensures { IfOk result (λ copies. copies ≡ names.now) }
{
    let mut copies = Vec::new(alloc);
    for name in names {
        copies.push(name.copy(alloc)?)?;
    }
    Ok(Sequence::from_vec(copies))
}

/// The `$f` of the library: the variable at a place is that of the `$f` there.
pub(crate) fn floats(
    alloc: Global,
    labels: &[Label],
    types: &[u32],
) -> Result<Sequence<Float>, AllocError>
    requires many { length types.now ≡ length labels.now }
    requires few { length labels.now ≤ MOST_DECLARED }
    ensures { IfOk result (λ made. made ≡ floats_from 0 labels.now types.now) }
{
    let mut made = Vec::new(alloc);
    for place in 0..labels.len() {
        made.push(Float {
            label: labels[place].copy(alloc)?,
            type_code: types[place],
            variable: place as u32,
        })?;
    }
    Ok(Sequence::from_vec(made))
}

/// The names that were changed go to the end, each with that in the library.
pub(crate) fn put_changed<'a>(
    alloc: Global,
    changed: &mut Vec<(&'a [u8], Label)>,
    words: &[&'a [u8]],
    names: &[Label],
) -> Result<(), AllocError>
    requires { length names.now ≡ length words.now }
    ensures { OnOk result (map (λ p. (p.0.now, p.1)) changed.new.items ≡ map (λ p. (p.0.now, p.1)) changed.old.items
        ++ filter (λ p. not (bytes_eq p.0 p.1)) (zip (seen_words words.now) names.now)) }
{
    for place in 0..words.len() {
        let word = words[place];
        if word != names[place].as_slice() {
            changed.push((word, names[place].copy(alloc)?))?;
        }
    }
    Ok(())
}
