//! The names of constants, of variables and labels of `$f`, and of labels of assertions.

ghost use Rattle.std.specs.Prelude.{IfOk, IfErr};
ghost use Rattle.mmsyntax.specs.Dotted.{ClashNowhere};
ghost use Rattle.source.specs.Views.{seen_words};
ghost use Rattle.sites.specs.Changes.{HasNothing, HasTrunks};
ghost use Rattle.sites.specs.Namings.{AreNamedWell, AreUnnamed};

use crate::changes::{constants_changing, floats_changing, labels_changing, variables_changing};
use crate::free::Free;
use mmsyntax::{Label, Sequence};
use source::Declared;
use std::alloc::Global;
use std::hash::RandomState;
use taking::{Unnamed, library_names};

/// The names in a library, by places.
#[derive(Debug, Drop)]
pub struct LibraryNames {
    pub constants: Sequence<Label>,
    /// Those of the variables of `$f`.
    pub variables: Sequence<Label>,
    /// The labels of `$f`.
    pub floats: Sequence<Label>,
    /// The labels of assertions.
    pub labels: Sequence<Label>,
}

/// The names in a source, by the same places.
#[derive(Clone, Copy)]
pub struct SourceNames<'s, 'a> {
    pub constants: &'s [&'a [u8]],
    /// Those of the variables of `$f`.
    pub variables: &'s [&'a [u8]],
    /// The labels of `$f`.
    pub floats: &'s [&'a [u8]],
    /// The labels of assertions.
    pub labels: &'s [&'a [u8]],
}

/// The names in a library of what has these in a source: no label of an assertion is L.k beside another L.
///
/// # Errors
///
/// The first of these words that the profile doesn't allow and that has no free candidate, or want of memory.
pub fn name_all<'a, D: Declared<'a>>(
    alloc: Global,
    keys: RandomState,
    declared: &D,
    words: SourceNames<'_, 'a>,
) -> Result<LibraryNames, Unnamed<'a>>
    ensures names { IfOk result (AreNamedWell (D.scope declared.now) (seen_words words.entry.constants.now)
        (seen_words words.entry.variables.now) (seen_words words.entry.floats.now) (seen_words words.entry.labels.now)) }
    ensures apart { IfOk result (λ names. ClashNowhere names.labels) }
    ensures refused { IfErr result (AreUnnamed (D.scope declared.now) (seen_words words.entry.constants.now)
        (seen_words words.entry.variables.now) (seen_words words.entry.floats.now) (seen_words words.entry.labels.now)) }
{
    let mut names = Free::new(alloc, keys, declared, words.labels)?;
    named_by(alloc, keys, &mut names, words)
}

/// The same by free names: none was given yet, and the L of each label L.k among the labels is taken. They are borrowed, so that no way out
/// drops them. After an error nothing is said of them.
fn named_by<'a, D: Declared<'a>>(
    alloc: Global,
    keys: RandomState,
    names: &mut Free<'_, 'a, D>,
    words: SourceNames<'_, 'a>,
) -> Result<LibraryNames, Unnamed<'a>>
    requires trunks { HasTrunks names.old.trunks (seen_words words.labels.now) }
    requires given { HasNothing names.old.given }
    ensures names { IfOk result (AreNamedWell (D.scope names.old.declared.now) (seen_words words.entry.constants.now)
        (seen_words words.entry.variables.now) (seen_words words.entry.floats.now) (seen_words words.entry.labels.now)) }
    ensures apart { IfOk result (λ names. ClashNowhere names.labels) }
    ensures refused { IfErr result (AreUnnamed (D.scope names.old.declared.now) (seen_words words.entry.constants.now)
        (seen_words words.entry.variables.now) (seen_words words.entry.floats.now) (seen_words words.entry.labels.now)) }
{
    let changes = constants_changing(alloc, words.constants)?;
    let constants = library_names(alloc, names, changes.as_slice(), words.constants)?;
    let changes = variables_changing(alloc, keys, words.variables)?;
    let variables = library_names(alloc, names, changes.as_slice(), words.variables)?;
    let changes = floats_changing(alloc, words.floats)?;
    let floats = library_names(alloc, names, changes.as_slice(), words.floats)?;
    let changes = labels_changing(alloc, keys, words.labels)?;
    let labels = library_names(alloc, names, changes.as_slice(), words.labels)?;
    Ok(LibraryNames {
        constants,
        variables,
        floats,
        labels,
    })
}
