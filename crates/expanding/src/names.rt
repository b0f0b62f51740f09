//! Who may have a label while scripts run: of the assertions of the source, of those whose comments discourage something, and of what is
//! added.

ghost use Rattle.std.specs.Prelude.{◌≡◌, ◌++◌, ◌∷◌, [], IfOk, OnOk, filter, filter_map, map};
ghost use Rattle.std.specs.Option.{option_map};
ghost use Rattle.mmtext.specs.Views.{seen};
ghost use Rattle.source.specs.Views.{seen_words, seen_pairs};
ghost use Rattle.expanding.specs.Bars.{seen_command};
ghost use Rattle.expanding.specs.Bearing.{bearers_for, seen_bearers, words_in, or_own, names_of};
ghost use Rattle.expanding.specs.Discouraged.{Remarked, added_by, added, is_declared, AreNames, theorem_of};

use crate::bearers::{Bearers, Called, bearers_for, called_of};
use crate::commands::Command;
use crate::described::{label_in, unit_of};
use crate::renamed::Renames;
use mmtext::Token;
use source::Declared;
use spreading::begins_with;
use std::alloc::{AllocError, Global};
use std::hash::RandomState;

// ---- labels

/// The label of what a command adds.
fn added_by<'a>(part: &[Token<'a>]) -> Option<&'a [u8]>
    ensures { option_map (λ w. w.now) result ≡ added_by (map seen part.now) }
{
    if !begins_with(part, b"add") {
        return None;
    }
    let label = label_in(unit_of(part))?;
    Some(label.text)
}

/// The labels of what commands add.
fn added<'a>(alloc: Global, commands: &[Command<'_, 'a>]) -> Result<Vec<&'a [u8]>, AllocError>
    ensures { IfOk result (λ labels. seen_words labels.items ≡ added (map seen_command commands.now)) }
{
    let mut labels = Vec::new(alloc);
    for command in commands {
        if let Some(label) = added_by(command.words) {
            labels.push(label)?;
        }
    }
    Ok(labels)
}

/// The old labels of renames, and then the new ones.
fn words_in<'a>(alloc: Global, pairs: &[(&'a [u8], &'a [u8])]) -> Result<Vec<&'a [u8]>, AllocError>
    ensures { IfOk result (λ words. seen_words words.items ≡ words_in (seen_pairs pairs.now)) }
{
    let mut words = Vec::new(alloc);
    for (old, _) in pairs {
        words.push(*old)?;
    }
    put_new(&mut words, pairs)?;
    Ok(words)
}

/// Puts the new labels of renames.
fn put_new<'a>(words: &mut Vec<&'a [u8]>, pairs: &[(&'a [u8], &'a [u8])]) -> Result<(), AllocError>
    ensures { OnOk result (seen_words words.new.items ≡ seen_words words.old.items ++ map (λ r. r.1) (seen_pairs pairs.now)) }
{
    for (_, new) in pairs {
        words.push(*new)?;
    }
    Ok(())
}

/// The labels that assertions of the source have.
fn declared_among<'a, 'd, D: Declared<'d>>(
    alloc: Global,
    declared: &D,
    words: &[&'a [u8]],
) -> Result<Vec<&'a [u8]>, AllocError>
    ensures { IfOk result (λ labels. seen_words labels.items ≡ filter (is_declared (D.scope declared.now)) (seen_words words.now)) }
{
    let mut labels = Vec::new(alloc);
    for word in words {
        if declared.place_of(*word).is_some() {
            labels.push(*word)?;
        }
    }
    Ok(labels)
}

// ---- names

/// Who may have a label, of several kinds of assertions.
#[derive(Drop)]
pub(crate) struct Names<'a> {
    /// Of those whose comments discourage another proof.
    pub modification: Called<'a>,
    /// Of those whose comments discourage that they are cited anew.
    pub usage: Called<'a>,
    /// Of those of the source whose labels renames have.
    source: Called<'a>,
    /// Of those that are added.
    added: Called<'a>,
}

impl<'a> Names<'a> {
    /// Those of the assertions of a source that these commands rename, and of what they add, where these are the labels of which comments
    /// discourage something.
    pub(crate) fn new<'d, D: Declared<'d>>(
        alloc: Global,
        keys: RandomState,
        declared: &D,
        modification: &[&'a [u8]],
        usage: &[&'a [u8]],
        commands: &[Command<'_, 'a>],
    ) -> Result<Names<'a>, AllocError>
        ensures { IfOk result (λ names. AreNames (D.scope declared.now)
            (record { modification = seen_words modification.now; usage = seen_words usage.now }) (map seen_command commands.now)
            (names_of (D.scope declared.now) names)) }
    {
        let renames = Renames::new(alloc, keys, commands)?;
        let words = words_in(alloc, renames.pairs.as_slice())?;
        let source = declared_among(alloc, declared, words.as_slice())?;
        let added = added(alloc, commands)?;
        Ok(Names {
            modification: called_of(alloc, keys, &renames, modification)?,
            usage: called_of(alloc, keys, &renames, usage)?,
            source: called_of(alloc, keys, &renames, source.as_slice())?,
            added: called_of(alloc, keys, &renames, added.as_slice())?,
        })
    }

    /// Those of the source that may have a label: up to two look-ups.
    fn source_for<'d, D: Declared<'d>>(&self, declared: &D, label: &'a [u8]) -> Bearers<'a>
        ensures { seen_bearers result
            ≡ or_own (bearers_for self.now.source label.now) (is_declared (D.scope declared.now) label.now) label.now }
    {
        match bearers_for(&self.source, label) {
            Bearers::Nobody if declared.place_of(label).is_some() => Bearers::Only(label),
            bearers => bearers,
        }
    }

    /// The theorem that gets another proof under a label, where it is certain that it is one of the source, and which.
    pub(crate) fn theorem_of<'d, D: Declared<'d>>(
        &self,
        declared: &D,
        label: Option<Token<'a>>,
    ) -> Bearers<'a>
        ensures { seen_bearers result ≡ theorem_of (names_of (D.scope declared.now) self.now) (option_map seen label.entry) }
    {
        let Some(label) = label else {
            return Bearers::Nobody;
        };
        match bearers_for(&self.added, label.text) {
            Bearers::Nobody => self.source_for(declared, label.text),
            _ => Bearers::Nobody,
        }
    }
}
