//! What commands `rename` make of labels.

ghost use Rattle.std.specs.Prelude.{◌≡◌, ◌++◌, ◌∷◌, [], IfOk, List, OnOk, map, option_map};
ghost use Rattle.mmtext.specs.Views.{seen};
ghost use Rattle.mmtext.specs.Words.{Word};
ghost use Rattle.source.specs.Views.{seen_pairs};
ghost use Rattle.expanding.specs.Bars.{seen_command};
ghost use Rattle.expanding.specs.Called.{rename_of, renames, new_labels};
ghost use Rattle.expanding.specs.Bearing.{AreRenames, FindsNew, listed};

use crate::commands::Command;
use mmtext::Token;
use std::alloc::{AllocError, Global};
use std::collections::HashMap;
use std::hash::RandomState;

/// The labels of a command `rename OLD NEW`.
fn rename_of<'a>(part: &[Token<'a>]) -> Option<(&'a [u8], &'a [u8])>
    ensures { option_map (λ r. (r.0.now, r.1.now)) result ≡ rename_of (map seen part.now) }
{
    let [verb, old, new] = part else {
        return None;
    };
    if verb.text != b"rename".as_slice() {
        return None;
    }
    Some((old.text, new.text))
}

/// Those of all commands `rename`.
fn pairs_of<'a>(
    alloc: Global,
    commands: &[Command<'_, 'a>],
) -> Result<Vec<(&'a [u8], &'a [u8])>, AllocError>
    ensures { IfOk result (λ pairs. seen_pairs pairs.items ≡ renames (map seen_command commands.now)) }
{
    let mut pairs = Vec::new(alloc);
    for command in commands {
        if let Some(pair) = rename_of(command.words) {
            pairs.push(pair)?;
        }
    }
    Ok(pairs)
}

/// Notes what a rename makes of a label.
fn put_new<'a>(
    alloc: Global,
    next: &mut HashMap<&'a [u8], Vec<&'a [u8]>, RandomState>,
    old: &'a [u8],
    new: &'a [u8],
) -> Result<(), AllocError>
    ensures { (rs : List (Word × Word)) → FindsNew next.old rs → OnOk result (FindsNew next.new (rs ++ (old.now, new.now) ∷ [])) }
{
    let mut labels = next.remove(&old).unwrap_or(Vec::new(alloc));
    labels.push(new)?;
    next.insert(old, labels)?;
    Ok(())
}

/// What renames make of each label.
fn next_of<'a>(
    alloc: Global,
    keys: RandomState,
    pairs: &[(&'a [u8], &'a [u8])],
) -> Result<HashMap<&'a [u8], Vec<&'a [u8]>, RandomState>, AllocError>
    ensures { IfOk result (λ next. FindsNew next (seen_pairs pairs.now)) }
{
    let mut next = HashMap::with_hasher(alloc, keys);
    for (old, new) in pairs {
        put_new(alloc, &mut next, old, new)?;
    }
    Ok(next)
}

/// What commands `rename` make of labels.
#[derive(Drop)]
pub(crate) struct Renames<'a> {
    /// The old and the new label of each.
    pub pairs: Vec<(&'a [u8], &'a [u8])>,
    /// The new ones of each old one.
    next: HashMap<&'a [u8], Vec<&'a [u8]>, RandomState>,
}

impl<'a> Renames<'a> {
    /// Those of scripts.
    pub(crate) fn new(
        alloc: Global,
        keys: RandomState,
        commands: &[Command<'_, 'a>],
    ) -> Result<Renames<'a>, AllocError>
        ensures { IfOk result (AreRenames (renames (map seen_command commands.now))) }
    {
        let pairs = pairs_of(alloc, commands)?;
        Renames::of(alloc, keys, pairs)
    }

    /// Those from these old labels to these new ones.
    pub(crate) fn of(
        alloc: Global,
        keys: RandomState,
        pairs: Vec<(&'a [u8], &'a [u8])>,
    ) -> Result<Renames<'a>, AllocError>
        ensures { IfOk result (AreRenames (seen_pairs pairs.entry.items)) }
    {
        let next = next_of(alloc, keys, pairs.as_slice())?;
        Ok(Renames { pairs, next })
    }

    /// What they make of a label, if anything: one look-up.
    pub(crate) fn new_labels<'s>(&'s self, label: &'s [u8]) -> Option<&'s Vec<&'a [u8]>>
        ensures { (rs : List (Word × Word)) → AreRenames rs self.now
            → listed (option_map (λ v. v.now) result) ≡ new_labels rs label.now }
    {
        self.next.get(&label)
    }
}
