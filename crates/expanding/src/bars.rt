//! Commands that a theorem of the source may forbid.

ghost use Rattle.std.specs.Prelude.{◌≡◌, IfOk, List, filter, length, map};
ghost use Rattle.std.specs.Option.{option_map};
ghost use Rattle.mmtext.specs.Views.{seen};
ghost use Rattle.mmtext.specs.Words.{Word};
ghost use Rattle.source.specs.Views.{seen_words, seen_pairs};
ghost use Rattle.expanding.specs.Commands.{Command as CommandSeen};
ghost use Rattle.expanding.specs.Barred.{delete_of, move_of};
ghost use Rattle.expanding.specs.Bearing.{AreRenames};
ghost use Rattle.expanding.specs.Bars.{seen_command, seen_bar, moved_by, moved_in, bar_of_delete, bar_of_move, bar_of, bars_of, is_moved_once, reaches, bars_there, is_lost, IsSaid};

use crate::commands::{Command, words_of};
use crate::labels::{holds, label_set};
use crate::renamed::Renames;
use giving::LabelMap;
use mmtext::Token;
use source::Declared;
use spreading::cites;
use std::alloc::{AllocError, Global};
use std::hash::RandomState;

/// A command that a theorem may forbid.
#[derive(Clone, Copy)]
pub(crate) struct Bar<'a> {
    /// The script of the command, from 0.
    pub script: usize,
    /// The label of the assertion that it names.
    pub label: Token<'a>,
    /// Of a move: the place behind which such a theorem stands, and the last at which it stands.
    pub reach: Option<(usize, usize)>,
}

/// What scripts say of labels.
#[derive(Drop)]
pub(crate) struct Said<'a> {
    /// Whose proofs or places they ask for.
    pub asked: LabelMap<'a>,
    /// The words of their commands `rename`.
    renamed: LabelMap<'a>,
    /// And of their commands `delete`.
    deleted: LabelMap<'a>,
}

/// What scripts say of labels, of which these are those whose proofs or places they ask for.
pub(crate) fn said_of<'a>(
    alloc: Global,
    keys: RandomState,
    asked: &[&'a [u8]],
    commands: &[Command<'_, 'a>],
) -> Result<Said<'a>, AllocError>
    ensures { IfOk result (IsSaid (seen_words asked.now) (map seen_command commands.now)) }
{
    let renames = words_of(alloc, b"rename", commands)?;
    let deletes = words_of(alloc, b"delete", commands)?;
    Ok(Said {
        asked: label_set(alloc, keys, asked)?,
        renamed: label_set(alloc, keys, renames.as_slice())?,
        deleted: label_set(alloc, keys, deletes.as_slice())?,
    })
}

impl<'a> Said<'a> {
    /// Whether a label may be taken away from its assertion.
    fn is_lost(&self, label: &[u8]) -> bool
        ensures { (asked : List Word) (cs : List CommandSeen) → IsSaid asked cs self.now → result ≡ is_lost cs label.now }
    {
        holds(&self.renamed, label) || holds(&self.deleted, label)
    }
}

// ---- bars

/// The label of a command `delete`.
fn delete_of<'a>(part: &[Token<'a>]) -> Option<Token<'a>>
    ensures { option_map seen result ≡ delete_of (map seen part.now) }
{
    let [verb, label] = part else {
        return None;
    };
    if verb.text != b"delete".as_slice() {
        return None;
    }
    Some(*label)
}

/// The labels of a command `move L behind M`.
fn move_of<'a>(part: &[Token<'a>]) -> Option<(Token<'a>, Token<'a>)>
    ensures { option_map (λ m. (seen m.0, seen m.1)) result ≡ move_of (map seen part.now) }
{
    let [verb, label, how, mark] = part else {
        return None;
    };
    if verb.text != b"move".as_slice() {
        return None;
    }
    if how.text != b"behind".as_slice() {
        return None;
    }
    Some((*label, *mark))
}

/// A command `delete` as a bar.
fn bar_of_delete<'a, D: Declared<'a>>(
    declared: &D,
    said: &Said<'_>,
    script: usize,
    label: Token<'a>,
) -> Option<Bar<'a>>
    ensures { (asked : List Word) (cs : List CommandSeen) → IsSaid asked cs said.now
        → option_map seen_bar result ≡ bar_of_delete (D.scope declared.now) cs script (seen label.entry) }
{
    if holds(&said.renamed, label.text) {
        return None;
    }
    declared.place_of(label.text)?;
    Some(Bar {
        script,
        label,
        reach: None,
    })
}

/// A command `move L behind M` as a bar.
fn bar_of_move<'a, D: Declared<'a>>(
    declared: &D,
    said: &Said<'_>,
    script: usize,
    label: Token<'a>,
    mark: Token<'a>,
) -> Option<Bar<'a>>
    ensures { (asked : List Word) (cs : List CommandSeen) → IsSaid asked cs said.now
        → option_map seen_bar result ≡ bar_of_move (D.scope declared.now) asked cs script (seen label.entry) (seen mark.entry) }
{
    if said.is_lost(label.text) || said.is_lost(mark.text) || holds(&said.asked, mark.text) {
        return None;
    }
    let from = declared.place_of(label.text)?;
    let to = declared.place_of(mark.text)?;
    Some(Bar {
        script,
        label,
        reach: Some((from, to)),
    })
}

/// A command as a bar.
fn bar_of<'a, D: Declared<'a>>(
    declared: &D,
    said: &Said<'_>,
    command: Command<'_, 'a>,
) -> Option<Bar<'a>>
    ensures { (asked : List Word) (cs : List CommandSeen) → IsSaid asked cs said.now
        → option_map seen_bar result ≡ bar_of (D.scope declared.now) asked cs (seen_command command.entry) }
{
    if let Some(label) = delete_of(command.words) {
        return bar_of_delete(declared, said, command.script, label);
    }
    let (label, mark) = move_of(command.words)?;
    bar_of_move(declared, said, command.script, label, mark)
}

/// The commands that a theorem may forbid.
pub(crate) fn bars_of<'a, D: Declared<'a>>(
    alloc: Global,
    declared: &D,
    said: &Said<'_>,
    commands: &[Command<'_, 'a>],
) -> Result<Vec<Bar<'a>>, AllocError>
    ensures { (asked : List Word) (cs : List CommandSeen) → IsSaid asked cs said.now
        → IfOk result (λ bars. map seen_bar bars.items
        ≡ bars_of (D.scope declared.now) asked cs (map seen_command commands.now)) }
{
    let mut bars = Vec::new(alloc);
    for command in commands {
        if let Some(bar) = bar_of(declared, said, *command) {
            bars.push(bar)?;
        }
    }
    Ok(bars)
}

// ---- theorems

/// The label of the assertion that a command moves, twice.
fn moved_by<'a>(part: &[Token<'a>]) -> Option<(&'a [u8], &'a [u8])>
    ensures { option_map (λ r. (r.0.now, r.1.now)) result ≡ moved_by (map seen part.now) }
{
    let [verb, label, ..] = part else {
        return None;
    };
    if verb.text != b"move".as_slice() {
        return None;
    }
    Some((label.text, label.text))
}

/// Those of all commands.
fn moved_in<'a>(
    alloc: Global,
    commands: &[Command<'_, 'a>],
) -> Result<Vec<(&'a [u8], &'a [u8])>, AllocError>
    ensures { IfOk result (λ pairs. seen_pairs pairs.items ≡ moved_in (map seen_command commands.now)) }
{
    let mut pairs = Vec::new(alloc);
    for command in commands {
        if let Some(pair) = moved_by(command.words) {
            pairs.push(pair)?;
        }
    }
    Ok(pairs)
}

/// Which labels commands move: each is led to itself as often as they do.
pub(crate) fn moves_of<'a>(
    alloc: Global,
    keys: RandomState,
    commands: &[Command<'_, 'a>],
) -> Result<Renames<'a>, AllocError>
    ensures { IfOk result (AreRenames (moved_in (map seen_command commands.now))) }
{
    Renames::of(alloc, keys, moved_in(alloc, commands)?)
}

/// Whether just one command moves an assertion: one look-up.
fn is_moved_once(moved: &Renames<'_>, label: &[u8]) -> bool
    ensures { (cs : List CommandSeen) → AreRenames (moved_in cs) moved.now → result ≡ is_moved_once cs label.now }
{
    match moved.new_labels(label) {
        None => false,
        Some(labels) => labels.as_slice().len() == 1,
    }
}

/// Whether a place is one at which such a theorem stands.
fn reaches(reach: Option<(usize, usize)>, place: usize) -> bool
    ensures { result ≡ reaches reach place }
{
    match reach {
        None => true,
        Some((from, to)) => from < place && place <= to,
    }
}

/// Whether the theorem at a place forbids a command, if no script asks for its proof.
pub(crate) fn bars_there<'a, D: Declared<'a>>(
    declared: &D,
    moved: &Renames<'_>,
    place: usize,
    bar: Bar<'_>,
) -> bool
    ensures { (cs : List CommandSeen) → AreRenames (moved_in cs) moved.now
        → result ≡ bars_there (D.scope declared.now) cs place (seen_bar bar.entry) }
{
    reaches(bar.reach, place)
        && cites(declared, place, bar.label.text)
        && (bar.reach.is_none() || is_moved_once(moved, bar.label.text))
}
