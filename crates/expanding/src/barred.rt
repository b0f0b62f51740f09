//! A `delete` or a `move` that a theorem of the source forbids, which no script gives another proof or another place.

ghost use Rattle.std.specs.Prelude.{◌≡◌, ℕ, IfOk, List, map};
ghost use Rattle.std.specs.List.{list_any};
ghost use Rattle.std.specs.Option.{option_map};
ghost use Rattle.mmtext.specs.Views.{seen};
ghost use Rattle.mmtext.specs.Words.{Word};
ghost use Rattle.source.specs.Views.{seen_words};
ghost use Rattle.expanding.specs.Barred.{AreAllBarred};
ghost use Rattle.expanding.specs.Commands.{Command as CommandSeen};
ghost use Rattle.expanding.specs.Bars.{seen_command, seen_bar, holds, names_any, proof_at};
ghost use Rattle.expanding.specs.Watches.{seen_barred, label_of, is_watched, barred_there, first_barred, all_barred, IsWatch, AreWatched, AreBarred};
ghost use Rattle.expanding.specs.Views.{seen_scripts};

use crate::asking::asked_of;
use crate::bars::{Bar, Said, bars_of, bars_there, moves_of, said_of};
use crate::commands::{Command, commands_of};
use crate::labels::{holds, label_set};
use crate::renamed::Renames;
use giving::LabelMap;
use mmtext::Token;
use source::Declared;
use spreading::labels_in;
use std::alloc::{AllocError, Global};
use std::hash::RandomState;

/// A `delete` or a `move` that a theorem forbids.
#[derive(Clone, Copy, Debug)]
pub struct Barred<'a> {
    /// Which script, from 0.
    pub script: usize,
    /// The label of the assertion that the command names.
    pub word: Token<'a>,
    /// The label of the theorem.
    pub by: &'a [u8],
}

/// The labels of the assertions that commands name.
fn labels_in_bars<'a>(alloc: Global, bars: &[Bar<'a>]) -> Result<Vec<&'a [u8]>, AllocError>
    ensures { IfOk result (λ labels. seen_words labels.items ≡ map label_of (map seen_bar bars.now)) }
{
    let mut labels = Vec::new(alloc);
    for bar in bars {
        labels.push(bar.label.text)?;
    }
    Ok(labels)
}

/// Whether one of some labels is one of others: a look-up for each.
fn names_one(labels: &LabelMap<'_>, cited: &[&[u8]]) -> bool
    ensures { result ≡ list_any (λ w. holds labels.now w.now) cited.now }
{
    cited.iter().any(|label| holds(labels, label))
}

/// The commands that a theorem may forbid, and what tells whether it does.
#[derive(Drop)]
struct Watch<'a> {
    said: Said<'a>,
    bars: Vec<Bar<'a>>,
    /// The labels that these name.
    labels: LabelMap<'a>,
    /// Which labels all commands move.
    moved: Renames<'a>,
}

/// The commands that a theorem may forbid, by all commands and the labels of those whose proofs or places these ask for.
fn watch_of<'a, D: Declared<'a>>(
    alloc: Global,
    keys: RandomState,
    declared: &D,
    asked: &[&'a [u8]],
    commands: &[Command<'_, 'a>],
) -> Result<Watch<'a>, AllocError>
    ensures { IfOk result (IsWatch (D.scope declared.now) (seen_words asked.now) (map seen_command commands.now)) }
{
    let said = said_of(alloc, keys, asked, commands)?;
    let bars = bars_of(alloc, declared, &said, commands)?;
    let named = labels_in_bars(alloc, bars.as_slice())?;
    let labels = label_set(alloc, keys, named.as_slice())?;
    let moved = moves_of(alloc, keys, commands)?;
    Ok(Watch {
        said,
        bars,
        labels,
        moved,
    })
}

impl<'a> Watch<'a> {
    /// Whether the proof of the assertion at a place names a label that a command names.
    fn is_near<'d, D: Declared<'d>>(&self, declared: &D, place: usize) -> bool
        ensures { result ≡ names_any (holds self.now.labels) (proof_at (D.scope declared.now) place) }
    {
        match declared.proof(place) {
            None => false,
            Some(proof) => names_one(&self.labels, labels_in(proof)),
        }
    }

    /// Whether the theorem at a place may forbid a command: no script asks for its proof, which names a label that a command names.
    fn is_watched<'d, D: Declared<'d>>(&self, declared: &D, place: usize) -> bool
        ensures { (asked : List Word) (cs : List CommandSeen) → IsWatch (D.scope declared.now) asked cs self.now
            → result ≡ is_watched (D.scope declared.now) asked (holds self.now.labels) place }
    {
        if !self.is_near(declared, place) {
            return false;
        }
        match declared.label(place) {
            None => false,
            Some(label) => !holds(&self.said.asked, label),
        }
    }

    /// The places of the theorems that may.
    fn watched<'d, D: Declared<'d>>(
        &self,
        alloc: Global,
        declared: &D,
    ) -> Result<Vec<usize>, AllocError>
        ensures { (asked : List Word) (cs : List CommandSeen) → IsWatch (D.scope declared.now) asked cs self.now
            → IfOk result (λ places. AreWatched (D.scope declared.now) asked (holds self.now.labels) places.items) }
    {
        let mut places = Vec::new(alloc);
        for place in 0..declared.assertions() {
            if self.is_watched(declared, place) {
                places.push(place)?;
            }
        }
        Ok(places)
    }

    /// A command with the theorem at a place, if that forbids it.
    fn barred_there<D: Declared<'a>>(
        &self,
        declared: &D,
        bar: Bar<'a>,
        place: usize,
    ) -> Option<Barred<'a>>
        ensures { (asked : List Word) (cs : List CommandSeen) → IsWatch (D.scope declared.now) asked cs self.now
            → option_map seen_barred result ≡ barred_there (D.scope declared.now) asked cs (seen_bar bar.entry) place }
    {
        if !bars_there(declared, &self.moved, place, bar) {
            return None;
        }
        let by = declared.label(place)?;
        if holds(&self.said.asked, by) {
            return None;
        }
        Some(Barred {
            script: bar.script,
            word: bar.label,
            by,
        })
    }

    /// A command with the first of some theorems, by their places, that forbids it.
    fn first_barred<D: Declared<'a>>(
        &self,
        declared: &D,
        places: &[usize],
        bar: Bar<'a>,
    ) -> Option<Barred<'a>>
        ensures { (asked : List Word) (cs : List CommandSeen) → IsWatch (D.scope declared.now) asked cs self.now
            → option_map seen_barred result ≡ first_barred (D.scope declared.now) asked cs places.now (seen_bar bar.entry) }
    {
        for place in places {
            if let Some(barred) = self.barred_there(declared, bar, *place) {
                return Some(barred);
            }
        }
        None
    }

    /// All commands that some theorems forbid, each with the first of these that does.
    fn barred_among<D: Declared<'a>>(
        &self,
        alloc: Global,
        declared: &D,
        places: &[usize],
    ) -> Result<Vec<Barred<'a>>, AllocError>
        ensures { (asked : List Word) (cs : List CommandSeen) → IsWatch (D.scope declared.now) asked cs self.now
            → IfOk result (λ all. map seen_barred all.items
            ≡ all_barred (D.scope declared.now) asked cs places.now (map seen_bar self.now.bars.items)) }
    {
        let mut all = Vec::new(alloc);
        for bar in self.bars.as_slice() {
            if let Some(barred) = self.first_barred(declared, places, *bar) {
                all.push(barred)?;
            }
        }
        Ok(all)
    }

    /// All commands that theorems forbid, each with the first that does.
    fn all_barred<D: Declared<'a>>(
        &self,
        alloc: Global,
        declared: &D,
    ) -> Result<Vec<Barred<'a>>, AllocError>
        ensures { (asked : List Word) (cs : List CommandSeen) → IsWatch (D.scope declared.now) asked cs self.now
            → IfOk result (λ all. AreBarred (D.scope declared.now) asked cs (map seen_barred all.items)) }
    {
        if self.bars.is_empty() {
            return Ok(Vec::new(alloc));
        }
        let places = self.watched(alloc, declared)?;
        self.barred_among(alloc, declared, places.as_slice())
    }
}

/// Each `delete` or `move L behind M` that a theorem of the source forbids, in order: one that no script gives another proof or another
/// place, and that cites what is deleted; or that cites L, stands behind L, and doesn't stand behind M. The first such theorem is told.
///
/// The scripts are the words behind `spread`. The proofs of the source are gone through once, with a look-up for each label that they
/// name, and not at all where no script deletes an assertion or moves one behind another. Then each such command goes through the theorems
/// that cite what one of them names and that no script asks for, up to the first that forbids it.
///
/// # Errors
///
/// Want of memory.
pub fn barred_of<'a, D: Declared<'a>>(
    alloc: Global,
    keys: RandomState,
    declared: &D,
    scripts: &[Vec<Token<'a>>],
) -> Result<Vec<Barred<'a>>, AllocError>
    ensures { IfOk result (λ found. AreAllBarred (D.scope declared.now) (seen_scripts scripts.now) (map seen_barred found.items)) }
{
    let commands = commands_of(alloc, scripts)?;
    let asked = asked_of(alloc, declared, scripts)?;
    let watch = watch_of(
        alloc,
        keys,
        declared,
        asked.asked.as_slice(),
        commands.as_slice(),
    )?;
    watch.all_barred(alloc, declared)
}
