//! Commands of scripts that do what comments of the source discourage.

ghost use Rattle.std.specs.Prelude.{◌≡◌, IfOk, find, map};
ghost use Rattle.std.specs.Option.{option_map};
ghost use Rattle.mmtext.specs.Views.{seen};
ghost use Rattle.source.specs.Views.{seen_words};
ghost use Rattle.expanding.specs.Bearing.{seen_bearers, names_of};
ghost use Rattle.expanding.specs.Bars.{seen_command};
ghost use Rattle.expanding.specs.Discouraged.{AreDiscouraged, cites_already, reproved_by, citing_words, modified, is_new_usage, discouraged_in, told_of, all_discouraged};
ghost use Rattle.expanding.specs.Views.{seen_scripts, seen_discouraged, seen_found};

use crate::bearers::{Bearers, bearers_for};
use crate::commands::{Command, commands_of};
use crate::cuts::brought;
use crate::names::Names;
use mmtext::Token;
use source::Declared;
use spreading::{begins_with, behind, cites};
use std::alloc::{AllocError, Global};
use std::hash::RandomState;

/// What a command does although a comment of the source discourages it, with the word that says so.
#[derive(Clone, Copy, Debug)]
pub enum Discouraged<'a> {
    /// The theorem with this label gets another proof.
    Modifies(Token<'a>),
    /// The assertion with this label is cited by a proof that didn't cite it.
    Uses(Token<'a>),
}

/// The label of the theorem that a command gives another proof.
fn reproved_by<'a>(part: &[Token<'a>]) -> Option<Token<'a>>
    ensures { option_map seen result ≡ reproved_by (map seen part.now) }
{
    let [verb, label, ..] = part else {
        return None;
    };
    let gives = verb.text == b"reprove".as_slice() || verb.text == b"replace".as_slice();
    gives.then_some(*label)
}

/// The words of which some say what a command cites.
fn citing_words<'w, 'a>(part: &'w [Token<'a>]) -> &'w [Token<'a>]
    ensures { map seen result.now ≡ citing_words (map seen part.now) }
{
    if begins_with(part, b"replace") {
        return behind(part, 3);
    }
    brought(part)
}

/// Whether just one theorem is meant, and it cites in the source the only assertion that a word may mean.
fn cites_already<'d, D: Declared<'d>>(declared: &D, by: Bearers<'_>, word: Bearers<'_>) -> bool
    ensures { result ≡ cites_already (D.scope declared.now) (seen_bearers by.entry) (seen_bearers word.entry) }
{
    let (Bearers::Only(by), Bearers::Only(label)) = (by, word) else {
        return false;
    };
    match declared.place_of(by) {
        None => false,
        Some(place) => cites(declared, place, label),
    }
}

impl<'a> Names<'a> {
    /// The theorem that gets another proof, if its comment may discourage that.
    fn modified<'d, D: Declared<'d>>(
        &self,
        declared: &D,
        label: Option<Token<'a>>,
    ) -> Option<Discouraged<'a>>
        ensures { option_map seen_discouraged result
            ≡ modified (names_of (D.scope declared.now) self.now) (option_map seen label.entry) }
    {
        let label = label?;
        bearers_for(&self.modification, label.text)
            .is_borne()
            .then_some(Discouraged::Modifies(label))
    }

    /// Whether a word may be that of an assertion whose comment discourages that it is cited anew, and it isn't certain that the theorem
    /// which gets another proof cites it in the source.
    fn is_new_usage<'d, D: Declared<'d>>(
        &self,
        declared: &D,
        by: Bearers<'a>,
        word: Token<'a>,
    ) -> bool
        ensures { result ≡ is_new_usage (D.scope declared.now) (names_of (D.scope declared.now) self.now) (seen_bearers by.entry)
            (seen word.entry) }
    {
        let meant = bearers_for(&self.usage, word.text);
        meant.is_borne() && !cites_already(declared, by, meant)
    }

    /// The first of these words that the theorem would cite anew.
    fn new_usage<'d, D: Declared<'d>>(
        &self,
        declared: &D,
        by: Bearers<'a>,
        words: &[Token<'a>],
    ) -> Option<Token<'a>>
        ensures { option_map seen result
            ≡ find (is_new_usage (D.scope declared.now) (names_of (D.scope declared.now) self.now) (seen_bearers by.entry))
            (map seen words.now) }
    {
        for word in words {
            if self.is_new_usage(declared, by, *word) {
                return Some(*word);
            }
        }
        None
    }

    /// What a command does first although it is discouraged.
    fn discouraged_in<'d, D: Declared<'d>>(
        &self,
        declared: &D,
        part: &[Token<'a>],
    ) -> Option<Discouraged<'a>>
        ensures { option_map seen_discouraged result
            ≡ discouraged_in (D.scope declared.now) (names_of (D.scope declared.now) self.now) (map seen part.now) }
    {
        let label = reproved_by(part);
        if let Some(modified) = self.modified(declared, label) {
            return Some(modified);
        }
        let by = self.theorem_of(declared, label);
        let word = self.new_usage(declared, by, citing_words(part))?;
        Some(Discouraged::Uses(word))
    }

    /// What a command does first although it is discouraged, with the number of its script.
    fn told_of<'d, D: Declared<'d>>(
        &self,
        declared: &D,
        command: Command<'_, 'a>,
    ) -> Option<(usize, Discouraged<'a>)>
        ensures { option_map seen_found result
            ≡ told_of (D.scope declared.now) (names_of (D.scope declared.now) self.now) (seen_command command.entry) }
    {
        let found = self.discouraged_in(declared, command.words)?;
        Some((command.script, found))
    }

    /// That of each command that does.
    fn all_discouraged<'d, D: Declared<'d>>(
        &self,
        alloc: Global,
        declared: &D,
        commands: &[Command<'_, 'a>],
    ) -> Result<Vec<(usize, Discouraged<'a>)>, AllocError>
        ensures { IfOk result (λ all. map seen_found all.items
            ≡ all_discouraged (D.scope declared.now) (names_of (D.scope declared.now) self.now) (map seen_command commands.now)) }
    {
        let mut all = Vec::new(alloc);
        for command in commands {
            if let Some(found) = self.told_of(declared, *command) {
                all.push(found)?;
            }
        }
        Ok(all)
    }
}

/// What scripts do although comments of the source discourage it, with the number of the script, from 0: each command that gives a theorem
/// another proof whose label is among `modification`, or cites an assertion whose label is among `usage` in a proof that doesn't cite it in
/// the source. Each assertion counts by every label that commands `rename` of the scripts may give it. Of a command the first is told.
///
/// The scripts are the words behind `spread`. It costs some look-ups for each rename, and one or two for each word that may be cited.
///
/// # Errors
///
/// Want of memory.
pub fn discouraged_of<'a, 'd, D: Declared<'d>>(
    alloc: Global,
    keys: RandomState,
    declared: &D,
    modification: &[&'a [u8]],
    usage: &[&'a [u8]],
    scripts: &[Vec<Token<'a>>],
) -> Result<Vec<(usize, Discouraged<'a>)>, AllocError>
    ensures { IfOk result (λ found. AreDiscouraged (D.scope declared.now)
        (record { modification = seen_words modification.now; usage = seen_words usage.now }) (seen_scripts scripts.now)
        (map seen_found found.items)) }
{
    let commands = commands_of(alloc, scripts)?;
    let names = Names::new(
        alloc,
        keys,
        declared,
        modification,
        usage,
        commands.as_slice(),
    )?;
    names.all_discouraged(alloc, declared, commands.as_slice())
}
