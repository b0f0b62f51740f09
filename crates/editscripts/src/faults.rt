//! The faults of scripts that can be told before they are run, in order.

ghost use Rattle.std.specs.Prelude.{◌≡◌, ◌≢◌, ℕ, [], IfOk, List, map};
ghost use Rattle.spreading.specs.Views.{seen_misfit};
ghost use Rattle.mmtext.specs.Views.{seen};
ghost use Rattle.expanding.specs.Views.{seen_discouraged};
ghost use Rattle.editscripts.specs.Encouraged.{discouraged_word};
ghost use Rattle.editscripts.specs.Refusals.{misfit_word};
ghost use Rattle.editscripts.specs.Faults.{AreOrdered, place_of_fault, kind_of_fault, word_of_fault, key_of};
ghost use Rattle.editscripts.specs.Views.{seen_what, seen_fault, seen_key};
ghost use Rattle.std.specs.BTreeMap.{values, IsOrdered};
ghost use Rattle.editscripts.specs.Gathered.{IsPlaced, code_order};

use expanding::Discouraged;
use mmtext::{TextFault, Token};
use spreading::Misfit;
use std::alloc::{AllocError, Global};
use std::collections::BTreeMap;

/// The most faults that are told with a line of their own.
pub(crate) const MOST_TOLD: usize = 100;

/// What is wrong with a script.
#[derive(Clone, Copy)]
pub(crate) enum What<'a> {
    /// It has no words: the first fault of its text.
    Wordless(TextFault),
    /// A word doesn't fit the source.
    Unfit(Misfit<'a>),
    /// A theorem forbids a command: the label that the command names, and that of the theorem.
    Forbidden(Token<'a>, &'a [u8]),
    /// A command does what a comment of the source discourages.
    Discouraged(Discouraged<'a>),
}

/// A fault of a script.
#[derive(Clone, Copy)]
pub(crate) struct ScriptFault<'a> {
    /// Which script, from 0.
    pub script: usize,
    /// What is wrong with it.
    pub what: What<'a>,
}

/// By what faults are ordered: the script, the byte of it, the kind, and the word.
type Key<'a> = (usize, usize, u8, &'a [u8]);

/// The word that doesn't fit.
pub(crate) fn misfit_word<'a>(misfit: Misfit<'a>) -> Token<'a>
    ensures { seen result ≡ misfit_word (seen_misfit misfit.entry) }
{
    match misfit {
        Misfit::Unknown(word) | Misfit::Numbered(word) | Misfit::NotAlone(word) => word,
    }
}

/// The word that does it.
pub(crate) fn discouraged_word<'a>(what: Discouraged<'a>) -> Token<'a>
    ensures { seen result ≡ discouraged_word (seen_discouraged what.entry) }
{
    match what {
        Discouraged::Modifies(word) | Discouraged::Uses(word) => word,
    }
}

impl<'a> What<'a> {
    /// The byte of the script at which the word at fault stands.
    fn place(self) -> usize
        ensures { result ≡ place_of_fault (seen_what self.entry) }
    {
        match self {
            What::Wordless(fault) => fault.place,
            What::Unfit(misfit) => misfit_word(misfit).place,
            What::Forbidden(word, _) => word.place,
            What::Discouraged(what) => discouraged_word(what).place,
        }
    }

    /// The number of its kind, by which kinds at one word are ordered.
    fn kind(self) -> u8
        ensures { result ≡ kind_of_fault (seen_what self.entry) }
    {
        match self {
            What::Wordless(_) => 0,
            What::Unfit(Misfit::Unknown(_)) => 1,
            What::Unfit(Misfit::Numbered(_)) => 2,
            What::Unfit(Misfit::NotAlone(_)) => 3,
            What::Forbidden(_, _) => 4,
            What::Discouraged(Discouraged::Modifies(_)) => 5,
            What::Discouraged(Discouraged::Uses(_)) => 6,
        }
    }

    /// The word that it tells.
    fn word(self) -> &'a [u8]
        ensures { result.now ≡ word_of_fault (seen_what self.entry) }
    {
        match self {
            What::Wordless(_) => b"",
            What::Unfit(misfit) => misfit_word(misfit).text,
            What::Forbidden(word, _) => word.text,
            What::Discouraged(what) => discouraged_word(what).text,
        }
    }
}

impl<'a> ScriptFault<'a> {
    /// By what it is ordered: faults with one key are one.
    fn key(self) -> Key<'a>
        ensures { seen_key result ≡ key_of (seen_fault self.entry) }
    {
        let what = self.what;
        (self.script, what.place(), what.kind(), what.word())
    }
}

/// Faults by their keys, the last of several that are one.
fn placed_of<'a>(
    alloc: Global,
    faults: &[ScriptFault<'a>],
) -> Result<BTreeMap<Key<'a>, ScriptFault<'a>>, AllocError>
    ensures { IfOk result (IsPlaced (map seen_fault faults.now)) }
{
    let mut placed = BTreeMap::new(alloc);
    for fault in faults {
        placed.insert(fault.key(), *fault)?;
    }
    Ok(placed)
}

/// Faults in the order of their keys.
fn values_of<'a>(
    alloc: Global,
    placed: &BTreeMap<Key<'a>, ScriptFault<'a>>,
) -> Result<Vec<ScriptFault<'a>>, AllocError>
    ensures values { IfOk result (λ faults. faults.items ≡ values placed.now) }
    ensures ordered { IsOrdered code_order placed.now }
{
    placed.values().copied().collect(alloc)
}

/// Faults in order, each once.
pub(crate) fn in_order<'a>(
    alloc: Global,
    faults: &[ScriptFault<'a>],
) -> Result<Vec<ScriptFault<'a>>, AllocError>
    ensures { IfOk result (λ ordered. AreOrdered (map seen_fault faults.now) (map seen_fault ordered.items)) }
{
    let placed = placed_of(alloc, faults)?;
    values_of(alloc, &placed)
}
