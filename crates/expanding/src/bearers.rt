//! Who may have a label while scripts run.

ghost use Rattle.std.specs.Prelude.{◌≡◌, ◌⊎◌, All, Bool, IfOk, List, OnOk, ◌∷◌, [], Contains};
ghost use Rattle.mmtext.specs.Words.{Word};
ghost use Rattle.source.specs.Scopes.{is_in};
ghost use Rattle.source.specs.Views.{seen_words, seen_pairs};
ghost use Rattle.expanding.specs.Called.{AreBearers, is_borne, new_labels, nobody, only};
ghost use Rattle.expanding.specs.Bearing.{AreRenames, bearers_for, seen_bearers, AreAmong, room, AreBacked, AllBacked, Rises, IsSpreadBut};

use crate::renamed::Renames;
use std::alloc::{AllocError, Global};
use std::collections::HashMap;
use std::hash::RandomState;

/// Which of some assertions may have a label, each known by its first one.
#[derive(Clone, Copy)]
pub(crate) enum Bearers<'a> {
    /// None of them.
    Nobody,
    /// Just this one.
    Only(&'a [u8]),
    /// Two at least.
    Several,
}

/// From labels to those that may have them. What isn't there nobody has.
pub(crate) type Called<'a> = HashMap<&'a [u8], Bearers<'a>, RandomState>;

/// Those that may have a label: one look-up.
pub(crate) fn bearers_for<'a>(called: &Called<'a>, label: &[u8]) -> Bearers<'a>
    ensures { seen_bearers result ≡ bearers_for called.now label.now }
{
    match called.get(&label) {
        Some(bearers) => *bearers,
        None => Bearers::Nobody,
    }
}

impl<'a> Bearers<'a> {
    /// Whether there are some.
    pub(crate) fn is_borne(self) -> bool
        ensures { result ≡ is_borne (seen_bearers self.entry) }
    {
        match self {
            Bearers::Nobody => false,
            _ => true,
        }
    }

    /// These and others.
    fn with(self, others: Bearers<'a>) -> Bearers<'a>
        ensures these { AreAmong (seen_bearers self.entry) (seen_bearers result) }
        ensures others { AreAmong (seen_bearers others.entry) (seen_bearers result) }
        ensures backed { (rs : List (Word × Word)) (test : Word → Bool) (w : Word) → AreBacked rs test w (seen_bearers self.entry)
            → AreBacked rs test w (seen_bearers others.entry) → AreBacked rs test w (seen_bearers result) }
    {
        match (self, others) {
            (Bearers::Nobody, others) => others,
            (these, Bearers::Nobody) => these,
            (Bearers::Only(label), Bearers::Only(other)) if label == other => self,
            _ => Bearers::Several,
        }
    }

    /// How often more may still be found.
    fn room(self) -> usize
        ensures { result ≡ room (seen_bearers self.entry) }
    {
        match self {
            Bearers::Nobody => 2,
            Bearers::Only(_) => 1,
            Bearers::Several => 0,
        }
    }
}

/// Some more may have a label, which is noted where it is new.
fn raise<'a>(
    called: &mut Called<'a>,
    todo: &mut Vec<&'a [u8]>,
    label: &'a [u8],
    more: Bearers<'a>,
) -> Result<(), AllocError>
    ensures rises { OnOk result (Rises (label.now ∷ []) (bearers_for called.old) (bearers_for called.new)
        (seen_words todo.old.items) (seen_words todo.new.items)) }
    ensures raised { OnOk result (AreAmong (seen_bearers more.entry) (bearers_for called.new label.now)) }
    ensures backed { (rs : List (Word × Word)) (test : Word → Bool) → AllBacked rs test (bearers_for called.old)
        → AreBacked rs test label.now (seen_bearers more.entry) → OnOk result (AllBacked rs test (bearers_for called.new)) }
{
    let old = bearers_for(called, label);
    let new = old.with(more);
    if new.room() < old.room() {
        called.insert(label, new)?;
        todo.push(label)?;
    }
    Ok(())
}

/// Some more may have each of some labels.
fn raise_all<'a>(
    called: &mut Called<'a>,
    todo: &mut Vec<&'a [u8]>,
    labels: &[&'a [u8]],
    more: Bearers<'a>,
) -> Result<(), AllocError>
    ensures rises { OnOk result (Rises (seen_words labels.now) (bearers_for called.old) (bearers_for called.new)
        (seen_words todo.old.items) (seen_words todo.new.items)) }
    ensures raised { OnOk result ((w : Word) → Contains (seen_words labels.now) w
        → AreAmong (seen_bearers more.entry) (bearers_for called.new w)) }
    ensures backed { (rs : List (Word × Word)) (test : Word → Bool) → AllBacked rs test (bearers_for called.old)
        → ((w : Word) → Contains (seen_words labels.now) w → AreBacked rs test w (seen_bearers more.entry))
        → OnOk result (AllBacked rs test (bearers_for called.new)) }
{
    for label in labels {
        raise(called, todo, label, more)?;
    }
    Ok(())
}

/// What may have a label may have those that renames make of it.
fn raise_next<'a>(
    renames: &Renames<'a>,
    called: &mut Called<'a>,
    todo: &mut Vec<&'a [u8]>,
    label: &'a [u8],
) -> Result<(), AllocError>
    ensures rises { (rs : List (Word × Word)) → AreRenames rs renames.now → OnOk result (Rises (new_labels rs label.now)
        (bearers_for called.old) (bearers_for called.new) (seen_words todo.old.items) (seen_words todo.new.items)) }
    ensures raised { (rs : List (Word × Word)) → AreRenames rs renames.now → OnOk result ((w : Word)
        → Contains (new_labels rs label.now) w → AreAmong (bearers_for called.old label.now) (bearers_for called.new w)) }
    ensures backed { (rs : List (Word × Word)) (test : Word → Bool) → AreRenames rs renames.now
        → AllBacked rs test (bearers_for called.old) → OnOk result (AllBacked rs test (bearers_for called.new)) }
{
    let bearers = bearers_for(called, label);
    match renames.new_labels(label) {
        Some(labels) => raise_all(called, todo, labels.as_slice(), bearers),
        None => Ok(()),
    }
}

/// What may have a label may have each that renames make of it.
fn spread<'a>(
    renames: &Renames<'a>,
    called: &mut Called<'a>,
    todo: &mut Vec<&'a [u8]>,
) -> Result<(), AllocError>
    requires renames { AreRenames (seen_pairs renames.now.pairs.items) renames.now }
    requires begun { IsSpreadBut (seen_pairs renames.now.pairs.items) (bearers_for called.now) (seen_words todo.now.items) }
    ensures spread { OnOk result (IsSpreadBut (seen_pairs renames.now.pairs.items) (bearers_for called.new) []) }
    ensures up { OnOk result ((w : Word) → AreAmong (bearers_for called.old w) (bearers_for called.new w)) }
    ensures backed { (test : Word → Bool) → AllBacked (seen_pairs renames.now.pairs.items) test (bearers_for called.old)
        → OnOk result (AllBacked (seen_pairs renames.now.pairs.items) test (bearers_for called.new)) }
{
    while let Some(label) = todo.pop() {
        raise_next(renames, called, todo, label)?;
    }
    Ok(())
}

/// Each of some labels is that of the assertion which has it first.
fn begin<'a>(
    called: &mut Called<'a>,
    todo: &mut Vec<&'a [u8]>,
    labels: &[&'a [u8]],
) -> Result<(), AllocError>
    requires empty { (w : Word) → bearers_for called.now w ≡ nobody }
    requires none { todo.now.items ≡ [] }
    ensures noted { OnOk result ((w : Word) → Contains (seen_words todo.new.items) w ⊎ (bearers_for called.new w ≡ nobody)) }
    ensures each { OnOk result (All (λ w. AreAmong (only w) (bearers_for called.new w)) (seen_words labels.now)) }
    ensures backed { (rs : List (Word × Word)) → OnOk result (AllBacked rs (is_in (seen_words labels.now)) (bearers_for called.new)) }
{
    for label in labels {
        raise(called, todo, label, Bearers::Only(label))?;
    }
    Ok(())
}

/// Which of the assertions with these labels may have a label while scripts run, of which these are the renames.
///
/// It costs a look-up for each rename, for each of the labels, and for each of the two times that more are found for a label.
pub(crate) fn called_of<'a>(
    alloc: Global,
    keys: RandomState,
    renames: &Renames<'a>,
    labels: &[&'a [u8]],
) -> Result<Called<'a>, AllocError>
    requires { AreRenames (seen_pairs renames.now.pairs.items) renames.now }
    ensures { IfOk result (λ called. (w : Word)
        → AreBearers (seen_pairs renames.now.pairs.items) (is_in (seen_words labels.now)) w (bearers_for called w)) }
{
    let mut called = HashMap::with_hasher(alloc, keys);
    let mut todo = Vec::new(alloc);
    begin(&mut called, &mut todo, labels)?;
    spread(renames, &mut called, &mut todo)?;
    Ok(called)
}
