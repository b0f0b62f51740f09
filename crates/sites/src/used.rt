//! What some assertions of a source use: symbols, and the `$f` that are active there.

ghost use Rattle.std.specs.Prelude.{◌≡◌, ◌<◌, ◌||◌, length, IfOk, OnOk, Some, slice_get};
ghost use Rattle.std.specs.List.{list_any};
ghost use Rattle.mmtext.specs.Words.{Word};
ghost use Rattle.source.specs.Scopes.{Assertion, is_in};
ghost use Rattle.source.specs.Views.{has, seen_words, seen_hypothesis};
ghost use Rattle.sites.specs.Given.{given_hypotheses};
ghost use Rattle.taking.specs.Names.{is_symbol_of, is_symbol_of_hypothesis};
ghost use Rattle.source.specs.Flags.{kept};
ghost use Rattle.sites.specs.Used.{noted, typed_by, typed, Uses};

use crate::given::active_at;
use source::{Declared, HypothesisWords};
use std::alloc::{AllocError, Global};
use std::collections::{HashMap, HashSet};
use std::hash::RandomState;

/// The symbols that stand in some assertions or in their active hypotheses, and by its label the type and the variable of each active `$f`.
pub(crate) struct Used<'a> {
    pub(crate) symbols: HashSet<&'a [u8], RandomState>,
    pub(crate) floats: HashMap<&'a [u8], (&'a [u8], &'a [u8]), RandomState>,
}

// Proved here once: a derived drop is proved again at each exit that drops such a value.
impl<'a> Drop for Used<'a> {
    fn drop(self) {
        let Used {
            symbols: _,
            floats: _,
        } = self;
    }
}

/// Notes words.
fn note_words<'a>(
    symbols: &mut HashSet<&'a [u8], RandomState>,
    words: &[&'a [u8]],
) -> Result<(), AllocError>
    ensures { OnOk result ((w : Word) → has symbols.new w ≡ (has symbols.old w || is_in (seen_words words.now) w)) }
{
    for word in words {
        symbols.insert(*word)?;
    }
    Ok(())
}

/// Notes what stands in a hypothesis.
fn note_hypothesis<'a>(
    used: &mut Used<'a>,
    hypothesis: &HypothesisWords<'a>,
) -> Result<(), AllocError>
    ensures symbols { OnOk result ((w : Word)
        → has used.new.symbols w ≡ (has used.old.symbols w || is_symbol_of_hypothesis w (seen_hypothesis hypothesis.now))) }
    ensures floats { OnOk result ((w : Word) → noted used.new w ≡ typed_by w (noted used.old w) (seen_hypothesis hypothesis.now)) }
{
    match hypothesis {
        HypothesisWords::Typing(label, kind, variable) => {
            used.symbols.insert(*kind)?;
            used.floats.insert(*label, (*kind, *variable))?;
        }
        HypothesisWords::Premise(_, words) => note_words(&mut used.symbols, words.as_slice())?,
    }
    Ok(())
}

/// Notes what stands in hypotheses.
fn note_hypotheses<'a>(
    used: &mut Used<'a>,
    hypotheses: &[HypothesisWords<'a>],
) -> Result<(), AllocError>
    ensures symbols { OnOk result ((w : Word)
        → has used.new.symbols w ≡ (has used.old.symbols w || list_any (is_symbol_of_hypothesis w) (given_hypotheses hypotheses.now))) }
    ensures floats { OnOk result ((w : Word) → noted used.new w ≡ typed w (noted used.old w) (given_hypotheses hypotheses.now)) }
{
    for hypothesis in hypotheses {
        note_hypothesis(used, hypothesis)?;
    }
    Ok(())
}

/// Notes the words of the assertion at a place.
fn note_statement<'a, D: Declared<'a>>(
    symbols: &mut HashSet<&'a [u8], RandomState>,
    declared: &D,
    place: usize,
) -> Result<(), AllocError>
    ensures { OnOk result ((x : Assertion) (w : Word) → slice_get (D.scope declared.now).assertions place ≡ Some x
        → has symbols.new w ≡ (has symbols.old w || is_in x.statement w)) }
{
    match declared.statement(place) {
        Some(statement) => note_words(symbols, statement),
        None => Ok(()),
    }
}

/// Notes what the assertion at a place uses.
fn note_assertion<'a, D: Declared<'a>>(
    alloc: Global,
    used: &mut Used<'a>,
    declared: &D,
    place: usize,
) -> Result<(), AllocError>
    requires { place < length (D.scope declared.now).assertions }
    ensures symbols { OnOk result ((x : Assertion) (w : Word) → slice_get (D.scope declared.now).assertions place ≡ Some x
        → has used.new.symbols w ≡ (has used.old.symbols w || is_symbol_of w x)) }
    ensures floats { OnOk result ((x : Assertion) (w : Word) → slice_get (D.scope declared.now).assertions place ≡ Some x
        → noted used.new w ≡ typed w (noted used.old w) x.active) }
{
    let active = active_at(alloc, declared, place)?;
    note_statement(&mut used.symbols, declared, place)?;
    note_hypotheses(used, active.as_slice())
}

/// What the assertions use that flags choose by their places.
pub(crate) fn used_by<'a, D: Declared<'a>>(
    alloc: Global,
    keys: RandomState,
    declared: &D,
    chosen: &[bool],
) -> Result<Used<'a>, AllocError>
    requires { length chosen.now ≡ length (D.scope declared.now).assertions }
    ensures { IfOk result (λ used. Uses used (kept chosen.now (D.scope declared.now).assertions)) }
{
    let mut used = Used {
        symbols: HashSet::with_hasher(alloc, keys),
        floats: HashMap::with_hasher(alloc, keys),
    };
    for (place, is_chosen) in chosen.iter().enumerate() {
        if *is_chosen {
            note_assertion(alloc, &mut used, declared, place)?;
        }
    }
    Ok(used)
}
