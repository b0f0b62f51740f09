//! The variables of an assertion's mandatory hypotheses, each of which is found by a look-up where they are many.

ghost use Rattle.std.specs.Prelude.{◌≡◌, IfOk, OnOk, None, Some, map, if◌then◌else◌};
ghost use Rattle.std.specs.Option.{option_or};
ghost use Rattle.mmtext.specs.Words.{Word};
ghost use Rattle.mmsyntax.specs.Tables.{place_of};
ghost use Rattle.source.specs.Views.{seen_hypothesis, seen_hypotheses};
ghost use Rattle.sourceframes.specs.Names.{looks_up};
ghost use Rattle.sourceframes.specs.Frames.{variable_of, seen_variable, is_that, ArePlaced, AreVariables};

use source::HypothesisWords;
use std::alloc::{AllocError, Global};
use std::collections::HashMap;
use std::marker::Model;
use wordkeys::WordKeys;

/// The most hypotheses that are gone through one by one: sooner done than a look-up.
const FEW: usize = 8;

/// The variables of `$f`, in the places of their hypotheses. Contracts see them as a list.
#[derive(Drop)]
pub(crate) struct Variables<'a> {
    listed: Vec<Option<&'a [u8]>>,
    /// The place of the first `$f` of each, where they are many.
    places: Option<HashMap<&'a [u8], usize, WordKeys>>,
}

impl<'a> Model for Variables<'a> {
    ghost use Rattle.std.specs.Prelude.{List, Option, IfSome, map};
    ghost use Rattle.mmtext.specs.Words.{Word};
    ghost use Rattle.sourceframes.specs.Frames.{seen_variable, ArePlaced};

    ghost Value = { List (Option Word) };

    ghost view = { λ v. map seen_variable v.listed.items };

    ghost invariant = { λ v. IfSome v.places (ArePlaced (map seen_variable v.listed.items)) };
}

/// The variable of a `$f`.
pub(crate) fn variable_of<'a>(hypothesis: &HypothesisWords<'a>) -> Option<&'a [u8]>
    ensures { seen_variable result ≡ variable_of (seen_hypothesis hypothesis.now) }
{
    match hypothesis {
        HypothesisWords::Typing(_, _, variable) => Some(*variable),
        HypothesisWords::Premise(..) => None,
    }
}

/// The variable of each hypothesis that is a `$f`.
fn listed_of<'a>(
    alloc: Global,
    hypotheses: Vec<&HypothesisWords<'a>>,
) -> Result<Vec<Option<&'a [u8]>>, AllocError>
    ensures { IfOk result (λ made. AreVariables (seen_hypotheses hypotheses.entry.items) (map seen_variable made.items)) }
{
    let mut listed = Vec::with_capacity(alloc, hypotheses.len())?;
    for hypothesis in hypotheses {
        listed.push(variable_of(hypothesis))?;
    }
    Ok(listed)
}

/// Whether a word is this variable.
fn is_that(variable: Option<&[u8]>, word: &[u8]) -> bool
    ensures { result ≡ is_that word.now (seen_variable variable.entry) }
{
    match variable {
        None => false,
        Some(variable) => word == variable,
    }
}

/// The place of the first `$f` of a variable, by going through them.
fn first_place(listed: &[Option<&[u8]>], word: &[u8]) -> Option<usize>
    ensures { result ≡ place_of (is_that word.now) (map seen_variable listed.now) }
{
    for (place, variable) in listed.iter().enumerate() {
        if is_that(*variable, word) {
            return Some(place);
        }
    }
    None
}

/// Notes the place of a variable that has none yet.
fn note_place<'a>(
    places: &mut HashMap<&'a [u8], usize, WordKeys>,
    variable: Option<&'a [u8]>,
    place: usize,
) -> Result<(), AllocError>
    ensures { OnOk result ((w : Word) → looks_up places.new w
        ≡ option_or (looks_up places.old w) (if is_that w (seen_variable variable.entry) then Some place else None)) }
{
    if let Some(variable) = variable
        && !places.contains_key(&variable)
    {
        places.insert(variable, place)?;
    }
    Ok(())
}

/// The place of the first `$f` of each variable.
fn places_of<'a>(
    alloc: Global,
    keys: WordKeys,
    listed: &[Option<&'a [u8]>],
) -> Result<HashMap<&'a [u8], usize, WordKeys>, AllocError>
    ensures { IfOk result (ArePlaced (map seen_variable listed.now)) }
{
    let mut places = HashMap::with_hasher(alloc, keys);
    for (place, variable) in listed.iter().enumerate() {
        note_place(&mut places, *variable, place)?;
    }
    Ok(places)
}

impl<'a> Variables<'a> {
    /// The variables of these hypotheses.
    ///
    /// # Errors
    ///
    /// Want of memory.
    pub(crate) fn new(
        alloc: Global,
        keys: WordKeys,
        hypotheses: Vec<&HypothesisWords<'a>>,
    ) -> Result<Variables<'a>, AllocError>
        ensures { IfOk result (AreVariables (seen_hypotheses hypotheses.entry.items)) }
    {
        let listed = listed_of(alloc, hypotheses)?;
        if listed.len() <= FEW {
            return Ok(Variables {
                listed,
                places: None,
            });
        }
        let places = places_of(alloc, keys, listed.as_slice())?;
        Ok(Variables {
            listed,
            places: Some(places),
        })
    }

    /// The place of the first `$f` of a variable, from 0.
    pub(crate) fn place_of(&self, word: &[u8]) -> Option<usize>
        ensures { result ≡ place_of (is_that word.now) self.now }
    {
        match &self.places {
            Some(places) => places.get(&word).copied(),
            None => first_place(self.listed.as_slice(), word),
        }
    }
}
