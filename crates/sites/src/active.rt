//! What words are where an assertion stands.

ghost use Rattle.std.specs.Prelude.{◌≡◌, ◌++◌, ◌∷◌, [], List, IfOk, OnOk};
ghost use Rattle.std.specs.Str.{bytes_eq};
ghost use Rattle.mmsyntax.specs.Tables.{place_of};
ghost use Rattle.source.specs.Scopes.{Hypothesis};
ghost use Rattle.source.specs.Views.{seen_hypothesis};
ghost use Rattle.sites.specs.Given.{given_hypotheses};
ghost use Rattle.taking.specs.Says.{symbol_at};
ghost use Rattle.sites.specs.Actives.{float_at, FindsFloats};

use crate::sites::Sites;
use mmsyntax::Symbol;
use source::HypothesisWords;
use std::alloc::{AllocError, Global};
use std::collections::HashMap;
use std::hash::RandomState;
use std::marker::Model;
use taking::SymbolPlaces;

/// Which symbols of a library words have where some hypotheses are active: constants, and the variables of the active `$f`.
pub struct Active<'s, 'a> {
    sites: &'s Sites<'a>,
    hypotheses: &'s [HypothesisWords<'a>],
    floats: HashMap<&'a [u8], Option<u32>, RandomState>,
}

// Proved here once: a derived drop is proved again in each crate that drops such a value.
impl<'s, 'a> Drop for Active<'s, 'a> {
    fn drop(self) {
        let Active {
            sites: _,
            hypotheses: _,
            floats: _,
        } = self;
    }
}

impl<'s, 'a> Model for Active<'s, 'a> {
    ghost use Rattle.sites.specs.Given.{given_hypotheses};
    ghost use Rattle.sites.specs.Actives.{Placed, FindsFloats};

    ghost Value = { Placed };

    ghost view = { λ a. record {
      constants = a.sites.now.constants;
      floats = a.sites.now.floats;
      active = given_hypotheses a.hypotheses.now;
    } };

    ghost invariant = { λ a. FindsFloats a.floats a.sites.now.floats (given_hypotheses a.hypotheses.now) };
}

impl<'s, 'a> Active<'s, 'a> {
    /// The places where these hypotheses are active. It costs as much as they are.
    pub fn new(
        alloc: Global,
        keys: RandomState,
        sites: &'s Sites<'a>,
        hypotheses: &'s [HypothesisWords<'a>],
    ) -> Result<Active<'s, 'a>, AllocError>
        ensures { IfOk result (λ made. made ≡ record {
          constants = sites.now.constants;
          floats = sites.now.floats;
          active = given_hypotheses hypotheses.now;
        }) }
    {
        let floats = first_floats(alloc, keys, sites, hypotheses)?;
        Ok(Active {
            sites,
            hypotheses,
            floats,
        })
    }

    /// The active hypotheses.
    pub fn hypotheses(&self) -> &[HypothesisWords<'a>]
        ensures { given_hypotheses result.now ≡ self.now.active }
    {
        self.hypotheses
    }

    /// The place of the active `$f` of a variable, if it has one: one look-up.
    pub fn variable(&self, word: &[u8]) -> Option<u32>
        ensures { result ≡ float_at self.now word.now }
    {
        match self.floats.get(&word) {
            Some(place) => *place,
            None => None,
        }
    }
}

impl<'s, 'a> SymbolPlaces for Active<'s, 'a> {
    ghost placed = { λ a w. symbol_at (place_of (bytes_eq w) a.constants) (float_at a w) };

    fn symbol(&self, word: &[u8]) -> Option<Symbol> {
        match self.sites.constant(word) {
            Some(place) => Some(Symbol::Const(place)),
            None => self.variable(word).map(Symbol::Var),
        }
    }
}

/// Notes the place of one more `$f`, if it is the first of its variable. After an error nothing is said of the map.
fn note_float<'a>(
    floats: &mut HashMap<&'a [u8], Option<u32>, RandomState>,
    sites: &Sites<'a>,
    hypothesis: &HypothesisWords<'a>,
) -> Result<(), AllocError>
    ensures { OnOk result ((hs : List Hypothesis) → FindsFloats floats.old sites.now.floats hs
        → FindsFloats floats.new sites.now.floats (hs ++ seen_hypothesis hypothesis.now ∷ [])) }
{
    if let HypothesisWords::Typing(label, _, variable) = hypothesis {
        if !floats.contains_key(variable) {
            floats.insert(*variable, sites.float(label))?;
        }
    }
    Ok(())
}

/// The places of the first `$f` of variables.
fn first_floats<'a>(
    alloc: Global,
    keys: RandomState,
    sites: &Sites<'a>,
    hypotheses: &[HypothesisWords<'a>],
) -> Result<HashMap<&'a [u8], Option<u32>, RandomState>, AllocError>
    ensures { IfOk result (λ made. FindsFloats made sites.now.floats (given_hypotheses hypotheses.now)) }
{
    let mut floats = HashMap::with_hasher(alloc, keys);
    for hypothesis in hypotheses {
        note_float(&mut floats, sites, hypothesis)?;
    }
    Ok(floats)
}
