//! What is known of the assertions while a text is read.

ghost use Rattle.std.specs.Prelude.{◌≡◌, ◌<◌, ◌^◌, ◌++◌, ◌∷◌, true, [], length, IfOk, OnOk};
ghost use Rattle.mmsyntax.specs.Rows.{no_units, is_assertion_label, is_unit_label, is_used, clashes};
ghost use Rattle.mmsyntax.specs.Faults.{first_of};
ghost use Rattle.mmunits.specs.Labels.{FindsTrunkToo};
ghost use Rattle.mmunits.specs.Views.{known_of};
ghost use Rattle.mmunits.specs.WordMaps.{FindsToo};

use crate::word_map::{put_at, put_if_none};
use mmsyntax::{Assertion, Label, SymbolTable, trunk};
use std::alloc::{AllocError, Global};
use std::collections::HashMap;
use std::hash::RandomState;
use std::marker::Model;
use std::mem;

/// Whose label a word is.
#[derive(Clone, Copy, PartialEq, Eq)]
pub(crate) enum Owner {
    Assertion,
    /// A `$e`, and no assertion.
    Hypothesis,
}

/// The assertions so far, and whether `$c`, `$v` and `$f` are over. One map has their labels and those of all `$e`; the other has each L of
/// which an assertion has the label `L.k`.
#[derive(Drop)]
pub struct Units {
    assertions: Vec<Assertion>,
    hypothesis_labels: Vec<Label>,
    prelude_closed: bool,
    labels: HashMap<Vec<u8>, Owner, RandomState>,
    trunks: HashMap<Vec<u8>, (), RandomState>,
}

impl Model for Units {
    ghost use Rattle.mmsyntax.specs.Rows.{Units as Seen};
    ghost use Rattle.mmunits.specs.Labels.{HasLabels};

    ghost Value = { Seen };

    ghost view = { λ u. record {
      assertions = u.assertions.items;
      hypothesis_labels = u.hypothesis_labels.items;
      prelude_closed = u.prelude_closed;
    } };

    ghost invariant = { λ u. HasLabels u.labels u.trunks (record {
      assertions = u.assertions.items;
      hypothesis_labels = u.hypothesis_labels.items;
      prelude_closed = u.prelude_closed;
    }) };
}

impl Units {
    /// No assertion and no `$e`, behind the prelude or not. `keys` make the hashes of the maps inside.
    pub fn new(alloc: Global, keys: RandomState, prelude_closed: bool) -> Self
        ensures { result ≡ no_units prelude_closed }
    {
        Units {
            assertions: Vec::new(alloc),
            hypothesis_labels: Vec::new(alloc),
            prelude_closed,
            labels: HashMap::with_hasher(alloc, keys),
            trunks: HashMap::with_hasher(alloc, keys),
        }
    }

    /// The keys from which its maps draw their hashes.
    pub fn keys(&self) -> RandomState {
        *self.labels.hasher()
    }

    /// Whether `$c`, `$v` and `$f` are over.
    pub fn is_prelude_closed(&self) -> bool
        ensures { result ≡ self.now.prelude_closed }
    {
        self.prelude_closed
    }

    /// How many assertions stand.
    pub fn count(&self) -> usize
        ensures { result ≡ length self.now.assertions }
    {
        self.assertions.len()
    }

    /// Whether an earlier assertion or `$e` has the label.
    pub fn has_label(&self, word: &[u8]) -> bool
        ensures { result ≡ is_unit_label self.now word.now }
    {
        self.labels.contains_key(word)
    }

    /// Whether an earlier assertion has the label.
    fn has_assertion(&self, word: &[u8]) -> bool
        ensures { result ≡ is_assertion_label self.now.assertions word.now }
    {
        self.labels.get(word) == Some(&Owner::Assertion)
    }

    /// Whether a label clashes with that of an earlier assertion: of the two, one is `L.k` of the other. Two look-ups in maps.
    pub fn has_clash(&self, word: &[u8]) -> bool
        ensures { result ≡ clashes self.now.assertions word.now }
    {
        let trunk = trunk(word);
        (trunk.len() < word.len() && self.has_assertion(trunk)) || self.trunks.contains_key(word)
    }

    /// One more label of a `$e`.
    pub fn add_hypothesis_label(&mut self, alloc: Global, label: &[u8]) -> Result<(), AllocError>
        ensures { OnOk result (self.new ≡ record self.old { hypothesis_labels = self.old.hypothesis_labels ++ label.now ∷ [] }) }
    {
        let kept = Label::from_slice(alloc, label)?;
        self.hypothesis_labels.push(kept)?;
        // An assertion that has the label stays its owner.
        match put_if_none(alloc, &mut self.labels, label, Owner::Hypothesis) {
            Ok(()) => Ok(()),
            Err(error) => {
                let _ = self.hypothesis_labels.pop();
                Err(error)
            }
        }
    }

    /// One more assertion, which closes the prelude. Where memory runs out, none is left.
    pub fn add_assertion(&mut self, alloc: Global, assertion: Assertion) -> Result<(), AllocError>
        ensures { OnOk result
            (self.new ≡ record self.old { assertions = self.old.assertions ++ assertion ∷ []; prelude_closed = true }) }
    {
        let none = Units::new(alloc, self.keys(), true);
        *self = mem::replace(self, none).with_assertion(alloc, assertion)?;
        Ok(())
    }

    fn with_assertion(mut self, alloc: Global, assertion: Assertion) -> Result<Units, AllocError>
        ensures { IfOk result (λ made. made ≡ record self { assertions = self.assertions ++ assertion ∷ []; prelude_closed = true }) }
    {
        let label = assertion.label.as_slice();
        put_label(alloc, &mut self.labels, &mut self.trunks, label)?;
        self.assertions.push(assertion)?;
        self.prelude_closed = true;
        Ok(self)
    }

    /// All assertions, in order.
    pub fn into_assertions(self) -> Vec<Assertion>
        ensures { result.items ≡ self.assertions }
    {
        self.assertions
    }

    /// The first assertion, if there is one.
    pub fn into_first(self) -> Option<Assertion>
        ensures { result ≡ first_of self.assertions }
    {
        self.assertions.into_iter().next()
    }
}

/// Puts the L of a label `L.k`, if it is such a one.
fn put_trunk(
    alloc: Global,
    trunks: &mut HashMap<Vec<u8>, (), RandomState>,
    label: &[u8],
) -> Result<(), AllocError>
    ensures { OnOk result (FindsTrunkToo trunks.old label.now trunks.new) }
{
    let trunk = trunk(label);
    if trunk.len() < label.len() {
        put_at(alloc, trunks, trunk, ())?;
    }
    Ok(())
}

/// Puts the label of an assertion, and its L where it is `L.k`.
fn put_label(
    alloc: Global,
    labels: &mut HashMap<Vec<u8>, Owner, RandomState>,
    trunks: &mut HashMap<Vec<u8>, (), RandomState>,
    label: &[u8],
) -> Result<(), AllocError>
    ensures labels { OnOk result (FindsToo labels.old label.now Owner.Assertion labels.new) }
    ensures trunks { OnOk result (FindsTrunkToo trunks.old label.now trunks.new) }
{
    put_at(alloc, labels, label, Owner::Assertion)?;
    put_trunk(alloc, trunks, label)
}

/// Whether an earlier symbol or label is the word.
pub fn has_name(symbols: &SymbolTable, units: &Units, word: &[u8]) -> bool
    ensures { result ≡ is_used (known_of symbols.now units.now) word.now }
{
    symbols.look_up(word).is_some() || units.has_label(word)
}
