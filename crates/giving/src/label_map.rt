//! Changed labels, with a fast look-up.

ghost use Rattle.std.specs.Prelude.{◌≡◌, ◌↔◌, IfOk, IsTrue, find};
ghost use Rattle.std.specs.Option.{option_map};
ghost use Rattle.std.specs.Str.{bytes_eq};
ghost use Rattle.source.specs.Views.{seen_pairs};
ghost use Rattle.giving.specs.Staying.{changed};
ghost use Rattle.giving.specs.Changes.{FindsChanges, seen_texts};

use std::alloc::{AllocError, Global};
use std::collections::HashMap;
use std::hash::RandomState;
use std::marker::Model;

/// Labels of assertions, each with what is to stand in its place: its new label, or the text of another proof. A clause sees these pairs:
/// the map is for look-ups alone.
pub struct LabelMap<'a> {
    pairs: Vec<(&'a [u8], &'a [u8])>,
    labels: HashMap<&'a [u8], &'a [u8], RandomState>,
}

// Proved here once: a derived drop is proved again in each crate that drops such a value.
impl<'a> Drop for LabelMap<'a> {
    fn drop(self) {
        let LabelMap {
            pairs: _,
            labels: _,
        } = self;
    }
}

impl<'a> Model for LabelMap<'a> {
    ghost use Rattle.std.specs.Prelude.{List};
    ghost use Rattle.source.specs.Views.{seen_pairs};
    ghost use Rattle.giving.specs.Staying.{Change};
    ghost use Rattle.giving.specs.Changes.{FindsChanges};

    ghost Value = { List Change };

    ghost view = { λ s. seen_pairs s.pairs.items };

    ghost invariant = { λ s. FindsChanges s.labels (seen_pairs s.pairs.items) };
}

impl<'a> LabelMap<'a> {
    /// Labels with their new ones: of two changes of one label the first counts. The map draws its hashes from the keys.
    ///
    /// # Errors
    ///
    /// Want of memory for the map.
    pub fn new(
        alloc: Global,
        keys: RandomState,
        pairs: Vec<(&'a [u8], &'a [u8])>,
    ) -> Result<LabelMap<'a>, AllocError>
        ensures { IfOk result (λ made. made ≡ seen_pairs pairs.entry.items) }
    {
        let labels = first_changes(alloc, keys, pairs.as_slice())?;
        Ok(LabelMap { pairs, labels })
    }

    /// Labels with texts, of which the map lends each: of two texts for one label the first counts.
    ///
    /// # Errors
    ///
    /// Want of memory.
    pub fn of_texts(
        alloc: Global,
        keys: RandomState,
        texts: &'a [(&'a [u8], Vec<u8>)],
    ) -> Result<LabelMap<'a>, AllocError>
        ensures { IfOk result (λ made. made ≡ seen_texts texts.now) }
    {
        let mut pairs = Vec::new(alloc);
        for (label, text) in texts {
            pairs.push((*label, text.as_slice()))?;
        }
        LabelMap::new(alloc, keys, pairs)
    }

    /// What stands in the place of a label, if anything does: one look-up.
    pub fn text_for(&self, old: &[u8]) -> Option<&'a [u8]>
        ensures { option_map (λ w. w.now) result ≡ option_map (λ c. c.1) (find (λ c. bytes_eq old.now c.0) self.now) }
    {
        self.labels.get(&old).copied()
    }

    /// Whether a label reads so once it is changed: one look-up.
    pub(crate) fn leads(&self, old: &[u8], new: &[u8]) -> bool
        ensures { IsTrue result ↔ (changed self.now old.now ≡ new.now) }
    {
        match self.text_for(old) {
            Some(label) => label == new,
            None => old == new,
        }
    }
}

/// A map from labels to the first of their new ones.
fn first_changes<'a>(
    alloc: Global,
    keys: RandomState,
    pairs: &[(&'a [u8], &'a [u8])],
) -> Result<HashMap<&'a [u8], &'a [u8], RandomState>, AllocError>
    ensures { IfOk result (λ made. FindsChanges made (seen_pairs pairs.now)) }
{
    let mut labels = HashMap::with_hasher(alloc, keys);
    for (old, new) in pairs {
        if !labels.contains_key(old) {
            labels.insert(*old, *new)?;
        }
    }
    Ok(labels)
}
