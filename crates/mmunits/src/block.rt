//! What a block holds before its assertion.

ghost use Rattle.std.specs.Prelude.{◌≡◌, ◌<◌, ℕ, Some, length, map, IfOk, OnOk};
ghost use Rattle.mmsyntax.specs.Blocks.{no_block, with_pairs, with_hypothesis};
ghost use Rattle.mmsyntax.specs.Steps.{hypothesis_named};
ghost use Rattle.mmsyntax.specs.declared.limits.TheConstants.{MOST_HYPOTHESES};

use crate::pair_set::PairSet;
use crate::word_map::put_if_none;
use mmsyntax::Expr;
use std::alloc::{AllocError, Global};
use std::collections::HashMap;
use std::hash::RandomState;
use std::marker::Model;

/// How many hypotheses are looked through one by one: sooner done than a look-up in the map.
const FEW: usize = 8;

/// A `$e`, with its label in the text.
#[derive(Drop)]
pub(crate) struct Hypothesis<'a> {
    label: &'a [u8],
    expression: Expr,
}

impl<'a> Model for Hypothesis<'a> {
    ghost use Rattle.mmsyntax.specs.Blocks.{Hypothesis as Seen};

    ghost Value = { Seen };

    ghost view = { λ h. record { label = h.label.now; expression = h.expression } };
}

/// The restricted pairs and the hypotheses. The map has the place of each hypothesis, for look-ups alone.
#[derive(Drop)]
struct Content<'a> {
    pairs: PairSet,
    hyps: Vec<Hypothesis<'a>>,
    places: HashMap<Vec<u8>, u32, RandomState>,
}

impl<'a> Model for Content<'a> {
    ghost use Rattle.mmsyntax.specs.Blocks.{Block as Seen};
    ghost use Rattle.mmunits.specs.HypothesisPlaces.{FindsHypotheses};

    ghost Value = { Seen };

    ghost view = { λ b. record { pairs = b.pairs; hyps = b.hyps.items } };

    ghost invariant = { λ b. FindsHypotheses b.places b.hyps.items };
}

impl<'a> Content<'a> {
    fn new(alloc: Global, keys: RandomState) -> Self
        ensures { result ≡ no_block }
    {
        Content {
            pairs: PairSet::new(alloc, keys),
            hyps: Vec::new(alloc),
            places: HashMap::with_hasher(alloc, keys),
        }
    }

    fn pairs(&self) -> usize
        ensures { result ≡ length self.now.pairs }
    {
        self.pairs.len()
    }

    fn hypotheses(&self) -> usize
        ensures { result ≡ length self.now.hyps }
    {
        self.hyps.len()
    }

    fn hypothesis_place(&self, word: &[u8]) -> Option<u32>
        ensures value { result ≡ hypothesis_named self.now.hyps word.now }
        ensures few { (n : ℕ) → result ≡ Some n → n < MOST_HYPOTHESES }
    {
        if self.hyps.len() <= FEW {
            return first_labelled(&self.hyps, word);
        }
        self.places.get(word).copied()
    }

    fn add_pairs(&mut self, variable: u32, earlier: &[u32]) -> Result<(), AllocError>
        ensures { OnOk result (self.new ≡ record self.old { pairs = with_pairs variable earlier.now self.old.pairs }) }
    {
        self.pairs.put_all(variable, earlier)
    }

    fn add_hypothesis(
        &mut self,
        alloc: Global,
        label: &'a [u8],
        expression: Expr,
    ) -> Result<(), AllocError>
        requires { length self.old.hyps < MOST_HYPOTHESES }
        ensures { OnOk result (self.new ≡ with_hypothesis self.old label.now expression) }
    {
        let place = self.hyps.len() as u32;
        self.hyps.push(Hypothesis { label, expression })?;
        // Of two hypotheses with one label the first would be the one that it names.
        match put_if_none(alloc, &mut self.places, label, place) {
            Ok(()) => Ok(()),
            Err(error) => {
                let _ = self.hyps.pop();
                Err(error)
            }
        }
    }

    fn into_parts(self, alloc: Global) -> Result<(Vec<(u32, u32)>, Vec<Expr>), AllocError>
        ensures { IfOk result (λ r. (r.0.items ≡ self.entry.pairs) × (r.1.items ≡ map (λ h. h.expression) self.entry.hyps)) }
    {
        let pairs = self.pairs.into_vec(alloc)?;
        let hyps = expressions(alloc, self.hyps)?;
        Ok((pairs, hyps))
    }
}

/// The restricted pairs and the hypotheses, on the heap: a place in the grammar holds a block, and moves with each token.
pub struct Block<'a> {
    content: Box<Content<'a>, Global>,
}

// Proved here once: a derived drop is proved again in each crate that drops such a value.
impl<'a> Drop for Block<'a> {
    fn drop(self) {
        let Block { content: _ } = self;
    }
}

impl<'a> Model for Block<'a> {
    ghost use Rattle.mmsyntax.specs.Blocks.{Block as Seen};

    ghost Value = { Seen };

    ghost view = { λ b. b.content.value };
}

impl<'a> Block<'a> {
    /// No pair and no hypothesis. `keys` make the hashes of the map inside.
    pub fn new(alloc: Global, keys: RandomState) -> Result<Self, AllocError>
        ensures { IfOk result (λ b. b ≡ no_block) }
    {
        let content = Box::new(alloc, Content::new(alloc, keys))?;
        Ok(Block { content })
    }

    /// How many pairs are restricted.
    pub fn pairs(&self) -> usize
        ensures { result ≡ length self.now.pairs }
    {
        self.content.pairs()
    }

    /// How many hypotheses stand.
    pub fn hypotheses(&self) -> usize
        ensures { result ≡ length self.now.hyps }
    {
        self.content.hypotheses()
    }

    /// The place of the hypothesis with a label, counted from 0: a few comparisons, or one look-up in a map. There are at most 1,000.
    pub fn hypothesis_place(&self, word: &[u8]) -> Option<u32>
        ensures value { result ≡ hypothesis_named self.now.hyps word.now }
        ensures few { (n : ℕ) → result ≡ Some n → n < MOST_HYPOTHESES }
    {
        self.content.hypothesis_place(word)
    }

    /// Restricts the pairs of a variable and each earlier one.
    pub fn add_pairs(&mut self, variable: u32, earlier: &[u32]) -> Result<(), AllocError>
        ensures { OnOk result (self.new ≡ record self.old { pairs = with_pairs variable earlier.now self.old.pairs }) }
    {
        self.content.add_pairs(variable, earlier)
    }

    /// One more hypothesis.
    pub fn add_hypothesis(
        &mut self,
        alloc: Global,
        label: &'a [u8],
        expression: Expr,
    ) -> Result<(), AllocError>
        requires { length self.old.hyps < MOST_HYPOTHESES }
        ensures { OnOk result (self.new ≡ with_hypothesis self.old label.now expression) }
    {
        self.content.add_hypothesis(alloc, label, expression)
    }

    /// The pairs, ascending, and the hypotheses without their labels.
    pub fn into_parts(self, alloc: Global) -> Result<(Vec<(u32, u32)>, Vec<Expr>), AllocError>
        ensures { IfOk result (λ r. (r.0.items ≡ self.entry.pairs) × (r.1.items ≡ map (λ h. h.expression) self.entry.hyps)) }
    {
        let Block { content } = self;
        Box::into_inner(content).into_parts(alloc)
    }
}

/// The place of the first hypothesis with a label, of at most [`FEW`].
fn first_labelled(hyps: &[Hypothesis<'_>], word: &[u8]) -> Option<u32>
    requires { length hyps.now < 9 }
    ensures { result ≡ hypothesis_named hyps.now word.now }
{
    let mut place = 0;
    for hypothesis in hyps {
        if hypothesis.label == word {
            return Some(place);
        }
        place += 1;
    }
    None
}

/// The expressions of hypotheses.
fn expressions(alloc: Global, hyps: Vec<Hypothesis<'_>>) -> Result<Vec<Expr>, AllocError>
    ensures { IfOk result (λ v. v.items ≡ map (λ h. h.expression) hyps.entry.items) }
{
    let mut out = Vec::new(alloc);
    for hypothesis in hyps {
        out.push(hypothesis.expression)?;
    }
    Ok(out)
}
