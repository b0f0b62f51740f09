//! A proof as words beside the labels that they cite, which clauses see as its steps.

ghost use Rattle.std.specs.Prelude.{◌≡◌, ◌↔◌, ◌<◌, ◌^◌, ◌++◌, ◌∷◌, [], length, map, All, slice_index_or};
ghost use Rattle.std.specs.Prelude.{OnOk, OnErr, IfOk, IsTrue};
ghost use Rattle.mmsyntax.specs.declared.statement.Step.{Step};
ghost use Rattle.mmsyntax.specs.declared.statement.Step.TheVariants.{Float, Hyp, Cite};
ghost use Rattle.mmsyntax.specs.ProofWords.{IsSmall, IsCitedIn, AreWords, seen_step, steps_of, step_relabelled, replacing};

use crate::cited::{copy_labels, place_for, replaced_labels};
use crate::label::Label;
use crate::step_ref::{StepRef, is_same_step};
use crate::word_steps::WordSteps;
use std::alloc::{AllocError, Global};
use std::marker::Model;

/// How many places of each kind a word can name.
pub const PLACES: u32 = 0x4000_0000;

/// The steps of a proof. A clause sees the list of them.
///
/// The word `3 i` is the `$f` at the place `i`, `3 k + 1` the hypothesis at the place `k`, and `3 n + 2` cites the label at the place `n`
/// of `cited`. So a step takes four bytes, and a label that is cited again and again stands once.
#[derive(Debug)]
pub struct Proof {
    cited: Vec<Label>,
    words: Vec<u32>,
}

impl Model for Proof {
    ghost use Rattle.std.specs.Prelude.{List};
    ghost use Rattle.mmsyntax.specs.declared.statement.Step.{Step};
    ghost use Rattle.mmsyntax.specs.ProofWords.{steps_of, AreWords};

    ghost Value = { List Step };

    ghost view = { λ p. steps_of p.cited.items p.words.items };

    ghost invariant = { λ p. AreWords p.cited.items p.words.items };
}

// A drop of its own is proved here once: a derived one is proved again in each crate that drops a proof.
impl Drop for Proof {
    fn drop(self) {
        let Proof { cited: _, words: _ } = self;
    }
}

impl Proof {
    /// No step.
    pub fn new(alloc: Global) -> Proof
        ensures { result ≡ [] }
    {
        Proof {
            cited: Vec::new(alloc),
            words: Vec::new(alloc),
        }
    }

    /// The proof of these words over these labels: `3 i` is the `$f` at the place `i`, `3 k + 1` the hypothesis at the place `k`,
    /// `3 n + 2` cites the label at the place `n`.
    pub fn from_words(cited: Vec<Label>, words: Vec<u32>) -> Proof
        requires { AreWords cited.items words.items }
        ensures { result ≡ steps_of cited.items words.items }
    {
        Proof { cited, words }
    }

    /// How many steps there are. Their places are small.
    #[tactic(auto, using(crate::proofs::ProofSteps::small_steps))]
    pub fn len(&self) -> usize
        ensures len { result ≡ length self.now }
        ensures small { All IsSmall self.now }
    {
        self.words.len()
    }

    /// Whether there is no step.
    pub fn is_empty(&self) -> bool
        ensures { IsTrue result ↔ (self.now ≡ []) }
    {
        self.len() == 0
    }

    /// One more step: the `$f` at a place.
    #[tactic(auto, using(crate::proofs::ProofSteps::push_float_steps))]
    fn push_float(&mut self, place: u32) -> Result<(), AllocError>
        requires { place < 2 ^ 30 }
        ensures ok { OnOk result (self.new ≡ self.old ++ Float place ∷ []) }
        ensures err { OnErr result (self.new ≡ self.old) }
    {
        self.words.push(3 * place)?;
        Ok(())
    }

    /// One more step: the hypothesis at a place.
    #[tactic(auto, using(crate::proofs::ProofSteps::push_hyp_steps))]
    fn push_hyp(&mut self, place: u32) -> Result<(), AllocError>
        requires { place < 2 ^ 30 }
        ensures ok { OnOk result (self.new ≡ self.old ++ Hyp place ∷ []) }
        ensures err { OnErr result (self.new ≡ self.old) }
    {
        self.words.push(3 * place + 1)?;
        Ok(())
    }

    /// One more step: a citation of a label, which is looked for at the guessed place of those that are cited already, and else is put
    /// behind them. The place at which it stands, which is a good guess from now on.
    #[tactic(auto, using(crate::proofs::ProofSteps::kept_steps, crate::proofs::ProofSteps::kept_words, crate::proofs::ProofSteps::push_cite_steps))]
    fn push_cite(&mut self, alloc: Global, guess: usize, label: &[u8]) -> Result<usize, AllocError>
        ensures ok { OnOk result (self.new ≡ self.old ++ Cite label.now ∷ []) }
        ensures err { OnErr result (self.new ≡ self.old) }
    {
        let place = place_for(alloc, &mut self.cited, guess, label)?;
        self.words.push(3 * place + 2)?;
        Ok(place as usize)
    }

    /// One more step. A label is looked for at a guessed place of those that are cited already, counted from 0, and else is put behind
    /// them. The place at which it stands, which is a good guess for it from now on; the guess, of a step that cites none.
    ///
    /// # Errors
    ///
    /// Want of memory: the steps are the same then.
    pub fn push(
        &mut self,
        alloc: Global,
        guess: usize,
        step: StepRef<'_>,
    ) -> Result<usize, AllocError>
        requires { IsSmall (seen_step step) }
        ensures ok { OnOk result (self.new ≡ self.old ++ seen_step step.entry ∷ []) }
        ensures err { OnErr result (self.new ≡ self.old) }
    {
        match step {
            StepRef::Float(place) => {
                self.push_float(place)?;
                Ok(guess)
            }
            StepRef::Hyp(place) => {
                self.push_hyp(place)?;
                Ok(guess)
            }
            StepRef::Cite(label) => self.push_cite(alloc, guess, label),
        }
    }

    /// The step at a place, counted from 0.
    pub fn step(&self, i: usize) -> StepRef<'_>
        requires { i < length self.now }
        ensures { seen_step result ≡ slice_index_or self.now i (seen_step result) }
    {
        let word = self.words[i];
        let place = word / 3;
        match word % 3 {
            0 => StepRef::Float(place),
            1 => StepRef::Hyp(place),
            _ => StepRef::Cite(self.cited[place as usize].as_slice()),
        }
    }

    /// The words, and the labels that they cite by their places: whoever reads many steps looks up each label once.
    pub fn word_steps(&self) -> WordSteps<'_>
        ensures { steps_of result.cited.now result.words.now ≡ self.now }
    {
        WordSteps {
            cited: self.cited.as_slice(),
            words: self.words.as_slice(),
        }
    }

    /// Labels among which each one that a step cites stands.
    #[tactic(auto, using(crate::proofs::ProofSteps::cited_steps))]
    pub fn cited(&self) -> &[Label]
        ensures { All (IsCitedIn result.now) self.now }
    {
        self.cited.as_slice()
    }

    /// An equal proof.
    pub fn copy(&self, alloc: Global) -> Result<Proof, AllocError>
        ensures { IfOk result (λ made. made ≡ self.now) }
    {
        let cited = copy_labels(alloc, self.cited.as_slice())?;
        let words = Vec::from_slice(alloc, self.words.as_slice())?;
        Ok(Proof { cited, words })
    }

    /// Each citation of one label becomes one of another.
    #[tactic(auto, using(crate::proofs::ProofSteps::relabelled_steps, crate::proofs::ProofSteps::relabelled_words))]
    pub fn rename(&mut self, alloc: Global, old: &[u8], new: &[u8]) -> Result<(), AllocError>
        ensures ok { OnOk result (self.new ≡ map (step_relabelled (replacing old.now new.now)) self.old) }
        ensures err { OnErr result (self.new ≡ self.old) }
    {
        let labels = replaced_labels(alloc, self.cited.as_slice(), old, new)?;
        self.cited = labels;
        Ok(())
    }

    /// Whether the steps are the same.
    pub fn has_same_steps(&self, other: &Proof) -> bool
        ensures { IsTrue result ↔ (self.now ≡ other.now) }
    {
        let len = self.len();
        if len != other.len() {
            return false;
        }
        for i in 0..len {
            if !is_same_step(self.step(i), other.step(i)) {
                return false;
            }
        }
        true
    }
}
