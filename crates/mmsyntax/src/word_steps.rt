//! The words of a proof, which name labels by their places.

ghost use Rattle.std.specs.Prelude.{◌≡◌, ◌<◌, length, slice_index_or};
ghost use Rattle.mmsyntax.specs.ProofWords.{AreWords, steps_of, step_in, IsWithin};

use crate::label::Label;

/// A step of a proof whose label is named by a place.
#[derive(Clone, Copy)]
pub enum WordStep {
    /// The `$f` at this place of the prelude, counted from 0.
    Float(u32),
    /// The hypothesis at this place of the assertion being proved, counted from 0.
    Hyp(u32),
    /// The assertion whose label stands at this place of the cited ones, counted from 0.
    Cite(u32),
}

/// The words of a proof with the labels that they cite, all of them at places that there are.
#[derive(Clone, Copy)]
pub struct WordSteps<'a> {
    pub cited: &'a [Label],
    pub words: &'a [u32],
    ghost in_order: { AreWords cited.now words.now },
}

impl<'a> WordSteps<'a> {
    /// The step at a place, counted from 0.
    pub fn step(&self, i: usize) -> WordStep
        requires { i < length self.now.words.now }
        ensures step { step_in self.now.cited.now result
            ≡ slice_index_or (steps_of self.now.cited.now self.now.words.now) i (step_in self.now.cited.now result) }
        ensures within { IsWithin (length self.now.cited.now) result }
    {
        let word = self.words[i];
        let place = word / 3;
        match word % 3 {
            0 => WordStep::Float(place),
            1 => WordStep::Hyp(place),
            _ => WordStep::Cite(place),
        }
    }
}
