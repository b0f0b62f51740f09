//! The steps of a library's proof as words.

ghost use Rattle.std.specs.Prelude.{◌≡◌, ◌++◌, ◌∷◌, [], IfOk, List, OnOk, map, slice_index_or};
ghost use Rattle.mmtext.specs.Text.{Token as Word};
ghost use Rattle.mmsyntax.specs.declared.statement.Step.TheVariants.{Hyp};
ghost use Rattle.mmsyntax.specs.Dotted.{hypothesis_label};
ghost use Rattle.mmsyntax.specs.ProofWords.{seen_step};
ghost use Rattle.mmsyntax.specs.Tables.{Tables};
ghost use Rattle.source.specs.Scopes.{label_of};
ghost use Rattle.source.specs.Views.{seen_hypothesis};
ghost use Rattle.expanding.specs.Views.{IsLaid};
ghost use Rattle.pasting.specs.Views.{step_of};

use crate::proving::{Proving, Theorem};
use expanding::Laid;
use mmsyntax::{Prelude, Proof, StepRef};
use source::HypothesisWords;
use std::alloc::{AllocError, Global};

/// The label of a hypothesis.
fn label_of<'h>(hypothesis: &HypothesisWords<'h>) -> &'h [u8]
    ensures { result.now ≡ label_of (seen_hypothesis hypothesis.now) }
{
    match hypothesis {
        HypothesisWords::Typing(label, _, _) => label,
        HypothesisWords::Premise(label, _) => label,
    }
}

/// The label of the hypothesis at a place: nothing where there is none.
fn label_at<'h>(hypotheses: &[HypothesisWords<'h>], place: u32) -> &'h [u8]
    ensures { result.now ≡ slice_index_or (map label_of (map seen_hypothesis hypotheses.now)) place [] }
{
    match hypotheses.get(place as usize) {
        Some(hypothesis) => label_of(hypothesis),
        None => &[],
    }
}

/// The label of a hypothesis of the assertion with a label. Hypotheses count from 1.
fn hypothesis_label(alloc: Global, label: &[u8], number: u64) -> Result<Vec<u8>, AllocError>
    ensures { IfOk result (λ word. word.items ≡ hypothesis_label label.now number) }
{
    let digits = format!(in alloc; "{number}")?;
    let mut word = Vec::from_slice(alloc, label)?;
    word.push(b'.')?;
    word.extend_from_slice(digits.as_bytes())?;
    Ok(word)
}

/// Puts the word of a hypothesis of a theorem, from 0, at the place of its label: where this command adds it, it has it from the script.
fn put_hypothesis(
    alloc: Global,
    proving: &Proving<'_, '_, '_, '_>,
    number: u32,
    laid: &mut Laid,
) -> Result<(), AllocError>
    ensures { OnOk result ((t : Tables) (ts : List Word) → IsLaid ts laid.old
        → IsLaid (ts ++ step_of t proving.now (Hyp number) ∷ []) laid.new) }
{
    let label = proving.label;
    match &proving.theorem {
        Theorem::Standing(_) | Theorem::Reproved(_) => {
            let word = hypothesis_label(alloc, label.text, number as u64 + 1)?;
            laid.put_word(word.as_slice(), label.place)
        }
        Theorem::Added(addition) => {
            let word = label_at(addition.premises.as_slice(), number);
            laid.put_word(word, label.place)
        }
    }
}

/// Puts the word of a step in the proof of a theorem, at the place of its label. A `$f` that is not of the prelude has no label.
fn put_step(
    alloc: Global,
    prelude: &Prelude,
    proving: &Proving<'_, '_, '_, '_>,
    step: StepRef<'_>,
    laid: &mut Laid,
) -> Result<(), AllocError>
    ensures { OnOk result ((ts : List Word) → IsLaid ts laid.old
        → IsLaid (ts ++ step_of prelude.now proving.now (seen_step step.entry) ∷ []) laid.new) }
{
    let place = proving.label.place;
    match step {
        StepRef::Float(number) => match prelude.floats().get(number as usize) {
            Some(float) => laid.put_word(float.label.as_slice(), place),
            None => laid.put_word(&[], place),
        },
        StepRef::Hyp(number) => put_hypothesis(alloc, proving, number, laid),
        StepRef::Cite(cited) => laid.put_word(cited, place),
    }
}

/// Puts the words of the steps of a proof of a theorem, at the place of its label.
pub(crate) fn put_steps(
    alloc: Global,
    prelude: &Prelude,
    proving: &Proving<'_, '_, '_, '_>,
    steps: &Proof,
    laid: &mut Laid,
) -> Result<(), AllocError>
    ensures { OnOk result ((ts : List Word) → IsLaid ts laid.old
        → IsLaid (ts ++ map (step_of prelude.now proving.now) steps.now) laid.new) }
{
    for i in 0..steps.len() {
        put_step(alloc, prelude, proving, steps.step(i), laid)?;
    }
    Ok(())
}
