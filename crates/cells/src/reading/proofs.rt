//! Reads proofs back from slots.

ghost use Rattle.std.specs.Prelude.{◌≡◌, ◌<◌, ◌≤◌, ◌+◌, ◌^◌, ◌↔◌, IfOk, IfErr, IsTrue, length, take, map};
ghost use Rattle.mmsyntax.specs.declared.statement.Step.TheVariants.{Cite};
ghost use Rattle.mmsyntax.specs.ProofWords.{IsWord, AreWords, step_of, steps_of};
ghost use Rattle.bodystore.specs.declared.stored.StoredStep.TheVariants.{Slot};
ghost use Rattle.bodystore.specs.Bodies.{stored_step};
ghost use Rattle.cells.specs.Sight.{IsCaused, Looks, ReadsWithin};
ghost use Rattle.cells.specs.Slots.{proof_cell};
ghost use Rattle.cells.specs.Footprints.{IsOfProof, IsNameCited};
ghost use Rattle.cells.specs.Lookups.{ForEachHeld, AreStepsAt, IsStepOf, AreStepsOf};
ghost use Rattle.cells.specs.Words.{HasSmallPlace};

use crate::again::Hints;
use crate::cells::Cells;
use crate::halt::Halt;
use crate::places::{proof_cell, slot_count};
use crate::reading::labels::name_of;
use crate::words::words_of;
use bodystore::{StoredStep, decode_proof};
use mmsyntax::{Label, PLACES, Proof};
use std::alloc::Global;

/// The proof of the assertion in the slot, with each cited assertion as its slot; no steps of an axiom.
pub fn stored_proof<C: Cells>(
    alloc: Global,
    cells: &mut C,
    slot: usize,
) -> Result<Vec<StoredStep>, Halt>
    requires { slot < (C.sight cells.old).setting.slots }
    ensures looks { Looks (C.sight cells.old) (C.sight cells.new) }
    ensures ok { IfOk result (λ made. AreStepsAt (C.sight cells.new) slot made.items) }
    ensures halts { IfErr result (IsCaused (C.sight cells.new)) }
    ensures reads { ReadsWithin (λ c. c ≡ proof_cell slot) (C.sight cells.old) (C.sight cells.new) }
{
    let words = words_of(alloc, cells, proof_cell(slot))?;
    Ok(decode_proof(alloc, words.as_slice())?)
}

/// The proof of the assertion in the slot, with each cited assertion by its label; no steps of an axiom.
pub fn proof<C: Cells>(alloc: Global, cells: &mut C, slot: usize) -> Result<Proof, Halt>
    requires { slot < (C.sight cells.old).setting.slots }
    ensures looks { Looks (C.sight cells.old) (C.sight cells.new) }
    ensures ok { IfOk result (λ made. ForEachHeld (C.sight cells.new) slot (λ st lib e. made ≡ e.assertion.proof)) }
    ensures halts { IfErr result (IsCaused (C.sight cells.new)) }
    ensures reads { ForEachHeld (C.sight cells.new) slot (λ st lib e.
        ReadsWithin (IsOfProof (C.sight cells.old).setting.slots slot e.assertion.proof st) (C.sight cells.old) (C.sight cells.new)) }
{
    let body = words_of(alloc, cells, proof_cell(slot))?;
    let stored = body.as_slice();
    if stored.len() > PLACES as usize {
        // no proof of a library has as many steps
        return Ok(Proof::new(alloc));
    }
    let slots = slot_count(cells);
    let mut cited = Vec::new(alloc);
    let mut words = Vec::with_capacity(alloc, stored.len())?;
    let mut hints = Hints::new(alloc, stored.len(), slots)?;
    for (i, word) in stored.iter().enumerate() {
        let step = StoredStep::of_word(*word);
        if !is_small(step) {
            // nor such a step
            return Ok(Proof::new(alloc));
        }
        let guess = Guess {
            stored,
            words: words.as_slice(),
            place: hints.exchange(step, i as u32) as usize,
        };
        let word = word_again(alloc, cells, slots, guess, &mut cited, *word)?;
        words.push_reserved(word);
    }
    Ok(Proof::from_words(cited, words))
}

/// Whether words can stand for a step in the store, up to the slot that it cites.
fn is_small(step: StoredStep) -> bool
    ensures { IsTrue result ↔ HasSmallPlace step }
{
    match step {
        StoredStep::Float(place) | StoredStep::Hyp(place) => place < PLACES,
        StoredStep::Slot(_) => true,
    }
}

/// A place where the same step may have stood, among those of a proof that were read so far.
#[derive(Clone, Copy)]
struct Guess<'s> {
    /// The words of all steps in the store.
    stored: &'s [u64],
    /// The words over labels of those that were read.
    words: &'s [u32],
    place: usize,
}

/// The word of a step over labels, by its word in the store: that of the step at a place, if it has the same word there, so that the label
/// of each assertion that a proof cites is read once.
fn word_again<C: Cells>(
    alloc: Global,
    cells: &mut C,
    slots: usize,
    guess: Guess<'_>,
    cited: &mut Vec<Label>,
    word: u64,
) -> Result<u32, Halt>
    requires slots { slots ≡ (C.sight cells.old).setting.slots }
    requires words { AreWords cited.old.items guess.words.now }
    requires steps { AreStepsOf slots (C.sight cells.old) (map stored_step guess.stored.now) (steps_of cited.old.items guess.words.now) }
    requires few { length cited.old.items < 2 ^ 30 }
    requires small { HasSmallPlace (stored_step word) }
    ensures looks { Looks (C.sight cells.old) (C.sight cells.new) }
    ensures kept { take (length cited.old.items) cited.new.items ≡ cited.old.items }
    ensures few { length cited.new.items ≤ length cited.old.items + 1 }
    ensures word { IfOk result (λ w. IsWord (length cited.new.items) w) }
    ensures ok { IfOk result (λ w. IsStepOf slots (C.sight cells.new) (stored_step word) (step_of cited.new.items w)) }
    ensures halts { IfErr result (IsCaused (C.sight cells.new)) }
    ensures reads { ReadsWithin (IsNameCited (stored_step word)) (C.sight cells.old) (C.sight cells.new) }
{
    let Guess {
        stored,
        words,
        place: hint,
    } = guess;
    if hint < words.len() && hint < stored.len() && stored[hint] == word {
        return Ok(words[hint]);
    }
    word_of(alloc, cells, slots, cited, StoredStep::of_word(word))
}

/// The word of a step in the store over labels, behind which that of the slot is put which it cites.
fn word_of<C: Cells>(
    alloc: Global,
    cells: &mut C,
    slots: usize,
    cited: &mut Vec<Label>,
    step: StoredStep,
) -> Result<u32, Halt>
    requires slots { slots ≡ (C.sight cells.old).setting.slots }
    requires few { length cited.old.items < 2 ^ 30 }
    requires small { HasSmallPlace step }
    ensures looks { Looks (C.sight cells.old) (C.sight cells.new) }
    ensures kept { take (length cited.old.items) cited.new.items ≡ cited.old.items }
    ensures few { length cited.new.items ≤ length cited.old.items + 1 }
    ensures word { IfOk result (λ w. IsWord (length cited.new.items) w) }
    ensures ok { IfOk result (λ w. IsStepOf slots (C.sight cells.new) step (step_of cited.new.items w)) }
    ensures halts { IfErr result (IsCaused (C.sight cells.new)) }
    ensures reads { ReadsWithin (IsNameCited step) (C.sight cells.old) (C.sight cells.new) }
{
    match step {
        StoredStep::Float(place) => Ok(3 * place),
        StoredStep::Hyp(place) => Ok(3 * place + 1),
        StoredStep::Slot(slot) => {
            let label = cited_label(alloc, cells, slots, slot)?;
            let place = cited.len() as u32;
            cited.push(label)?;
            Ok(3 * place + 2)
        }
    }
}

/// The label of a slot that a step cites.
fn cited_label<C: Cells>(
    alloc: Global,
    cells: &mut C,
    slots: usize,
    slot: u32,
) -> Result<Label, Halt>
    requires { slots ≡ (C.sight cells.old).setting.slots }
    ensures looks { Looks (C.sight cells.old) (C.sight cells.new) }
    ensures ok { IfOk result (λ made. IsStepOf slots (C.sight cells.new) (Slot slot) (Cite made)) }
    ensures halts { IfErr result (IsCaused (C.sight cells.new)) }
    ensures reads { ReadsWithin (IsNameCited (Slot slot)) (C.sight cells.old) (C.sight cells.new) }
{
    if (slot as usize) < slots {
        name_of(alloc, cells, slot as usize)
    } else {
        Ok(Label::new(alloc))
    }
}
