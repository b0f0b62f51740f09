//! What becomes of the proof of an assertion: its listing, or a reason to take its theorem as an axiom.

ghost use Rattle.std.specs.Prelude.{◌≡◌, ◌<◌, length, map, take, slice_get, slice_index_or, All, [], IfOk, IfSome};
ghost use Rattle.std.specs.List.{list_any};
ghost use Rattle.source.specs.Scopes.{is_in};
ghost use Rattle.source.specs.Views.{seen_words};
ghost use Rattle.source.specs.Whole.{IsWhole};
ghost use Rattle.taking.specs.Reasons.{Choice, AreFlags, is_left_out};
ghost use Rattle.taking.specs.Names.{Map};
ghost use Rattle.taking.specs.Walks.{TakesAll};
ghost use Rattle.prooftrees.specs.Frames.{Holds};
ghost use Rattle.prooftrees.specs.Forms.{IsForm};
ghost use Rattle.prooftrees.specs.declared.form.ProofForm.TheVariants.{Tree};
ghost use Rattle.gathering.specs.Outcomes.{IsOutcome, HasStepsFor};

use crate::flags::Flags;
use mmsyntax::{MOST_STEPS, Proof};
use prooftrees::{Frames, ProofForm, ProofTree, read_proof};
use source::Declared;
use std::alloc::{AllocError, Global};
use std::hash::RandomState;
use taking::{Reason, StepPlaces, list};

/// What becomes of the proof of an assertion.
#[derive(Drop)]
pub(crate) enum Outcome {
    /// It has none.
    Axiom,
    /// Its theorem is taken as an axiom.
    AsAxiom(Reason),
    /// It is listed.
    Theorem(Proof),
}

/// Whether a label is that of an assertion before a place that isn't chosen.
fn is_left_out<'a, D: Declared<'a>>(
    declared: &D,
    chosen: &[bool],
    place: usize,
    label: &[u8],
) -> bool
    requires { length chosen.now ≡ length (D.scope declared.now).assertions }
    ensures { (choice : Choice) → map (λ x. is_in choice.chosen x.label) (D.scope declared.now).assertions ≡ chosen.now
        → result ≡ is_left_out (take place (D.scope declared.now).assertions) choice.chosen label.now }
{
    match declared.place_of(label) {
        Some(other) if other < place => !chosen[other],
        _ => false,
    }
}

/// Whether one of the nodes of a tree names an assertion before a place that isn't chosen.
fn cites_left_out<'a, D: Declared<'a>>(
    declared: &D,
    chosen: &[bool],
    place: usize,
    tree: &ProofTree<'a>,
) -> bool
    requires flags { length chosen.now ≡ length (D.scope declared.now).assertions }
    requires named { All (λ n. n.named < length tree.now.labels.items) tree.now.proof.nodes }
    ensures { (choice : Choice) → map (λ x. is_in choice.chosen x.label) (D.scope declared.now).assertions ≡ chosen.now
        → result ≡ list_any (λ n. is_left_out (take place (D.scope declared.now).assertions) choice.chosen
        (slice_index_or (seen_words tree.now.labels.items) n.named [])) tree.now.proof.nodes }
{
    for node in 0..tree.proof.nodes.len() {
        let label = tree.labels[tree.proof.nodes.named(node)];
        if is_left_out(declared, chosen, place, label) {
            return true;
        }
    }
    false
}

/// What becomes of a tree: the first reason that holds, or else its listing.
fn outcome_of_tree<'a, D: Declared<'a>>(
    alloc: Global,
    declared: &D,
    flags: Flags<'_>,
    place: usize,
    tree: &ProofTree<'a>,
) -> Result<Outcome, AllocError>
    requires whole { All (TakesAll tree.now.named.items) tree.now.proof.nodes }
    requires labelled { length tree.now.labels.items ≡ length tree.now.named.items }
    requires within { place < length (D.scope declared.now).assertions }
    requires chosen { length flags.chosen.now ≡ length (D.scope declared.now).assertions }
    requires front { length flags.front.now ≡ length (D.scope declared.now).assertions }
    requires long { length flags.long.now ≡ length (D.scope declared.now).assertions }
    ensures { (m : Map) (choice : Choice)
        → AreFlags (D.scope declared.now) choice flags.entry.chosen.now flags.entry.front.now flags.entry.long.now
        → IfSome (slice_get (D.scope declared.now).assertions place) (λ x. HasStepsFor m choice (D.scope declared.now) x
        → IsForm m (take place (D.scope declared.now).assertions) x (Tree tree.now)
        → IfOk result (IsOutcome m choice (take place (D.scope declared.now).assertions) x)) }
{
    let Flags {
        chosen,
        front,
        long,
    } = flags;
    let root = tree.proof.root;
    if tree.proof.nodes.size(root) > MOST_STEPS {
        return Ok(Outcome::AsAxiom(Reason::TooLong));
    }
    if front[place] {
        return Ok(Outcome::AsAxiom(Reason::InFront));
    }
    if cites_left_out(declared, chosen, place, tree) {
        return Ok(Outcome::AsAxiom(Reason::CitesUnchosen));
    }
    if long[place] {
        return Ok(Outcome::AsAxiom(Reason::LongExpression));
    }
    match list(alloc, tree.named.as_slice(), &tree.proof.nodes, root)? {
        Some(steps) => Ok(Outcome::Theorem(steps)),
        // A label without a step isn't chosen either: where the steps of what is chosen are known, this was told above.
        None => Ok(Outcome::AsAxiom(Reason::CitesUnchosen)),
    }
}

/// What becomes of the proof of the assertion at a place, where the steps of what is chosen are known.
///
/// After an error nothing is said of the frames.
pub(crate) fn outcome_at<'a, D: Declared<'a>, P: StepPlaces>(
    alloc: Global,
    keys: RandomState,
    declared: &D,
    frames: &mut Frames,
    places: &P,
    flags: Flags<'_>,
    place: usize,
) -> Result<Outcome, AllocError>
    requires whole { IsWhole (D.scope declared.now) }
    requires within { place < length (D.scope declared.now).assertions }
    requires frames { Holds (D.scope declared.now).assertions frames.old }
    requires chosen { length flags.chosen.now ≡ length (D.scope declared.now).assertions }
    requires front { length flags.front.now ≡ length (D.scope declared.now).assertions }
    requires long { length flags.long.now ≡ length (D.scope declared.now).assertions }
    ensures frames { IfOk result (λ _. Holds (D.scope declared.now).assertions frames.new) }
    ensures outcome { (choice : Choice)
        → AreFlags (D.scope declared.now) choice flags.entry.chosen.now flags.entry.front.now flags.entry.long.now
        → IfSome (slice_get (D.scope declared.now).assertions place) (λ x.
        HasStepsFor (P.places places.now) choice (D.scope declared.now) x
        → IfOk result (IsOutcome (P.places places.now) choice (take place (D.scope declared.now).assertions) x)) }
{
    match read_proof(alloc, keys, declared, frames, places, place)? {
        ProofForm::Absent => Ok(Outcome::Axiom),
        ProofForm::Unfinished => Ok(Outcome::AsAxiom(Reason::Unfinished)),
        ProofForm::Tree(tree) => outcome_of_tree(alloc, declared, flags, place, &tree),
    }
}
