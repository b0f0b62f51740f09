//! The assertions of a library: what each says, and what becomes of its proof.

ghost use Rattle.std.specs.Prelude.{◌≡◌, ◌≢◌, ◌<◌, ◌++◌, ◌∷◌, [], None, length, take, slice_get, IfOk, OnOk, IfSome};
ghost use Rattle.std.specs.Option.{option_map};
ghost use Rattle.source.specs.Views.{seen_pairs, seen_words};
ghost use Rattle.source.specs.Whole.{IsWhole};
ghost use Rattle.taking.specs.Reasons.{Choice, AreFlags, told_in};
ghost use Rattle.source.specs.Flags.{kept};
ghost use Rattle.taking.specs.Says.{each, premises};
ghost use Rattle.taking.specs.Taken.{AreTaken, taken_as_axioms};
ghost use Rattle.prooftrees.specs.Frames.{Holds};
ghost use Rattle.sites.specs.Given.{given_hypotheses};
ghost use Rattle.sites.specs.Sites.{AreSites};
ghost use Rattle.gathering.specs.Assembled.{HasAllPlaces, IsStatedBy, IsStated, IsMade, one_of, told_with};
ghost use Rattle.gathering.specs.Outcomes.{HasStepsFor};
ghost use Rattle.gathering.specs.Placed.{map_of, tables_of, symbols_by};

use crate::flags::Flags;
use crate::places::Placed;
use crate::proving::{Outcome, outcome_at};
use crate::saying::{placed_expression, placed_premises, restrictions};
use following::Follow;
use mmsyntax::{Assertion, Kind, Label, Proof};
use prooftrees::Frames;
use sites::{Active, active_at};
use source::{Declared, HypothesisWords};
use std::alloc::{AllocError, Global};
use std::hash::RandomState;
use taking::Reason;

/// An assertion that is taken, and the reason if a theorem is taken as an axiom.
#[derive(Drop)]
pub(crate) struct One {
    pub(crate) assertion: Assertion,
    pub(crate) reason: Option<Reason>,
}

/// An assertion with a label, pairs, hypotheses and a statement, without a proof, by the places that its words have.
fn stated_by(
    alloc: Global,
    keys: RandomState,
    places: &Active<'_, '_>,
    label: &Label,
    pairs: &[(&[u8], &[u8])],
    hypotheses: &[HypothesisWords<'_>],
    words: &[&[u8]],
) -> Result<Assertion, AllocError>
    requires hyps { each (each (symbols_by places.now)) (premises (given_hypotheses hypotheses.now)) ≢ None }
    requires statement { each (symbols_by places.now) (seen_words words.now) ≢ None }
    ensures { IfOk result (IsStatedBy places.now label.now (seen_pairs pairs.now) (given_hypotheses hypotheses.now)
        (seen_words words.now)) }
{
    let pairs = restrictions(alloc, keys, places, pairs)?;
    let hyps = placed_premises(alloc, places, hypotheses)?;
    let statement = placed_expression(alloc, places, words)?;
    Ok(Assertion {
        label: label.copy(alloc)?,
        kind: Kind::Axiom,
        pairs,
        hyps,
        statement,
        proof: Proof::new(alloc),
    })
}

/// The assertion at a place without its proof: its label, pairs, hypotheses and statement.
#[tactic(auto, using(crate::proofs::Stated::label_there))]
fn stated<'a, D: Declared<'a>>(
    alloc: Global,
    keys: RandomState,
    declared: &D,
    placed: &Placed<'_, 'a>,
    place: usize,
) -> Result<Assertion, AllocError>
    requires within { place < length (D.scope declared.now).assertions }
    requires known { IfSome (slice_get (D.scope declared.now).assertions place)
        (HasAllPlaces (map_of placed.now.sites.now placed.now.names.now) (tables_of placed.now.sites.now placed.now.names.now)) }
    ensures { IfOk result (λ a. IfSome (slice_get (D.scope declared.now).assertions place) (λ x.
        IsStated (map_of placed.now.sites.now placed.now.names.now) (tables_of placed.now.sites.now placed.now.names.now) x a)) }
{
    let Some(words) = declared.statement(place) else {
        unreachable!()
    };
    let Some(own) = declared.label(place) else {
        unreachable!()
    };
    // All that a chosen assertion names has a place.
    let Some(label) = placed.label(own) else {
        unreachable!()
    };
    let pairs = declared.pairs(alloc, place)?;
    let pairs = pairs.as_slice();
    let hypotheses = active_at(alloc, declared, place)?;
    let hypotheses = hypotheses.as_slice();
    let places = Active::new(alloc, keys, placed.sites, hypotheses)?;
    stated_by(alloc, keys, &places, label, pairs, hypotheses, words)
}

/// An assertion with what becomes of its proof.
fn with_outcome(mut assertion: Assertion, outcome: Outcome) -> One
    ensures { result ≡ one_of assertion outcome }
{
    match outcome {
        Outcome::Axiom => One {
            assertion,
            reason: None,
        },
        Outcome::AsAxiom(why) => One {
            assertion,
            reason: Some(why),
        },
        Outcome::Theorem(steps) => {
            assertion.kind = Kind::Theorem;
            assertion.proof = steps;
            One {
                assertion,
                reason: None,
            }
        }
    }
}

/// What is taken of the chosen assertion at a place.
///
/// After an error nothing is said of the frames.
fn taken_at<'a, D: Declared<'a>>(
    alloc: Global,
    keys: RandomState,
    declared: &D,
    frames: &mut Frames,
    placed: &Placed<'_, 'a>,
    flags: Flags<'_>,
    place: usize,
) -> Result<One, AllocError>
    requires whole { IsWhole (D.scope declared.now) }
    requires within { place < length (D.scope declared.now).assertions }
    requires frames { Holds (D.scope declared.now).assertions frames.old }
    requires chosen { length flags.chosen.now ≡ length (D.scope declared.now).assertions }
    requires front { length flags.front.now ≡ length (D.scope declared.now).assertions }
    requires long { length flags.long.now ≡ length (D.scope declared.now).assertions }
    requires known { IfSome (slice_get (D.scope declared.now).assertions place)
        (HasAllPlaces (map_of placed.now.sites.now placed.now.names.now) (tables_of placed.now.sites.now placed.now.names.now)) }
    ensures frames { IfOk result (λ _. Holds (D.scope declared.now).assertions frames.new) }
    ensures made { (choice : Choice)
        → AreFlags (D.scope declared.now) choice flags.entry.chosen.now flags.entry.front.now flags.entry.long.now
        → IfSome (slice_get (D.scope declared.now).assertions place) (λ x.
        HasStepsFor (map_of placed.now.sites.now placed.now.names.now) choice (D.scope declared.now) x
        → IfOk result (IsMade (map_of placed.now.sites.now placed.now.names.now)
        (tables_of placed.now.sites.now placed.now.names.now) choice
        (take place (D.scope declared.now).assertions) x)) }
{
    let assertion = stated(alloc, keys, declared, placed, place)?;
    let outcome = outcome_at(alloc, keys, declared, frames, placed, flags, place)?;
    Ok(with_outcome(assertion, outcome))
}

/// All that is taken of a source, so far: the assertions of the library, and of which theorems it is told that they are taken as axioms.
#[derive(Drop)]
pub struct Gathered<'a> {
    /// The assertions as they are in the library, in the order of the source.
    pub assertions: Vec<Assertion>,
    /// The label in the source of each theorem that is taken as an axiom, with the reason, in that order.
    pub axioms: Vec<(&'a [u8], Reason)>,
}

/// One more assertion goes to the end, and its label in the source with the reason, if there is one.
fn put<'a>(gathered: &mut Gathered<'a>, label: Option<&'a [u8]>, one: One) -> Result<(), AllocError>
    ensures assertions { OnOk result (gathered.new.assertions.items ≡ gathered.old.assertions.items ++ one.assertion ∷ []) }
    ensures axioms { OnOk result (told_in gathered.new.axioms.items ≡ told_in gathered.old.axioms.items
        ++ told_with (option_map (λ w. w.now) label.entry) one.reason) }
{
    gathered.assertions.push(one.assertion)?;
    if let (Some(label), Some(reason)) = (label, one.reason) {
        gathered.axioms.push((label, reason))?;
    }
    Ok(())
}

/// What is taken of the chosen assertions of a source, in their order.
///
/// Who follows is told of each that was taken. After an error nothing is said of the frames.
///
/// # Errors
///
/// Want of memory.
pub fn gather<'a, D: Declared<'a>>(
    alloc: Global,
    keys: RandomState,
    declared: &D,
    frames: &mut Frames,
    placed: &Placed<'_, 'a>,
    flags: Flags<'_>,
    follow: &impl Follow,
) -> Result<Gathered<'a>, AllocError>
    requires whole { IsWhole (D.scope declared.now) }
    requires frames { Holds (D.scope declared.now).assertions frames.old }
    requires chosen { length flags.chosen.now ≡ length (D.scope declared.now).assertions }
    requires front { length flags.front.now ≡ length (D.scope declared.now).assertions }
    requires long { length flags.long.now ≡ length (D.scope declared.now).assertions }
    requires sites { AreSites (D.scope declared.now) (kept flags.chosen.now (D.scope declared.now).assertions) placed.now.sites.now }
    requires labels { length placed.now.names.now.labels ≡ length placed.now.sites.now.labels }
    requires floats { length placed.now.names.now.floats ≡ length placed.now.sites.now.floats }
    ensures frames { IfOk result (λ _. Holds (D.scope declared.now).assertions frames.new) }
    ensures taken { (choice : Choice)
        → AreFlags (D.scope declared.now) choice flags.entry.chosen.now flags.entry.front.now flags.entry.long.now → IfOk result (λ g.
        AreTaken (map_of placed.now.sites.now placed.now.names.now) (tables_of placed.now.sites.now placed.now.names.now) choice []
        (D.scope declared.now).assertions g.assertions.items) }
    ensures told { (choice : Choice)
        → AreFlags (D.scope declared.now) choice flags.entry.chosen.now flags.entry.front.now flags.entry.long.now → IfOk result (λ g.
        taken_as_axioms choice [] (D.scope declared.now).assertions ≡ told_in g.axioms.items) }
{
    let chosen = flags.chosen;
    let mut gathered = Gathered {
        assertions: Vec::new(alloc),
        axioms: Vec::new(alloc),
    };
    for place in 0..declared.assertions() {
        if chosen[place] {
            let one = taken_at(alloc, keys, declared, frames, placed, flags, place)?;
            put(&mut gathered, declared.label(place), one)?;
            follow.pass_assertion();
        }
    }
    Ok(gathered)
}
