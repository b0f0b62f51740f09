//! From the steps of a proof in the library to nodes in the order of the source.

ghost use Rattle.std.specs.Prelude.{◌≡◌, ◌<◌, ◌≤◌, ◌+◌, ℕ, suc, List, length, count_by, is_some, IfOk, IfSome, IsTrue};
ghost use Rattle.mmsyntax.specs.ProofWords.{seen_step};
ghost use Rattle.mmsyntax.specs.declared.limits.TheConstants.{MOST_STEPS};
ghost use Rattle.source.specs.Scopes.{Hypothesis as HypothesisOf};
ghost use Rattle.source.specs.Views.{seen_words};
ghost use Rattle.taking.specs.Walks.{arranged};
ghost use Rattle.taking.specs.Listings.{premise_labels};
ghost use Rattle.sourcewriting.specs.Counting.{IsCountOf, Takes};
ghost use Rattle.sourcewriting.specs.Leaving.{StepTakes, LeaveOne, CanBeCounted};
ghost use Rattle.sourcewriting.specs.Nodes.{AreNodes, AreThere, AreFew, IsTakenAlike};
ghost use Rattle.sourcewriting.specs.Taking.{AllTake, MayTakeMore, MayTakeNone};

use crate::shared::Shared;
use mmsyntax::{MOST_STEPS, Proof, StepRef};
use source::{Declared, HypothesisWords};
use std::alloc::{AllocError, Global};
use std::collections::HashMap;
use std::hash::RandomState;

/// Which mandatory hypotheses an assertion has in the source.
#[derive(Clone, Copy)]
pub enum Kinds {
    /// Those of the assertion at this place.
    Standing(usize),
    /// Those of one that is added: so many `$f`, and behind them so many `$e`.
    Added(usize, usize),
}

/// An assertion of the library, as proofs cite it.
#[derive(Clone, Copy)]
pub struct Cited<'x> {
    /// Its mandatory hypotheses there.
    pub kinds: Kinds,
    /// Its label in the source then.
    pub label: &'x [u8],
}

/// What the steps of proofs name.
#[derive(Drop)]
pub struct Names<'x> {
    /// The labels of the library's `$f` in the source, by their places.
    pub floats: Vec<&'x [u8]>,
    /// The library's assertions, by their labels then.
    pub cited: HashMap<&'x [u8], Cited<'x>, RandomState>,
}

/// Whether each mandatory hypothesis of the assertion at a place is a `$f`, in order of appearance.
fn kinds_at<'a, D: Declared<'a>>(
    alloc: Global,
    declared: &D,
    place: usize,
) -> Result<Vec<bool>, AllocError>
    requires { place < length (D.scope declared.now).assertions }
    ensures { IfOk result (λ made. IsCountOf (D.scope declared.now) (Kinds.Standing place) (length made.items)) }
{
    let mut kinds = Vec::new(alloc);
    for hypothesis in declared.mandatory(alloc, place)? {
        kinds.push(matches!(hypothesis, HypothesisWords::Typing(..)))?;
    }
    Ok(kinds)
}

/// Whether each mandatory hypothesis of one that is added is a `$f`, in order of appearance.
fn added_kinds(alloc: Global, floats: usize, premises: usize) -> Result<Vec<bool>, AllocError>
    ensures { IfOk result (λ made. length made.items ≡ floats + premises) }
{
    let mut kinds = vec![in alloc; true; floats]?;
    for _ in 0..premises {
        kinds.push(false)?;
    }
    Ok(kinds)
}

/// Whether each mandatory hypothesis is a `$f`, in order of appearance. None where there is no such assertion.
fn kinds_of<'a, D: Declared<'a>>(
    alloc: Global,
    declared: &D,
    kinds: Kinds,
) -> Result<Option<Vec<bool>>, AllocError>
    ensures many { IfOk result (λ made. IfSome made (λ are. IsCountOf (D.scope declared.now) kinds (length are.items))) }
    ensures some { (n : ℕ) → IsCountOf (D.scope declared.now) kinds n → IfOk result (λ made. IsTrue (is_some made)) }
{
    match kinds {
        Kinds::Standing(place) if place < declared.assertions() => {
            Ok(Some(kinds_at(alloc, declared, place)?))
        }
        Kinds::Standing(_) => Ok(None),
        Kinds::Added(floats, premises) => Ok(Some(added_kinds(alloc, floats, premises)?)),
    }
}

/// How many are `$f`.
fn count_floats(kinds: &[bool]) -> usize
    ensures { result ≡ count_by (λ is_float. is_float) kinds.now }
{
    kinds.iter().filter(|is_float| **is_float).count()
}

/// Arguments in the order of the source, of those in the order of the library, where those of `$f` stand before those of `$e`.
fn in_source_order(
    alloc: Global,
    kinds: &[bool],
    arguments: &[usize],
) -> Result<Vec<usize>, AllocError>
    requires { length kinds.now ≡ length arguments.now }
    ensures order { IfOk result (λ made. arranged kinds.now made.items ≡ arguments.now) }
    ensures many { IfOk result (λ made. length made.items ≡ length kinds.now) }
{
    let mut floats = 0;
    let mut premises = count_floats(kinds);
    let mut made = Vec::new(alloc);
    for is_float in kinds {
        if *is_float {
            made.push(arguments[floats])?;
            floats += 1;
        } else {
            made.push(arguments[premises])?;
            premises += 1;
        }
    }
    Ok(made)
}

/// A citation takes its arguments off the stack, and its node goes on. Whether they were there.
fn cite<'x, 'a, D: Declared<'a>>(
    alloc: Global,
    declared: &D,
    shared: &mut Shared<'x>,
    stack: &mut Vec<usize>,
    cited: Cited<'x>,
) -> Result<bool, AllocError>
    ensures taken { IfOk result (λ _. MayTakeMore (D.scope declared.now) cited.entry shared.old shared.new) }
    ensures there { (rest n : ℕ) → IsCountOf (D.scope declared.now) cited.entry.kinds n → length stack.old.items ≡ rest + n
        → IfOk result (λ done. IsTrue done × (length stack.new.items ≡ suc rest)) }
    ensures few { IfOk result (λ _. AreFew 1 shared.old shared.new) }
    ensures nodes { ((n : ℕ) → IsCountOf (D.scope declared.now) cited.entry.kinds n
        → IsTakenAlike shared.old.words.items cited.entry.label.now n) → AreNodes shared.old → AreThere shared.old stack.old.items
        → IfOk result (λ _. AreNodes shared.new × AreThere shared.new stack.new.items) }
{
    let Some(kinds) = kinds_of(alloc, declared, cited.kinds)? else {
        return Ok(false);
    };
    let Some(first) = stack.len().checked_sub(kinds.len()) else {
        return Ok(false);
    };
    let arguments = in_source_order(alloc, kinds.as_slice(), &stack[first..])?;
    stack.truncate(first);
    let node = shared.node(alloc, cited.label, arguments.as_slice())?;
    stack.push(node)?;
    Ok(true)
}

/// A hypothesis goes on the stack, if there is one.
fn put_leaf<'x>(
    alloc: Global,
    shared: &mut Shared<'x>,
    stack: &mut Vec<usize>,
    label: Option<&'x [u8]>,
) -> Result<bool, AllocError>
    ensures taken { IfOk result (λ _. MayTakeNone label.entry shared.old shared.new) }
    ensures there { IsTrue (is_some label.entry)
        → IfOk result (λ done. IsTrue done × (length stack.new.items ≡ suc (length stack.old.items))) }
    ensures few { IfOk result (λ _. AreFew 1 shared.old shared.new) }
    ensures nodes { IfSome label.entry (λ w. IsTakenAlike shared.old.words.items w.now 0) → AreNodes shared.old
        → AreThere shared.old stack.old.items → IfOk result (λ _. AreNodes shared.new × AreThere shared.new stack.new.items) }
{
    let Some(label) = label else {
        return Ok(false);
    };
    let node = shared.node(alloc, label, &[])?;
    stack.push(node)?;
    Ok(true)
}

/// A step: whether what it takes was there.
fn take_step<'x, 'a, D: Declared<'a>>(
    alloc: Global,
    declared: &D,
    names: &Names<'x>,
    premises: &[&'x [u8]],
    shared: &mut Shared<'x>,
    stack: &mut Vec<usize>,
    step: StepRef<'_>,
) -> Result<bool, AllocError>
    ensures taken { (hs : List HypothesisOf) → seen_words premises.now ≡ premise_labels hs
        → AllTake (D.scope declared.now) names.now hs shared.old
        → IfOk result (λ _. AllTake (D.scope declared.now) names.now hs shared.new) }
    ensures there { (rest n : ℕ) → StepTakes (D.scope declared.now) names.now (length premises.now) (seen_step step.entry) n
        → length stack.old.items ≡ rest + n → IfOk result (λ done. IsTrue done × (length stack.new.items ≡ suc rest)) }
    ensures few { IfOk result (λ _. AreFew 1 shared.old shared.new) }
    ensures nodes { (hs : List HypothesisOf) → seen_words premises.now ≡ premise_labels hs
        → AllTake (D.scope declared.now) names.now hs shared.old → CanBeCounted (Takes (D.scope declared.now) names.now hs) hs
        → AreNodes shared.old → AreThere shared.old stack.old.items
        → IfOk result (λ _. AreNodes shared.new × AreThere shared.new stack.new.items) }
{
    match step {
        StepRef::Float(place) => {
            let label = names.floats.get(place as usize).copied();
            put_leaf(alloc, shared, stack, label)
        }
        StepRef::Hyp(place) => {
            let label = premises.get(place as usize).copied();
            put_leaf(alloc, shared, stack, label)
        }
        StepRef::Cite(label) => match names.cited.get(&label) {
            Some(cited) => cite(alloc, declared, shared, stack, *cited),
            None => Ok(false),
        },
    }
}

/// Puts the nodes of a proof, by its steps, and tells which of them is the proof. None where the steps denote no tree, or are over 16,384.
pub(crate) fn put_nodes<'x, 'a, D: Declared<'a>>(
    alloc: Global,
    shared: &mut Shared<'x>,
    declared: &D,
    names: &Names<'x>,
    premises: &[&'x [u8]],
    steps: &Proof,
) -> Result<Option<usize>, AllocError>
    ensures taken { (hs : List HypothesisOf) → seen_words premises.now ≡ premise_labels hs
        → AllTake (D.scope declared.now) names.now hs shared.old
        → IfOk result (λ _. AllTake (D.scope declared.now) names.now hs shared.new) }
    ensures one { length steps.now ≤ MOST_STEPS → LeaveOne (StepTakes (D.scope declared.now) names.now (length premises.now)) steps.now
        → IfOk result (λ made. IsTrue (is_some made)) }
    ensures few { IfOk result (λ made. IfSome made (λ _. AreFew MOST_STEPS shared.old shared.new)) }
    ensures nodes { (hs : List HypothesisOf) → seen_words premises.now ≡ premise_labels hs
        → AllTake (D.scope declared.now) names.now hs shared.old → CanBeCounted (Takes (D.scope declared.now) names.now hs) hs
        → AreNodes shared.old → IfOk result (λ made. IfSome made (λ root. AreNodes shared.new × (root < length shared.new.nodes.items))) }
{
    if steps.len() > MOST_STEPS {
        return Ok(None);
    }
    let mut stack = Vec::new(alloc);
    for place in 0..steps.len() {
        let step = steps.step(place);
        if !take_step(alloc, declared, names, premises, shared, &mut stack, step)? {
            return Ok(None);
        }
    }
    match stack.as_slice() {
        [root] => Ok(Some(*root)),
        _ => Ok(None),
    }
}
