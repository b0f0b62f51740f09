//! The listing of a proof: its steps in the profile's order.

ghost use Rattle.std.specs.Prelude.{◌≡◌, ◌≤◌, ◌<◌, ◌++◌, length, map, slice_index, All, IfOk, OnOk};
ghost use Rattle.mmsyntax.specs.ProofWords.{seen_step};
ghost use Rattle.taking.specs.Nodes.{sizes};
ghost use Rattle.taking.specs.Walks.{TakesAll, picked, arranged, IsListing};
ghost use Rattle.mmsyntax.specs.declared.limits.TheConstants.{MOST_STEPS};

use crate::named::Named;
use crate::nodes::Nodes;
use mmsyntax::{Proof, Step, StepRef};
use std::alloc::{AllocError, Global};

/// Arguments at the `$f`, or at the `$e`, go to the end.
fn push_where(
    pending: &mut Vec<usize>,
    arguments: &[usize],
    floats: &[bool],
    wanted: bool,
) -> Result<(), AllocError>
    ensures { OnOk result (pending.new.items ≡ pending.old.items ++ picked wanted floats.now arguments.now) }
{
    for (argument, is_float) in arguments.iter().zip(floats) {
        if *is_float == wanted {
            pending.push(*argument)?;
        }
    }
    Ok(())
}

/// Arguments go to the end in the profile's order.
fn push_arguments(
    pending: &mut Vec<usize>,
    arguments: &[usize],
    floats: &[bool],
) -> Result<(), AllocError>
    ensures { OnOk result (pending.new.items ≡ pending.old.items ++ arranged floats.now arguments.now) }
{
    push_where(pending, arguments, floats, true)?;
    push_where(pending, arguments, floats, false)
}

/// A step, lent.
fn lend(step: &Step) -> StepRef<'_>
    ensures { seen_step result ≡ step.now }
{
    match step {
        Step::Float(place) => StepRef::Float(*place),
        Step::Hyp(place) => StepRef::Hyp(*place),
        Step::Cite(label) => StepRef::Cite(label.as_slice()),
    }
}

/// The proof of these steps, each with its number among so many different ones: a label is looked for where that number stood last.
fn proof_of(alloc: Global, count: usize, steps: &[(usize, &Step)]) -> Result<Proof, AllocError>
    ensures { IfOk result (λ made. made ≡ map (λ s. s.1.now) steps.now) }
{
    let mut made = Proof::new(alloc);
    let mut places = Vec::new(alloc);
    places.resize(count, 0)?;
    for numbered in steps {
        let (number, step) = *numbered;
        let step = lend(step);
        if !step.is_small() {
            return Err(AllocError);
        }
        let hint = places.as_slice().get(number).copied().unwrap_or(0);
        let place = made.push(alloc, hint, step)?;
        if number < places.len() {
            places[number] = place;
        }
    }
    Ok(made)
}

/// The steps of the proof that the node at a place stands for, in the profile's order: nothing where it names what isn't taken.
///
/// It takes memory and turns for as many steps as there are.
///
/// # Errors
///
/// Want of memory. A `$f` or a `$e` at a place over 1,073,741,823 would be refused as if memory were wanting: no source, of at most
/// 268,435,456 bytes, has so many.
pub fn list(
    alloc: Global,
    named: &[Named],
    nodes: &Nodes,
    root: usize,
) -> Result<Option<Proof>, AllocError>
    requires within { root < length nodes.now }
    requires whole { All (TakesAll named.now) nodes.now }
    requires few { slice_index (sizes nodes.now) root ≤ MOST_STEPS }
    ensures { IfOk result (λ steps. IsListing named.now nodes.now root steps) }
{
    let mut steps = Vec::with_capacity(alloc, nodes.size(root))?;
    let mut pending = Vec::new(alloc);
    pending.push(root)?;
    while let Some(place) = pending.pop() {
        let arguments = nodes.arguments(place);
        let number = nodes.named(place);
        let cited = &named[number];
        let Some(step) = &cited.step else {
            return Ok(None);
        };
        steps.push((number, step))?;
        push_arguments(&mut pending, arguments, cited.floats.as_slice())?;
    }
    steps.reverse();
    Ok(Some(proof_of(alloc, named.len(), steps.as_slice())?))
}
