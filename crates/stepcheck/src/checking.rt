//! Checks one proof.
//!
//! The steps are taken in order over a stack of what their trees derive. No definition knows the stack: contracts speak of trees.

ghost use Rattle.std.specs.Prelude.{◌≡◌, ◌≢◌, List, ℕ, [], ◌∷◌, length, map, IfOk, OnOk, IfErr, MatchResult};
ghost use Rattle.std.specs.Option.{option_copied};
ghost use Rattle.mmsyntax.specs.ProofWords.{IsWithin, step_in};
ghost use Rattle.derivation.specs.Derivation.{Citable, Proves, Checks};
ghost use Rattle.derivation.specs.Faults.{StepFails, EndFails, HasFault, HasProofFault};
ghost use Rattle.derivation.specs.Moves.{Moves, GivesOnLast, FailsOnLast};

use crate::frames::Frames;
use crate::node::node;
use crate::stack::Stack;
use crate::substitutes::Conclusion;
use crate::thesis::{Proving, Thesis};
use derivation::{ProofFault, ProofFaultKind};
use mmsyntax::{Assertion, Expr, Frame, Kind, Label, Prelude, Symbol, SymbolWord, WordStep};
use std::alloc::{AllocError, Global};

/// Puts what a citation of the frame gives in the place of the last expressions, which it takes.
fn cite<'a>(
    alloc: Global,
    proving: Proving<'_, '_>,
    frame: &'a Frame,
    stack: &mut Stack<'a>,
    made: &mut Vec<SymbolWord>,
) -> Result<(), ProofFaultKind>
    ensures ok { OnOk result (GivesOnLast proving.entry.prelude.now proving.entry.thesis.now frame.now stack.old stack.new) }
    ensures err { IfErr result (λ kind. kind ≢ ProofFaultKind.NoMemory →
        FailsOnLast proving.entry.prelude.now proving.entry.thesis.now frame.now stack.old kind) }
{
    let count = frame.floats.as_slice().len() + frame.hyps.as_slice().len();
    if stack.len() < count {
        return Err(ProofFaultKind::StackShort);
    }
    let base = stack.len() - count;
    let conclusion = node(alloc, proving, frame, &stack.last(count), made)?;
    stack.truncate(base);
    match conclusion {
        Conclusion::Unchanged(statement) => stack.lend(statement),
        Conclusion::Made => stack.push(made.as_slice()),
    }
}

/// The frame of each label, if it may be cited, in their order.
fn frames_of<'a, F: Frames>(
    alloc: Global,
    frames: &'a F,
    labels: &[Label],
) -> Result<Vec<Option<&'a Frame>>, AllocError>
    ensures { IfOk result (λ found. map option_copied found.items ≡ map (F.frames frames.now) labels.now) }
{
    let mut found = Vec::with_capacity(alloc, labels.len())?;
    for label in labels {
        found.push(frames.frame(label))?;
    }
    Ok(found)
}

/// Takes one step, whose label is one of those with these frames. What a citation makes is put together in `made`.
fn take_step<'a>(
    alloc: Global,
    proving: Proving<'_, 'a>,
    frames: &[Option<&'a Frame>],
    stack: &mut Stack<'a>,
    made: &mut Vec<SymbolWord>,
    step: WordStep,
) -> Result<(), ProofFaultKind>
    requires { IsWithin (length frames.now) step }
    ensures ok { OnOk result ((lib : Citable) (labels : List (List ℕ)) → map option_copied frames.now ≡ map lib labels →
        Moves lib proving.entry.prelude.now proving.entry.thesis.now stack.old (step_in labels step) stack.new) }
    ensures err { IfErr result (λ kind. kind ≢ ProofFaultKind.NoMemory →
        (lib : Citable) (labels : List (List ℕ)) → map option_copied frames.now ≡ map lib labels →
        StepFails lib proving.entry.prelude.now proving.entry.thesis.now stack.old (step_in labels step) kind) }
{
    match step {
        WordStep::Float(i) => match proving.prelude.floats().get(i as usize) {
            None => Err(ProofFaultKind::UnknownStep),
            Some(float) => {
                stack.push_two(
                    SymbolWord::new(Symbol::Const(float.type_code)),
                    SymbolWord::new(Symbol::Var(i)),
                )?;
                Ok(())
            }
        },
        WordStep::Hyp(k) => match proving.thesis.assertion().hyps.as_slice().get(k as usize) {
            None => Err(ProofFaultKind::UnknownStep),
            Some(hyp) => stack.lend(hyp.as_slice()),
        },
        WordStep::Cite(n) => match frames[n as usize] {
            None => Err(ProofFaultKind::UnknownStep),
            Some(frame) => cite(alloc, proving, frame, stack, made),
        },
    }
}

/// Whether what is left behind the last step, which is the one with this number, is just the statement.
fn check_end(statement: &Expr, left: &Stack, step: usize) -> Result<(), ProofFault>
    ensures yes { OnOk result (left.now ≡ statement.now ∷ []) }
    ensures fault { IfErr result (λ fault. (fault.step ≡ step) × EndFails statement.now left.now fault.kind) }
{
    if left.len() != 1 {
        return Err(ProofFault {
            step,
            kind: ProofFaultKind::NotOneLeft,
        });
    }
    if left.last(1).at(0) == statement.as_slice() {
        return Ok(());
    }
    Err(ProofFault {
        step,
        kind: ProofFaultKind::StatementDiffers,
    })
}

/// Whether the steps are the listing of a tree that derives the statement, and if not, their fault.
fn check_steps<'a, F: Frames>(
    alloc: Global,
    prelude: &Prelude,
    frames: &'a F,
    assertion: &'a Assertion,
) -> Result<(), ProofFault>
    ensures yes { OnOk result (Proves (F.frames frames.now) prelude.now assertion.now assertion.now.proof assertion.now.statement) }
    ensures fault { IfErr result (λ fault. fault.kind ≢ ProofFaultKind.NoMemory →
        HasFault (F.frames frames.now) prelude.now assertion.now fault) }
{
    let steps = assertion.proof.word_steps();
    let count = steps.words.len();
    let Ok(found) = frames_of(alloc, frames, steps.cited) else {
        return Err(ProofFault {
            step: 0,
            kind: ProofFaultKind::NoMemory,
        });
    };
    let cited = found.as_slice();
    let thesis = Thesis::new(assertion);
    let proving = Proving {
        prelude,
        thesis: &thesis,
    };
    let mut stack = Stack::new(alloc);
    let mut made = Vec::new(alloc);
    for done in 0..count {
        let step = steps.step(done);
        match take_step(alloc, proving, cited, &mut stack, &mut made, step) {
            Ok(()) => {}
            Err(kind) => return Err(ProofFault {
                step: done + 1,
                kind,
            }),
        }
    }
    check_end(&assertion.statement, &stack, count)
}

/// Checks an assertion over what its proof may cite. An axiom has nothing to check.
///
/// Ok only where the steps of a theorem are the listing of a tree that derives its statement; else the fault of the proof. At a step
/// the tests come in this order: `UnknownStep`, `StackShort`, `WrongType` of each `$f`, `HypothesisDiffers` of each `$e`,
/// `NotDisjoint`, `TooLong`; at the end `NotOneLeft`, then `StatementDiffers`. The assertion need not fit the prelude.
///
/// The time is about linear in the symbols that the steps write down and compare, plus the pairs of variables that are compared: a pair is
/// found by halving among those of the assertion, or at once where it stands close behind the one before, and the expression of a variable
/// among the `$f` of a frame, by halving where they are many. Pairs or `$f` that don't ascend are gone through instead: no assertion that
/// fits a prelude and no frame of `frame_of` has such. A step that names a `$e`, or an assertion without mandatory variables, copies
/// nothing. Each other citation writes its expression down twice, the second time behind those that are left. Each label of the proof is
/// looked up once, before the first step. No step allocates, but where the room for all of them grows.
pub fn check<F: Frames>(
    alloc: Global,
    prelude: &Prelude,
    frames: &F,
    assertion: &Assertion,
) -> Result<(), ProofFault>
    ensures yes { OnOk result (Checks (F.frames frames.now) prelude.now assertion.now) }
    ensures fault { IfErr result (λ fault. fault.kind ≢ ProofFaultKind.NoMemory →
        HasProofFault (F.frames frames.now) prelude.now assertion.now fault) }
    ensures proved { Checks (F.frames frames.now) prelude.now assertion.now →
        IfErr result (λ fault. fault.kind ≡ ProofFaultKind.NoMemory) }
    ensures refused { (fault : ProofFault) → HasProofFault (F.frames frames.now) prelude.now assertion.now fault →
        MatchResult result (λ _. ⊥) (λ found. found.kind ≢ ProofFaultKind.NoMemory → found ≡ fault) }
{
    match assertion.kind {
        Kind::Axiom => Ok(()),
        Kind::Theorem => check_steps(alloc, prelude, frames, assertion),
    }
}
