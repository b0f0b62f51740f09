//! The steps of a proof, one after the other.

ghost use Rattle.std.specs.Prelude.{◌≡◌, ◌<◌, ◌≤◌, ◌+◌, ◌-◌, ◌^◌, ◌∷◌, [], ℕ, All, List, false, filter, length, map, pred, MatchResult};
ghost use Rattle.std.specs.List.{list_any};
ghost use Rattle.mmtext.specs.Words.{Word};
ghost use Rattle.source.specs.Scopes.{Assertion};
ghost use Rattle.source.specs.Letters.{is_absent};
ghost use Rattle.source.specs.Proofs.{marks, numbered, step_of};
ghost use Rattle.source.specs.Proofs as proofs;
ghost use Rattle.verifying.specs.Faults.{is_counted};
ghost use Rattle.sourcecheck.specs.Coded.{EndFails};
ghost use Rattle.sourcecheck.specs.Shown.{Stands, IsNamed, AreNamed, IsPlaced, Leads, Tells};

use crate::citing::cite;
use crate::naming::Named;
use crate::stack::Stack;
use derivation::{ProofFault, ProofFaultKind};
use source::Code;
use sourceframes::{Frame, Thesis};

/// A label.
fn take_label(
    frames: &[Frame],
    thesis: &Thesis,
    named: &Named,
    stack: &mut Stack,
) -> Result<(), ProofFaultKind>
    requires { IsPlaced (length frames.now) named.now }
    ensures { (name : ℕ → Word) (earlier : List Assertion) (x : Assertion) (w : Word) → Stands name earlier x frames.now thesis.now
        → IsNamed name earlier x w named.now → Leads name earlier x (proofs.names w) stack.old stack.new result }
{
    match named {
        Named::Unknown => Err(ProofFaultKind::UnknownStep),
        Named::Hypothesis(said) => match stack.push(said.as_slice()) {
            Ok(()) => Ok(()),
            Err(_) => Err(ProofFaultKind::NoMemory),
        },
        Named::Assertion(place) => cite(thesis, &frames[*place], stack),
    }
}

/// A number from 0: of a label, or behind the labels of a marked subproof.
fn take_number(
    frames: &[Frame],
    thesis: &Thesis,
    named: &[Named],
    stack: &mut Stack,
    number: usize,
) -> Result<(), ProofFaultKind>
    requires { All (IsPlaced (length frames.now)) named.now }
    ensures { (name : ℕ → Word) (earlier : List Assertion) (x : Assertion) (labels : List Word)
        → Stands name earlier x frames.now thesis.now → AreNamed name earlier x labels named.now
        → Leads name earlier x (numbered labels number) stack.old stack.new result }
{
    if number < named.len() {
        return take_label(frames, thesis, &named[number], stack);
    }
    match stack.repeat(number - named.len()) {
        Err(_) => Err(ProofFaultKind::NoMemory),
        Ok(false) => Err(ProofFaultKind::UnknownStep),
        Ok(true) => Ok(()),
    }
}

/// A mark.
fn take_mark(stack: &mut Stack) -> Result<(), ProofFaultKind>
    ensures { (name : ℕ → Word) (earlier : List Assertion) (x : Assertion) → Leads name earlier x marks stack.old stack.new result }
{
    match stack.mark() {
        Err(_) => Err(ProofFaultKind::NoMemory),
        Ok(false) => Err(ProofFaultKind::UnknownStep),
        Ok(true) => Ok(()),
    }
}

/// A step, if it is there: none of a finished proof is missing.
fn take_code(
    frames: &[Frame],
    thesis: &Thesis,
    named: &[Named],
    stack: &mut Stack,
    code: Code,
) -> Result<(), ProofFaultKind>
    requires { All (IsPlaced (length frames.now)) named.now }
    ensures { (name : ℕ → Word) (earlier : List Assertion) (x : Assertion) (labels : List Word)
        → Stands name earlier x frames.now thesis.now → AreNamed name earlier x labels named.now → is_absent code ≡ false
        → Leads name earlier x (step_of labels code) stack.old stack.new result }
{
    match code {
        Code::Number(number) => {
            let number = number.saturating_sub(1) as usize;
            take_number(frames, thesis, named, stack, number)
        }
        Code::Mark => take_mark(stack),
        Code::Unknown => Err(ProofFaultKind::UnknownStep),
    }
}

/// The number of a step behind so many that are counted: a mark isn't.
fn count(before: usize, code: Code) -> usize
    requires { before < 2 ^ 64 - 1 }
    ensures counted { (labels : List Word) → result ≡ before + length (filter is_counted (step_of labels code ∷ [])) }
    ensures few { result ≤ before + 1 }
{
    match code {
        Code::Number(_) => before + 1,
        Code::Mark => before,
        Code::Unknown => before + 1,
    }
}

/// Whether what is left is just the statement.
fn check_end(stack: &Stack, statement: &[u32]) -> Result<(), ProofFaultKind>
    ensures { MatchResult result (λ _. stack.now.stack.entries ≡ statement.now ∷ []) (EndFails statement.now stack.now.stack.entries) }
{
    if stack.len() != 1 {
        return Err(ProofFaultKind::NotOneLeft);
    }
    if stack.last(1).at(0) == statement {
        return Ok(());
    }
    Err(ProofFaultKind::StatementDiffers)
}

/// Takes steps, all of which are there, and tells the first fault. Their expressions lie in the room of a stack, so that one proof after
/// another asks for none; after an error it has none.
pub(crate) fn take_codes(
    room: &mut Stack,
    frames: &[Frame],
    thesis: &Thesis,
    named: &[Named],
    statement: &[u32],
    codes: &[Code],
) -> Result<(), ProofFault>
    requires { All (IsPlaced (length frames.now)) named.now }
    ensures { (name : ℕ → Word) (earlier : List Assertion) (x : Assertion) (labels : List Word)
        → Stands name earlier x frames.now thesis.now → AreNamed name earlier x labels named.now → map name statement.now ≡ x.statement
        → list_any is_absent codes.now ≡ false → Tells earlier x (map (step_of labels) codes.now) result }
{
    let mut stack = room.take_room();
    let mut step = 0;
    for code in codes {
        step = count(step, *code);
        match take_code(frames, thesis, named, &mut stack, *code) {
            Ok(()) => {}
            Err(kind) => return Err(ProofFault { step, kind }),
        }
    }
    match check_end(&stack, statement) {
        Ok(()) => {
            *room = stack;
            Ok(())
        }
        Err(kind) => Err(ProofFault { step, kind }),
    }
}
