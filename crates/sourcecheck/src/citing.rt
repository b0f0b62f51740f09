//! A citation over the last expressions of a stack.

ghost use Rattle.std.specs.Prelude.{◌≡◌, ◌+◌, OnOk, IfErr};
ghost use Rattle.sourcecheck.specs.Spans.{last_length};
ghost use Rattle.sourcecheck.specs.Coded.{IsCited, FailsToCite};

use crate::fitting::{equals_met, pairs_met, types_met};
use crate::stack::Stack;
use derivation::ProofFaultKind;
use sourceframes::{Frame, Thesis};

/// Puts what a citation of the frame gives in the place of the last expressions, which it takes.
pub(crate) fn cite(thesis: &Thesis, frame: &Frame, stack: &mut Stack) -> Result<(), ProofFaultKind>
    ensures ok { OnOk result (IsCited thesis.now frame.now stack.old.stack stack.new.stack) }
    ensures written { OnOk result (stack.new.written ≡ stack.old.written + last_length stack.new.stack.entries) }
    ensures err { IfErr result (FailsToCite thesis.now frame.now stack.old) }
{
    let count = frame.demands.len();
    if stack.len() < count {
        return Err(ProofFaultKind::StackShort);
    }
    let arguments = stack.last(count);
    if !types_met(frame.demands.as_slice(), &arguments) {
        return Err(ProofFaultKind::WrongType);
    }
    if !equals_met(frame.demands.as_slice(), &arguments) {
        return Err(ProofFaultKind::HypothesisDiffers);
    }
    if !pairs_met(thesis, frame.pairs.as_slice(), &arguments) {
        return Err(ProofFaultKind::NotDisjoint);
    }
    stack.conclude(count, frame.statement.as_slice())
}
