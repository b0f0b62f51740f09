//! The tests of a citation: what a frame asks of the expressions of its mandatory hypotheses.

ghost use Rattle.std.specs.Prelude.{◌≡◌, ◌≢◌, ◌↔◌, ◌≤◌, IsTrue, IfOk, IfErr, length};
ghost use Rattle.derivation.specs.Derivation.{Gives, HasType, HaveTypes, arity};
ghost use Rattle.derivation.specs.Faults.{FailsTest};
ghost use Rattle.stepcheck.specs.Conclusions.{concluded};

use crate::pairs::pairs_fit;
use crate::stack::Args;
use crate::substitutes::{Conclusion, Substitution, are_substituted, conclude};
use crate::thesis::Proving;
use derivation::ProofFaultKind;
use mmsyntax::{Frame, Prelude, Symbol, SymbolWord};
use std::alloc::Global;

/// Whether an expression begins with the type of the `$f` at a place.
fn has_type(prelude: &Prelude, float: u32, symbols: &[SymbolWord]) -> bool
    ensures { IsTrue result ↔ HasType prelude.now float symbols.now }
{
    let floats = prelude.floats();
    let place = float as usize;
    if place >= floats.len() {
        return false;
    }
    let typed = &floats[place];
    match symbols.first() {
        None => false,
        Some(first) => match first.symbol() {
            Symbol::Const(c) => c == typed.type_code,
            Symbol::Var(_) => false,
        },
    }
}

/// Whether each `$f` has an expression of its type, in order.
fn have_types(prelude: &Prelude, floats: &[u32], args: &Args) -> bool
    requires { length floats.now ≤ length args.now }
    ensures { IsTrue result ↔ HaveTypes prelude.now floats.now args.now }
{
    for (i, float) in floats.iter().enumerate() {
        if !has_type(prelude, *float, args.at(i)) {
            return false;
        }
    }
    true
}

/// Makes what a citation of the frame gives over these expressions, one for each mandatory hypothesis; or tells the first test that fails.
pub(crate) fn node<'a>(
    alloc: Global,
    proving: Proving<'_, '_>,
    frame: &'a Frame,
    args: &Args,
    made: &mut Vec<SymbolWord>,
) -> Result<Conclusion<'a>, ProofFaultKind>
    requires { length args.now ≡ arity frame.now }
    ensures ok { IfOk result (λ e.
        Gives proving.entry.prelude.now proving.entry.thesis.now frame.now args.now (concluded e made.new.items)) }
    ensures err { IfErr result (λ kind. kind ≢ ProofFaultKind.NoMemory →
        FailsTest proving.entry.prelude.now proving.entry.thesis.now frame.now args.now kind) }
{
    let floats = frame.floats.as_slice();
    if !have_types(proving.prelude, floats, args) {
        return Err(ProofFaultKind::WrongType);
    }
    let substitution = Substitution::new(floats, args);
    let logical = args.behind(floats.len());
    if !are_substituted(&substitution, frame.hyps.as_slice(), &logical) {
        return Err(ProofFaultKind::HypothesisDiffers);
    }
    if !pairs_fit(alloc, proving.thesis, &substitution, frame.pairs.as_slice())? {
        return Err(ProofFaultKind::NotDisjoint);
    }
    conclude(&substitution, frame.statement.as_slice(), made)
}
