//! A citation over expressions: what it makes, or what the first test that it fails finds.

ghost use Rattle.std.specs.Prelude.{◌≡◌, List, IfOk, map};
ghost use Rattle.std.specs.List.{zip};
ghost use Rattle.derivation.specs.declared.fault.ProofFaultKind.TheVariants as kind;
ghost use Rattle.source.specs.Scopes.{Assertion, Hypothesis};
ghost use Rattle.verifying.specs.Citations.{Expression, types_fit, hypotheses_fit, pairs_fit};
ghost use Rattle.explaining.specs.Shown.{seen_assertion, with_hypotheses, seen_filled, Tests, Concludes};

use crate::apart::{first_broken, meeting_in};
use crate::assertion::AssertionWords;
use crate::filling::{Filled, replacement, substituted};
use crate::finding::Finding;
use crate::fitting::{first_differing, first_untyped};
use source::HypothesisWords;
use std::alloc::{AllocError, Global};

/// What comes of a citation.
#[derive(Drop)]
pub(crate) enum Conclusion<'a> {
    /// The statement after substitution.
    Made(Vec<&'a [u8]>),
    /// A test fails.
    Fails(Finding<'a>),
}

/// The test of types.
fn test_types<'a>(
    alloc: Global,
    cited: &AssertionWords<'a>,
    filled: &[Filled<'a>],
) -> Result<Option<Finding<'a>>, AllocError>
    ensures { IfOk result (λ found. (x : Assertion) (hs : List Hypothesis) (es : List Expression)
        → map seen_filled filled.now ≡ zip hs es → let c = with_hypotheses cited.now hs in
        Tests x c es (types_fit c es) kind.WrongType found) }
{
    let Some(part) = first_untyped(filled) else {
        return Ok(None);
    };
    match &part.hypothesis {
        HypothesisWords::Typing(float, wanted, _) => Ok(Some(Finding::WrongType {
            cited: cited.label,
            float: *float,
            wanted: *wanted,
            found: Vec::from_slice(alloc, part.expression.as_slice())?,
        })),
        HypothesisWords::Premise(_, _) => unreachable!(),
    }
}

/// The test of `$e`.
fn test_premises<'a>(
    alloc: Global,
    cited: &AssertionWords<'a>,
    filled: &[Filled<'a>],
) -> Result<Option<Finding<'a>>, AllocError>
    ensures { IfOk result (λ found. (x : Assertion) (hs : List Hypothesis) (es : List Expression)
        → map seen_filled filled.now ≡ zip hs es → let c = with_hypotheses cited.now hs in
        Tests x c es (hypotheses_fit c es) kind.HypothesisDiffers found) }
{
    let Some(part) = first_differing(alloc, filled)? else {
        return Ok(None);
    };
    match &part.hypothesis {
        HypothesisWords::Premise(premise, symbols) => Ok(Some(Finding::HypothesisDiffers {
            cited: cited.label,
            premise: *premise,
            wanted: substituted(alloc, filled, symbols.as_slice())?,
            found: Vec::from_slice(alloc, part.expression.as_slice())?,
        })),
        HypothesisWords::Typing(_, _, _) => unreachable!(),
    }
}

/// The test of pairs.
fn test_pairs<'a>(
    alloc: Global,
    theorem: &AssertionWords<'a>,
    cited: &AssertionWords<'a>,
    filled: &[Filled<'a>],
) -> Result<Option<Finding<'a>>, AllocError>
    ensures { let x = seen_assertion theorem.now in IfOk result (λ found. (hs : List Hypothesis) (es : List Expression)
        → map seen_filled filled.now ≡ zip hs es → let c = with_hypotheses cited.now hs in
        Tests x c es (pairs_fit x c es) kind.NotDisjoint found) }
{
    let Some((first, second)) = first_broken(alloc, theorem, cited, filled, cited.pairs.as_slice())?
    else {
        return Ok(None);
    };
    let for_first = Vec::from_slice(alloc, replacement(&*filled, &first))?;
    let for_second = Vec::from_slice(alloc, replacement(&*filled, &second))?;
    match meeting_in(alloc, theorem, for_first.as_slice(), for_second.as_slice())? {
        Some((one, other)) => Ok(Some(Finding::NotDisjoint {
            cited: cited.label,
            first,
            second,
            for_first,
            for_second,
            one,
            other,
        })),
        None => unreachable!(),
    }
}

/// What a citation makes in a proof of a theorem, or what the first test that it fails finds.
///
/// # Errors
///
/// Want of memory.
pub(crate) fn conclude<'a>(
    alloc: Global,
    theorem: &AssertionWords<'a>,
    cited: &AssertionWords<'a>,
    filled: &[Filled<'a>],
) -> Result<Conclusion<'a>, AllocError>
    ensures { let x = seen_assertion theorem.now in IfOk result (λ conclusion. (hs : List Hypothesis) (es : List Expression)
        → map seen_filled filled.now ≡ zip hs es → Concludes x (with_hypotheses cited.now hs) es conclusion) }
{
    if let Some(finding) = test_types(alloc, cited, filled)? {
        return Ok(Conclusion::Fails(finding));
    }
    if let Some(finding) = test_premises(alloc, cited, filled)? {
        return Ok(Conclusion::Fails(finding));
    }
    if let Some(finding) = test_pairs(alloc, theorem, cited, filled)? {
        return Ok(Conclusion::Fails(finding));
    }
    let made = substituted(alloc, filled, cited.statement.as_slice())?;
    Ok(Conclusion::Made(made))
}
