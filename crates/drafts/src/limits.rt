//! The limits of the profile, and the first that a draft passes.

ghost use Rattle.std.specs.Prelude.{◌≡◌, ◌≤◌, IsTrue, IfSome, IfNone, None, nat_lt, length, position};
ghost use Rattle.std.specs.List.{list_any};
ghost use Rattle.drafts.specs.Drafts.{contents_of};
ghost use Rattle.drafts.specs.Limits.{IsPassed, PassesNone, expressions, is_long};
ghost use Rattle.mmsyntax.specs.declared.limits.TheConstants.{MOST_ASSERTIONS, MOST_DECLARED, MOST_HYPOTHESES, MOST_NAME_BYTES, MOST_PAIRS, MOST_STEPS};

use crate::draft::Draft;
use mmsyntax::{
    Assertion, Expr, Float, Label, MOST_ASSERTIONS, MOST_DECLARED, MOST_HYPOTHESES,
    MOST_NAME_BYTES, MOST_PAIRS, MOST_STEPS, MOST_SYMBOLS,
};

/// A limit that a draft passes. Places count from 0.
#[derive(Clone, Copy, Debug, PartialEq, Eq)]
pub enum Limit {
    /// More than 65,535 constants: their number.
    ManyConstants(usize),
    /// More than 65,535 variables: their number.
    ManyVariables(usize),
    /// More than 65,535 `$f`: their number.
    ManyFloats(usize),
    /// More than 4,096 assertions: their number.
    ManyAssertions(usize),
    /// The constant at this place has more than 255 bytes.
    LongConstant(usize),
    /// The variable at this place has more than 255 bytes.
    LongVariable(usize),
    /// The label of the `$f` at this place has more than 255 bytes.
    LongFloat(usize),
    /// The label of the assertion at this place has more than 255 bytes.
    LongLabel(usize),
    /// The assertion at this place has more than 1,000 `$e`.
    ManyHypotheses(usize),
    /// The statement or a `$e` of the assertion at this place has more than 65,535 symbols.
    ManySymbols(usize),
    /// The assertion at this place has more than 65,535 pairs.
    ManyPairs(usize),
    /// The proof of the assertion at this place has more than 16,384 steps.
    ManySteps(usize),
}

/// The first limit that a draft passes, in the order of [`Limit`].
pub(crate) fn passed_limit(draft: &Draft) -> Option<Limit>
    ensures passed { IfSome result (IsPassed (contents_of draft.now)) }
    ensures none { IfNone result (PassesNone (contents_of draft.now)) }
    ensures constants { IfNone result (length draft.now.constants ≤ MOST_DECLARED) }
    ensures variables { IfNone result (length draft.now.variables ≤ MOST_DECLARED) }
    ensures floats { IfNone result (length draft.now.floats ≤ MOST_DECLARED) }
    ensures assertions { IfNone result (length draft.now.assertions ≤ MOST_ASSERTIONS) }
{
    if let Some(limit) = passed_number(draft) {
        return Some(limit);
    }
    if let Some(limit) = passed_length(draft) {
        return Some(limit);
    }
    passed_by_assertion(draft)
}

/// The first list that is too long.
fn passed_number(draft: &Draft) -> Option<Limit>
    ensures passed { IfSome result (IsPassed (contents_of draft.now)) }
    ensures constants { IfNone result (length draft.now.constants ≤ MOST_DECLARED) }
    ensures variables { IfNone result (length draft.now.variables ≤ MOST_DECLARED) }
    ensures floats { IfNone result (length draft.now.floats ≤ MOST_DECLARED) }
    ensures assertions { IfNone result (length draft.now.assertions ≤ MOST_ASSERTIONS) }
{
    let constants = draft.constants.as_slice().len();
    if constants > MOST_DECLARED {
        return Some(Limit::ManyConstants(constants));
    }
    let variables = draft.variables.as_slice().len();
    if variables > MOST_DECLARED {
        return Some(Limit::ManyVariables(variables));
    }
    let floats = draft.floats.as_slice().len();
    if floats > MOST_DECLARED {
        return Some(Limit::ManyFloats(floats));
    }
    let assertions = draft.assertions.as_slice().len();
    if assertions > MOST_ASSERTIONS {
        return Some(Limit::ManyAssertions(assertions));
    }
    None
}

/// The first name that is too long.
fn passed_length(draft: &Draft) -> Option<Limit>
    ensures passed { IfSome result (IsPassed (contents_of draft.now)) }
    ensures constants { IfNone result (position (λ name. nat_lt MOST_NAME_BYTES (length name)) draft.now.constants ≡ None) }
    ensures variables { IfNone result (position (λ name. nat_lt MOST_NAME_BYTES (length name)) draft.now.variables ≡ None) }
    ensures floats { IfNone result (position (λ float. nat_lt MOST_NAME_BYTES (length float.label)) draft.now.floats ≡ None) }
    ensures labels { IfNone result (position (λ a. nat_lt MOST_NAME_BYTES (length a.label)) draft.now.assertions ≡ None) }
{
    if let Some(place) = long_name(draft.constants.as_slice()) {
        return Some(Limit::LongConstant(place));
    }
    if let Some(place) = long_name(draft.variables.as_slice()) {
        return Some(Limit::LongVariable(place));
    }
    if let Some(place) = long_float(draft.floats.as_slice()) {
        return Some(Limit::LongFloat(place));
    }
    if let Some(place) = long_label(draft.assertions.as_slice()) {
        return Some(Limit::LongLabel(place));
    }
    None
}

/// The first assertion that has too much of something.
fn passed_by_assertion(draft: &Draft) -> Option<Limit>
    ensures passed { IfSome result (IsPassed (contents_of draft.now)) }
    ensures hyps { IfNone result (position (λ a. nat_lt MOST_HYPOTHESES (length a.hyps)) draft.now.assertions ≡ None) }
    ensures symbols { IfNone result (position (λ a. list_any is_long (expressions a)) draft.now.assertions ≡ None) }
    ensures pairs { IfNone result (position (λ a. nat_lt MOST_PAIRS (length a.pairs)) draft.now.assertions ≡ None) }
    ensures steps { IfNone result (position (λ a. nat_lt MOST_STEPS (length a.proof)) draft.now.assertions ≡ None) }
{
    let assertions = draft.assertions.as_slice();
    if let Some(place) = many_hypotheses(assertions) {
        return Some(Limit::ManyHypotheses(place));
    }
    if let Some(place) = many_symbols(assertions) {
        return Some(Limit::ManySymbols(place));
    }
    if let Some(place) = many_pairs(assertions) {
        return Some(Limit::ManyPairs(place));
    }
    if let Some(place) = many_steps(assertions) {
        return Some(Limit::ManySteps(place));
    }
    None
}

/// The place of the first name of over 255 bytes.
fn long_name(names: &[Label]) -> Option<usize>
    ensures { result ≡ position (λ name. nat_lt MOST_NAME_BYTES (length name)) names.now }
{
    names
        .iter()
        .position(|name| name.as_slice().len() > MOST_NAME_BYTES)
}

/// The place of the first `$f` whose label has over 255 bytes.
fn long_float(floats: &[Float]) -> Option<usize>
    ensures { result ≡ position (λ float. nat_lt MOST_NAME_BYTES (length float.label)) floats.now }
{
    floats
        .iter()
        .position(|float| float.label.as_slice().len() > MOST_NAME_BYTES)
}

/// The place of the first assertion whose label has over 255 bytes.
fn long_label(assertions: &[Assertion]) -> Option<usize>
    ensures { result ≡ position (λ a. nat_lt MOST_NAME_BYTES (length a.label)) assertions.now }
{
    assertions
        .iter()
        .position(|a| a.label.as_slice().len() > MOST_NAME_BYTES)
}

/// The place of the first assertion that has over 1,000 `$e`.
fn many_hypotheses(assertions: &[Assertion]) -> Option<usize>
    ensures { result ≡ position (λ a. nat_lt MOST_HYPOTHESES (length a.hyps)) assertions.now }
{
    assertions
        .iter()
        .position(|a| a.hyps.as_slice().len() > MOST_HYPOTHESES)
}

/// Whether an expression has over 65,535 symbols.
fn is_long(expression: &Expr) -> bool
    ensures { result ≡ is_long expression.now }
{
    expression.as_slice().len() > MOST_SYMBOLS
}

/// Whether one of the expressions has over 65,535 symbols.
fn is_any_long(expressions: &[Expr]) -> bool
    ensures { result ≡ list_any is_long expressions.now }
{
    expressions.iter().any(|e| is_long(e))
}

/// Whether the statement or a `$e` of an assertion has over 65,535 symbols.
fn has_long_expression(assertion: &Assertion) -> bool
    ensures { result ≡ list_any is_long (expressions assertion.now) }
{
    is_long(&assertion.statement) || is_any_long(assertion.hyps.as_slice())
}

/// The place of the first assertion with an expression of over 65,535 symbols.
fn many_symbols(assertions: &[Assertion]) -> Option<usize>
    ensures { result ≡ position (λ a. list_any is_long (expressions a)) assertions.now }
{
    assertions.iter().position(|a| has_long_expression(a))
}

/// The place of the first assertion that has over 65,535 pairs.
fn many_pairs(assertions: &[Assertion]) -> Option<usize>
    ensures { result ≡ position (λ a. nat_lt MOST_PAIRS (length a.pairs)) assertions.now }
{
    assertions
        .iter()
        .position(|a| a.pairs.as_slice().len() > MOST_PAIRS)
}

/// The place of the first assertion whose proof has over 16,384 steps.
fn many_steps(assertions: &[Assertion]) -> Option<usize>
    ensures { result ≡ position (λ a. nat_lt MOST_STEPS (length a.proof)) assertions.now }
{
    assertions.iter().position(|a| a.proof.len() > MOST_STEPS)
}
