//! The test of pairs.

ghost use Rattle.std.specs.Prelude.{◌≡◌, ◌&&◌, ◌||◌, IfOk, filter, find, map};
ghost use mathlib.Core.Bool.{not};
ghost use Rattle.std.specs.Option.{option_map};
ghost use Rattle.std.specs.List.{list_any};
ghost use Rattle.std.specs.Str.{bytes_eq};
ghost use Rattle.source.specs.Scopes.{is_float_of, stands_in, is_mandatory_variable};
ghost use Rattle.source.specs.Views.{seen_words, seen_hypothesis, seen_pairs};
ghost use Rattle.verifying.specs.Citations.{is_pair_of, symbols_apart, variables_in, are_apart, replacement};
ghost use Rattle.explaining.specs.Shown.{seen_assertion, seen_filled, substitution_by, AreMeeting};

use crate::assertion::AssertionWords;
use crate::filling::{Filled, is_float_of, replacement};
use source::HypothesisWords;
use std::alloc::{AllocError, Global};

/// Whether a word is one of these.
fn is_in(words: &[&[u8]], word: &[u8]) -> bool
    ensures { result ≡ list_any (λ w. bytes_eq word.now w.now) words.now }
{
    words.iter().any(|one| word == *one)
}

/// Whether a variable stands in a hypothesis that is a `$e`.
fn stands_in(word: &[u8], hypothesis: &HypothesisWords<'_>) -> bool
    ensures { result ≡ stands_in word.now (seen_hypothesis hypothesis.now) }
{
    match hypothesis {
        HypothesisWords::Typing(_, _, _) => false,
        HypothesisWords::Premise(_, words) => is_in(words.as_slice(), word),
    }
}

/// Whether a variable stands in a `$e` among hypotheses.
fn is_mentioned(word: &[u8], hypotheses: &[HypothesisWords<'_>]) -> bool
    ensures { result ≡ list_any (λ h. stands_in word.now (seen_hypothesis h)) hypotheses.now }
{
    hypotheses
        .iter()
        .any(|hypothesis| stands_in(word, hypothesis))
}

/// Whether a variable is mandatory for an assertion.
fn is_mandatory(assertion: &AssertionWords<'_>, word: &[u8]) -> bool
    ensures { let a = seen_assertion assertion.now in result ≡ is_mandatory_variable a.active a.statement word.now }
{
    is_in(assertion.statement.as_slice(), word) || is_mentioned(word, assertion.active.as_slice())
}

/// Whether one of these hypotheses is the `$f` of a symbol.
fn has_float(symbol: &[u8], hypotheses: &[HypothesisWords<'_>]) -> bool
    ensures { result ≡ list_any (λ h. is_float_of symbol.now (seen_hypothesis h)) hypotheses.now }
{
    hypotheses
        .iter()
        .any(|hypothesis| is_float_of(symbol, hypothesis))
}

/// Whether a symbol is a variable: that of an active `$f`.
fn is_variable(theorem: &AssertionWords<'_>, symbol: &[u8]) -> bool
    ensures { result ≡ list_any (is_float_of symbol.now) (seen_assertion theorem.now).active }
{
    has_float(symbol, theorem.active.as_slice())
}

/// The variables of an expression.
fn variables_in<'a>(
    alloc: Global,
    theorem: &AssertionWords<'a>,
    expression: &[&'a [u8]],
) -> Result<Vec<&'a [u8]>, AllocError>
    ensures { IfOk result (λ made. seen_words made.items ≡ variables_in (seen_assertion theorem.now) (seen_words expression.now)) }
{
    let mut variables = Vec::new(alloc);
    for symbol in expression {
        if is_variable(theorem, *symbol) {
            variables.push(*symbol)?;
        }
    }
    Ok(variables)
}

/// Whether two variables are those of a pair, in either order.
fn is_pair_of(first: &[u8], second: &[u8], pair: (&[u8], &[u8])) -> bool
    ensures { result ≡ is_pair_of first.now second.now (pair.entry.0.now, pair.entry.1.now) }
{
    (first == pair.0 && second == pair.1) || (first == pair.1 && second == pair.0)
}

/// Whether two variables are those of one of these pairs.
fn are_paired(first: &[u8], second: &[u8], pairs: &[(&[u8], &[u8])]) -> bool
    ensures { result ≡ list_any (λ p. is_pair_of first.now second.now (p.0.now, p.1.now)) pairs.now }
{
    pairs.iter().any(|pair| is_pair_of(first, second, *pair))
}

/// Whether two variables differ and are an active pair.
fn are_symbols_apart(theorem: &AssertionWords<'_>, first: &[u8], second: &[u8]) -> bool
    ensures { result ≡ symbols_apart (seen_assertion theorem.now) first.now second.now }
{
    first != second && are_paired(first, second, theorem.pairs.as_slice())
}

/// The first of these variables from which one isn't apart.
fn first_beside<'a>(
    theorem: &AssertionWords<'a>,
    variable: &[u8],
    others: &[&'a [u8]],
) -> Option<&'a [u8]>
    ensures { option_map (λ w. w.now) result
        ≡ find (λ v. not (symbols_apart (seen_assertion theorem.now) variable.now v)) (seen_words others.now) }
{
    for other in others {
        if !are_symbols_apart(theorem, variable, *other) {
            return Some(*other);
        }
    }
    None
}

/// The first of these variables that isn't apart from all of others, with the first from which it isn't.
fn first_meeting<'a>(
    theorem: &AssertionWords<'a>,
    variables: &[&'a [u8]],
    others: &[&'a [u8]],
) -> Option<(&'a [u8], &'a [u8])>
    ensures { AreMeeting (seen_assertion theorem.now) (seen_words variables.now) (seen_words others.now) result }
{
    for variable in variables {
        if let Some(beside) = first_beside(theorem, *variable, others) {
            return Some((*variable, beside));
        }
    }
    None
}

/// Of the variables of two expressions the first that isn't apart from all of the other, with the first from which it isn't.
///
/// # Errors
///
/// Want of memory.
pub(crate) fn meeting_in<'a>(
    alloc: Global,
    theorem: &AssertionWords<'a>,
    expression: &[&'a [u8]],
    other: &[&'a [u8]],
) -> Result<Option<(&'a [u8], &'a [u8])>, AllocError>
    ensures { let x = seen_assertion theorem.now in
        IfOk result (AreMeeting x (variables_in x (seen_words expression.now)) (variables_in x (seen_words other.now))) }
{
    let variables = variables_in(alloc, theorem, expression)?;
    let others = variables_in(alloc, theorem, other)?;
    Ok(first_meeting(theorem, variables.as_slice(), others.as_slice()))
}

/// Whether two variables of what is cited are mandatory, and stand for what isn't apart.
fn is_broken<'a>(
    alloc: Global,
    theorem: &AssertionWords<'a>,
    cited: &AssertionWords<'a>,
    filled: &[Filled<'a>],
    pair: (&'a [u8], &'a [u8]),
) -> Result<bool, AllocError>
    ensures { let x = seen_assertion theorem.now in let c = seen_assertion cited.now in
        let s = substitution_by (map seen_filled filled.now) in
        IfOk result (λ broken. broken ≡ ((is_mandatory_variable c.active c.statement pair.entry.0.now
        && is_mandatory_variable c.active c.statement pair.entry.1.now)
        && not (are_apart x (replacement s pair.entry.0.now) (replacement s pair.entry.1.now)))) }
{
    if !is_mandatory(cited, pair.0) || !is_mandatory(cited, pair.1) {
        return Ok(false);
    }
    let meeting = meeting_in(
        alloc,
        theorem,
        replacement(&*filled, &pair.0),
        replacement(&*filled, &pair.1),
    )?;
    Ok(meeting.is_some())
}

/// The first of these pairs that is mandatory for what is cited, and whose variables stand for what isn't apart.
///
/// # Errors
///
/// Want of memory.
pub(crate) fn first_broken<'a>(
    alloc: Global,
    theorem: &AssertionWords<'a>,
    cited: &AssertionWords<'a>,
    filled: &[Filled<'a>],
    pairs: &[(&'a [u8], &'a [u8])],
) -> Result<Option<(&'a [u8], &'a [u8])>, AllocError>
    ensures { let x = seen_assertion theorem.now in let c = seen_assertion cited.now in
        let s = substitution_by (map seen_filled filled.now) in IfOk result (λ first. option_map (λ p. (p.0.now, p.1.now)) first
        ≡ find (λ p. not (are_apart x (replacement s p.0) (replacement s p.1)))
        (filter (λ p. is_mandatory_variable c.active c.statement p.0 && is_mandatory_variable c.active c.statement p.1)
        (seen_pairs pairs.now))) }
{
    for pair in pairs {
        if is_broken(alloc, theorem, cited, filled, *pair)? {
            return Ok(Some(*pair));
        }
    }
    Ok(None)
}
