//! The mandatory hypotheses of what is cited, with the expressions in their places, and what these make of symbols.

ghost use Rattle.std.specs.Prelude.{◌≡◌, IfOk, drop, map};
ghost use Rattle.std.specs.List.{zip};
ghost use Rattle.source.specs.Scopes.{is_float_of};
ghost use Rattle.source.specs.Views.{seen_words, seen_hypothesis};
ghost use Rattle.verifying.specs.Citations.{replacement, subst};
ghost use Rattle.explaining.specs.Shown.{seen_expression, seen_filled, substitution_by};

use source::HypothesisWords;
use std::alloc::{AllocError, Global};
use std::slice;

/// A mandatory hypothesis, and the expression in its place.
#[derive(Drop)]
pub(crate) struct Filled<'a> {
    pub(crate) hypothesis: HypothesisWords<'a>,
    pub(crate) expression: Vec<&'a [u8]>,
}

/// Hypotheses with the expressions in their places, in order.
///
/// # Errors
///
/// Want of memory.
pub(crate) fn filled_with<'a>(
    alloc: Global,
    hypotheses: Vec<HypothesisWords<'a>>,
    expressions: Vec<Vec<&'a [u8]>>,
) -> Result<Vec<Filled<'a>>, AllocError>
    ensures { IfOk result (λ fs. map seen_filled fs.items
        ≡ zip (map seen_hypothesis hypotheses.entry.items) (map seen_expression expressions.entry.items)) }
{
    let mut filled = Vec::new(alloc);
    for (hypothesis, expression) in hypotheses.into_iter().zip(expressions) {
        filled.push(Filled {
            hypothesis,
            expression,
        })?;
    }
    Ok(filled)
}

/// Whether a hypothesis is the `$f` of a symbol.
pub(crate) fn is_float_of(symbol: &[u8], hypothesis: &HypothesisWords<'_>) -> bool
    ensures { result ≡ is_float_of symbol.now (seen_hypothesis hypothesis.now) }
{
    match hypothesis {
        HypothesisWords::Typing(_, _, variable) => symbol == *variable,
        HypothesisWords::Premise(_, _) => false,
    }
}

/// An expression without its type.
fn without_type<'e, 'a>(typed: &'e [&'a [u8]]) -> &'e [&'a [u8]]
    ensures { seen_words result.now ≡ drop 1 (seen_words typed.now) }
{
    if typed.is_empty() {
        return typed;
    }
    &typed[1..]
}

/// What stands for a symbol: the expression in the place of its `$f` without the type, or else itself.
pub(crate) fn replacement<'f, 'a>(filled: &'f [Filled<'a>], symbol: &'f &'a [u8]) -> &'f [&'a [u8]]
    ensures { seen_words result.now ≡ replacement (substitution_by (map seen_filled filled.now)) symbol.now.now }
{
    for part in filled {
        if is_float_of(*symbol, &part.hypothesis) {
            return without_type(part.expression.as_slice());
        }
    }
    slice::from_ref(symbol)
}

/// What an expression is after substitution.
///
/// # Errors
///
/// Want of memory.
pub(crate) fn substituted<'a>(
    alloc: Global,
    filled: &[Filled<'a>],
    expression: &[&'a [u8]],
) -> Result<Vec<&'a [u8]>, AllocError>
    ensures { IfOk result (λ made. seen_words made.items
        ≡ subst (substitution_by (map seen_filled filled.now)) (seen_words expression.now)) }
{
    let mut made = Vec::new(alloc);
    for symbol in expression {
        made.extend_from_slice(replacement(&*filled, symbol))?;
    }
    Ok(made)
}
