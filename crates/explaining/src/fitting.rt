//! The tests of types and of `$e`, in their order.

ghost use Rattle.std.specs.Prelude.{◌≡◌, IfOk, find, map};
ghost use mathlib.Core.Bool.{not};
ghost use Rattle.std.specs.Option.{option_map};
ghost use Rattle.source.specs.Views.{seen_words, seen_hypothesis};
ghost use Rattle.verifying.specs.Citations.{begins_with, has_type, is_instance, same_expression};
ghost use Rattle.explaining.specs.Shown.{seen_filled, substitution_by};

use crate::filling::{Filled, substituted};
use source::HypothesisWords;
use std::alloc::{AllocError, Global};

/// Whether an expression begins with a symbol.
fn begins_with(symbol: &[u8], expression: &[&[u8]]) -> bool
    ensures { result ≡ begins_with symbol.now (seen_words expression.now) }
{
    match expression.first() {
        None => false,
        Some(first) => symbol == *first,
    }
}

/// Whether two expressions are the same.
pub(crate) fn same_expression(expression: &[&[u8]], other: &[&[u8]]) -> bool
    ensures { result ≡ same_expression (seen_words expression.now) (seen_words other.now) }
{
    expression == other
}

/// Whether the expression in the place of a `$f` has its type.
fn is_typed(filled: &Filled<'_>) -> bool
    ensures { result ≡ has_type (seen_hypothesis filled.now.hypothesis) (seen_words filled.now.expression.items) }
{
    match &filled.hypothesis {
        HypothesisWords::Typing(_, type_code, _) => {
            begins_with(*type_code, filled.expression.as_slice())
        }
        HypothesisWords::Premise(_, _) => true,
    }
}

/// Whether the expression in the place of a `$e` is that after substitution.
fn is_instance<'a>(
    alloc: Global,
    all: &[Filled<'a>],
    filled: &Filled<'a>,
) -> Result<bool, AllocError>
    ensures { IfOk result (λ is. is ≡ is_instance (substitution_by (map seen_filled all.now)) (seen_hypothesis filled.now.hypothesis)
        (seen_words filled.now.expression.items)) }
{
    match &filled.hypothesis {
        HypothesisWords::Typing(_, _, _) => Ok(true),
        HypothesisWords::Premise(_, words) => {
            let wanted = substituted(alloc, all, words.as_slice())?;
            Ok(same_expression(wanted.as_slice(), filled.expression.as_slice()))
        }
    }
}

/// The first `$f` whose expression has another type.
pub(crate) fn first_untyped<'f, 'a>(filled: &'f [Filled<'a>]) -> Option<&'f Filled<'a>>
    ensures { option_map (λ f. seen_filled f.now) result ≡ find (λ p. not (has_type p.0 p.1)) (map seen_filled filled.now) }
{
    for part in filled {
        if !is_typed(part) {
            return Some(part);
        }
    }
    None
}

/// The first `$e` that its expression isn't.
///
/// # Errors
///
/// Want of memory.
pub(crate) fn first_differing<'f, 'a>(
    alloc: Global,
    filled: &'f [Filled<'a>],
) -> Result<Option<&'f Filled<'a>>, AllocError>
    ensures { let s = substitution_by (map seen_filled filled.now) in
        IfOk result (λ first. option_map (λ f. seen_filled f.now) first
        ≡ find (λ p. not (is_instance s p.0 p.1)) (map seen_filled filled.now)) }
{
    for part in filled {
        if !is_instance(alloc, filled, part)? {
            return Ok(Some(part));
        }
    }
    Ok(None)
}
