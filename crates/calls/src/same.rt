//! Whether values are equal, field by field.

use library::PlainLibrary;
use mmsyntax::{Assertion, Expr, Float, Label, Prelude};

/// Whether two lists have the same expressions.
pub(crate) fn are_same(some: &[Expr], others: &[Expr]) -> bool {
    for (one, other) in some.iter().zip(others) {
        if one.as_slice() != other.as_slice() {
            return false;
        }
    }
    some.len() == others.len()
}

/// Whether two assertions are equal.
pub(crate) fn is_same_assertion(one: &Assertion, other: &Assertion) -> bool {
    one.label == other.label
        && one.kind == other.kind
        && one.pairs.as_slice() == other.pairs.as_slice()
        && are_same(one.hyps.as_slice(), other.hyps.as_slice())
        && one.statement.as_slice() == other.statement.as_slice()
        && one.proof.has_same_steps(&other.proof)
}

/// Whether two lists have the same labels.
fn are_same_labels(some: &[Label], others: &[Label]) -> bool {
    for (one, other) in some.iter().zip(others) {
        if one != other {
            return false;
        }
    }
    some.len() == others.len()
}

/// Whether two lists have the same `$f`.
fn are_same_floats(some: &[Float], others: &[Float]) -> bool {
    for (one, other) in some.iter().zip(others) {
        let is_same = one.label == other.label
            && one.type_code == other.type_code
            && one.variable == other.variable;
        if !is_same {
            return false;
        }
    }
    some.len() == others.len()
}

/// Whether two preludes are equal.
pub(crate) fn is_same_prelude(one: &Prelude, other: &Prelude) -> bool {
    are_same_labels(one.constants(), other.constants())
        && are_same_labels(one.variables(), other.variables())
        && are_same_floats(one.floats(), other.floats())
}

/// Whether two libraries are equal.
pub(crate) fn is_same_library(one: &PlainLibrary, other: &PlainLibrary) -> bool {
    for (own, its) in one.entries().iter().zip(other.entries()) {
        if own.rank != its.rank || !is_same_assertion(&own.assertion, &its.assertion) {
            return false;
        }
    }
    one.entries().len() == other.entries().len()
        && one.slots() == other.slots()
        && is_same_prelude(one.prelude(), other.prelude())
}
