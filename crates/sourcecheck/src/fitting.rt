//! The tests of a citation, in their order.

ghost use Rattle.std.specs.Prelude.{◌≡◌, ◌↔◌, ◌&&◌, ◌||◌, IsTrue, length, drop};
ghost use mathlib.Core.Bool.{not};
ghost use Rattle.sourcecheck.specs.Coded.{piece_value, filled, begins_with_number, is_typed, types_met, is_equal, equals_met, pairs_met, is_apart, are_numbers_apart};
ghost use Rattle.sourceframes.specs.Theses.{is_variable_of, numbers_apart};

use crate::stack::Arguments;
use sourceframes::{Demand, Piece, Thesis};
use std::slice;

/// Whether an expression begins with a symbol.
fn begins_with(expression: &[u32], number: u32) -> bool
    ensures { result ≡ begins_with_number number expression.now }
{
    match expression.first() {
        None => false,
        Some(first) => number == *first,
    }
}

/// Whether an argument has the type that is asked of it.
fn is_typed(demand: &Demand, argument: &[u32]) -> bool
    ensures { result ≡ is_typed demand.now argument.now }
{
    match demand {
        Demand::Typed(number) => begins_with(argument, *number),
        Demand::Equal(_) => true,
    }
}

/// Whether each argument of a `$f` has its type.
pub(crate) fn types_met(demands: &[Demand], arguments: &Arguments) -> bool
    requires { length demands.now ≡ length arguments.now }
    ensures { result ≡ types_met demands.now arguments.now }
{
    for (place, demand) in demands.iter().enumerate() {
        if !is_typed(demand, arguments.at(place)) {
            return false;
        }
    }
    true
}

/// An expression without its type.
fn without_type(typed: &[u32]) -> &[u32]
    ensures { result.now ≡ drop 1 typed.now }
{
    if typed.is_empty() {
        return typed;
    }
    &typed[1..]
}

/// What stands for a piece.
fn value_of<'s>(arguments: &'s Arguments, piece: &'s Piece) -> &'s [u32]
    ensures { result.now ≡ piece_value arguments.now piece.now }
{
    match piece {
        Piece::Itself(number) => slice::from_ref(number),
        Piece::Argument(place) => without_type(arguments.at(*place as usize)),
    }
}

/// Whether what stands for pieces is an expression.
fn is_filled(arguments: &Arguments, pieces: &[Piece], expression: &[u32]) -> bool
    ensures { IsTrue result ↔ (filled arguments.now pieces.now ≡ expression.now) }
{
    let mut rest = expression;
    for piece in pieces {
        match rest.strip_prefix(value_of(&*arguments, piece)) {
            None => return false,
            Some(later) => rest = later,
        }
    }
    rest.is_empty()
}

/// Whether an argument is the expression that is asked of it, after substitution.
fn is_equal(arguments: &Arguments, demand: &Demand, argument: &[u32]) -> bool
    ensures { result ≡ is_equal arguments.now demand.now argument.now }
{
    match demand {
        Demand::Typed(_) => true,
        Demand::Equal(pieces) => is_filled(arguments, pieces.as_slice(), argument),
    }
}

/// Whether each argument of a `$e` is what the substitution makes of it.
pub(crate) fn equals_met(demands: &[Demand], arguments: &Arguments) -> bool
    requires { length demands.now ≡ length arguments.now }
    ensures { result ≡ equals_met demands.now arguments.now }
{
    for (place, demand) in demands.iter().enumerate() {
        if !is_equal(arguments, demand, arguments.at(place)) {
            return false;
        }
    }
    true
}

/// Whether a symbol is no variable, or is apart from a variable.
fn lets(thesis: &Thesis, variable: u32, other: u32) -> bool
    ensures { result ≡ (not (is_variable_of thesis.now other) || numbers_apart thesis.now variable other) }
{
    !thesis.is_variable(other) || thesis.are_apart(variable, other)
}

/// Whether a variable is apart from each variable of an expression.
fn is_apart(thesis: &Thesis, variable: u32, expression: &[u32]) -> bool
    ensures { result ≡ is_apart thesis.now variable expression.now }
{
    expression
        .iter()
        .all(|other| lets(thesis, variable, *other))
}

/// Whether a symbol is no variable, or is apart from each variable of an expression.
fn lets_all(thesis: &Thesis, symbol: u32, expression: &[u32]) -> bool
    ensures { result ≡ (not (is_variable_of thesis.now symbol) || is_apart thesis.now symbol expression.now) }
{
    !thesis.is_variable(symbol) || is_apart(thesis, symbol, expression)
}

/// Whether each variable of an expression is apart from each of another.
fn are_apart(thesis: &Thesis, expression: &[u32], others: &[u32]) -> bool
    ensures { result ≡ are_numbers_apart thesis.now expression.now others.now }
{
    expression
        .iter()
        .all(|symbol| lets_all(thesis, *symbol, others))
}

/// Whether what stands for the variables of a pair is apart.
fn pair_met(thesis: &Thesis, pair: &(Piece, Piece), arguments: &Arguments) -> bool
    ensures { result ≡ are_numbers_apart thesis.now (piece_value arguments.now pair.now.0) (piece_value arguments.now pair.now.1) }
{
    are_apart(
        thesis,
        value_of(&*arguments, &pair.0),
        value_of(&*arguments, &pair.1),
    )
}

/// Whether what stands for the variables of each pair is apart.
pub(crate) fn pairs_met(thesis: &Thesis, pairs: &[(Piece, Piece)], arguments: &Arguments) -> bool
    ensures { result ≡ pairs_met thesis.now pairs.now arguments.now }
{
    pairs.iter().all(|pair| pair_met(thesis, pair, arguments))
}
