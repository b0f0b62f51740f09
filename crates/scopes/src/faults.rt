//! The faults of words.

ghost use Rattle.std.specs.Prelude.{◌≡◌, List, ◌∷◌};
ghost use Rattle.mmtext.specs.Words.{Word};
ghost use Rattle.mmsyntax.specs.Rows.{first_fault};
ghost use Rattle.source.specs.Tests.{label_tests, constant_tests, variable_tests, type_tests, active_tests, float_tests, distinct_tests, symbol_tests, named_tests};
ghost use Rattle.source.specs.Scopes.{Scope, is_in};
ghost use Rattle.source.specs.Views.{seen_words};
ghost use Rattle.scopes.specs.Views.{kept_of, scope_of};
ghost use Rattle.scopes.specs.Sound.{IsSoundTables};
ghost use Rattle.scopes.specs.Sorts.{IsSortOf};

use crate::sorts::{Sort, sort_of};
use crate::tables::Tables;
use mmtext::{FaultKind, contains_dollar};

/// Whether a word is one of some words.
fn is_among(words: &[&[u8]], word: &[u8]) -> bool
    ensures { result ≡ is_in (seen_words words.now) word.now }
{
    for other in words {
        if word == *other {
            return true;
        }
    }
    false
}

/// The fault of a label that is to be declared.
pub(crate) fn label_fault(tables: &Tables<'_>, word: &[u8]) -> Option<FaultKind>
    requires { IsSoundTables tables.now }
    ensures { result ≡ first_fault (label_tests (scope_of (kept_of tables.now)) word.now) }
{
    match sort_of(tables, word) {
        Sort::Unknown => None,
        _ => Some(FaultKind::RepeatedLabel),
    }
}

/// The fault of a symbol in a `$c`.
pub(crate) fn constant_fault(tables: &Tables<'_>, word: &[u8]) -> Option<FaultKind>
    requires { IsSoundTables tables.now }
    ensures { result ≡ first_fault (constant_tests (scope_of (kept_of tables.now)) word.now) }
{
    if contains_dollar(word) {
        return Some(FaultKind::BadToken);
    }
    label_fault(tables, word)
}

/// The fault of a symbol in a `$v`.
pub(crate) fn variable_fault(tables: &Tables<'_>, word: &[u8]) -> Option<FaultKind>
    requires { IsSoundTables tables.now }
    ensures { result ≡ first_fault (variable_tests (scope_of (kept_of tables.now)) word.now) }
{
    if contains_dollar(word) {
        return Some(FaultKind::BadToken);
    }
    match sort_of(tables, word) {
        Sort::Unknown | Sort::Variable(false, _) => None,
        _ => Some(FaultKind::RepeatedLabel),
    }
}

/// The fault of a type, by what it is.
fn fault_of_type(word: &[u8], sort: Sort) -> Option<FaultKind>
    ensures { (s : Scope) → IsSortOf s word.now sort → result ≡ first_fault (type_tests s word.now) }
{
    if contains_dollar(word) {
        return Some(FaultKind::BadToken);
    }
    match sort {
        Sort::Constant => None,
        _ => Some(FaultKind::UnknownSymbol),
    }
}

/// The fault of a type.
pub(crate) fn type_fault(tables: &Tables<'_>, word: &[u8]) -> Option<FaultKind>
    requires { IsSoundTables tables.now }
    ensures { result ≡ first_fault (type_tests (scope_of (kept_of tables.now)) word.now) }
{
    fault_of_type(word, sort_of(tables, word))
}

/// The fault of the variable of a `$f`.
pub(crate) fn float_fault(tables: &Tables<'_>, word: &[u8]) -> Option<FaultKind>
    requires { IsSoundTables tables.now }
    ensures { result ≡ first_fault (float_tests (scope_of (kept_of tables.now)) word.now) }
{
    if contains_dollar(word) {
        return Some(FaultKind::BadToken);
    }
    match sort_of(tables, word) {
        Sort::Variable(true, None) => None,
        Sort::Variable(true, Some(_)) => Some(FaultKind::RepeatedLabel),
        Sort::Variable(false, _) => Some(FaultKind::NotActive),
        _ => Some(FaultKind::UnknownSymbol),
    }
}

/// The fault of a variable of a `$d` behind others.
pub(crate) fn distinct_fault(
    tables: &Tables<'_>,
    others: &[&[u8]],
    word: &[u8],
) -> Option<FaultKind>
    requires { IsSoundTables tables.now }
    ensures { result ≡ first_fault (distinct_tests (scope_of (kept_of tables.now)) (seen_words others.now) word.now) }
{
    if contains_dollar(word) {
        return Some(FaultKind::BadToken);
    }
    match sort_of(tables, word) {
        Sort::Variable(true, _) => {
            if is_among(others, word) {
                Some(FaultKind::BadToken)
            } else {
                None
            }
        }
        Sort::Variable(false, _) => Some(FaultKind::NotActive),
        _ => Some(FaultKind::UnknownSymbol),
    }
}

/// The fault of a symbol of an expression that isn't the first, by what it is.
fn fault_of_later_symbol(word: &[u8], sort: Sort) -> Option<FaultKind>
    ensures { (s : Scope) (first : Word) (front : List Word) → IsSortOf s word.now sort
        → result ≡ first_fault (symbol_tests s (first ∷ front) word.now) }
{
    if contains_dollar(word) {
        return Some(FaultKind::BadToken);
    }
    match sort {
        Sort::Constant | Sort::Variable(true, Some(_)) => None,
        Sort::Variable(false, _) => Some(FaultKind::NotActive),
        Sort::Variable(true, None) => Some(FaultKind::NoTypeFor),
        _ => Some(FaultKind::UnknownSymbol),
    }
}

/// The fault of a symbol of an expression behind others, by what it is.
pub(crate) fn fault_of_symbol(others: &[&[u8]], word: &[u8], sort: Sort) -> Option<FaultKind>
    ensures { (s : Scope) → IsSortOf s word.now sort → result ≡ first_fault (symbol_tests s (seen_words others.now) word.now) }
{
    if others.is_empty() {
        return fault_of_type(word, sort);
    }
    fault_of_later_symbol(word, sort)
}

/// The fault of a label in a proof, by what it is.
pub(crate) fn fault_of_named(word: &[u8], sort: Sort) -> Option<FaultKind>
    ensures { (s : Scope) → IsSortOf s word.now sort → result ≡ first_fault (named_tests s word.now) }
{
    if contains_dollar(word) {
        return Some(FaultKind::BadToken);
    }
    match sort {
        Sort::Hypothesis(_) | Sort::Assertion(_) => None,
        Sort::Closed => Some(FaultKind::NotActive),
        _ => Some(FaultKind::UnknownLabel),
    }
}
