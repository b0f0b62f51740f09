//! What a word is at a place, by one look-up.

ghost use Rattle.std.specs.Prelude.{◌≡◌, Some, None, slice_get, if◌then◌else◌};
ghost use Rattle.std.specs.Option.{option_map};
ghost use Rattle.std.specs.Str.{bytes_eq};
ghost use Rattle.source.specs.Scopes.{is_float_of, label_of};
ghost use Rattle.source.specs.Views.{seen_words, seen_hypothesis};
ghost use Rattle.scopes.specs.Views.{kept_of, scope_of};
ghost use Rattle.scopes.specs.Found.{passes_at};
ghost use Rattle.scopes.specs.Sound.{IsSoundTables};
ghost use Rattle.scopes.specs.Sorts.{IsSortOf, float_place};

use crate::tables::{Name, Tables};
use source::HypothesisWords;

/// What a word is.
#[derive(Clone, Copy)]
pub(crate) enum Sort {
    /// Nothing has been declared by this name.
    Unknown,
    /// A constant.
    Constant,
    /// A symbol that was declared as a variable: whether it is active, and the place of its active `$f` among the active hypotheses, if it
    /// has one.
    Variable(bool, Option<usize>),
    /// An active hypothesis, by its place among those.
    Hypothesis(usize),
    /// An assertion, by its place.
    Assertion(usize),
    /// The label of what isn't active any more.
    Closed,
}

/// Whether a word stands at a place.
fn is_word_at(words: &[&[u8]], place: usize, word: &[u8]) -> bool
    ensures { result ≡ passes_at (bytes_eq word.now) (seen_words words.now) (Some place) }
{
    match words.get(place) {
        None => false,
        Some(there) => word == *there,
    }
}

/// The active hypothesis at a place, if there is one.
pub(crate) fn active_at<'t, 'a>(
    tables: &'t Tables<'a>,
    place: usize,
) -> Option<&'t HypothesisWords<'a>>
    requires { IsSoundTables tables.now }
    ensures { option_map (λ h. seen_hypothesis h.now) result ≡ slice_get (scope_of (kept_of tables.now)).hypotheses place }
{
    let active = tables.active.get(place)?;
    let link = tables.links.get(active.link)?;
    Some(&link.hypothesis)
}

/// Whether the `$f` of a variable stands at a place among the active hypotheses.
fn is_float_at(tables: &Tables<'_>, place: Option<usize>, word: &[u8]) -> bool
    requires { IsSoundTables tables.now }
    ensures { result ≡ passes_at (is_float_of word.now) (scope_of (kept_of tables.now)).hypotheses place }
{
    let Some(place) = place else {
        return false;
    };
    match active_at(tables, place) {
        Some(HypothesisWords::Typing(_, _, variable)) => word == *variable,
        _ => false,
    }
}

/// The place that is noted for the `$f` of a variable, if that still stands there among the active hypotheses.
fn active_float(tables: &Tables<'_>, place: Option<usize>, word: &[u8]) -> Option<usize>
    requires { IsSoundTables tables.now }
    ensures { result ≡ (if passes_at (is_float_of word.now) (scope_of (kept_of tables.now)).hypotheses place then place else None) }
{
    if is_float_at(tables, place, word) {
        place
    } else {
        None
    }
}

/// Whether a hypothesis with a label stands at a place among the active ones.
fn is_hypothesis_at(tables: &Tables<'_>, place: usize, word: &[u8]) -> bool
    requires { IsSoundTables tables.now }
    ensures { result ≡ passes_at (λ h. bytes_eq word.now (label_of h)) (scope_of (kept_of tables.now)).hypotheses (Some place) }
{
    match active_at(tables, place) {
        None => false,
        Some(HypothesisWords::Typing(label, _, _)) => word == *label,
        Some(HypothesisWords::Premise(label, _)) => word == *label,
    }
}

/// Whether the assertion at a place has a label.
fn is_assertion_at(tables: &Tables<'_>, place: usize, word: &[u8]) -> bool
    ensures { result ≡ passes_at (λ a. bytes_eq word.now a.label) (scope_of (kept_of tables.now)).assertions (Some place) }
{
    match tables.assertions.get(place) {
        None => false,
        Some(assertion) => word == assertion.label,
    }
}

/// What a word is: one look-up, and a look at the place that is noted for it.
pub(crate) fn sort_of(tables: &Tables<'_>, word: &[u8]) -> Sort
    requires { IsSoundTables tables.now }
    ensures { IsSortOf (scope_of (kept_of tables.now)) word.now result }
{
    match tables.names.get(&word) {
        None => Sort::Unknown,
        Some(Name::Constant) => Sort::Constant,
        Some(Name::Variable(place, float)) => Sort::Variable(
            is_word_at(tables.variables.as_slice(), *place, word),
            active_float(tables, *float, word),
        ),
        Some(Name::Hypothesis(place)) => {
            if is_hypothesis_at(tables, *place, word) {
                Sort::Hypothesis(*place)
            } else {
                Sort::Closed
            }
        }
        Some(Name::Assertion(place)) => {
            if is_assertion_at(tables, *place, word) {
                Sort::Assertion(*place)
            } else {
                Sort::Closed
            }
        }
    }
}

/// The place of the active `$f` of a word, by what it is, if it is a variable that has one.
pub(crate) fn float_of(sort: Sort) -> Option<usize>
    ensures { result ≡ float_place sort }
{
    match sort {
        Sort::Variable(_, place) => place,
        _ => None,
    }
}
