//! Which of the active hypotheses are mandatory.

ghost use Rattle.std.specs.Prelude.{◌≡◌, ◌+◌, false, List, [], ◌∷◌, ◌++◌, ◌<◌, length, map, take, slice_get};
ghost use Rattle.mmtext.specs.Words.{Word};
ghost use Rattle.mmsyntax.specs.Rows.{first_fault};
ghost use Rattle.std.specs.Option.{option_map, unwrap_or};
ghost use Rattle.std.proofs.Math.ListN.{set};
ghost use Rattle.source.specs.Counts.{mandatory_marks};
ghost use Rattle.source.specs.Scopes.{Hypothesis, is_mandatory, mandatory};
ghost use Rattle.source.specs.Tests.{symbol_tests};
ghost use Rattle.source.specs.Views.{seen_words};
ghost use Rattle.scopes.specs.Views.{kept_of, scope_of, stand_of, marks_of};
ghost use Rattle.scopes.specs.Symbols.{symbols_at};
ghost use Rattle.scopes.specs.Sound.{IsSoundTables};
ghost use Rattle.scopes.specs.Sorts.{IsSortOf};

use crate::faults::fault_of_symbol;
use crate::sorts::{Sort, active_at, float_of, sort_of};
use crate::tables::Tables;
use mmtext::FaultKind;
use source::HypothesisWords;

/// How many symbols the active hypothesis at a place has, if it is a `$e`; else none.
fn count_symbols(tables: &Tables<'_>, place: usize) -> usize
    requires { IsSoundTables tables.now }
    ensures { result ≡ length (symbols_at (scope_of (kept_of tables.now)).hypotheses place) }
{
    match active_at(tables, place) {
        Some(HypothesisWords::Premise(_, symbols)) => symbols.len(),
        _ => 0,
    }
}

/// One of the symbols of the active hypothesis at a place, if it is a `$e` with so many.
fn symbol_at<'a>(tables: &Tables<'a>, place: usize, index: usize) -> Option<&'a [u8]>
    requires { IsSoundTables tables.now }
    ensures { option_map (λ w. w.now) result ≡ slice_get (symbols_at (scope_of (kept_of tables.now)).hypotheses place) index }
{
    let Some(HypothesisWords::Premise(_, symbols)) = active_at(tables, place) else {
        return None;
    };
    let symbol = symbols.get(index)?;
    Some(*symbol)
}

/// Whether the active hypothesis at a place is a `$e`: mandatory for any expression.
fn is_premise_at(tables: &Tables<'_>, place: usize) -> bool
    requires { IsSoundTables tables.now }
    ensures { result ≡ unwrap_or (option_map (is_mandatory [] []) (slice_get (scope_of (kept_of tables.now)).hypotheses place)) false }
{
    match active_at(tables, place) {
        Some(HypothesisWords::Premise(_, _)) => true,
        _ => false,
    }
}

/// Sets the mark of the active hypothesis at a place.
fn set_mark(tables: &mut Tables<'_>, place: usize, mark: bool)
    requires sound { IsSoundTables tables.old }
    requires within { place < length tables.old.active.items }
    ensures sound { IsSoundTables tables.new }
    ensures stand { stand_of (kept_of tables.new) ≡ stand_of (kept_of tables.old) }
    ensures size { length tables.new.active.items ≡ length tables.old.active.items }
    ensures marks { marks_of (kept_of tables.new) ≡ set (marks_of (kept_of tables.old)) place mark }
{
    tables.active[place].is_mandatory = mark;
}

/// Marks each active `$e`, and no `$f`.
fn mark_premises(tables: &mut Tables<'_>)
    requires { IsSoundTables tables.old }
    ensures sound { IsSoundTables tables.new }
    ensures stand { stand_of (kept_of tables.new) ≡ stand_of (kept_of tables.old) }
    ensures marks { marks_of (kept_of tables.new) ≡ map (is_mandatory [] []) (scope_of (kept_of tables.old)).hypotheses }
{
    for place in 0..tables.active.len() {
        let mark = is_premise_at(tables, place);
        set_mark(tables, place, mark);
    }
}

/// Marks the active `$f` of a word, by what it is, if it has one. What was marked for some words is then marked for this word too.
fn mark_float(tables: &mut Tables<'_>, _word: &[u8], sort: Sort)
    requires sound { IsSoundTables tables.old }
    requires sort { IsSortOf (scope_of (kept_of tables.old)) _word.now sort }
    ensures sound { IsSoundTables tables.new }
    ensures stand { stand_of (kept_of tables.new) ≡ stand_of (kept_of tables.old) }
    ensures marks { (premises : List Hypothesis) (words : List Word)
        → marks_of (kept_of tables.old) ≡ map (is_mandatory premises words) (scope_of (kept_of tables.old)).hypotheses
        → marks_of (kept_of tables.new) ≡ map (is_mandatory premises (words ++ _word.now ∷ [])) (scope_of (kept_of tables.old)).hypotheses }
{
    if let Some(place) = float_of(sort) {
        set_mark(tables, place, true);
    }
}

/// The fault of a symbol of an expression behind others, and the marks for it: one look-up for both.
pub(crate) fn symbol_fault(
    tables: &mut Tables<'_>,
    others: &[&[u8]],
    word: &[u8],
) -> Option<FaultKind>
    requires { IsSoundTables tables.old }
    ensures sound { IsSoundTables tables.new }
    ensures stand { stand_of (kept_of tables.new) ≡ stand_of (kept_of tables.old) }
    ensures fault { result ≡ first_fault (symbol_tests (scope_of (kept_of tables.old)) (seen_words others.now) word.now) }
    ensures marks { marks_of (kept_of tables.old) ≡ mandatory_marks (scope_of (kept_of tables.old)) (seen_words others.now)
        → marks_of (kept_of tables.new) ≡ mandatory_marks (scope_of (kept_of tables.old)) (seen_words others.now ++ word.now ∷ []) }
{
    let sort = sort_of(tables, word);
    mark_float(tables, word, sort);
    fault_of_symbol(others, word, sort)
}

/// Marks the active `$f` of one of the symbols of the active `$e` at a place, if they are so many.
fn mark_symbol(tables: &mut Tables<'_>, place: usize, index: usize)
    requires { IsSoundTables tables.old }
    ensures sound { IsSoundTables tables.new }
    ensures stand { stand_of (kept_of tables.new) ≡ stand_of (kept_of tables.old) }
    ensures marks { (premises : List Hypothesis) (front : List Word)
        → marks_of (kept_of tables.old)
        ≡ map (is_mandatory premises (front ++ take index (symbols_at (scope_of (kept_of tables.old)).hypotheses place)))
        (scope_of (kept_of tables.old)).hypotheses
        → marks_of (kept_of tables.new)
        ≡ map (is_mandatory premises (front ++ take (index + 1) (symbols_at (scope_of (kept_of tables.old)).hypotheses place)))
        (scope_of (kept_of tables.old)).hypotheses }
{
    if let Some(symbol) = symbol_at(tables, place, index) {
        mark_float(tables, symbol, sort_of(tables, symbol));
    }
}

/// Marks the active `$f` of each symbol of the active hypothesis at a place, if it is a `$e`.
fn mark_symbols(tables: &mut Tables<'_>, place: usize)
    requires { IsSoundTables tables.old }
    ensures sound { IsSoundTables tables.new }
    ensures stand { stand_of (kept_of tables.new) ≡ stand_of (kept_of tables.old) }
    ensures marks { (premises : List Hypothesis) (front : List Word)
        → marks_of (kept_of tables.old) ≡ map (is_mandatory premises front) (scope_of (kept_of tables.old)).hypotheses
        → marks_of (kept_of tables.new)
        ≡ map (is_mandatory premises (front ++ symbols_at (scope_of (kept_of tables.old)).hypotheses place))
        (scope_of (kept_of tables.old)).hypotheses }
{
    for index in 0..count_symbols(tables, place) {
        mark_symbol(tables, place, index);
    }
}

/// Marks what is mandatory for no symbol: the active `$e`, and the active `$f` of their symbols, each of which is looked up once.
pub(crate) fn begin(tables: &mut Tables<'_>)
    requires { IsSoundTables tables.old }
    ensures sound { IsSoundTables tables.new }
    ensures stand { stand_of (kept_of tables.new) ≡ stand_of (kept_of tables.old) }
    ensures marks { marks_of (kept_of tables.new) ≡ mandatory_marks (scope_of (kept_of tables.old)) [] }
{
    mark_premises(tables);
    for place in 0..tables.active.len() {
        mark_symbols(tables, place);
    }
}

/// How many active hypotheses are marked.
pub(crate) fn count_marked(tables: &Tables<'_>) -> usize
    ensures { (e : List Word) → marks_of (kept_of tables.now) ≡ mandatory_marks (scope_of (kept_of tables.now)) e
        → result ≡ length (mandatory (scope_of (kept_of tables.now)).hypotheses e) }
{
    tables
        .active
        .iter()
        .filter(|active| active.is_mandatory)
        .count()
}
