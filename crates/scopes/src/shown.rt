//! What is shown of the tables once a source is read: its words, and its assertions by their places.

ghost use Rattle.std.specs.Prelude.{◌≡◌, ◌<◌, ◌||◌, ◌++◌, IfOk, Some, length, map, slice_get};
ghost use Rattle.std.specs.Option.{option_map, option_and_then};
ghost use Rattle.std.specs.Str.{bytes_eq};
ghost use Rattle.mmsyntax.specs.Tables.{place_of};
ghost use Rattle.source.specs.Scopes.{is_in, pairs_of};
ghost use Rattle.source.specs.Views.{seen_words, seen_proof, seen_hypotheses, seen_pairs};
ghost use Rattle.scopes.specs.Views.{kept_of, scope_of, entry_of, assertion_of};
ghost use Rattle.scopes.specs.Sound.{IsSoundTables};

use crate::chains::{aparts_to, hypotheses_to};
use crate::sorts::{Sort, sort_of};
use crate::tables::{Asserted, Tables};
use source::{HypothesisWords, ProofWords};
use std::alloc::{AllocError, Global};

/// Whether a word is a symbol or a label.
pub(crate) fn has_name(tables: &Tables<'_>, word: &[u8]) -> bool
    requires { IsSoundTables tables.now }
    ensures { result ≡ (is_in (scope_of (kept_of tables.now)).symbols word.now || is_in (scope_of (kept_of tables.now)).labels word.now) }
{
    match sort_of(tables, word) {
        Sort::Unknown => false,
        _ => true,
    }
}

/// The place of the first assertion with a label.
pub(crate) fn place_of(tables: &Tables<'_>, label: &[u8]) -> Option<usize>
    requires { IsSoundTables tables.now }
    ensures { result ≡ place_of (λ a. bytes_eq label.now a.label) (scope_of (kept_of tables.now)).assertions }
{
    match sort_of(tables, label) {
        Sort::Assertion(place) => Some(place),
        _ => None,
    }
}

/// The assertion at a place, if it is there.
fn asserted<'t, 'a>(tables: &'t Tables<'a>, place: usize) -> Option<&'t Asserted<'a>>
    ensures { option_map (λ e. assertion_of (kept_of tables.now).links (kept_of tables.now).aparts (entry_of e.now)) result
        ≡ slice_get (scope_of (kept_of tables.now)).assertions place }
{
    tables.assertions.get(place)
}

/// The label of the assertion at a place.
pub(crate) fn label<'a>(tables: &Tables<'a>, place: usize) -> Option<&'a [u8]>
    ensures { option_map (λ w. w.now) result
        ≡ option_map (λ a. a.label) (slice_get (scope_of (kept_of tables.now)).assertions place) }
{
    let asserted = asserted(tables, place)?;
    Some(asserted.label)
}

/// The symbols of the assertion at a place.
pub(crate) fn statement<'t, 'a>(tables: &'t Tables<'a>, place: usize) -> Option<&'t [&'a [u8]]>
    ensures { option_map (λ ws. seen_words ws.now) result
        ≡ option_map (λ a. a.statement) (slice_get (scope_of (kept_of tables.now)).assertions place) }
{
    let asserted = asserted(tables, place)?;
    Some(asserted.statement.as_slice())
}

/// The words of the proof of the assertion at a place.
pub(crate) fn proof<'t, 'a>(tables: &'t Tables<'a>, place: usize) -> Option<&'t ProofWords<'a>>
    ensures { option_map (λ p. seen_proof p.now) result
        ≡ option_and_then (λ a. a.proof) (slice_get (scope_of (kept_of tables.now)).assertions place) }
{
    let asserted = asserted(tables, place)?;
    asserted.proof.as_ref()
}

/// The assertion at a place that is there.
pub(crate) fn asserted_there<'t, 'a>(tables: &'t Tables<'a>, place: usize) -> &'t Asserted<'a>
    requires { place < length (scope_of (kept_of tables.now)).assertions }
    ensures stands { slice_get (scope_of (kept_of tables.now)).assertions place
        ≡ Some (assertion_of (kept_of tables.now).links (kept_of tables.now).aparts (entry_of result.now)) }
    ensures entry { slice_get (kept_of tables.now).entries place ≡ Some (entry_of result.now) }
{
    &tables.assertions[place]
}

/// The hypotheses that are active at the assertion at a place.
pub(crate) fn active<'t, 'a>(
    tables: &'t Tables<'a>,
    alloc: Global,
    place: usize,
) -> Result<Vec<&'t HypothesisWords<'a>>, AllocError>
    requires { place < length (scope_of (kept_of tables.now)).assertions }
    ensures { IfOk result (λ hs. option_map (λ a. a.active) (slice_get (scope_of (kept_of tables.now)).assertions place)
        ≡ Some (seen_hypotheses hs.items)) }
{
    let asserted = asserted_there(tables, place);
    hypotheses_to(tables.links.as_slice(), alloc, asserted.hypotheses)
}

/// Adds the pairs of a variable with each of some others.
fn add_pairs_with<'a>(
    pairs: &mut Vec<(&'a [u8], &'a [u8])>,
    variable: &'a [u8],
    others: &[&'a [u8]],
) -> Result<(), AllocError>
    ensures { IfOk result (λ _. seen_pairs pairs.new.items
        ≡ seen_pairs pairs.old.items ++ map (λ w. (variable.entry.now, w)) (seen_words others.entry.now)) }
{
    for other in others {
        pairs.push((variable, *other))?;
    }
    Ok(())
}

/// Adds the pairs of a `$d`: each two of its variables.
fn add_pairs<'a>(
    pairs: &mut Vec<(&'a [u8], &'a [u8])>,
    variables: &[&'a [u8]],
) -> Result<(), AllocError>
    ensures { IfOk result (λ _. seen_pairs pairs.new.items
        ≡ seen_pairs pairs.old.items ++ pairs_of (seen_words variables.entry.now)) }
{
    let mut left = variables;
    while let [variable, others @ ..] = left {
        add_pairs_with(pairs, variable, others)?;
        left = others;
    }
    Ok(())
}

/// The pairs that are active at the assertion at a place.
pub(crate) fn pairs<'a>(
    tables: &Tables<'a>,
    alloc: Global,
    place: usize,
) -> Result<Vec<(&'a [u8], &'a [u8])>, AllocError>
    requires { place < length (scope_of (kept_of tables.now)).assertions }
    ensures { IfOk result (λ ps. option_map (λ a. a.pairs) (slice_get (scope_of (kept_of tables.now)).assertions place)
        ≡ Some (seen_pairs ps.items)) }
{
    let asserted = asserted_there(tables, place);
    let aparts = aparts_to(tables.aparts.as_slice(), alloc, asserted.apart)?;
    let mut pairs = Vec::new(alloc);
    for variables in &aparts {
        add_pairs(&mut pairs, *variables)?;
    }
    Ok(pairs)
}
