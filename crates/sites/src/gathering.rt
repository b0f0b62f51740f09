//! Gathering what of a source has a place.

ghost use Rattle.std.specs.Prelude.{◌≡◌, ◌<◌, ◌≤◌, ◌⊎◌, length, filter, filter_map, map, IfOk, MatchOption, true, false};
ghost use Rattle.std.specs.List.{list_any};
ghost use Rattle.std.specs.Option.{option_map};
ghost use Rattle.source.specs.Views.{has, seen_words};
ghost use Rattle.source.specs.Whole.{IsWhole};
ghost use Rattle.taking.specs.Names.{is_symbol_of, has_float_labelled};
ghost use Rattle.source.specs.Flags.{kept};
ghost use Rattle.sites.specs.Indexes.{HasRoom};
ghost use Rattle.sites.specs.Sites.{AreSites};
ghost use Rattle.sites.specs.Used.{Uses, is_noted, noted, type_at, variable_at};
ghost use Rattle.mmsyntax.specs.declared.limits.TheConstants.{MOST_DECLARED};

use crate::indexed::Indexed;
use crate::sites::Sites;
use crate::used::{Used, used_by};
use mmsyntax::MOST_DECLARED;
use source::Declared;
use std::alloc::{AllocError, Global};
use std::hash::RandomState;

/// Those of some words that are used symbols.
fn used_symbols<'a>(
    alloc: Global,
    used: &Used<'a>,
    words: &[&'a [u8]],
) -> Result<Vec<&'a [u8]>, AllocError>
    ensures { IfOk result (λ made. seen_words made.items ≡ filter (has used.now.symbols) (seen_words words.now)) }
{
    let mut made = Vec::new(alloc);
    for word in words {
        if used.symbols.contains(word) {
            made.push(*word)?;
        }
    }
    Ok(made)
}

/// Those of some labels that are labels of used `$f`.
fn used_floats<'a>(
    alloc: Global,
    used: &Used<'a>,
    labels: &[&'a [u8]],
) -> Result<Vec<&'a [u8]>, AllocError>
    ensures { IfOk result (λ made. seen_words made.items ≡ filter (is_noted used.now) (seen_words labels.now)) }
{
    let mut made = Vec::new(alloc);
    for label in labels {
        if used.floats.contains_key(label) {
            made.push(*label)?;
        }
    }
    Ok(made)
}

/// The place of the type of the `$f` with a label.
fn type_place(used: &Used<'_>, constants: &Indexed<'_>, label: &[u8]) -> Option<u32>
    requires { length constants.now ≤ MOST_DECLARED }
    ensures { result ≡ type_at (noted used.now) constants.now label.now }
{
    let (kind, _) = used.floats.get(&label)?;
    let place = constants.place(kind)?;
    Some(place as u32)
}

/// The places of the types of the `$f` with some labels.
fn type_places(
    alloc: Global,
    used: &Used<'_>,
    constants: &Indexed<'_>,
    labels: &[&[u8]],
) -> Result<Vec<u32>, AllocError>
    requires { length constants.now ≤ MOST_DECLARED }
    ensures { IfOk result (λ made. made.items ≡ filter_map (type_at (noted used.now) constants.now) (seen_words labels.now)) }
{
    let mut types = Vec::new(alloc);
    for label in labels {
        if let Some(place) = type_place(used, constants, label) {
            types.push(place)?;
        }
    }
    Ok(types)
}

/// The variable of the `$f` with a label.
fn variable<'a>(used: &Used<'a>, label: &[u8]) -> Option<&'a [u8]>
    ensures { option_map (λ w. w.now) result ≡ variable_at (noted used.now) label.now }
{
    let (_, variable) = used.floats.get(&label)?;
    Some(*variable)
}

/// The variables of the `$f` with some labels.
fn variables<'a>(
    alloc: Global,
    used: &Used<'a>,
    labels: &[&[u8]],
) -> Result<Vec<&'a [u8]>, AllocError>
    ensures { IfOk result (λ made. seen_words made.items ≡ filter_map (variable_at (noted used.now)) (seen_words labels.now)) }
{
    let mut made = Vec::new(alloc);
    for label in labels {
        if let Some(variable) = variable(used, label) {
            made.push(variable)?;
        }
    }
    Ok(made)
}

/// The labels of the assertions of a source that flags choose by their places.
fn chosen_labels<'a, D: Declared<'a>>(
    alloc: Global,
    declared: &D,
    chosen: &[bool],
) -> Result<Vec<&'a [u8]>, AllocError>
    requires { length chosen.now ≡ length (D.scope declared.now).assertions }
    ensures { IfOk result (λ made. seen_words made.items ≡ map (λ x. x.label) (kept chosen.now (D.scope declared.now).assertions)) }
{
    let mut made = Vec::new(alloc);
    for (place, is_chosen) in chosen.iter().enumerate() {
        if *is_chosen {
            if let Some(label) = declared.label(place) {
                made.push(label)?;
            }
        }
    }
    Ok(made)
}

/// Whether the profile has room for constants and `$f`.
fn have_room(constants: &Indexed<'_>, floats: &Indexed<'_>) -> bool
    ensures room { result ≡ true → HasRoom constants.now floats.now }
    ensures full { result ≡ false → (MOST_DECLARED < length constants.now) ⊎ (MOST_DECLARED < length floats.now) }
{
    constants.len() <= MOST_DECLARED && floats.len() <= MOST_DECLARED
}

/// The sites of the constants, the `$f` and the assertions that have places.
fn sited<'a>(
    alloc: Global,
    used: &Used<'a>,
    constants: Indexed<'a>,
    floats: Indexed<'a>,
    labels: Indexed<'a>,
) -> Result<Sites<'a>, AllocError>
    requires { HasRoom constants floats }
    ensures { IfOk result (λ made. made ≡ record {
      constants = constants.entry;
      floats = floats.entry;
      types = filter_map (type_at (noted used.now) constants.entry) floats.entry;
      variables = filter_map (variable_at (noted used.now)) floats.entry;
      labels = labels.entry;
    }) }
{
    let types = type_places(alloc, used, &constants, floats.words())?;
    let variables = variables(alloc, used, floats.words())?;
    Ok(Sites::new(constants, floats, types, variables, labels))
}

/// The sites of the assertions that flags choose, by what they use: nothing where there is no room for all constants and `$f`.
fn sites_from<'a, D: Declared<'a>>(
    alloc: Global,
    keys: RandomState,
    declared: &D,
    chosen: &[bool],
    used: &Used<'a>,
) -> Result<Option<Sites<'a>>, AllocError>
    requires whole { IsWhole (D.scope declared.now) }
    requires flags { length chosen.now ≡ length (D.scope declared.now).assertions }
    requires used { Uses used.now (kept chosen.now (D.scope declared.now).assertions) }
    ensures { let s = D.scope declared.now in let taken = kept chosen.now s.assertions in
        IfOk result (λ made. MatchOption made
        ((MOST_DECLARED < length (filter (λ w. list_any (is_symbol_of w) taken) s.constants))
        ⊎ (MOST_DECLARED < length (filter (λ w. list_any (has_float_labelled w) taken) s.labels)))
        (AreSites s taken)) }
{
    let symbols = used_symbols(alloc, used, declared.constants())?;
    let constants = Indexed::new(alloc, keys, symbols)?;
    let labels = used_floats(alloc, used, declared.labels())?;
    let floats = Indexed::new(alloc, keys, labels)?;
    if !have_room(&constants, &floats) {
        return Ok(None);
    }
    let words = chosen_labels(alloc, declared, chosen)?;
    let chosen = Indexed::new(alloc, keys, words)?;
    let sites = sited(alloc, used, constants, floats, chosen)?;
    Ok(Some(sites))
}

/// The sites of the assertions of a source that flags choose by their places: nothing where more than 65,535 constants or `$f` had places.
pub fn sites_of<'a, D: Declared<'a>>(
    alloc: Global,
    keys: RandomState,
    declared: &D,
    chosen: &[bool],
) -> Result<Option<Sites<'a>>, AllocError>
    requires whole { IsWhole (D.scope declared.now) }
    requires flags { length chosen.now ≡ length (D.scope declared.now).assertions }
    ensures { let s = D.scope declared.now in let taken = kept chosen.now s.assertions in
        IfOk result (λ made. MatchOption made
        ((MOST_DECLARED < length (filter (λ w. list_any (is_symbol_of w) taken) s.constants))
        ⊎ (MOST_DECLARED < length (filter (λ w. list_any (has_float_labelled w) taken) s.labels)))
        (AreSites s taken)) }
{
    let used = used_by(alloc, keys, declared, chosen)?;
    sites_from(alloc, keys, declared, chosen, &used)
}
