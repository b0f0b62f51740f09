//! What the labels of a proof name.

ghost use Rattle.std.specs.Prelude.{◌≡◌, ◌<◌, ℕ, true, All, IfOk, IfSome, OnOk, MatchOption, None, Some, find, length, map, slice_get, take};
ghost use Rattle.std.specs.Option.{option_map};
ghost use Rattle.std.specs.Str.{bytes_eq};
ghost use Rattle.mmsyntax.specs.Tables.{place_of};
ghost use Rattle.source.specs.Scopes.{Assertion, label_of};
ghost use Rattle.source.specs.Views.{seen_words, seen_hypothesis, seen_hypotheses};
ghost use Rattle.source.specs.Whole.{IsWhole, AgreeOnLabels};
ghost use Rattle.verifying.specs.Citations.{said_by};
ghost use Rattle.sourceframes.specs.Names.{words_of, IsSound, Keeps, Lasts};
ghost use Rattle.sourcecheck.specs.Shown.{IsSaid, IsPlaceUnder, IsEarlier, IsNamed, AreNamed, IsPlaced};

use source::{Declared, HypothesisWords};
use sourceframes::Table;
use std::alloc::{AllocError, Global};

/// How many of the last hypotheses are gone through before all are noted: a block has seldom more of its own.
const LATE: usize = 32;

/// What a label of a proof names.
#[derive(Drop)]
pub(crate) enum Named {
    /// An active hypothesis: what it says.
    Hypothesis(Vec<u32>),
    /// An earlier assertion, by its place.
    Assertion(usize),
    /// Nothing.
    Unknown,
}

/// The label of a hypothesis.
fn label_of<'a>(hypothesis: &HypothesisWords<'a>) -> &'a [u8]
    ensures { result.now ≡ label_of (seen_hypothesis hypothesis.now) }
{
    match hypothesis {
        HypothesisWords::Typing(label, _, _) => label,
        HypothesisWords::Premise(label, _) => label,
    }
}

/// What a hypothesis says. After an error nothing is said of the table.
fn said_by<'a>(
    alloc: Global,
    table: &mut Table<'a>,
    hypothesis: &HypothesisWords<'a>,
) -> Result<Vec<u32>, AllocError>
    requires { IsSound table.old }
    ensures keeps { OnOk result (Keeps table.old table.new) }
    ensures said { IfOk result (λ ns. Lasts (words_of table.new) (λ name. map name ns.items ≡ said_by (seen_hypothesis hypothesis.now))) }
{
    match hypothesis {
        HypothesisWords::Typing(_, type_code, variable) => {
            table.numbers(alloc, [*type_code, *variable].as_slice())
        }
        HypothesisWords::Premise(_, words) => table.numbers(alloc, words.as_slice()),
    }
}

/// Whether the hypothesis at a place has a label.
fn has_label<'a>(active: &Vec<&HypothesisWords<'a>>, place: usize, label: &[u8]) -> bool
    ensures { result ≡ true → IsPlaceUnder (seen_hypotheses active.now.items) label.now (Some place) }
{
    if place < active.len() {
        label == label_of(active[place])
    } else {
        false
    }
}

/// The place of the first of these hypotheses that has a label.
fn first_place_under<'a>(active: &Vec<&HypothesisWords<'a>>, label: &[u8]) -> Option<usize>
    ensures { result ≡ place_of (λ h. bytes_eq label.now (label_of (seen_hypothesis h.now))) active.now.items }
{
    for place in 0..active.len() {
        if label == label_of(active[place]) {
            return Some(place);
        }
    }
    None
}

/// The place of one of these hypotheses that has a label, if it still stands where one with this label was noted.
fn noted_place_under<'a>(
    table: &Table<'a>,
    active: &Vec<&HypothesisWords<'a>>,
    label: &[u8],
) -> Option<usize>
    ensures { IfSome result (λ place. IsPlaceUnder (seen_hypotheses active.now.items) label.now (Some place)) }
{
    let place = table.last_place(label)?;
    if has_label(active, place, label) {
        Some(place)
    } else {
        None
    }
}

/// The place of one of the last of these hypotheses that has a label: there stand those of a block of its own, which no other theorem has.
fn late_place_under<'a>(active: &Vec<&HypothesisWords<'a>>, label: &[u8]) -> Option<usize>
    ensures { IfSome result (λ place. IsPlaceUnder (seen_hypotheses active.now.items) label.now (Some place)) }
{
    let count = active.len();
    for place in (count.saturating_sub(LATE)..count).rev() {
        if has_label(active, place, label) {
            return Some(place);
        }
    }
    None
}

/// Notes where each of these hypotheses stands. After an error nothing is said of the table.
fn note_places<'a>(
    table: &mut Table<'a>,
    active: &Vec<&HypothesisWords<'a>>,
) -> Result<(), AllocError>
    ensures numbers { OnOk result (table.new.numbers ≡ table.old.numbers) }
    ensures words { OnOk result (table.new.words ≡ table.old.words) }
{
    for place in 0..active.len() {
        table.note_place(label_of(active[place]), place)?;
    }
    Ok(())
}

/// The place of one of these hypotheses that has a label: mostly where it was noted. If it isn't found by that, all are noted, so that many
/// labels take no longer each than few. After an error nothing is said of the table.
fn place_under<'a>(
    table: &mut Table<'a>,
    active: &Vec<&HypothesisWords<'a>>,
    label: &[u8],
) -> Result<Option<usize>, AllocError>
    ensures numbers { OnOk result (table.new.numbers ≡ table.old.numbers) }
    ensures words { OnOk result (table.new.words ≡ table.old.words) }
    ensures place { IfOk result (IsPlaceUnder (seen_hypotheses active.now.items) label.now) }
{
    if let Some(place) = noted_place_under(table, active, label) {
        return Ok(Some(place));
    }
    if let Some(place) = late_place_under(active, label) {
        return Ok(Some(place));
    }
    note_places(table, active)?;
    match noted_place_under(table, active, label) {
        Some(place) => Ok(Some(place)),
        None => Ok(first_place_under(active, label)),
    }
}

/// What the hypothesis that has a label says, if one of these has it. After an error nothing is said of the table.
fn said_under<'a>(
    alloc: Global,
    table: &mut Table<'a>,
    active: &Vec<&HypothesisWords<'a>>,
    label: &'a [u8],
) -> Result<Named, AllocError>
    requires sound { IsSound table.old }
    requires agree { let hs = seen_hypotheses active.now.items in AgreeOnLabels hs hs }
    ensures keeps { OnOk result (Keeps table.old table.new) }
    ensures placed { (n : ℕ) → IfOk result (IsPlaced n) }
    ensures said { IfOk result (λ n. Lasts (words_of table.new) (λ name. IsSaid name (seen_hypotheses active.now.items)
        label.entry.now n)) }
{
    match place_under(table, active, label)? {
        Some(place) => Ok(Named::Hypothesis(said_by(alloc, table, active[place])?)),
        None => Ok(Named::Unknown),
    }
}

/// The place of the assertion with a label, if one in front of a place has it.
fn earlier_place<'a, D: Declared<'a>>(declared: &D, place: usize, label: &[u8]) -> Option<usize>
    ensures { IsEarlier (D.scope declared.now).assertions place label.now result }
{
    match declared.place_of(label) {
        None => None,
        Some(cited) => { if cited < place { Some(cited) } else { None } }
    }
}

/// What a label names in the proof of the assertion at a place, where these are its active hypotheses. After an error nothing is said of
/// the table.
fn named_by<'a, D: Declared<'a>>(
    alloc: Global,
    table: &mut Table<'a>,
    declared: &D,
    place: usize,
    active: &Vec<&HypothesisWords<'a>>,
    label: &'a [u8],
) -> Result<Named, AllocError>
    requires sound { IsSound table.old }
    requires whole { IsWhole (D.scope declared.now) }
    requires active { option_map (λ a. a.active) (slice_get (D.scope declared.now).assertions place)
        ≡ Some (seen_hypotheses active.now.items) }
    ensures keeps { OnOk result (Keeps table.old table.new) }
    ensures placed { IfOk result (IsPlaced place) }
    ensures named { IfOk result (λ n. (x : Assertion) → slice_get (D.scope declared.now).assertions place ≡ Some x
        → Lasts (words_of table.new) (λ name. IsNamed name (take place (D.scope declared.now).assertions) x label.entry.now n)) }
{
    match earlier_place(declared, place, label) {
        Some(cited) => Ok(Named::Assertion(cited)),
        None => said_under(alloc, table, active, label),
    }
}

/// What labels name in the proof of the assertion at a place, where these are its active hypotheses. After an error nothing is said of the
/// table.
pub(crate) fn name_labels<'a, D: Declared<'a>>(
    alloc: Global,
    table: &mut Table<'a>,
    declared: &D,
    place: usize,
    active: &Vec<&HypothesisWords<'a>>,
    labels: &[&'a [u8]],
) -> Result<Vec<Named>, AllocError>
    requires sound { IsSound table.old }
    requires whole { IsWhole (D.scope declared.now) }
    requires active { option_map (λ a. a.active) (slice_get (D.scope declared.now).assertions place)
        ≡ Some (seen_hypotheses active.now.items) }
    ensures keeps { OnOk result (Keeps table.old table.new) }
    ensures placed { IfOk result (λ ns. All (IsPlaced place) ns.items) }
    ensures named { IfOk result (λ ns. (x : Assertion) → slice_get (D.scope declared.now).assertions place ≡ Some x
        → Lasts (words_of table.new) (λ name. AreNamed name (take place (D.scope declared.now).assertions) x (seen_words labels.now)
        ns.items)) }
{
    let mut named = Vec::with_capacity(alloc, labels.len())?;
    for label in labels {
        named.push(named_by(alloc, table, declared, place, active, *label)?)?;
    }
    Ok(named)
}
