//! A source is written anew with the edits of a history.

ghost use Rattle.std.specs.Prelude.{◌≡◌, All, IfOk, IfErr, map};
ghost use Rattle.source.specs.Sources.{DeclaresText};
ghost use Rattle.source.specs.Views.{seen_words};
ghost use Rattle.items.specs.Divided.{IsDivided};
ghost use Rattle.sourceediting.specs.Following.{KeepsPlaces, all_commands};
ghost use Rattle.sourceediting.specs.Refusals.{HasCause, AreListedAnew, IsUnwritten, OnUnwritten};
ghost use Rattle.sourceediting.specs.Reproved.{AreOtherProofs};
ghost use Rattle.sourceediting.specs.Views.{seen_living, edition_of, AreLabelled, AreNamesOf, AreThen, FindsLabels};
ghost use Rattle.sourceediting.specs.Written.{IsWrittenAnew};
ghost use Rattle.sourceediting.specs.WrittenWith.{AreWrittenWith, IsNotPut};

use crate::commands::keep_places;
use crate::planning::{Planned, edited_by_label, names_of, other_proofs};
use crate::rearranging::{Rearranged, rearrange, rewritten};
use crate::refusal::Refusal;
use giving::LabelMap;
use library::Entry;
use source::Declared;
use sourcewriting::{ByLabel, Names};
use std::alloc::{AllocError, Global};
use std::hash::RandomState;

/// The source with these edits, which a history makes.
fn written<'x, 'a, D: Declared<'a>>(
    alloc: Global,
    keys: RandomState,
    declared: &D,
    source: &'x [u8],
    entries: &[Entry],
    edits: &Rearranged<'x>,
) -> Result<Vec<u8>, Refusal>
    requires labelled { AreLabelled edits.now.edited.now (map (λ r. r.assertion) edits.now.planned.edited.now.entries) }
    requires divided { IsDivided source.now }
    requires listed { AreListedAnew (seen_living edits.now.planned.living.now)
        (map (λ r. r.assertion) edits.now.planned.edited.now.entries) edits.now.proofs.now }
    ensures written { IfOk result (λ out. IsWrittenAnew (all_commands entries.now) (seen_living edits.now.planned.living.now)
        (seen_words edits.now.planned.gone.now) (λ proofs. proofs ≡ edits.now.proofs.now) edits.now.changes.now source.now out.items) }
    ensures refused { IfErr result (HasCause (seen_living edits.now.planned.living.now)
        (map (λ r. r.assertion) edits.now.planned.edited.now.entries) source.now) }
    ensures unwritten { AreWrittenWith (D.scope declared.now) edits.now → IfErr result (OnUnwritten (λ label.
        IsNotPut (D.scope declared.now) edits.now label × (All KeepsPlaces (all_commands entries.now) → ⊥))) }
{
    if keep_places(entries) {
        return rewritten(alloc, edits, source);
    }
    rearrange(alloc, keys, declared, source, edits)
}

/// The source with the edits of a history over the assertions of the edited library, whose steps name these.
fn write_over<'e, D: Declared<'e>>(
    alloc: Global,
    keys: RandomState,
    declared: &D,
    source: &'e [u8],
    planned: &Planned<'e>,
    entries: &[Entry],
    changes: &'e LabelMap<'e>,
    edited: &ByLabel<'e>,
    names: &Names<'e>,
) -> Result<Vec<u8>, Refusal>
    requires labelled { AreLabelled edited.now (map (λ r. r.assertion) planned.now.edited.now.entries) }
    requires names { AreNamesOf (D.scope declared.now) (edition_of planned.now) (seen_living planned.now.living.now) names.now }
    requires divided { IsDivided source.now }
    ensures written { IfOk result (λ out. IsWrittenAnew (all_commands entries.now) (seen_living planned.now.living.now)
        (seen_words planned.now.gone.now) (AreOtherProofs source.now (D.scope declared.now) (edition_of planned.now)
        (seen_living planned.now.living.now)) changes.now source.now out.items) }
    ensures refused { IfErr result (HasCause (seen_living planned.now.living.now)
        (map (λ r. r.assertion) planned.now.edited.now.entries) source.now) }
    ensures unwritten { AreThen (D.scope declared.now) (edition_of planned.now) (seen_living planned.now.living.now) names.now
        → FindsLabels edited.now (edition_of planned.now) → IfErr result (OnUnwritten (IsUnwritten (D.scope declared.now)
        (edition_of planned.now) (seen_living planned.now.living.now) changes.now (all_commands entries.now))) }
{
    let proofs = other_proofs(alloc, keys, declared, source, edited, names, planned)?;
    let proofs = LabelMap::of_texts(alloc, keys, proofs.as_slice())?;
    let edits = Rearranged {
        planned: *planned,
        edited,
        names,
        changes,
        proofs: &proofs,
    };
    written(alloc, keys, declared, source, entries, &edits)
}

/// The source with the edits of a history, in which these labels change.
///
/// # Errors
///
/// What can't be written, or can't stand in its place; want of memory.
pub fn write_edits<'e, D: Declared<'e>>(
    alloc: Global,
    keys: RandomState,
    declared: &D,
    source: &'e [u8],
    planned: &Planned<'e>,
    entries: &[Entry],
    changes: &'e LabelMap<'e>,
) -> Result<Vec<u8>, Refusal>
    requires { DeclaresText source.now (D.scope declared.now) }
    ensures written { IfOk result (λ out. IsWrittenAnew (all_commands entries.now) (seen_living planned.now.living.now)
        (seen_words planned.now.gone.now) (AreOtherProofs source.now (D.scope declared.now) (edition_of planned.now)
        (seen_living planned.now.living.now)) changes.now source.now out.items) }
    ensures refused { IfErr result (HasCause (seen_living planned.now.living.now)
        (map (λ r. r.assertion) planned.now.edited.now.entries) source.now) }
    ensures unwritten { IfErr result (OnUnwritten (IsUnwritten (D.scope declared.now) (edition_of planned.now)
        (seen_living planned.now.living.now) changes.now (all_commands entries.now))) }
{
    let edited = edited_by_label(alloc, keys, planned.edited.entries())?;
    let names = names_of(alloc, keys, declared, &edited, planned)?;
    write_over(
        alloc, keys, declared, source, planned, entries, changes, &edited, &names,
    )
}
