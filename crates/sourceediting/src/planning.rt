//! Which theorems have another proof behind the edits of a history, and the texts of these proofs.

ghost use Rattle.std.specs.Prelude.{◌≡◌, ◌↔◌, All, ℕ, List, length, Contains, IfOk, IfErr, IfSome, IsSomeAnd, IsTrue, None, Some, map};
ghost use Rattle.std.specs.Str.{bytes_eq};
ghost use Rattle.std.specs.HashMap.{get_by};
ghost use Rattle.mmsyntax.specs.declared.statement.Assertion.{Assertion as AssertionOf};
ghost use Rattle.mmsyntax.specs.ProofWords.{seen_step};
ghost use Rattle.std.specs.Option.{option_map};
ghost use Rattle.mmtext.specs.Words.{Word};
ghost use Rattle.source.specs.Scopes.{Scope};
ghost use Rattle.source.specs.Views.{seen_words};
ghost use Rattle.giving.specs.Staying.{changed};
ghost use Rattle.giving.specs.Changes.{seen_texts};
ghost use Rattle.items.specs.Divided.{IsDivided};
ghost use Rattle.items.specs.Walking.{AreIndentations};
ghost use Rattle.sourcewriting.specs.Counting.{IsCountOf};
ghost use Rattle.sourceediting.specs.Entries.{Edition, HasHypotheses, HasOnly, assertions_of};
ghost use Rattle.sourceediting.specs.Reproved.{ListsAnew, changes_in_library, step_then, IsWrittenFor, AreOtherProofs, CanBeReproved};
ghost use Rattle.sourceediting.specs.Following.{Followed as FollowedOf};
ghost use Rattle.sourceediting.specs.Refusals.{HasCause, OnUnwritten, IsNotReproved};
ghost use Rattle.sourceediting.specs.Views.{seen_followed, seen_living, edition_of, AreLabelled, IsCitedAs};
ghost use Rattle.sourceediting.specs.Views.{AreCitedThen, AreCitedNow, AreNamesOf, AreStepsOf, AreThen, AreAllFound};
ghost use Rattle.sourceediting.specs.declared.refusal.Refusal.TheVariants.{Unwritten};

use crate::following::Followed;
use crate::refusal::Refusal;
use giving::LabelMap;
use items::indentations;
use library::{PlainLibrary, Ranked};
use mmframes::frame_of;
use mmsyntax::{Assertion, Database, Float, Label, Prelude, Proof, StepRef};
use source::Declared;
use sourcewriting::{ByLabel, Cited, Kinds, Names, indentation_like, names_in_source, proof_text};
use std::alloc::{AllocError, Global};
use std::collections::HashMap;
use std::hash::RandomState;

/// What is known of a library that was taken of a source, and of the edits over it.
#[derive(Clone, Copy)]
pub struct Planned<'x> {
    /// The library at the opening.
    pub database: &'x Database,
    /// Its names that were changed.
    pub names: &'x [(&'x [u8], Label)],
    /// The library behind the edits.
    pub edited: &'x PlainLibrary,
    /// Its assertions.
    pub living: &'x [Followed<'x>],
    /// The labels in the source of those that were deleted.
    pub gone: &'x [&'x [u8]],
    /// Of each assertion of the source: whether it is the library's, with its proof.
    pub own: &'x [bool],
    /// The labels of theorems that were taken as axioms.
    pub told: &'x LabelMap<'x>,
}

/// The assertions of the library at the opening, by their labels then.
fn opened_by_label<'x>(
    alloc: Global,
    keys: RandomState,
    assertions: &'x [Assertion],
) -> Result<ByLabel<'x>, AllocError>
    ensures { IfOk result (λ made. AreLabelled made assertions.now) }
{
    let mut found = HashMap::with_hasher(alloc, keys);
    for assertion in assertions {
        found.insert(assertion.label.as_slice(), assertion)?;
    }
    Ok(found)
}

/// The assertions of the edited library, by their labels.
pub(crate) fn edited_by_label<'x>(
    alloc: Global,
    keys: RandomState,
    entries: &'x [Ranked],
) -> Result<ByLabel<'x>, AllocError>
    ensures labelled { IfOk result (λ made. AreLabelled made (map (λ r. r.assertion) entries.now)) }
    ensures all { IfOk result (λ made. AreAllFound made (map (λ r. r.assertion) entries.now)) }
{
    let mut found = HashMap::with_hasher(alloc, keys);
    for entry in entries {
        found.insert(entry.assertion.label.as_slice(), &entry.assertion)?;
    }
    Ok(found)
}

/// A label as it reads then.
pub(crate) fn changed_in<'x>(changes: &LabelMap<'x>, label: &'x [u8]) -> &'x [u8]
    ensures { result.now ≡ changed changes.now label.now }
{
    match changes.text_for(label) {
        Some(new) => new,
        None => label,
    }
}

/// The labels of the library's `$f` in the source.
fn floats_in_source<'x>(
    alloc: Global,
    changes: &LabelMap<'x>,
    floats: &'x [Float],
) -> Result<Vec<&'x [u8]>, AllocError>
    ensures { IfOk result (λ made. seen_words made.items ≡ map (λ f. changed changes.now f.label) floats.now) }
{
    let mut labels = Vec::new(alloc);
    for float in floats {
        labels.push(changed_in(changes, float.label.as_slice()))?;
    }
    Ok(labels)
}

/// How many mandatory `$f` and `$e` an assertion of the edited library has, by its label there. None where it isn't there.
fn kinds_of_added<'x>(
    alloc: Global,
    edited: &ByLabel<'x>,
    prelude: &Prelude,
    label: &[u8],
) -> Result<Option<Kinds>, AllocError>
    ensures has { (s : Scope) (e : Edition) → AreLabelled edited.now (assertions_of e) → prelude.now ≡ e.edited.setting.prelude
        → IfOk result (λ made. IfSome made (λ kinds. (n : ℕ) → IsCountOf s kinds n → HasHypotheses s e label.now None n)) }
    ensures only { (s : Scope) (e : Edition) (n : ℕ) → AreAllFound edited.now (assertions_of e)
        → AreLabelled edited.now (assertions_of e) → prelude.now ≡ e.edited.setting.prelude → HasOnly s e label.now None n
        → IfOk result (λ made. IsSomeAnd made (λ kinds. IsCountOf s kinds n)) }
{
    let Some(assertion) = found_at(edited, label) else {
        return Ok(None);
    };
    let frame = frame_of(alloc, prelude, assertion)?;
    Ok(Some(Kinds::Added(frame.floats.as_slice().len(), frame.hyps.as_slice().len())))
}

/// The mandatory hypotheses of an assertion of the source, by its label. None where it isn't there.
fn kinds_in_source<'x, D: Declared<'x>>(declared: &D, label: &[u8]) -> Option<Kinds>
    ensures has { IfSome result (λ kinds. (e : Edition) (now : Word) (n : ℕ) → IsCountOf (D.scope declared.now) kinds n
        → HasHypotheses (D.scope declared.now) e now (Some label.now) n) }
    ensures only { (e : Edition) (now : Word) (n : ℕ) → HasHypotheses (D.scope declared.now) e now (Some label.now) n
        → IsSomeAnd result (λ kinds. IsCountOf (D.scope declared.now) kinds n) }
{
    match declared.place_of(label) {
        Some(place) => Some(Kinds::Standing(place)),
        None => None,
    }
}

/// The mandatory hypotheses of an assertion of the library where it stands then. None where it isn't there.
fn kinds_then<'x, D: Declared<'x>>(
    alloc: Global,
    declared: &D,
    edited: &ByLabel<'x>,
    prelude: &Prelude,
    followed: &Followed<'x>,
) -> Result<Option<Kinds>, AllocError>
    ensures only { (e : Edition) (n : ℕ) → AreAllFound edited.now (assertions_of e) → AreLabelled edited.now (assertions_of e)
        → prelude.now ≡ e.edited.setting.prelude
        → HasOnly (D.scope declared.now) e followed.entry.now.now.now (option_map (λ w. w.now) followed.entry.now.source) n
        → IfOk result (λ made. IsSomeAnd made (λ kinds. IsCountOf (D.scope declared.now) kinds n)) }
    ensures has { (e : Edition) → AreLabelled edited.now (assertions_of e) → prelude.now ≡ e.edited.setting.prelude
        → IfOk result (λ made. IfSome made (λ kinds. (n : ℕ) → IsCountOf (D.scope declared.now) kinds n
        → HasHypotheses (D.scope declared.now) e followed.entry.now.now.now (option_map (λ w. w.now) followed.entry.now.source) n)) }
{
    match followed.source {
        Some(source) => Ok(kinds_in_source(declared, source)),
        None => kinds_of_added(alloc, edited, prelude, followed.now),
    }
}

/// An assertion as proofs cite it. None where it isn't there.
fn cited_one<'x, D: Declared<'x>>(
    alloc: Global,
    declared: &D,
    edited: &ByLabel<'x>,
    prelude: &Prelude,
    followed: &Followed<'x>,
) -> Result<Option<Cited<'x>>, AllocError>
    ensures only { (e : Edition) (n : ℕ) → AreAllFound edited.now (assertions_of e) → AreLabelled edited.now (assertions_of e)
        → prelude.now ≡ e.edited.setting.prelude
        → HasOnly (D.scope declared.now) e followed.entry.now.now.now (option_map (λ w. w.now) followed.entry.now.source) n
        → IfOk result (λ made. IsSomeAnd made (λ c. IsCountOf (D.scope declared.now) c.kinds n)) }
    ensures has { (e : Edition) → AreLabelled edited.now (assertions_of e) → prelude.now ≡ e.edited.setting.prelude
        → IfOk result (λ made. IfSome made (IsCitedAs (D.scope declared.now) e (seen_followed followed.entry.now))) }
{
    let Some(kinds) = kinds_then(alloc, declared, edited, prelude, followed)? else {
        return Ok(None);
    };
    let label = followed.label_then();
    Ok(Some(Cited { kinds, label }))
}

/// The library's assertions as proofs cite them then.
fn cited_then<'x, D: Declared<'x>>(
    alloc: Global,
    keys: RandomState,
    declared: &D,
    edited: &ByLabel<'x>,
    planned: &Planned<'x>,
) -> Result<HashMap<&'x [u8], Cited<'x>, RandomState>, AllocError>
    requires { AreLabelled edited.now (map (λ r. r.assertion) planned.now.edited.now.entries) }
    ensures cited { IfOk result (AreCitedThen (D.scope declared.now) (edition_of planned.now) (seen_living planned.now.living.now)) }
    ensures all { AreAllFound edited.now (map (λ r. r.assertion) planned.now.edited.now.entries)
        → IfOk result (λ made. AreCitedNow (D.scope declared.now) (edition_of planned.now) (seen_living planned.now.living.now) made
        (length planned.now.living.now)) }
{
    let mut cited = HashMap::with_hasher(alloc, keys);
    for followed in planned.living {
        if let Some(one) = cited_one(alloc, declared, edited, planned.edited.prelude(), followed)? {
            cited.insert(followed.now, one)?;
        }
    }
    Ok(cited)
}

/// What the steps of proofs name.
pub(crate) fn names_of<'x, D: Declared<'x>>(
    alloc: Global,
    keys: RandomState,
    declared: &D,
    edited: &ByLabel<'x>,
    planned: &Planned<'x>,
) -> Result<Names<'x>, AllocError>
    requires { AreLabelled edited.now (map (λ r. r.assertion) planned.now.edited.now.entries) }
    ensures names { IfOk result (AreNamesOf (D.scope declared.now) (edition_of planned.now) (seen_living planned.now.living.now)) }
    ensures told { AreAllFound edited.now (map (λ r. r.assertion) planned.now.edited.now.entries)
        → IfOk result (AreThen (D.scope declared.now) (edition_of planned.now) (seen_living planned.now.living.now)) }
{
    let changes = names_in_source(alloc, keys, planned.names)?;
    Ok(Names {
        floats: floats_in_source(alloc, &changes, planned.database.prelude().floats())?,
        cited: cited_then(alloc, keys, declared, edited, planned)?,
    })
}

/// Whether a step is another one with a changed label.
fn is_step(changes: &LabelMap<'_>, old: StepRef<'_>, new: StepRef<'_>) -> bool
    ensures { IsTrue result ↔ (step_then changes.now (seen_step old.entry) ≡ seen_step new.entry) }
{
    match (old, new) {
        (StepRef::Float(place), StepRef::Float(other)) => place == other,
        (StepRef::Hyp(place), StepRef::Hyp(other)) => place == other,
        (StepRef::Cite(label), StepRef::Cite(other)) => {
            changes.text_for(label).unwrap_or(label) == other
        }
        _ => false,
    }
}

/// Whether a proof is another one with changed labels.
fn is_proof(changes: &LabelMap<'_>, old: &Proof, new: &Proof) -> bool
    ensures { IsTrue result ↔ (map (step_then changes.now) old.now ≡ new.now) }
{
    if old.len() != new.len() {
        return false;
    }
    for k in 0..old.len() {
        if !is_step(changes, old.step(k), new.step(k)) {
            return false;
        }
    }
    true
}

/// The labels of the library that change, with their new ones.
fn changes_in_library<'x>(
    alloc: Global,
    keys: RandomState,
    living: &[Followed<'x>],
) -> Result<LabelMap<'x>, AllocError>
    ensures { IfOk result (λ made. made ≡ changes_in_library (seen_living living.now)) }
{
    let mut pairs = Vec::new(alloc);
    for followed in living {
        if let Some(change) = followed.change_in_library() {
            pairs.push(change)?;
        }
    }
    LabelMap::new(alloc, keys, pairs)
}

/// A proof of an assertion of the edited library that can't be written.
pub(crate) fn unwritten(alloc: Global, assertion: &Assertion) -> Result<Refusal, AllocError>
    ensures { IfOk result (λ why. why ≡ Unwritten assertion.now.label) }
{
    Ok(Refusal::Unwritten(assertion.label.copy(alloc)?))
}

/// The text of another proof of an assertion that stands in the source, where the old proofs are indented so.
fn other_proof<'x, D: Declared<'x>>(
    alloc: Global,
    keys: RandomState,
    declared: &D,
    names: &Names<'x>,
    indentations: &LabelMap<'_>,
    source: &'x [u8],
    new: &Assertion,
) -> Result<Vec<u8>, Refusal>
    ensures written { (bytes : List ℕ) (e : Edition) (living : List FollowedOf) → AreIndentations bytes indentations.now
        → AreNamesOf (D.scope declared.now) e living names.now
        → IfOk result (λ text. IsWrittenFor bytes (D.scope declared.now) e living source.now new.now text.items) }
    ensures refused { (living : List FollowedOf) (edited : List AssertionOf) (text : List ℕ) → Contains edited new.now
        → IfErr result (HasCause living edited text) }
    ensures unwritten { (e : Edition) (living : List FollowedOf) → AreNamesOf (D.scope declared.now) e living names.now
        → AreStepsOf (D.scope declared.now) e living names.now → IfErr result (OnUnwritten (λ label. (new.now.label ≡ label)
        × (CanBeReproved (D.scope declared.now) e living source.now new.now → ⊥))) }
{
    let Some(place) = declared.place_of(source) else {
        return Err(unwritten(alloc, new)?);
    };
    let has_premises = !new.hyps.as_slice().is_empty();
    let indentation = indentation_like(indentations.text_for(source), has_premises);
    match proof_text(alloc, keys, declared, names, place, indentation, &new.proof)? {
        Some(text) => Ok(text),
        None => Err(unwritten(alloc, new)?),
    }
}

/// The assertion with a label.
pub(crate) fn labelled<'x>(map: &ByLabel<'x>, label: &[u8]) -> Option<&'x Assertion>
    ensures { IfSome result (λ a. (xs : List AssertionOf) → AreLabelled map.now xs → Contains xs a.now × (a.now.label ≡ label.now)) }
{
    map.get(&label).copied()
}

/// The assertion with a label, if it was found.
fn found_at<'x>(map: &ByLabel<'x>, label: &[u8]) -> Option<&'x Assertion>
    ensures labelled { IfSome result (λ a. (xs : List AssertionOf) → AreLabelled map.now xs
        → Contains xs a.now × (a.now.label ≡ label.now)) }
    ensures found { result ≡ get_by (λ k. bytes_eq label.now k.now) map.now }
{
    map.get(&label).copied()
}

/// The theorems whose listing isn't the old one with changed labels, by their labels in the source, with what they are in the edited
/// library.
fn other_listings<'x>(
    alloc: Global,
    keys: RandomState,
    edited: &ByLabel<'x>,
    planned: &Planned<'x>,
) -> Result<Vec<(&'x [u8], &'x Assertion)>, AllocError>
    requires { AreLabelled edited.now (map (λ r. r.assertion) planned.now.edited.now.entries) }
    ensures { IfOk result (λ made. All (λ p. ListsAnew (edition_of planned.now) (seen_living planned.now.living.now) p.0.now p.1.now)
        made.items) }
{
    let opened = opened_by_label(alloc, keys, planned.database.assertions())?;
    let changes = changes_in_library(alloc, keys, planned.living)?;
    let mut others = Vec::new(alloc);
    for followed in planned.living {
        let (Some(source), Some(old), Some(new)) = (
            followed.source,
            labelled(&opened, followed.first),
            labelled(edited, followed.now),
        ) else {
            continue;
        };
        if !is_proof(&changes, &old.proof, &new.proof) {
            others.push((source, new))?;
        }
    }
    Ok(others)
}

/// The texts of the proofs of theorems that list others now, where the old ones are indented so.
fn texts_of<'x, D: Declared<'x>>(
    alloc: Global,
    keys: RandomState,
    declared: &D,
    names: &Names<'x>,
    indentations: &LabelMap<'_>,
    others: &[(&'x [u8], &'x Assertion)],
) -> Result<Vec<(&'x [u8], Vec<u8>)>, Refusal>
    ensures made { (source : List ℕ) (e : Edition) (living : List FollowedOf) → AreIndentations source indentations.now
        → AreNamesOf (D.scope declared.now) e living names.now → All (λ p. ListsAnew e living p.0.now p.1.now) others.now
        → IfOk result (λ made. AreOtherProofs source (D.scope declared.now) e living (seen_texts made.items)) }
    ensures refused { (e : Edition) (living : List FollowedOf) (text : List ℕ) → All (λ p. ListsAnew e living p.0.now p.1.now) others.now
        → IfErr result (HasCause living (assertions_of e) text) }
    ensures unwritten { (e : Edition) (living : List FollowedOf) → AreNamesOf (D.scope declared.now) e living names.now
        → AreStepsOf (D.scope declared.now) e living names.now → All (λ p. ListsAnew e living p.0.now p.1.now) others.now
        → IfErr result (OnUnwritten (IsNotReproved (D.scope declared.now) e living)) }
{
    let mut texts = Vec::with_capacity(alloc, others.len())?;
    for (label, new) in others {
        let text = other_proof(alloc, keys, declared, names, indentations, label, new)?;
        texts.push((*label, text))?;
    }
    Ok(texts)
}

/// The theorems that have another proof, by their labels in the source, with the texts of these proofs. The source is gone through only
/// where there are some: for how far their old ones are indented.
pub(crate) fn other_proofs<'x, D: Declared<'x>>(
    alloc: Global,
    keys: RandomState,
    declared: &D,
    source: &[u8],
    edited: &ByLabel<'x>,
    names: &Names<'x>,
    planned: &Planned<'x>,
) -> Result<Vec<(&'x [u8], Vec<u8>)>, Refusal>
    requires labelled { AreLabelled edited.now (map (λ r. r.assertion) planned.now.edited.now.entries) }
    requires names { AreNamesOf (D.scope declared.now) (edition_of planned.now) (seen_living planned.now.living.now) names.now }
    requires divided { IsDivided source.now }
    ensures made { IfOk result (λ made. AreOtherProofs source.now (D.scope declared.now) (edition_of planned.now)
        (seen_living planned.now.living.now) (seen_texts made.items)) }
    ensures refused { (text : List ℕ) → IfErr result (HasCause (seen_living planned.now.living.now)
        (map (λ r. r.assertion) planned.now.edited.now.entries) text) }
    ensures unwritten { AreStepsOf (D.scope declared.now) (edition_of planned.now) (seen_living planned.now.living.now) names.now
        → IfErr result (OnUnwritten (IsNotReproved (D.scope declared.now) (edition_of planned.now) (seen_living planned.now.living.now))) }
{
    let others = other_listings(alloc, keys, edited, planned)?;
    if others.is_empty() {
        return Ok(Vec::new(alloc));
    }
    let Some(indented) = indentations(alloc, keys, source)? else {
        unreachable!()
    };
    texts_of(alloc, keys, declared, names, &indented, others.as_slice())
}
