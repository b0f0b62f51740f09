//! A source with the edits of a history that adds, moves or deletes: what is put in, and how it is put there.

ghost use Rattle.std.specs.Prelude.{◌≡◌, ◌<◌, [], ℕ, List, Contains, IfOk, IfErr, Some, length, map, slice_get};
ghost use Rattle.std.specs.Option.{option_and_then};
ghost use Rattle.source.specs.Views.{seen_words};
ghost use Rattle.arranging.specs.Arranged.{IsArranged};
ghost use Rattle.items.specs.Divided.{IsDivided};
ghost use Rattle.items.specs.Reading.{AreItems};
ghost use Rattle.items.specs.Rewriting.{IsRewritten};
ghost use Rattle.mmsyntax.specs.declared.statement.Assertion.{Assertion as AssertionOf};
ghost use Rattle.sourceediting.specs.Following.{Followed as FollowedOf};
ghost use Rattle.sourceediting.specs.Filled.{ArePuts};
ghost use Rattle.sourceediting.specs.Entries.{Edition, assertions_of};
ghost use Rattle.sourceediting.specs.PutIn.{is_compressed_proof, was_compressed, has_compressed, CanBePutIn};
ghost use Rattle.sourceediting.specs.Refusals.{HasCause, AreListedAnew, OnUnwritten, IsKnownAs};
ghost use Rattle.sourceediting.specs.Views.{edited_of, seen_living, edition_of, AreLabelled, AreKnown};
ghost use Rattle.sourceediting.specs.WrittenWith.{AreWrittenWith, IsVocabularyOf, IsNotPut};
ghost use Rattle.sourceediting.specs.Written.{IsRearranged, moved_in, sources_of};

use crate::beside::unplaced;
use crate::citing::marked;
use crate::declaring::declarations_of;
use crate::filling::{Known, Piece, Puts, Texts, puts_of};
use crate::following::Followed;
use crate::moving::{Moving, moving_of};
use crate::outline::{Outlined, Stretch, outline_of};
use crate::planning::{Planned, changed_in, labelled, unwritten};
use crate::refusal::Refusal;
use arranging::{Edits, Outcome, arrange, parts_of};
use giving::LabelMap;
use items::{Item, read_items, rewrite};
use library::Ranked;
use mmsyntax::Assertion;
use source::{Declared, ProofWords};
use sourcewriting::{ByLabel, Names, Statement, Vocabulary, Written, assertion_text, symbol_words};
use std::alloc::{AllocError, Global};
use std::collections::HashMap;
use std::hash::RandomState;

/// What is known of the edits of a source.
#[derive(Clone, Copy)]
pub(crate) struct Rearranged<'x> {
    /// The library, and the edits over it.
    pub planned: Planned<'x>,
    /// The assertions of the edited library, by their labels.
    pub edited: &'x ByLabel<'x>,
    /// What the steps of proofs name.
    pub names: &'x Names<'x>,
    /// The labels of the source that change.
    pub changes: &'x LabelMap<'x>,
    /// The proofs that change.
    pub proofs: &'x LabelMap<'x>,
}

/// Whether the proof of the assertion at a place of a source is compressed.
fn is_compressed_at<'a, D: Declared<'a>>(declared: &D, place: usize) -> bool
    ensures { result ≡ is_compressed_proof (option_and_then (λ a. a.proof) (slice_get (D.scope declared.now).assertions place)) }
{
    matches!(declared.proof(place), Some(ProofWords::Compressed(..)))
}

/// Whether the proof of an assertion of a source is compressed.
fn is_compressed<'a, D: Declared<'a>>(declared: &D, label: &[u8]) -> bool
    ensures { result ≡ was_compressed (D.scope declared.now) label.now }
{
    match declared.place_of(label) {
        Some(place) => is_compressed_at(declared, place),
        None => false,
    }
}

/// The text of an assertion with its proof.
fn text_of<'a, D: Declared<'a>>(
    alloc: Global,
    keys: RandomState,
    declared: &D,
    vocabulary: &Vocabulary<'_, '_>,
    statement: &Statement<'_>,
) -> Result<Written, Refusal>
    ensures refused { (living : List FollowedOf) (edited : List AssertionOf) (text : List ℕ) → Contains edited statement.now.assertion.now
        → IfErr result (HasCause living edited text) }
    ensures unwritten { (e : Edition) (living : List FollowedOf) → IsVocabularyOf (D.scope declared.now) e living vocabulary.now
        → IfErr result (OnUnwritten (λ label. (statement.now.assertion.now.label ≡ label) × (CanBePutIn (D.scope declared.now) e living
        statement.now.is_compressed statement.now.label.now statement.now.assertion.now → ⊥))) }
{
    match assertion_text(alloc, keys, declared, vocabulary, statement)? {
        Some(text) => Ok(text),
        None => Err(unwritten(alloc, statement.assertion)?),
    }
}

/// One that stands alone: it goes as it stands, with what describes it or with its block.
fn as_it_stands<'x>(
    alloc: Global,
    known: &Known<'x>,
    source: &'x [u8],
    unit: Stretch,
) -> Piece<'x> {
    let text = Written {
        front: Vec::new(alloc),
        back: Vec::new(alloc),
    };
    Piece::new(known, Some(source), text, unit, false)
}

/// One that leaves a block in which others stand: it is written anew, with `$e` of its own, behind what describes it.
fn parted<'x, 'a, D: Declared<'a>>(
    alloc: Global,
    keys: RandomState,
    declared: &D,
    known: &Known<'x>,
    standing: &Outlined<'x>,
    assertion: &Assertion,
    is_in_front: bool,
    vocabulary: &Vocabulary<'_, 'x>,
    edits: &Rearranged<'x>,
) -> Result<Piece<'x>, Refusal>
    ensures refused { (living : List FollowedOf) (edited : List AssertionOf) (text : List ℕ) → Contains edited assertion.now
        → IfErr result (HasCause living edited text) }
    ensures unwritten { IsVocabularyOf (D.scope declared.now) (edition_of edits.now.planned)
        (seen_living edits.now.planned.living.now) vocabulary.now
        → Contains (assertions_of (edition_of edits.now.planned)) assertion.now
        → IsKnownAs (seen_living edits.now.planned.living.now) assertion.now.label (Some standing.now.label.now)
        → IfErr result (OnUnwritten (IsNotPut (D.scope declared.now) edits.now)) }
{
    let source = standing.label;
    let statement = Statement {
        assertion,
        label: changed_in(edits.changes, source),
        is_compressed: is_compressed(declared, source),
    };
    let text = text_of(alloc, keys, declared, vocabulary, &statement)?;
    let unit = Stretch {
        first: standing.first,
        end: standing.place,
    };
    Ok(Piece::new(known, Some(source), text, unit, is_in_front))
}

/// Those that stand elsewhere then.
fn put_moved<'x, 'a, D: Declared<'a>>(
    alloc: Global,
    keys: RandomState,
    declared: &D,
    known: &Known<'x>,
    moving: &Moving<'x>,
    vocabulary: &Vocabulary<'_, 'x>,
    edits: &Rearranged<'x>,
    texts: &mut Texts<'x>,
) -> Result<(), Refusal>
    requires { AreLabelled edits.now.edited.now (map (λ r. r.assertion) edits.now.planned.edited.now.entries) }
    ensures refused { (living : List FollowedOf) (text : List ℕ)
        → IfErr result (HasCause living (map (λ r. r.assertion) edits.now.planned.edited.now.entries) text) }
    ensures unwritten { IsVocabularyOf (D.scope declared.now) (edition_of edits.now.planned)
        (seen_living edits.now.planned.living.now) vocabulary.now
        → AreKnown (seen_living edits.now.planned.living.now) moving.now.labels
        → IfErr result (OnUnwritten (IsNotPut (D.scope declared.now) edits.now)) }
{
    for standing in known.outline.assertions.as_slice() {
        let source = standing.label;
        let Some(now) = moving.labels.text_for(source) else {
            continue;
        };
        let Some(assertion) = labelled(edits.edited, now) else {
            continue;
        };
        let piece = if known.outline.is_alone(standing) {
            as_it_stands(alloc, known, source, known.outline.whole(standing))
        } else {
            let is_in_front = moving.in_front.text_for(source).is_some();
            parted(
                alloc,
                keys,
                declared,
                known,
                standing,
                assertion,
                is_in_front,
                vocabulary,
                edits,
            )?
        };
        texts.insert(now, piece)?;
    }
    Ok(())
}

/// Whether a source has compressed proofs.
fn has_compressed<'a, D: Declared<'a>>(declared: &D) -> bool
    ensures { result ≡ has_compressed (D.scope declared.now) }
{
    for place in 0..declared.assertions() {
        if is_compressed_at(declared, place) {
            return true;
        }
    }
    false
}

/// Those that were added.
fn put_added<'x, 'a, D: Declared<'a>>(
    alloc: Global,
    keys: RandomState,
    declared: &D,
    known: &Known<'x>,
    vocabulary: &Vocabulary<'_, 'x>,
    edits: &Rearranged<'x>,
    texts: &mut Texts<'x>,
) -> Result<(), Refusal>
    requires { AreLabelled edits.now.edited.now (map (λ r. r.assertion) edits.now.planned.edited.now.entries) }
    ensures refused { (living : List FollowedOf) (text : List ℕ)
        → IfErr result (HasCause living (map (λ r. r.assertion) edits.now.planned.edited.now.entries) text) }
    ensures unwritten { IsVocabularyOf (D.scope declared.now) (edition_of edits.now.planned)
        (seen_living edits.now.planned.living.now) vocabulary.now
        → IfErr result (OnUnwritten (IsNotPut (D.scope declared.now) edits.now)) }
{
    let is_compressed = has_compressed(declared);
    for followed in edits.planned.living {
        let (None, Some(assertion)) = (followed.source, labelled(edits.edited, followed.now)) else {
            continue;
        };
        let now = followed.now;
        let statement = Statement {
            assertion,
            label: now,
            is_compressed,
        };
        let text = text_of(alloc, keys, declared, vocabulary, &statement)?;
        let unit = Stretch { first: 0, end: 0 };
        texts.insert(now, Piece::new(known, None, text, unit, false))?;
    }
    Ok(())
}

/// Those that are put in: those that stand elsewhere then, and those that were added.
fn texts_of<'x, 'a, D: Declared<'a>>(
    alloc: Global,
    keys: RandomState,
    declared: &D,
    known: &Known<'x>,
    moving: &Moving<'x>,
    edits: &Rearranged<'x>,
) -> Result<Texts<'x>, Refusal>
    requires { AreLabelled edits.now.edited.now (map (λ r. r.assertion) edits.now.planned.edited.now.entries) }
    ensures refused { (living : List FollowedOf) (text : List ℕ)
        → IfErr result (HasCause living (map (λ r. r.assertion) edits.now.planned.edited.now.entries) text) }
    ensures unwritten { AreWrittenWith (D.scope declared.now) edits.now
        → AreKnown (seen_living edits.now.planned.living.now) moving.now.labels
        → IfErr result (OnUnwritten (IsNotPut (D.scope declared.now) edits.now)) }
{
    let mut texts = HashMap::with_hasher(alloc, keys);
    let prelude = edits.planned.database.prelude();
    let words = symbol_words(alloc, keys, prelude, edits.planned.names)?;
    let vocabulary = Vocabulary {
        prelude: edits.planned.edited.prelude(),
        edited: edits.edited,
        names: edits.names,
        words: &words,
    };
    put_moved(
        alloc,
        keys,
        declared,
        known,
        moving,
        &vocabulary,
        edits,
        &mut texts,
    )?;
    put_added(alloc, keys, declared, known, &vocabulary, edits, &mut texts)?;
    Ok(texts)
}

/// A text with the labels that change and with other proofs.
///
/// # Errors
///
/// An assertion without a proof that is to have another one; want of memory.
pub(crate) fn rewritten(
    alloc: Global,
    edits: &Rearranged<'_>,
    text: &[u8],
) -> Result<Vec<u8>, Refusal>
    requires divided { IsDivided text.now }
    requires listed { AreListedAnew (seen_living edits.now.planned.living.now)
        (map (λ r. r.assertion) edits.now.planned.edited.now.entries) edits.now.proofs.now }
    ensures rewritten { IfOk result (λ out. IsRewritten edits.now.changes.now edits.now.proofs.now text.now out.items) }
    ensures refused { IfErr result (HasCause (seen_living edits.now.planned.living.now)
        (map (λ r. r.assertion) edits.now.planned.edited.now.entries) text.now) }
    ensures unwritten { IfErr result (OnUnwritten (λ _. ⊥)) }
{
    match rewrite(alloc, edits.changes, edits.proofs, text)? {
        Some(out) => Ok(out),
        None => Err(Refusal::Bare),
    }
}

/// The labels in the source of those that were moved.
fn moved_in<'x>(alloc: Global, living: &[Followed<'x>]) -> Result<Vec<&'x [u8]>, AllocError>
    ensures { IfOk result (λ made. seen_words made.items ≡ moved_in (seen_living living.now)) }
{
    let mut moved = Vec::new(alloc);
    for followed in living {
        if let Some(source) = followed.moved_from() {
            moved.push(source)?;
        }
    }
    Ok(moved)
}

/// The labels in the source of those that live.
fn sources_of<'x>(alloc: Global, living: &[Followed<'x>]) -> Result<Vec<&'x [u8]>, AllocError>
    ensures { IfOk result (λ made. seen_words made.items ≡ sources_of (seen_living living.now)) }
{
    let mut sources = Vec::new(alloc);
    for followed in living {
        if let Some(source) = followed.source_label() {
            sources.push(source)?;
        }
    }
    Ok(sources)
}

/// The source with the edits, where nothing is put in. So it reads where something can't stand at its place and no cause is found: whoever
/// looks at it again finds another library.
fn without_comings(
    alloc: Global,
    edits: Edits<'_>,
    source: &[u8],
    items: &[Item<'_>],
) -> Result<Vec<u8>, Refusal>
    requires { AreItems source.now items.now }
    ensures arranged { IfOk result (λ out. IsArranged edits.entry.changes.now edits.entry.proofs.now
        (edited_of edits.entry []) source.now out.items) }
    ensures refused { (living : List FollowedOf) (edited : List AssertionOf) → AreListedAnew living edited edits.entry.proofs.now
        → IfErr result (HasCause living edited source.now) }
    ensures unwritten { IfErr result (OnUnwritten (λ _. ⊥)) }
{
    match arrange(alloc, edits, source, items, &[])? {
        Outcome::Text(out) => Ok(out),
        Outcome::Misplaced(_) => unreachable!(),
        Outcome::Bare => Err(Refusal::Bare),
    }
}

/// Where what is put in with a number, counted from 0, can't stand at its place: why it can't stand beside its neighbour, or else the
/// source where nothing is put in.
fn otherwise(
    alloc: Global,
    keys: RandomState,
    edits: Edits<'_>,
    source: &[u8],
    items: &[Item<'_>],
    living: &[Followed<'_>],
    entries: &[Ranked],
    puts: &Puts<'_>,
    number: usize,
) -> Result<Vec<u8>, Refusal>
    requires items { AreItems source.now items.now }
    requires numbered { ArePuts (length entries.now) puts.now }
    requires within { number < length puts.now.comings.items }
    requires listed { AreListedAnew (seen_living living.now) (map (λ r. r.assertion) entries.now) edits.proofs.now }
    ensures arranged { IfOk result (λ out. IsArranged edits.entry.changes.now edits.entry.proofs.now
        (edited_of edits.entry []) source.now out.items) }
    ensures refused { IfErr result (HasCause (seen_living living.now) (map (λ r. r.assertion) entries.now) source.now) }
    ensures unwritten { IfErr result (OnUnwritten (λ _. ⊥)) }
{
    let (coming, number) = (puts.comings[number], puts.numbers[number]);
    let why = unplaced(alloc, keys, source, items, living, entries, coming, number)?;
    match why {
        Some(why) => Err(why),
        None => without_comings(alloc, edits, source, items),
    }
}

/// The source with the edits, of which these are the items, and this is put in.
fn arranged(
    alloc: Global,
    keys: RandomState,
    source: &[u8],
    items: &[Item<'_>],
    moving: &LabelMap<'_>,
    puts: &Puts<'_>,
    edits: &Rearranged<'_>,
) -> Result<Vec<u8>, Refusal>
    requires items { AreItems source.now items.now }
    requires numbered { ArePuts (length edits.now.planned.edited.now.entries) puts.now }
    requires listed { AreListedAnew (seen_living edits.now.planned.living.now)
        (map (λ r. r.assertion) edits.now.planned.edited.now.entries) edits.now.proofs.now }
    ensures arranged { IfOk result (λ out. IsRearranged (seen_living edits.now.planned.living.now)
        (seen_words edits.now.planned.gone.now) edits.now.changes.now edits.now.proofs.now source.now out.items) }
    ensures refused { IfErr result (HasCause (seen_living edits.now.planned.living.now)
        (map (λ r. r.assertion) edits.now.planned.edited.now.entries) source.now) }
    ensures unwritten { IfErr result (OnUnwritten (λ _. ⊥)) }
{
    let entries = edits.planned.edited.entries();
    let living = edits.planned.living;
    let gone = marked(alloc, keys, edits.planned.gone)?;
    let moved = moved_in(alloc, living)?;
    let moved = marked(alloc, keys, moved.as_slice())?;
    let library = sources_of(alloc, living)?;
    let library = marked(alloc, keys, library.as_slice())?;
    let edits = Edits {
        changes: edits.changes,
        proofs: edits.proofs,
        gone: &gone,
        moving,
        moved: &moved,
        library: &library,
    };
    match arrange(alloc, edits, source, items, puts.comings.as_slice())? {
        Outcome::Text(out) => Ok(out),
        Outcome::Misplaced(number) => otherwise(
            alloc, keys, edits, source, items, living, entries, puts, number,
        ),
        Outcome::Bare => Err(Refusal::Bare),
    }
}

/// The source with the edits, by its items.
fn rearrange_known<'x, 'a, D: Declared<'a>>(
    alloc: Global,
    keys: RandomState,
    declared: &D,
    known: &Known<'x>,
    edits: &Rearranged<'x>,
) -> Result<Vec<u8>, Refusal>
    requires items { AreItems known.now.text.now known.now.items.items }
    requires labelled { AreLabelled edits.now.edited.now (map (λ r. r.assertion) edits.now.planned.edited.now.entries) }
    requires listed { AreListedAnew (seen_living edits.now.planned.living.now)
        (map (λ r. r.assertion) edits.now.planned.edited.now.entries) edits.now.proofs.now }
    ensures arranged { IfOk result (λ out. IsRearranged (seen_living edits.now.planned.living.now)
        (seen_words edits.now.planned.gone.now) edits.now.changes.now edits.now.proofs.now known.now.text.now out.items) }
    ensures refused { IfErr result (HasCause (seen_living edits.now.planned.living.now)
        (map (λ r. r.assertion) edits.now.planned.edited.now.entries) known.now.text.now) }
    ensures unwritten { AreWrittenWith (D.scope declared.now) edits.now
        → IfErr result (OnUnwritten (IsNotPut (D.scope declared.now) edits.now)) }
{
    let moving = moving_of(alloc, keys, declared, &known.outline, edits)?;
    let texts = texts_of(alloc, keys, declared, known, &moving, edits)?;
    let moving = &moving.labels;
    let living = edits.planned.living;
    let entries = edits.planned.edited.entries();
    let puts = puts_of(alloc, keys, known, living, moving, entries, &texts)?;
    let items = known.items.as_slice();
    arranged(alloc, keys, known.text, items, moving, &puts, edits)
}

/// A source by its items.
fn known_of<'x>(alloc: Global, keys: RandomState, source: &'x [u8]) -> Result<Known<'x>, AllocError>
    requires { IsDivided source.now }
    ensures { IfOk result (λ known. AreItems source.now known.items.items × (known.text.now ≡ source.now)) }
{
    let Some(items) = read_items(alloc, source)? else {
        unreachable!()
    };
    let none = marked(alloc, keys, &[])?;
    let parts = parts_of(alloc, &none, &none, source, items.as_slice())?;
    let outline = outline_of(alloc, items.as_slice(), parts.as_slice())?;
    let declarations = declarations_of(alloc, keys, source, items.as_slice())?;
    Ok(Known {
        text: source,
        items,
        parts,
        outline,
        declarations,
    })
}

/// The source with the edits of a history that adds, moves or deletes.
pub(crate) fn rearrange<'x, 'a, D: Declared<'a>>(
    alloc: Global,
    keys: RandomState,
    declared: &D,
    source: &'x [u8],
    edits: &Rearranged<'x>,
) -> Result<Vec<u8>, Refusal>
    requires labelled { AreLabelled edits.now.edited.now (map (λ r. r.assertion) edits.now.planned.edited.now.entries) }
    requires divided { IsDivided source.now }
    requires listed { AreListedAnew (seen_living edits.now.planned.living.now)
        (map (λ r. r.assertion) edits.now.planned.edited.now.entries) edits.now.proofs.now }
    ensures arranged { IfOk result (λ out. IsRearranged (seen_living edits.now.planned.living.now)
        (seen_words edits.now.planned.gone.now) edits.now.changes.now edits.now.proofs.now source.now out.items) }
    ensures refused { IfErr result (HasCause (seen_living edits.now.planned.living.now)
        (map (λ r. r.assertion) edits.now.planned.edited.now.entries) source.now) }
    ensures unwritten { AreWrittenWith (D.scope declared.now) edits.now
        → IfErr result (OnUnwritten (IsNotPut (D.scope declared.now) edits.now)) }
{
    let known = known_of(alloc, keys, source)?;
    rearrange_known(alloc, keys, declared, &known, edits)
}
