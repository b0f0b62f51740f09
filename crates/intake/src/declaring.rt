//! The library of what was gathered: its draft is declared, and its proofs are checked.

ghost use Rattle.std.specs.Prelude.{◌≡◌, ◌≢◌, Bool, List, map, slice_get, IfOk, IfErr, MatchOption};
ghost use Rattle.std.specs.Option.{option_map};
ghost use Rattle.mmtext.specs.Words.{Word};
ghost use Rattle.source.specs.Scopes.{Scope};
ghost use Rattle.source.specs.Views.{seen_words};
ghost use Rattle.taking.specs.declared.reason.Reason.{Reason};
ghost use Rattle.taking.specs.Names.{Naming};
ghost use Rattle.choosing.specs.declared.wish.Wish.{Wish};
ghost use Rattle.derivation.specs.Databases.{AllCheck, IsFirstFault};
ghost use Rattle.derivation.specs.declared.fault.ProofFaultKind.TheVariants.{TooLong};
ghost use Rattle.drafts.specs.Drafts.{contents_of};
ghost use Rattle.drafts.specs.Limits.{IsTold};
ghost use Rattle.drafts.specs.declared.draft.Undeclared.TheVariants.{NoMemory as OutOfMemory};
ghost use Rattle.mmsyntax.specs.Layout.{HasSpelling};
ghost use Rattle.mmsyntax.specs.Tables.{Contents};
ghost use Rattle.taking.specs.Reasons.{told_in};
ghost use Rattle.gathering.specs.Gatherings.{told_names};
ghost use Rattle.intake.specs.Intakes.{IsRefusedOf, IsProofFault};
ghost use Rattle.intake.specs.Parts.{AreAsMany, AreDrafted, AreTakenBy, IsGathered, lists_of, changed_of, name_by};
ghost use Rattle.intake.specs.Parts.{IsLibraryRound, IsLongRound};

use crate::drafting::{copied_labels, floats, put_changed};
use crate::refusal::Refusal;
use crate::rounds::Round;
use crate::taken::Taken;
use derivation::{ProofFault, ProofFaultKind};
use drafts::{Draft, Limit, Undeclared, declare};
use gathering::{Gathered, Placed};
use mmsyntax::{Assertion, Database, Label, Sequence};
use proofcheck::check_all;
use sites::{LibraryNames, Sites};
use std::alloc::{AllocError, Global};
use std::hash::RandomState;
use std::thread::Threads;
use taking::Reason;

/// The names that were changed.
fn changed_names<'a>(
    alloc: Global,
    sites: &Sites<'a>,
    names: &LibraryNames,
) -> Result<Vec<(&'a [u8], Label)>, AllocError>
    requires { AreAsMany sites.now names.now }
    ensures { IfOk result (λ changed. map (λ p. (p.0.now, p.1)) changed.items ≡ changed_of sites.now names.now) }
{
    let mut changed = Vec::new(alloc);
    put_changed(
        alloc,
        &mut changed,
        sites.constants(),
        names.constants.as_slice(),
    )?;
    put_changed(
        alloc,
        &mut changed,
        sites.variables(),
        names.variables.as_slice(),
    )?;
    put_changed(alloc, &mut changed, sites.floats(), names.floats.as_slice())?;
    put_changed(alloc, &mut changed, sites.labels(), names.labels.as_slice())?;
    Ok(changed)
}

/// The draft of a library.
fn draft_of(
    alloc: Global,
    sites: &Sites<'_>,
    names: &LibraryNames,
    assertions: Vec<Assertion>,
) -> Result<Draft, AllocError>
    requires { AreAsMany sites.now names.now }
    ensures { IfOk result (λ made. contents_of made ≡ lists_of sites.now names.now assertions.items) }
{
    let floats = floats(alloc, names.floats.as_slice(), sites.types())?;
    Ok(Draft {
        constants: copied_labels(alloc, names.constants.as_slice())?,
        variables: copied_labels(alloc, names.variables.as_slice())?,
        floats,
        assertions: Sequence::from_vec(assertions),
    })
}

/// The word at a place, if there is one.
pub(crate) fn word_at<'a>(words: &[&'a [u8]], place: usize) -> Option<&'a [u8]>
    ensures { option_map (λ w. w.now) result ≡ slice_get (seen_words words.now) place }
{
    match words.get(place) {
        Some(word) => Some(*word),
        None => None,
    }
}

/// The name in the source of what passes a limit by itself.
fn name_at<'a>(sites: &Sites<'a>, limit: Limit) -> Option<&'a [u8]>
    ensures { option_map (λ w. w.now) result ≡ name_by sites.now limit }
{
    match limit {
        Limit::ManyConstants(_)
        | Limit::ManyVariables(_)
        | Limit::ManyFloats(_)
        | Limit::ManyAssertions(_) => None,
        Limit::LongConstant(place) => word_at(sites.constants(), place),
        Limit::LongVariable(place) => word_at(sites.variables(), place),
        Limit::LongFloat(place) => word_at(sites.floats(), place),
        Limit::LongLabel(place)
        | Limit::ManyHypotheses(place)
        | Limit::ManySymbols(place)
        | Limit::ManyPairs(place)
        | Limit::ManySteps(place) => word_at(sites.labels(), place),
    }
}

/// Why a draft makes no library.
fn undeclared<'a, 'w>(sites: &Sites<'a>, why: Undeclared) -> Refusal<'a, 'w>
    ensures { (s : Scope) (w : Wish) (db : Contents) (axioms : List (Word × Reason)) (names : List Naming) (flags : List Bool)
        → AreDrafted s w sites.now db axioms names flags → (why ≢ OutOfMemory → HasSpelling db → ⊥) → IsTold db why
        → IsRefusedOf s w result }
{
    match why {
        Undeclared::Passes(limit) => Refusal::Passes(limit, name_at(sites, limit)),
        Undeclared::Unlawful => Refusal::Unlawful,
        Undeclared::NoMemory => Refusal::NoMemory,
    }
}

/// The label of the assertion with this number, counted from 1, whose proof has a fault.
fn label_of_faulty(
    alloc: Global,
    database: &Database,
    number: usize,
    fault: ProofFault,
) -> Result<Label, AllocError>
    requires first { IsFirstFault database.now number fault }
    requires other { fault.kind ≢ TooLong }
    ensures { IfOk result (λ label. IsProofFault database.now label fault) }
{
    database.assertions()[number - 1].label.copy(alloc)
}

/// The number of the first theorem of a library whose proof doesn't check, counted from 1, with its fault.
fn first_faulty(
    rt: &(impl Threads + Sync),
    alloc: Global,
    database: &Database,
) -> Result<Option<(usize, ProofFault)>, AllocError>
    ensures { IfOk result (λ found. MatchOption found (AllCheck database.now) (λ p. IsFirstFault database.now p.0 p.1)) }
{
    let Err((number, fault)) = check_all(rt, alloc, database) else {
        return Ok(None);
    };
    if fault.kind == ProofFaultKind::NoMemory {
        return Err(AllocError);
    }
    Ok(Some((number, fault)))
}

/// The library whose proofs check, with what is told of it; or the place of the first theorem whose proof doesn't, where it has too long an
/// expression.
fn with_proofs<'a, 'w>(
    rt: &(impl Threads + Sync),
    alloc: Global,
    database: Database,
    axioms: Vec<(&'a [u8], Reason)>,
    names: Vec<(&'a [u8], Label)>,
    chosen: &[bool],
) -> Result<Round<'a>, Refusal<'a, 'w>>
    ensures taken { (s : Scope) (w : Wish)
        → AreTakenBy s w database (told_in axioms.entry.items) (told_names names.entry.items) chosen.now
        → IfOk result (IsLibraryRound s w) }
    ensures long { IfOk result (IsLongRound database) }
    ensures refused { (s : Scope) (w : Wish)
        → AreTakenBy s w database (told_in axioms.entry.items) (told_names names.entry.items) chosen.now
        → IfErr result (IsRefusedOf s w) }
{
    let found = first_faulty(rt, alloc, &database)?;
    let Some((number, fault)) = found else {
        let chosen = Vec::from_slice(alloc, chosen)?;
        return Ok(Round::Library(Taken {
            database,
            axioms,
            names,
            chosen,
        }));
    };
    if fault.kind == ProofFaultKind::TooLong {
        return Ok(Round::Long(number - 1));
    }
    let label = label_of_faulty(alloc, &database, number, fault)?;
    Err(Refusal::Proof(label, fault))
}

/// The library of what was gathered of a source by the places that it has, where flags say which assertions were chosen; or the place of
/// the first theorem whose proof has too long an expression.
pub(crate) fn library_of<'a, 'w>(
    rt: &(impl Threads + Sync),
    alloc: Global,
    keys: RandomState,
    placed: &Placed<'_, 'a>,
    gathered: Gathered<'a>,
    chosen: &[bool],
) -> Result<Round<'a>, Refusal<'a, 'w>>
    requires { AreAsMany placed.now.sites.now placed.now.names.now }
    ensures taken { (s : Scope) (w : Wish) → IsGathered s w placed.now.sites.now placed.now.names.now gathered.entry chosen.now
        → IfOk result (IsLibraryRound s w) }
    ensures long { IfOk result (IsLongRound (lists_of placed.now.sites.now placed.now.names.now gathered.entry.assertions.items)) }
    ensures refused { (s : Scope) (w : Wish) → IsGathered s w placed.now.sites.now placed.now.names.now gathered.entry chosen.now
        → IfErr result (IsRefusedOf s w) }
{
    let changed = changed_names(alloc, placed.sites, placed.names)?;
    let draft = draft_of(alloc, placed.sites, placed.names, gathered.assertions)?;
    match declare(alloc, keys, draft) {
        Ok(database) => with_proofs(rt, alloc, database, gathered.axioms, changed, chosen),
        Err(why) => Err(undeclared(placed.sites, why)),
    }
}
