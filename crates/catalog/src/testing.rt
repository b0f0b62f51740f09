//! The tests of commands: what the steps of a proof cite, who cites a label, and what is wrong with a proof.

ghost use Rattle.std.specs.Prelude.{◌≡◌, ◌&&◌, ℕ, nat_le, option_map, IfOk};
ghost use Rattle.std.specs.List.{list_any};
ghost use Rattle.std.specs.List.Sorted.{IsStrictlyIncreasing};
ghost use Rattle.std.specs.Option.{option_copied};
ghost use Rattle.mmsyntax.specs.declared.statement.Kind.TheVariants.{Theorem};
ghost use Rattle.mmsyntax.specs.ProofWords.{seen_step};
ghost use Rattle.library.specs.Edits.{found, is_citation, cites, citers as citers_of, is_of_unknown, cites_not_below, proof_fails};
ghost use Rattle.library.specs.declared.reason.Reason.TheVariants as reason;
ghost use Rattle.catalog.specs.Entries.{living, AreFramed};
ghost use Rattle.catalog.specs.Places.{IsIndex};
ghost use Rattle.catalog.specs.Citers.{HasAllCiters};
ghost use Rattle.catalog.specs.Testing.{passes_at, cites_from};

use crate::places::{Places, entry_at, find_label};
use derivation::{ProofFault, ProofFaultKind};
use library::Ranked;
use mmsyntax::{Assertion, Frame, Label, Prelude, Proof, StepRef};
use std::alloc::{AllocError, Global};
use stepcheck::{Frames, check};

fn is_citation(step: StepRef<'_>, label: &[u8]) -> bool
    ensures { result ≡ is_citation label.now (seen_step step.entry) }
{
    match step {
        StepRef::Float(_) | StepRef::Hyp(_) => false,
        StepRef::Cite(cited) => label == cited,
    }
}

/// Whether the proof of an assertion cites a label.
pub fn cites(entry: &Ranked, label: &[u8]) -> bool
    ensures { result ≡ cites label.now entry.now }
{
    let steps = &entry.assertion.proof;
    for i in 0..steps.len() {
        if is_citation(steps.step(i), label) {
            return true;
        }
    }
    false
}

/// Whether a place has an assertion whose proof cites a label.
fn cites_at(entries: &[Option<Ranked>], place: usize, label: &[u8]) -> bool
    ensures { result ≡ passes_at (cites label.now) entries.now place }
{
    match entry_at(entries, place) {
        None => false,
        Some(entry) => cites(entry, label),
    }
}

/// Whether a place has an assertion of this rank or a lower one whose proof cites a label.
fn cites_at_below(entries: &[Option<Ranked>], place: usize, rank: u32, label: &[u8]) -> bool
    ensures { result ≡ passes_at (cites_from label.now rank) entries.now place }
{
    match entry_at(entries, place) {
        None => false,
        Some(entry) => entry.rank <= rank && cites(entry, label),
    }
}

/// Whether one of some places has an assertion of this rank or a lower one whose proof cites a label.
fn some_cites_below(entries: &[Option<Ranked>], places: &[usize], rank: u32, label: &[u8]) -> bool
    ensures { result ≡ list_any (passes_at (cites_from label.now rank) entries.now) places.now }
{
    places
        .iter()
        .any(|place| cites_at_below(entries, *place, rank, label))
}

/// Whether the proof of an assertion of this rank or a lower one cites a label. Its citers are among some places.
pub fn has_citer_below(
    entries: &[Option<Ranked>],
    citers: &[usize],
    rank: u32,
    label: &[u8],
) -> bool
    requires { HasAllCiters entries.now label.now citers.now }
    ensures { result ≡ list_any (λ e. cites label.now e && nat_le e.rank rank) (living entries.now) }
{
    some_cites_below(entries, citers, rank, label)
}

/// The number of assertions whose proof cites a label. Its citers are among some places, which ascend.
pub fn count_citers(entries: &[Option<Ranked>], citers: &[usize], label: &[u8]) -> usize
    requires ascending { IsStrictlyIncreasing citers.now }
    requires all { HasAllCiters entries.now label.now citers.now }
    ensures { result ≡ citers_of (living entries.now) label.now }
{
    citers
        .iter()
        .filter(|place| cites_at(entries, **place, label))
        .count()
}

/// Whether a step cites a label that no assertion has.
fn is_of_unknown(entries: &[Option<Ranked>], places: &Places, step: StepRef<'_>) -> bool
    requires { IsIndex places.now entries.now }
    ensures { result ≡ is_of_unknown (living entries.now) (seen_step step.entry) }
{
    match step {
        StepRef::Float(_) | StepRef::Hyp(_) => false,
        StepRef::Cite(label) => find_label(entries, places, label).is_none(),
    }
}

/// Whether some step cites a label that no assertion has.
pub fn cites_unknown(entries: &[Option<Ranked>], places: &Places, steps: &Proof) -> bool
    requires { IsIndex places.now entries.now }
    ensures { result ≡ list_any (is_of_unknown (living entries.now)) steps.now }
{
    for i in 0..steps.len() {
        if is_of_unknown(entries, places, steps.step(i)) {
            return true;
        }
    }
    false
}

/// The assertion that has a label, if one has it.
fn find_entry<'a>(
    entries: &'a [Option<Ranked>],
    places: &Places,
    label: &[u8],
) -> Option<&'a Ranked>
    requires { IsIndex places.now entries.now }
    ensures { option_copied result ≡ found (living entries.now) label.now }
{
    let place = find_label(entries, places, label)?;
    entries.get(place)?.as_ref()
}

/// Whether a step cites an assertion of this rank or a higher one.
fn is_of_one_not_below(
    entries: &[Option<Ranked>],
    places: &Places,
    rank: u32,
    step: StepRef<'_>,
) -> bool
    requires { IsIndex places.now entries.now }
    ensures { result ≡ cites_not_below (living entries.now) rank (seen_step step.entry) }
{
    match step {
        StepRef::Float(_) | StepRef::Hyp(_) => false,
        StepRef::Cite(label) => match find_entry(entries, places, label) {
            None => false,
            Some(entry) => rank <= entry.rank,
        },
    }
}

/// Whether some step cites an assertion of this rank or a higher one.
pub fn cites_not_below(
    entries: &[Option<Ranked>],
    places: &Places,
    rank: u32,
    steps: &Proof,
) -> bool
    requires { IsIndex places.now entries.now }
    ensures { result ≡ list_any (cites_not_below (living entries.now) rank) steps.now }
{
    for i in 0..steps.len() {
        if is_of_one_not_below(entries, places, rank, steps.step(i)) {
            return true;
        }
    }
    false
}

/// The assertions of lower rank than one, which its proof may cite.
#[derive(Drop)]
pub struct Lower<'a> {
    pub prelude: &'a Prelude,
    /// The assertions of all ranks, each at its place.
    pub entries: &'a [Option<Ranked>],
    /// The frame of each assertion, at its place.
    pub frames: &'a [Frame],
    /// The places of labels.
    pub places: &'a Places,
    /// The rank that is above theirs.
    pub rank: u32,
    ghost indexed: { IsIndex places.now entries.now },
    ghost framed: { AreFramed prelude.now entries.now frames.now },
}

impl Frames for Lower<'_> {
    ghost use Rattle.derivation.specs.Databases.{frame_in};
    ghost use Rattle.library.specs.Library.{lower};
    ghost use Rattle.catalog.specs.Entries.{living};

    ghost frames = { λ s label. frame_in s.prelude.now (lower (living s.entries.now) s.rank) label };

    fn frame(&self, label: &Label) -> Option<&Frame> {
        let place = find_label(self.entries, self.places, label.as_slice())?;
        let entry = self.entries.get(place)?.as_ref()?;
        if entry.rank < self.rank {
            self.frames.get(place)
        } else {
            None
        }
    }
}

/// The fault of the proof of a theorem over the assertions of lower rank, if it has one.
///
/// # Errors
///
/// Want of memory.
pub fn proof_fault(
    alloc: Global,
    lower: &Lower<'_>,
    assertion: &Assertion,
) -> Result<Option<ProofFault>, AllocError>
    requires { assertion.now.kind ≡ Theorem }
    ensures { (slots : ℕ) → IfOk result (λ fault. option_map reason.ProofFails fault
        ≡ proof_fails (record { prelude = lower.now.prelude.now; slots = slots }) (living lower.now.entries.now) lower.now.rank
        assertion.now) }
{
    match check(alloc, lower.prelude, lower, assertion) {
        Ok(()) => Ok(None),
        Err(fault) => match fault.kind {
            ProofFaultKind::NoMemory => Err(AllocError),
            _ => Ok(Some(fault)),
        },
    }
}
