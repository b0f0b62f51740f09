//! The list of all assertions, in export order, with the number of those whose proof cites each.

ghost use Rattle.std.specs.Prelude.{◌≡◌, ◌<◌, ◌∷◌, ◌++◌, [], ℕ, List, length, map, slice_index, IfOk};
ghost use Rattle.mmsyntax.specs.declared.statement.Step.{Step};
ghost use Rattle.mmsyntax.specs.ProofWords.{seen_step};
ghost use Rattle.library.specs.declared.library.Ranked.{Ranked};
ghost use Rattle.library.specs.Library.{label_of, in_export_order};
ghost use Rattle.library.specs.Edits.{listing_line, line_cmp};
ghost use Rattle.catalog.specs.Entries.{living, StandsIn};
ghost use Rattle.catalog.specs.Places.{IsIndex};
ghost use Rattle.catalog.specs.Listing.{AreNoted, AreCounted};

use crate::places::{Places, find_label};
use library::{Line, Ranked};
use mmsyntax::{Proof, Sequence, StepRef};
use std::alloc::{AllocError, Global};
use std::cmp::Ordering;

/// Counts a step of the proof with this number at the place of the assertion that it cites, unless another step of the proof was
/// counted there.
fn note_step(
    entries: &[Option<Ranked>],
    places: &Places,
    number: usize,
    step: StepRef<'_>,
    counts: &mut [u64],
    stamps: &mut [usize],
)
    requires indexed { IsIndex places.now entries.now }
    requires counts_long { length counts.old ≡ length entries.now }
    requires stamps_long { length stamps.old ≡ length entries.now }
    requires room { (p : ℕ) (e : Ranked) → StandsIn entries.now p e → slice_index stamps.old p < number
        → slice_index counts.old p < number }
    ensures { (steps : List Step) (first : List ℕ) → AreNoted entries.now number steps first counts.old stamps.old
        → AreNoted entries.now number (steps ++ seen_step step.entry ∷ []) first counts.new stamps.new }
{
    let StepRef::Cite(label) = step else {
        return;
    };
    let Some(place) = find_label(entries, places, label) else {
        return;
    };
    if stamps[place] < number {
        stamps[place] = number;
        counts[place] += 1;
    }
}

/// Counts a proof with this number at the place of each assertion that it cites.
fn note_proof(
    entries: &[Option<Ranked>],
    places: &Places,
    number: usize,
    steps: &Proof,
    counts: &mut [u64],
    stamps: &mut [usize],
)
    requires indexed { IsIndex places.now entries.now }
    requires counts_long { length counts.old ≡ length entries.now }
    requires stamps_long { length stamps.old ≡ length entries.now }
    requires room { (p : ℕ) (e : Ranked) → StandsIn entries.now p e → slice_index counts.old p < number }
    requires older { (p : ℕ) (e : Ranked) → StandsIn entries.now p e → slice_index stamps.old p < number }
    ensures { AreNoted entries.now number steps.now counts.old counts.new stamps.new }
{
    for i in 0..steps.len() {
        note_step(entries, places, number, steps.step(i), counts, stamps);
    }
}

/// By place, the number of assertions whose proof cites the one there: one look-up for each citation.
fn count_by_place(
    alloc: Global,
    entries: &[Option<Ranked>],
    places: &Places,
) -> Result<Vec<u64>, AllocError>
    requires { IsIndex places.now entries.now }
    ensures { IfOk result (λ counts. AreCounted entries.now counts.items) }
{
    let mut counts = vec![in alloc; 0u64; entries.len()]?;
    let mut stamps = vec![in alloc; 0usize; entries.len()]?;
    for (place, entry) in entries.iter().enumerate() {
        if let Some(entry) = entry {
            note_proof(
                entries,
                places,
                place + 1,
                &entry.assertion.proof,
                counts.as_mut_slice(),
                stamps.as_mut_slice(),
            );
        }
    }
    Ok(counts)
}

/// What is listed of an assertion.
fn line_of(alloc: Global, entry: &Ranked, citers: u64) -> Result<Line, AllocError>
    ensures { IfOk result (λ made. made ≡ record {
      rank = entry.now.rank;
      label = label_of entry.now;
      kind = entry.now.assertion.kind;
      citers = citers;
    }) }
{
    Ok(Line {
        rank: entry.rank,
        label: entry.assertion.label.copy(alloc)?,
        kind: entry.assertion.kind,
        citers,
    })
}

/// The lines of all assertions, in the order of their places.
fn lines_by_place(
    alloc: Global,
    entries: &[Option<Ranked>],
    counts: &[u64],
) -> Result<Vec<Line>, AllocError>
    requires { AreCounted entries.now counts.now }
    ensures { IfOk result (λ made. made.items ≡ map (listing_line (living entries.now)) (living entries.now)) }
{
    let mut lines = Vec::new(alloc);
    for (place, entry) in entries.iter().enumerate() {
        if let Some(entry) = entry {
            lines.push(line_of(alloc, entry, counts[place])?)?;
        }
    }
    Ok(lines)
}

/// The order of two lines: by rank, then by the bytes of the label.
fn compare(a: &Line, b: &Line) -> Ordering
    ensures { result ≡ line_cmp a.now b.now }
{
    a.rank.cmp(&b.rank).then_with(|| a.label.cmp(&b.label))
}

/// The lines of all assertions, in export order. But for the sort, the time is about that of reading every proof.
///
/// # Errors
///
/// Want of memory.
pub fn list_lines(
    alloc: Global,
    entries: &[Option<Ranked>],
    places: &Places,
) -> Result<Sequence<Line>, AllocError>
    requires { IsIndex places.now entries.now }
    ensures { IfOk result (λ lines. lines ≡ map (listing_line (living entries.now)) (in_export_order (living entries.now))) }
{
    let counts = count_by_place(alloc, entries, places)?;
    let mut lines = lines_by_place(alloc, entries, counts.as_slice())?;
    lines.sort_unstable_by(compare);
    Ok(Sequence::from_vec(lines))
}
