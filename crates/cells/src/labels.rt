//! How a label stands to those that a library has.

ghost use Rattle.std.specs.Prelude.{◌≡◌, ◌<◌, ◌⊎◌, ℕ, List, IfOk, IfErr};
ghost use Rattle.mmsyntax.specs.Dotted.{clash};
ghost use Rattle.cells.specs.Sight.{Sight, IsCaused, Looks, KnowsRange, ReadsWithin, ReadsNothing};
ghost use Rattle.cells.specs.Slots.{name_cell};
ghost use Rattle.cells.specs.Footprints.{ReadsWhere, IsAlong, IsOfLook, IsOfClash};
ghost use Rattle.cells.specs.Lookups.{TellsAvailability};
ghost use Rattle.cells.specs.Clashing.{TellsAvailabilityAt, TellsAvailabilityIn};

use crate::cells::Cells;
use crate::halt::Halt;
use crate::places::{bucket, bucket_cell, hash, link, name_cell, next_cell, slot_count};
use crate::words::{has_dotted, has_words, range_of};
use mmsyntax::trunk;
use ranges::Range;

/// How a label stands to those that a library has.
#[derive(Debug, Drop, Clone, Copy)]
pub enum Availability {
    /// No assertion has it, and it clashes with that of none.
    Free,
    /// An assertion has it.
    Taken,
    /// No assertion has it, and it clashes with that of one.
    Clashing,
}

/// How the label stands to those that the library has. Two labels clash where one is `L.k` of the other, for a k from 1 to 1,000. That the
/// label clashes with the label `own` counts for nothing.
///
/// It walks along at most three chains, each once: that of the label; and where the label is `L.k`, that in which the labels lie that are
/// `L.k` of this one, and that of L, unless L is `own`. It reads the cell of the bucket, and a name and a next cell for each member.
///
/// # Errors
///
/// The run halts. What was kept aside stays.
pub fn availability_of<C: Cells>(
    cells: &mut C,
    own: &[u8],
    label: &[u8],
) -> Result<Availability, Halt>
    ensures looks { Looks (C.sight cells.old) (C.sight cells.new) }
    ensures ok { IfOk result (λ standing. TellsAvailability (C.sight cells.new) own.now label.now standing) }
    ensures halts { IfErr result (IsCaused (C.sight cells.new)) }
    ensures reads { ReadsWhere (λ st c. IsOfLook (C.sight cells.old).setting.slots label.now st c
        ⊎ IsOfClash (C.sight cells.old).setting.slots own.now label.now st c) (C.sight cells.old) (C.sight cells.new) }
{
    let slots = slot_count(cells);
    let front = trunk(label);
    let first = bucket(label, slots);
    let met = availability_in(cells, first, own, label)?;
    let Availability::Free = met else {
        return Ok(met);
    };
    // The labels `L.k` of a label L that is no `L.k` itself lie in the bucket of L.
    if front == label {
        return Ok(met);
    }
    let met = availability_in(cells, hash(label, slots), own, label)?;
    let Availability::Free = met else {
        return Ok(met);
    };
    let last = bucket(front, slots);
    if front == own || last == first {
        return Ok(met);
    }
    availability_in(cells, last, own, label)
}

/// How the label stands to those in the chain of a bucket.
fn availability_in<C: Cells>(
    cells: &mut C,
    chain: usize,
    own: &[u8],
    label: &[u8],
) -> Result<Availability, Halt>
    requires { chain < (C.sight cells.old).setting.slots }
    ensures looks { Looks (C.sight cells.old) (C.sight cells.new) }
    ensures ok { IfOk result (λ standing. TellsAvailabilityIn (C.sight cells.new) chain own.now label.now standing) }
    ensures halts { IfErr result (IsCaused (C.sight cells.new)) }
    ensures reads { ReadsWhere (IsAlong (C.sight cells.old).setting.slots chain) (C.sight cells.old) (C.sight cells.new) }
{
    let slots = slot_count(cells);
    let mut word = cells.read(bucket_cell(slots, chain))?;
    for _ in 0..slots {
        let Some(slot) = link(word, slots) else {
            return Ok(Availability::Free);
        };
        let met = availability_at(cells, slot, own, label)?;
        let Availability::Free = met else {
            return Ok(met);
        };
        word = cells.read(next_cell(slots, slot))?;
    }
    Ok(Availability::Free)
}

/// How the label stands to that of a slot.
fn availability_at<C: Cells>(
    cells: &mut C,
    slot: usize,
    own: &[u8],
    label: &[u8],
) -> Result<Availability, Halt>
    requires { slot < (C.sight cells.old).setting.slots }
    ensures looks { Looks (C.sight cells.old) (C.sight cells.new) }
    ensures ok { IfOk result (λ standing. TellsAvailabilityAt (C.sight cells.new) slot own.now label.now standing) }
    ensures halts { IfErr result (IsCaused (C.sight cells.new)) }
    ensures reads { ReadsWithin (λ c. c ≡ name_cell slot) (C.sight cells.old) (C.sight cells.new) }
{
    let word = cells.read(name_cell(slot))?;
    if word == 0 || label.is_empty() {
        return Ok(Availability::Free);
    }
    let range = range_of(cells, word);
    if has_words(cells, range, label) {
        return Ok(Availability::Taken);
    }
    if !clashes(cells, range, label) {
        return Ok(Availability::Free);
    }
    if has_words(cells, range, own) {
        return Ok(Availability::Free);
    }
    Ok(Availability::Clashing)
}

/// Whether the label clashes with the words of the range.
fn clashes<C: Cells>(cells: &mut C, range: Range, label: &[u8]) -> bool
    requires { (words : List ℕ) × KnowsRange (C.sight cells.old) range words }
    ensures looks { Looks (C.sight cells.old) (C.sight cells.new) }
    ensures same { (words : List ℕ) → KnowsRange (C.sight cells.old) range words → result ≡ clash words label.now }
    ensures reads { ReadsNothing (C.sight cells.old) (C.sight cells.new) }
{
    let front = trunk(label);
    if front == label {
        return has_dotted(cells, range, label);
    }
    has_words(cells, range, front) || has_dotted(cells, range, label)
}
