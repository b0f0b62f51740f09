//! Who may cite whom: for each place, the places whose proof may cite the assertion there.

ghost use Rattle.std.specs.Prelude.{◌≡◌, ◌∷◌, [], ℕ, length, Contains, IfOk, OnOk};
ghost use Rattle.std.specs.List.Sorted.{IsStrictlyIncreasing};
ghost use Rattle.mmsyntax.specs.declared.statement.Step.TheVariants.{Cite};
ghost use Rattle.catalog.specs.Places.{IsIndex};
ghost use Rattle.catalog.specs.Citers.{EachAscends, AreEntered, Covers, KeepsCiters};

use crate::places::{Places, find_label};
use library::Ranked;
use mmsyntax::Proof;
use std::alloc::{AllocError, Global};

/// For each place, the places whose proof may cite the assertion there, in ascending order.
///
/// Places whose proof doesn't cite it any more may stand there too, so each use looks at the proof.
pub type Citers = Vec<Vec<usize>>;

/// Puts a place into an ascending list, unless it stands there.
///
/// # Errors
///
/// Want of memory.
pub fn enter(list: &mut Vec<usize>, place: usize) -> Result<(), AllocError>
    requires { IsStrictlyIncreasing list.old.items }
    ensures ascending { IsStrictlyIncreasing list.new.items }
    ensures kept { (q : ℕ) → Contains list.old.items q → Contains list.new.items q }
    ensures entered { OnOk result (Contains list.new.items place) }
{
    if list.last() == Some(&place) {
        return Ok(());
    }
    let at = list.partition_point(|citer| *citer < place);
    if list.get(at) == Some(&place) {
        return Ok(());
    }
    list.insert(at, place)?;
    Ok(())
}

/// Puts a place into the list of the assertion with a label, if one has it.
fn enter_label(
    entries: &[Option<Ranked>],
    places: &Places,
    citers: &mut [Vec<usize>],
    label: &[u8],
    place: usize,
) -> Result<(), AllocError>
    requires indexed { IsIndex places.now entries.now }
    requires long { length citers.old ≡ length entries.now }
    requires ascending { EachAscends citers.old }
    ensures ascending { EachAscends citers.new }
    ensures kept { KeepsCiters citers.old citers.new }
    ensures entered { OnOk result (AreEntered citers.new entries.now (Cite label.now ∷ []) place) }
{
    let Some(cited) = find_label(entries, places, label) else {
        return Ok(());
    };
    enter(&mut citers[cited], place)
}

/// Puts a place into the list of each assertion that some steps cite: one look-up for each label that they list. After an error it stands
/// in some of them.
///
/// # Errors
///
/// Want of memory.
pub fn enter_citer(
    entries: &[Option<Ranked>],
    places: &Places,
    citers: &mut [Vec<usize>],
    steps: &Proof,
    place: usize,
) -> Result<(), AllocError>
    requires indexed { IsIndex places.now entries.now }
    requires long { length citers.old ≡ length entries.now }
    requires ascending { EachAscends citers.old }
    ensures long { length citers.new ≡ length citers.old }
    ensures ascending { EachAscends citers.new }
    ensures kept { KeepsCiters citers.old citers.new }
    ensures entered { OnOk result (AreEntered citers.new entries.now steps.now place) }
{
    let labels = steps.cited();
    for label in labels {
        enter_label(entries, places, citers, label.as_slice(), place)?;
    }
    Ok(())
}

/// So many empty lists.
fn empty_lists(alloc: Global, count: usize) -> Result<Citers, AllocError>
    ensures long { IfOk result (λ made. length made.items ≡ count) }
    ensures ascending { IfOk result (λ made. EachAscends made.items) }
{
    let mut citers = Vec::with_capacity(alloc, count)?;
    for _ in 0..count {
        citers.push(Vec::new(alloc))?;
    }
    Ok(citers)
}

/// The lists of the assertions at their places: one look-up for each label that a proof lists.
///
/// # Errors
///
/// Want of memory.
pub fn open_citers(
    alloc: Global,
    entries: &[Option<Ranked>],
    places: &Places,
) -> Result<Citers, AllocError>
    requires { IsIndex places.now entries.now }
    ensures long { IfOk result (λ made. length made.items ≡ length entries.now) }
    ensures ascending { IfOk result (λ made. EachAscends made.items) }
    ensures covered { IfOk result (λ made. Covers made.items entries.now) }
{
    let mut citers = empty_lists(alloc, entries.len())?;
    for (place, entry) in entries.iter().enumerate() {
        if let Some(entry) = entry {
            let steps = &entry.assertion.proof;
            enter_citer(entries, places, citers.as_mut_slice(), steps, place)?;
        }
    }
    Ok(citers)
}
