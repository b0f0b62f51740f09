//! The records of sessions, in the order of their numbers.

ghost use Rattle.std.specs.Prelude.{◌≡◌, None, Some, IfOk, map, replicate};
ghost use Rattle.library.specs.Histories.{seen_entry};
ghost use Rattle.transaction.specs.Members.{entry_recorded};
ghost use Rattle.transaction.specs.Closings.{lists_of};
ghost use Rattle.finishing.specs.Ordering.{AreOrdered, ArePut, IsFirstMissing, IsFirstHeld};

use library::{Entry, History};
use mmsyntax::Sequence;
use std::alloc::{AllocError, Global};
use tlwords::ClosedCell;
use transaction::Record;

/// What a record says that the entry of its number is.
fn entry_of(kept: Record) -> Entry
    ensures { seen_entry result ≡ entry_recorded kept.done }
{
    match kept.done {
        None => Entry::Void,
        Some((commands, replies)) => Entry::Done { commands, replies },
    }
}

/// The entries of the first `clock` numbers that the records tell, each at its place: none for a number without a record.
pub(crate) fn in_order(
    alloc: Global,
    clock: u64,
    records: Vec<Vec<Record>>,
) -> Result<Vec<Option<Entry>>, AllocError>
    ensures { IfOk result (λ made. AreOrdered clock (lists_of records.items) made.items) }
{
    let mut entries = none_yet(alloc, clock)?;
    for own in records {
        put_all(&mut entries, own);
    }
    Ok(entries)
}

/// So many places without an entry.
fn none_yet(alloc: Global, count: u64) -> Result<Vec<Option<Entry>>, AllocError>
    ensures { IfOk result (λ made. made.items ≡ replicate count None) }
{
    let mut entries = Vec::new(alloc);
    for _ in 0..count {
        entries.push(None)?;
    }
    Ok(entries)
}

/// Puts the entry of each record at its place, if it has one.
fn put_all(entries: &mut Vec<Option<Entry>>, records: Vec<Record>)
    ensures { ArePut records.items entries.old.items entries.new.items }
{
    for record in records {
        let number = record.number;
        let entry = entry_of(record);
        if number >= 1 && number <= entries.len() as u64 {
            entries[number as usize - 1] = Some(entry);
        }
    }
}

/// The first place without an entry, from 0.
pub(crate) fn first_missing(entries: &[Option<Entry>]) -> Option<usize>
    ensures { IsFirstMissing entries.now result }
{
    entries.iter().position(|entry| entry.is_none())
}

/// The first cell whose lock is held, from 0.
pub(crate) fn first_held(cells: &[ClosedCell]) -> Option<usize>
    ensures { IsFirstHeld cells.now result }
{
    cells.iter().position(|cell| cell.lock % 2 == 1)
}

/// All the entries, of which none is missing.
pub(crate) fn whole(alloc: Global, entries: Vec<Option<Entry>>) -> Result<History, AllocError>
    requires { IsFirstMissing entries.items None }
    ensures { IfOk result (λ history. map Some history ≡ entries.items) }
{
    let mut history = Vec::with_capacity(alloc, entries.len())?;
    for entry in entries {
        let Some(entry) = entry else { unreachable!() };
        history.push_reserved(entry);
    }
    Ok(Sequence::from_vec(history))
}
