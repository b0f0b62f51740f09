//! Looks at a whole library.

ghost use Rattle.std.specs.Prelude.{IfOk, IfErr};
ghost use Rattle.cells.specs.Sight.{IsCaused, Looks};
ghost use Rattle.shows.specs.Looking.{AreEntries};

use cells::{Cells, Halt, entry, label, slot_count};
use library::Ranked;
use std::alloc::Global;

/// All assertions of the library with their ranks, by slot. It reads every slot, and the names of those that their proofs cite.
///
/// # Errors
///
/// The run halts. What was kept aside stays.
pub fn entries<C: Cells>(alloc: Global, cells: &mut C) -> Result<Vec<Ranked>, Halt>
    ensures looks { Looks (C.sight cells.old) (C.sight cells.new) }
    ensures ok { IfOk result (λ made. AreEntries (C.sight cells.new) made.items) }
    ensures halts { IfErr result (IsCaused (C.sight cells.new)) }
{
    let mut entries = Vec::new(alloc);
    for slot in 0..slot_count(cells) {
        if let Some(label) = label(alloc, cells, slot)? {
            entries.push(entry(alloc, cells, slot, label)?)?;
        }
    }
    Ok(entries)
}
