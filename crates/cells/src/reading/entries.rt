//! Reads whole assertions back from slots, and what is counted of them.

ghost use Rattle.std.specs.Prelude.{◌≡◌, ◌<◌, ◌⊎◌, IfOk, IfErr};
ghost use Rattle.library.specs.Library.{label_of};
ghost use Rattle.library.specs.Edits.{citers};
ghost use Rattle.cells.specs.Sight.{IsCaused, Looks, ReadsWithin};
ghost use Rattle.cells.specs.Slots.{rank_cell, citers_cell};
ghost use Rattle.cells.specs.Footprints.{IsOfAssertion};
ghost use Rattle.cells.specs.Lookups.{ForEachHeld};

use crate::cells::Cells;
use crate::halt::Halt;
use crate::places::{citers_cell, rank_cell};
use crate::reading::proofs::proof;
use crate::reading::statements::statement;
use library::Ranked;
use mmsyntax::{Assertion, Label};
use std::alloc::Global;

/// How many assertions cite the one in the slot.
///
/// # Errors
///
/// The run halts. What was kept aside stays, here and below.
pub fn citers<C: Cells>(cells: &mut C, slot: usize) -> Result<u64, Halt>
    requires { slot < (C.sight cells.old).setting.slots }
    ensures looks { Looks (C.sight cells.old) (C.sight cells.new) }
    ensures ok { IfOk result (λ n. ForEachHeld (C.sight cells.new) slot (λ st lib e. n ≡ citers lib (label_of e))) }
    ensures halts { IfErr result (IsCaused (C.sight cells.new)) }
    ensures reads { ReadsWithin (λ c. c ≡ citers_cell slot) (C.sight cells.old) (C.sight cells.new) }
{
    cells.read(citers_cell(slot))
}

/// The rank of the assertion in the slot.
///
/// # Errors
///
/// The run halts.
pub fn rank<C: Cells>(cells: &mut C, slot: usize) -> Result<u32, Halt>
    requires { slot < (C.sight cells.old).setting.slots }
    ensures looks { Looks (C.sight cells.old) (C.sight cells.new) }
    ensures ok { IfOk result (λ n. ForEachHeld (C.sight cells.new) slot (λ st lib e. n ≡ e.rank)) }
    ensures halts { IfErr result (IsCaused (C.sight cells.new)) }
    ensures reads { ReadsWithin (λ c. c ≡ rank_cell slot) (C.sight cells.old) (C.sight cells.new) }
{
    Ok((cells.read(rank_cell(slot))? & 0xffff_ffff) as u32)
}

/// The assertion in the slot, whose label is known.
fn assertion<C: Cells>(
    alloc: Global,
    cells: &mut C,
    slot: usize,
    label: Label,
) -> Result<Assertion, Halt>
    requires slot { slot < (C.sight cells.old).setting.slots }
    requires label { ForEachHeld (C.sight cells.old) slot (λ st lib e. label ≡ label_of e) }
    ensures looks { Looks (C.sight cells.old) (C.sight cells.new) }
    ensures ok { IfOk result (λ made. ForEachHeld (C.sight cells.new) slot (λ st lib e. made ≡ e.assertion)) }
    ensures halts { IfErr result (IsCaused (C.sight cells.new)) }
    ensures reads { ForEachHeld (C.sight cells.new) slot (λ st lib e.
        ReadsWithin (IsOfAssertion (C.sight cells.old).setting.slots slot e.assertion.proof st) (C.sight cells.old) (C.sight cells.new)) }
{
    let statement = statement(alloc, cells, slot)?;
    let proof = proof(alloc, cells, slot)?;
    Ok(statement.into_assertion(label, proof))
}

/// The assertion in the slot, whose label is known, with its rank.
pub fn entry<C: Cells>(
    alloc: Global,
    cells: &mut C,
    slot: usize,
    label: Label,
) -> Result<Ranked, Halt>
    requires slot { slot < (C.sight cells.old).setting.slots }
    requires label { ForEachHeld (C.sight cells.old) slot (λ st lib e. label ≡ label_of e) }
    ensures looks { Looks (C.sight cells.old) (C.sight cells.new) }
    ensures ok { IfOk result (λ made. ForEachHeld (C.sight cells.new) slot (λ st lib e. made ≡ e)) }
    ensures halts { IfErr result (IsCaused (C.sight cells.new)) }
    ensures reads { ForEachHeld (C.sight cells.new) slot (λ st lib e.
        ReadsWithin (λ c. (c ≡ rank_cell slot) ⊎ IsOfAssertion (C.sight cells.old).setting.slots slot e.assertion.proof st c)
        (C.sight cells.old) (C.sight cells.new)) }
{
    let rank = rank(cells, slot)?;
    let assertion = assertion(alloc, cells, slot, label)?;
    Ok(Ranked { rank, assertion })
}
