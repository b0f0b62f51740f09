//! Gives an assertion another rank.

ghost use Rattle.std.specs.Prelude.{◌≡◌, ◌<◌, true, IfOk, IfErr};
ghost use Rattle.library.specs.declared.command.Command.TheVariants as command;
ghost use Rattle.cells.specs.Sight.{IsCaused, Onward, Looks, ReadsWithin};
ghost use Rattle.cells.specs.Answers.{CommandAnswers};
ghost use Rattle.moves.specs.Citers.{TellsCitesUpTo, TellsCitedUpTo};
ghost use Rattle.cells.specs.Footprints.{ReadsWhere};
ghost use Rattle.cells.specs.Lookups.{ForEachHeld};
ghost use Rattle.groundwork.specs.Footprints.{IsOfRanks, IsOfRise, ReadsFor};
ghost use Rattle.groundwork.specs.Takes.{TakesBodies};
ghost use Rattle.groundwork.specs.Touches.{KeepsTo};

use bodystore::StoredStep;
use cells::{Cells, CommandError, Halt, citers, put, rank, rank_cell, slot_count, stored_proof};
use groundwork::{cites_not_below, known_slot};
use library::{Reason, Reply};
use mmsyntax::Label;
use std::alloc::Global;

/// Gives the assertion with the label another rank. It stages nothing.
///
/// # Errors
///
/// It is refused: nothing was kept aside or staged. The run halts.
pub fn move_to<C: Cells>(
    alloc: Global,
    cells: &mut C,
    label: &Label,
    rank: u32,
) -> Result<Reply, CommandError>
    requires { (C.sight cells.old).may_write ≡ true }
    ensures onward { Onward (C.sight cells.old) (C.sight cells.new) }
    ensures answers { CommandAnswers (C.sight cells.old) (C.sight cells.new) (command.Move label.now rank) result }
    ensures taken { TakesBodies (command.Move label.now rank) (C.sight cells.old) (C.sight cells.new) }
    ensures keeps { IfOk result (λ _. KeepsTo (C.sight cells.old) (C.sight cells.new) (command.Move label.now rank)) }
    ensures reads { ReadsFor (C.sight cells.old) (C.sight cells.new) (command.Move label.now rank) }
{
    let slot = known_slot(cells, label)?;
    if rank == 0 {
        return Err(Reason::BadRank.into());
    }
    let kept = stored_proof(alloc, cells, slot)?;
    if cites_not_below(alloc, cells, rank, kept.as_slice())? {
        return Err(Reason::CitedNotLower.into());
    }
    if is_cited_up_to(alloc, cells, slot, rank)? {
        return Err(Reason::CiterNotHigher.into());
    }
    put(cells, rank_cell(slot), rank as u64)?;
    Ok(Reply::Done)
}

/// Whether an assertion that cites the one in the slot isn't above a rank.
///
/// Its citers are above its own rank. So nothing is looked at where the new rank isn't, or where there is no citer; else the ranks of all
/// slots, and the proofs of those between the two ranks.
fn is_cited_up_to<C: Cells>(
    alloc: Global,
    cells: &mut C,
    slot: usize,
    limit: u32,
) -> Result<bool, Halt>
    requires { slot < (C.sight cells.old).setting.slots }
    ensures looks { Looks (C.sight cells.old) (C.sight cells.new) }
    ensures ok { IfOk result (λ b. TellsCitedUpTo (C.sight cells.new) slot limit b) }
    ensures halts { IfErr result (IsCaused (C.sight cells.new)) }
    ensures reads { ForEachHeld (C.sight cells.new) slot
        (λ st lib e. ReadsWithin (IsOfRise (C.sight cells.old).setting.slots st lib slot e limit) (C.sight cells.old) (C.sight cells.new)) }
{
    let current = rank(cells, slot)?;
    if limit <= current || citers(cells, slot)? == 0 {
        return Ok(false);
    }
    for other in 0..slot_count(cells) {
        if cites_up_to(alloc, cells, other, slot, current, limit)? {
            return Ok(true);
        }
    }
    Ok(false)
}

/// Whether the assertion in the one slot cites that in the other, of the rank `low`, and isn't above the rank `high`.
///
/// What cites is above what it cites. So its proof is looked at only where its rank is above the one and not above the other.
fn cites_up_to<C: Cells>(
    alloc: Global,
    cells: &mut C,
    citing: usize,
    cited: usize,
    low: u32,
    high: u32,
) -> Result<bool, Halt>
    requires citing { citing < (C.sight cells.old).setting.slots }
    requires cited { cited < (C.sight cells.old).setting.slots }
    requires low { ForEachHeld (C.sight cells.old) cited (λ st lib e. low ≡ e.rank) }
    ensures looks { Looks (C.sight cells.old) (C.sight cells.new) }
    ensures ok { IfOk result (λ b. TellsCitesUpTo (C.sight cells.new) citing cited high b) }
    ensures halts { IfErr result (IsCaused (C.sight cells.new)) }
    ensures reads { ReadsWhere (IsOfRanks (C.sight cells.old).setting.slots low high) (C.sight cells.old) (C.sight cells.new) }
{
    // That of an empty slot is 0.
    let rank = cells.read(rank_cell(citing))?;
    if rank <= low as u64 || rank > high as u64 {
        return Ok(false);
    }
    let kept = stored_proof(alloc, cells, citing)?;
    Ok(kept.contains(&StoredStep::Slot(cited as u32)))
}
