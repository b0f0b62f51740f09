//! Shows an assertion, and lists all of them.

ghost use Rattle.std.specs.Prelude.{◌≡◌, ◌<◌, IfOk, IfErr};
ghost use Rattle.library.specs.Library.{label_of};
ghost use Rattle.library.specs.Edits.{line_cmp};
ghost use Rattle.cells.specs.Lookups.{ForEachHeld};
ghost use Rattle.library.specs.declared.command.Command.TheVariants as command;
ghost use Rattle.cells.specs.Sight.{IsCaused, Onward, Looks, ReadsWithin};
ghost use Rattle.cells.specs.Answers.{CommandAnswers};
ghost use Rattle.shows.specs.Listing.{TellsLine, AreAllLines};
ghost use Rattle.groundwork.specs.Takes.{TakesBodies};
ghost use Rattle.groundwork.specs.Footprints.{IsOfLine, ReadsFor};

use cells::{Cells, CommandError, Halt, citers, entry, kind, label, rank, slot_count};
use groundwork::known_slot;
use library::{Line, Ranked, Reply};
use mmsyntax::{Label, Sequence};
use std::alloc::Global;
use std::cmp::Ordering;

/// Shows the assertion with the label. It reads the label's chain, one slot, and the names of those that its proof cites.
///
/// # Errors
///
/// No assertion has the label. The run halts.
pub fn show<C: Cells>(alloc: Global, cells: &mut C, label: &Label) -> Result<Reply, CommandError>
    ensures onward { Onward (C.sight cells.old) (C.sight cells.new) }
    ensures answers { CommandAnswers (C.sight cells.old) (C.sight cells.new) (command.Show label.now) result }
    ensures taken { TakesBodies (command.Show label.now) (C.sight cells.old) (C.sight cells.new) }
    ensures reads { ReadsFor (C.sight cells.old) (C.sight cells.new) (command.Show label.now) }
{
    let slot = known_slot(cells, label)?;
    let shown = entry(alloc, cells, slot, label.copy(alloc)?)?;
    let citers = citers(cells, slot)?;
    let Ranked { rank, assertion } = shown;
    Ok(Reply::Shown {
        rank,
        citers,
        assertion,
    })
}

/// Lists all assertions, in export order. It reads no proof.
///
/// # Errors
///
/// The run halts.
pub fn list<C: Cells>(alloc: Global, cells: &mut C) -> Result<Reply, CommandError>
    ensures onward { Onward (C.sight cells.old) (C.sight cells.new) }
    ensures answers { CommandAnswers (C.sight cells.old) (C.sight cells.new) command.List result }
    ensures taken { TakesBodies command.List (C.sight cells.old) (C.sight cells.new) }
    ensures reads { ReadsFor (C.sight cells.old) (C.sight cells.new) command.List }
{
    let mut lines = all_lines(alloc, cells)?;
    lines.sort_unstable_by(compare);
    Ok(Reply::Listed(Sequence::from_vec(lines)))
}

/// The lines of all assertions, by slot.
fn all_lines<C: Cells>(alloc: Global, cells: &mut C) -> Result<Vec<Line>, Halt>
    ensures looks { Looks (C.sight cells.old) (C.sight cells.new) }
    ensures ok { IfOk result (λ made. AreAllLines (C.sight cells.new) made.items) }
    ensures halts { IfErr result (IsCaused (C.sight cells.new)) }
    ensures reads { ReadsFor (C.sight cells.old) (C.sight cells.new) command.List }
{
    let mut lines = Vec::new(alloc);
    for slot in 0..slot_count(cells) {
        if let Some(label) = label(alloc, cells, slot)? {
            lines.push(line(cells, slot, label)?)?;
        }
    }
    Ok(lines)
}

/// What is listed of the assertion in the slot, whose label is known.
fn line<C: Cells>(cells: &mut C, slot: usize, label: Label) -> Result<Line, Halt>
    requires slot { slot < (C.sight cells.old).setting.slots }
    requires label { ForEachHeld (C.sight cells.old) slot (λ st lib e. label ≡ label_of e) }
    ensures looks { Looks (C.sight cells.old) (C.sight cells.new) }
    ensures ok { IfOk result (λ made. TellsLine (C.sight cells.new) slot made) }
    ensures halts { IfErr result (IsCaused (C.sight cells.new)) }
    ensures reads { ReadsWithin (IsOfLine slot) (C.sight cells.old) (C.sight cells.new) }
{
    Ok(Line {
        rank: rank(cells, slot)?,
        label,
        kind: kind(cells, slot)?,
        citers: citers(cells, slot)?,
    })
}

/// The export order of two lines: by rank, then by the bytes of the label.
fn compare(a: &Line, b: &Line) -> Ordering
    ensures { result ≡ line_cmp a.now b.now }
{
    a.rank.cmp(&b.rank).then_with(|| a.label.cmp(&b.label))
}
