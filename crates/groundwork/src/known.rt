//! Looks for a label that some assertion is to have.

ghost use Rattle.std.specs.Prelude.{Some, IfOk, IfErr};
ghost use Rattle.cells.specs.Sight.{Looks};
ghost use Rattle.cells.specs.Lookups.{Finds};
ghost use Rattle.cells.specs.Footprints.{ReadsWhere, IsOfLook};
ghost use Rattle.groundwork.specs.Known.{TellsUnknown};

use cells::{Cells, CommandError, find};
use library::Reason;
use mmsyntax::Label;

/// The slot of the assertion that has the label.
///
/// # Errors
///
/// No assertion has it. The run halts.
pub fn known_slot<C: Cells>(cells: &mut C, label: &Label) -> Result<usize, CommandError>
    ensures looks { Looks (C.sight cells.old) (C.sight cells.new) }
    ensures ok { IfOk result (λ slot. Finds (C.sight cells.new) label.now (Some slot)) }
    ensures err { IfErr result (λ error. TellsUnknown (C.sight cells.new) label.now error) }
    ensures reads { ReadsWhere (IsOfLook (C.sight cells.old).setting.slots label.now) (C.sight cells.old) (C.sight cells.new) }
{
    let Some(slot) = find(cells, label.as_slice())? else {
        return Err(Reason::UnknownLabel.into());
    };
    Ok(slot)
}
