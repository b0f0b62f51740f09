//! Tests the label that an assertion gets.

ghost use Rattle.std.specs.Prelude.{◌≡◌, OnOk, IfErr};
ghost use Rattle.cells.specs.Sight.{Looks};
ghost use Rattle.cells.specs.Footprints.{ReadsWhere};
ghost use Rattle.groundwork.specs.Footprints.{IsOfNewLabel};
ghost use Rattle.newlabels.specs.Naming.{PassesAsNew, TellsNotNew};

use cells::{Availability, Cells, CommandError, availability_of};
use library::Reason;
use mmsyntax::{Prelude, is_lawful_label};

/// Tests the label that a new assertion gets, or one gets in place of the label `own`; for a new one `own` is the label itself. It walks
/// along at most three chains, each once: that of the label, and the two with labels that may clash with it.
///
/// # Errors
///
/// In this order: no assertion may have the label; one has it; it clashes with that of one whose label isn't `own`. Or the run halts.
pub(crate) fn test_new_label<C: Cells>(
    prelude: &Prelude,
    cells: &mut C,
    own: &[u8],
    label: &[u8],
) -> Result<(), CommandError>
    requires { prelude.now ≡ (C.sight cells.old).setting.prelude }
    ensures looks { Looks (C.sight cells.old) (C.sight cells.new) }
    ensures ok { OnOk result (PassesAsNew (C.sight cells.new) own.now label.now) }
    ensures err { IfErr result (λ error. TellsNotNew (C.sight cells.new) own.now label.now error) }
    ensures reads { ReadsWhere (IsOfNewLabel (C.sight cells.old).setting.slots own.now label.now) (C.sight cells.old) (C.sight cells.new) }
{
    if !is_lawful_label(prelude, label) {
        return Err(Reason::BadLabel.into());
    }
    match availability_of(cells, own, label)? {
        Availability::Taken => Err(Reason::LabelTaken.into()),
        Availability::Clashing => Err(Reason::LabelClashes.into()),
        Availability::Free => Ok(()),
    }
}
