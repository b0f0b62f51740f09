//! What was claimed, in the end.

ghost use Rattle.std.specs.Prelude.{◌≡◌, All, length};
ghost use Rattle.claims.specs.Claims.{IsClaimantOf, AreClaimed};
ghost use Rattle.claims.specs.Rule.{gathered};

use crate::claimant::Claimant;
use crate::numbers::Numbers;
use crate::plays::Gather;
use crate::rule::TableSeat;

impl Numbers {
    /// Takes the numbers back from all claimants: each was claimed once, and all were where a claimant was told so. Contracts alone see it.
    pub fn close(self, claimants: Vec<Claimant>)
        requires own { All (IsClaimantOf self) claimants.items }
        requires all { length claimants.items ≡ self.claimants }
        ensures { AreClaimed self claimants.items }
    {
        let mut claimants = claimants;
        let Some(last) = claimants.pop() else {
            return;
        };
        let Claimant { mut seat, ended: _ } = last;
        gather_all(&self, &mut seat, &mut claimants);
        let Numbers { table, count: _ } = self;
        table.close_with(seat).free();
    }
}

/// Gives what all these claimants have to the one of this seat, the last of them first.
fn gather_all(numbers: &Numbers, seat: &mut TableSeat, claimants: &mut Vec<Claimant>)
    requires table { seat.old.table_id ≡ numbers.now.table }
    requires own { All (IsClaimantOf numbers.now) claimants.old.items }
    ensures same { (seat.new.table_id ≡ seat.old.table_id) × (seat.new.id ≡ seat.old.id) }
    ensures me { seat.new.me ≡ gathered seat.old.me claimants.old.items }
{
    while let Some(claimant) = claimants.pop() {
        let Claimant {
            seat: other,
            ended: _,
        } = claimant;
        numbers.table.shared.join_seat::<Gather>(seat, other);
    }
}
