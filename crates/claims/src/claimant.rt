//! Claims numbers.

ghost use Rattle.std.specs.Prelude.{◌≡◌, IfNone, IfSome};
ghost use Rattle.claims.specs.Claims.{IsClaimantOf, Claims, Ends};

use crate::numbers::Numbers;
use crate::plays::Claim;
use crate::rule::TableSeat;
use std::marker::Model;

/// One of those who claim numbers. Contracts see the table, the count, the numbers that it claimed, and whether it was told that there are
/// no more.
#[derive(Drop)]
pub struct Claimant {
    pub(crate) seat: TableSeat,
    pub(crate) ended: bool,
}

impl Model for Claimant {
    ghost use Rattle.claims.specs.Claims.{Claimant as Shown};
    ghost use Rattle.claims.specs.Rule.{shown, SitsWith};

    ghost Value = { Shown };

    ghost view = { λ c. shown c.seat.table_id c.seat.me.0 c.ended };

    ghost invariant = { λ c. SitsWith c.seat.me c.ended };
}

impl Claimant {
    /// The next number that nobody has claimed; none when all are claimed, and from then on.
    pub fn claim(&mut self, numbers: &Numbers) -> Option<usize>
        requires { IsClaimantOf numbers.now self.old }
        ensures some { IfSome result (λ n. Claims numbers.now n self.old self.new) }
        ensures none { IfNone result (Ends self.old self.new) }
    {
        if self.ended {
            return None;
        }
        let number = numbers
            .table
            .shared
            .fetch_add::<Claim>(&mut self.seat, 0, 1) as usize;
        self.ended = number >= numbers.count;
        if self.ended { None } else { Some(number) }
    }
}
