//! Numbers that are claimed.

ghost use Rattle.std.specs.Prelude.{◌≡◌, ◌+◌, ◌<◌, ◌^◌};

use crate::rule::Board;
use std::marker::Model;

/// The numbers from 0 up to a count, which claimants share. Contracts see the table that they lie in, the count, and how many claimants
/// there are.
#[derive(Drop)]
pub struct Numbers {
    pub(crate) table: Board,
    pub(crate) count: usize,
}

impl Model for Numbers {
    ghost use Rattle.claims.specs.Claims.{Counting};
    ghost use Rattle.claims.specs.Rule.{AreLaid, home_of};

    ghost Value = { Counting };

    ghost view = { λ n. home_of n.table.shared.table_id n.table.shared.key };

    ghost invariant = { λ n. AreLaid n.count n.table.shared.table_id n.table.shared.key };
}

impl Numbers {
    /// Up to which count there are numbers: the greatest is one less.
    pub fn count(&self) -> usize
        ensures { result ≡ self.now.count }
    {
        self.count
    }
}
