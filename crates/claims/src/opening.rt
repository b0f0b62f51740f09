//! Deals numbers out.

ghost use Rattle.std.specs.Prelude.{◌≡◌, ◌+◌, ◌<◌, ◌^◌, All, IfOk, length};
ghost use Rattle.claims.specs.Claims.{IsNewOf};
ghost use Rattle.claims.specs.Rule.{dealer};

use crate::claimant::Claimant;
use crate::numbers::Numbers;
use crate::plays::Deal;
use crate::rule::{Sizes, TableSeat};
use atomic_table::Table;
use std::alloc::{AllocError, Global};

impl Numbers {
    /// The numbers from 0 up to this count, and so many claimants, who have claimed none.
    ///
    /// # Errors
    ///
    /// Want of memory.
    pub fn open(
        alloc: Global,
        count: usize,
        claimants: usize,
    ) -> Result<(Numbers, Vec<Claimant>), AllocError>
        requires { count + claimants < 2 ^ 64 }
        ensures sizes { IfOk result (λ made. (made.0.count ≡ count) × (made.0.claimants ≡ claimants) × (length made.1.items ≡ claimants)) }
        ensures new { IfOk result (λ made. All (IsNewOf made.0) made.1.items) }
    {
        let sizes = Sizes { count, claimants };
        let (table, mut seat) = Table::of_words(alloc, &[0], &sizes)?;
        let numbers = Numbers { table, count };
        let dealt = deal_all(alloc, &numbers, &mut seat, claimants)?;
        Ok((numbers, dealt))
    }
}

/// A claimant for each part of the first seat.
fn deal_all(
    alloc: Global,
    numbers: &Numbers,
    seat: &mut TableSeat,
    claimants: usize,
) -> Result<Vec<Claimant>, AllocError>
    requires table { seat.old.table_id ≡ numbers.now.table }
    requires first { seat.old.me ≡ dealer numbers.now.count claimants }
    ensures long { IfOk result (λ dealt. length dealt.items ≡ claimants) }
    ensures new { IfOk result (λ dealt. All (IsNewOf numbers.now) dealt.items) }
{
    let mut dealt = Vec::with_capacity(alloc, claimants)?;
    for _ in 0..claimants {
        dealt.push_reserved(Claimant {
            seat: numbers.table.shared.split_seat::<Deal>(seat),
            ended: false,
        });
    }
    Ok(dealt)
}
