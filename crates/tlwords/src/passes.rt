//! Passes: a seat at the table, and what it keeps of the cells.
#![tactic(auto)]

ghost use Rattle.std.specs.Prelude.{◌≡◌};
ghost use Rattle.tlwords.specs.Known.{known_of};
ghost use Rattle.tlwords.specs.Runs.{Rests};

use crate::law::Law;
use crate::log::Log;
use crate::rule::TableSeat;
use std::marker::Model;

/// What a session runs its transactions with, one after another. Contracts see what it knows: what it has seen, its calls, and the numbers
/// that it drew.
pub struct Pass<L: Law> {
    pub(crate) seat: TableSeat<L>,
    pub(crate) log: Log,
    pub(crate) count: u64,
    pub(crate) full: bool,
}

impl<L: Law> Model for Pass<L> {
    ghost use Rattle.tlwords.specs.Known.{Known, known_of};
    ghost use Rattle.tlwords.specs.Runs.{Rests};

    ghost Value = { Known L.Setting L.Note };

    ghost view = { λ a. known_of a.seat.table_id a.seat.me.0 };

    ghost invariant = { λ a. Rests a.seat a.log.slots a.count a.full };
}

impl<L: Law> Drop for Pass<L> {
    fn drop(self) {
        let Pass {
            seat: _,
            log: _,
            count: _,
            full: _,
        } = self;
    }
}

impl<L: Law> Pass<L> {
    pub(crate) fn into_parts(self) -> (TableSeat<L>, Log, u64, bool)
        ensures known { known_of result.0.table_id result.0.me.0 ≡ self }
        ensures rests { Rests result.0 result.1.slots result.2 result.3 }
    {
        let Pass {
            seat,
            log,
            count,
            full,
        } = self;
        (seat, log, count, full)
    }
}
