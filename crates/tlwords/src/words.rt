//! The shared words.
#![tactic(auto)]

ghost use Rattle.std.specs.Prelude.{◌≡◌, ◌+◌, ◌*◌, ◌%◌, ◌^◌, ◌<◌, ◌≤◌, length, ◌==◌};
ghost use mathlib.Core.Option.{none};
ghost use prog.Atomic.{either};
ghost use Rattle.atomic_table.specs.Table.{Allows, step};
ghost use Rattle.tlwords.specs.Layout.{store_at};
ghost use Rattle.tlwords.specs.Rule.{IsRuled};

use crate::law::Law;
use crate::rule::{Board, TableSeat};
use crate::view::View;
use atomic_table::Play;

/// The shared words of a memory, in a table.
pub struct Words<L: Law> {
    pub(crate) table: Board<L>,
    pub(crate) cells: usize,
    /// How many words the store has.
    pub(crate) room: usize,
    pub ghost sized: { table.shared.table_id.words ≡ store_at cells room },
    pub ghost empty: { table.shared.table_id.slots ≡ 0 },
    pub ghost small: { (cells < 2 ^ 32) × (room ≤ 2 ^ 24) },
    pub ghost keyed: { table.shared.key.room ≡ room },
    pub ghost counted: { cells ≡ length table.shared.key.values.value.items },
    pub ghost dealt: { 1 ≤ table.shared.key.sessions },
}

impl<L: Law> Drop for Words<L> {
    fn drop(self) {
        let Words {
            table: _,
            cells: _,
            room: _,
        } = self;
    }
}

impl<L: Law> Words<L> {
    /// The number of cells.
    pub fn cells(&self) -> usize
        ensures { result ≡ self.now.cells }
    {
        self.cells
    }

    /// The number of words that the store has, taken or not.
    pub fn room(&self) -> usize
        ensures { result ≡ self.now.room }
    {
        self.room
    }

    /// A load of the word at this index, as a step that tells what `M` says.
    pub(crate) fn load<M: Play<(), View<L::Setting, L::Note>>>(
        &self,
        seat: &mut TableSeat<L>,
        index: usize,
    ) -> u64
        requires table { seat.old.table_id ≡ self.now.table.shared.table_id }
        requires index { index < store_at self.now.cells self.now.room }
        requires rule { Allows (IsRuled L.terms self.now.table.shared.key) self.now.table.shared.table_id.slots seat.old.id seat.old.me
            index (λ n. n) (M.then (step self.now.table.shared.table_id.slots index 0 0 none) seat.old.me) }
        ensures seat { (seat.new.table_id ≡ seat.old.table_id) × (seat.new.id ≡ seat.old.id) }
        ensures told { M.then (step self.now.table.shared.table_id.slots index 0 0 none) seat.old.me result seat.new.me }
    {
        self.table.shared.load::<M>(seat, index)
    }

    /// A store to the word at this index, as such a step.
    pub(crate) fn store<M: Play<(), View<L::Setting, L::Note>>>(
        &self,
        seat: &mut TableSeat<L>,
        index: usize,
        new: u64,
    )
        requires table { seat.old.table_id ≡ self.now.table.shared.table_id }
        requires index { index < store_at self.now.cells self.now.room }
        requires rule { Allows (IsRuled L.terms self.now.table.shared.key) self.now.table.shared.table_id.slots seat.old.id seat.old.me
            index (λ _. new) (λ _. M.then (step self.now.table.shared.table_id.slots index new 0 none) seat.old.me new) }
        ensures seat { (seat.new.table_id ≡ seat.old.table_id) × (seat.new.id ≡ seat.old.id) }
        ensures told { M.then (step self.now.table.shared.table_id.slots index new 0 none) seat.old.me new seat.new.me }
    {
        self.table.shared.store::<M>(seat, index, new)
    }

    /// A fetch-and-add to the word at this index, as such a step.
    pub(crate) fn fetch_add<M: Play<(), View<L::Setting, L::Note>>>(
        &self,
        seat: &mut TableSeat<L>,
        index: usize,
        count: u64,
    ) -> u64
        requires table { seat.old.table_id ≡ self.now.table.shared.table_id }
        requires index { index < store_at self.now.cells self.now.room }
        requires rule { Allows (IsRuled L.terms self.now.table.shared.key) self.now.table.shared.table_id.slots seat.old.id seat.old.me
            index (λ n. (n + count) % 2 ^ 64) (M.then (step self.now.table.shared.table_id.slots index count 0 none) seat.old.me) }
        ensures seat { (seat.new.table_id ≡ seat.old.table_id) × (seat.new.id ≡ seat.old.id) }
        ensures told { M.then (step self.now.table.shared.table_id.slots index count 0 none) seat.old.me result seat.new.me }
    {
        self.table.shared.fetch_add::<M>(seat, index, count)
    }

    /// One try to have `new` in place of `old` in the word at this index, as such a step.
    pub(crate) fn compare_exchange<M: Play<(), View<L::Setting, L::Note>>>(
        &self,
        seat: &mut TableSeat<L>,
        index: usize,
        old: u64,
        new: u64,
    ) -> u64
        requires table { seat.old.table_id ≡ self.now.table.shared.table_id }
        requires index { index < store_at self.now.cells self.now.room }
        requires rule { Allows (IsRuled L.terms self.now.table.shared.key) self.now.table.shared.table_id.slots seat.old.id seat.old.me
            index (λ n. either (n == old) new n) (M.then (step self.now.table.shared.table_id.slots index old new none) seat.old.me) }
        ensures seat { (seat.new.table_id ≡ seat.old.table_id) × (seat.new.id ≡ seat.old.id) }
        ensures told { M.then (step self.now.table.shared.table_id.slots index old new none) seat.old.me result seat.new.me }
    {
        self.table
            .shared
            .compare_exchange::<M>(seat, index, old, new)
    }

    pub(crate) fn into_table(self) -> Board<L>
        ensures { result ≡ self.table }
    {
        let Words {
            table,
            cells: _,
            room: _,
        } = self;
        table
    }
}
