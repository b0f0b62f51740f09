//! The rule of the table.
#![tactic(auto)]

use crate::law::Law;
use crate::view::View;
use atomic_table::{Seat, Shared, Table, TableRule};
use std::alloc::Global;
use std::marker::PhantomData;
use std::snapshot::Snapshot;

/// What the table is told once: the setting, the opening values of the cells, the store's opening words, how many words it
/// has room for, and how many sessions there are.
pub(crate) struct Opening<S> {
    pub(crate) setting: Snapshot<S>,
    pub(crate) values: Snapshot<Vec<u64>>,
    pub(crate) store: Snapshot<Vec<u64>>,
    pub(crate) room: usize,
    pub(crate) sessions: usize,
}

impl<S> Drop for Opening<S> {
    fn drop(self) {
        let Opening {
            setting: _,
            values: _,
            store: _,
            room: _,
            sessions: _,
        } = self;
    }
}

/// Names the rule: there is a world of the machine that meets its invariant, and a store whose finished ranges never change, and the words
/// and the views are theirs.
pub(crate) struct Rule<L> {
    law: PhantomData<L>,
}

impl<L: Law> TableRule<(), View<L::Setting, L::Note>, Opening<L::Setting>> for Rule<L> {
    ghost use Rattle.ranges.specs.Ranges.{ranges_named};
    ghost use Rattle.tlwords.specs.Rule.{IsRuled, first_view};

    ghost holds = { IsRuled L.terms };

    ghost first = { λ key. first_view key.setting.value key.values.value.items key.room
        (ranges_named (L.terms.ranged key.setting.value) key.store.value.items key.values.value.items) key.sessions };
}

/// The words that all passes share.
pub(crate) type Ground<L> = Shared<
    (),
    View<<L as Law>::Setting, <L as Law>::Note>,
    Opening<<L as Law>::Setting>,
    Rule<L>,
>;

/// The table that has them.
pub(crate) type Board<L> = Table<
    (),
    View<<L as Law>::Setting, <L as Law>::Note>,
    Opening<<L as Law>::Setting>,
    Rule<L>,
    Global,
>;

/// A seat at the table.
pub(crate) type TableSeat<L> = Seat<(), View<<L as Law>::Setting, <L as Law>::Note>>;
