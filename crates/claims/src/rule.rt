//! The rule of the table.

use crate::view::View;
use atomic_table::{Seat, Table, TableRule};
use std::alloc::Global;

/// What the table is told once: up to which count there are numbers, and how many claimants there are.
#[derive(Clone, Copy)]
pub(crate) struct Sizes {
    pub(crate) count: usize,
    pub(crate) claimants: usize,
}

/// Names the rule: the numbers claimed are those from 0 on, each by one seat, and the word counts the claims.
pub(crate) struct Rule;

impl TableRule<(), View, Sizes> for Rule {
    ghost use Rattle.claims.specs.Rule.{Ruled, first_view};

    ghost holds = { λ key s. Ruled key.count key.claimants s };

    ghost first = { λ key. first_view key.count key.claimants };
}

/// The table with its one word.
pub(crate) type Board = Table<(), View, Sizes, Rule, Global>;

/// A seat at the table.
pub(crate) type TableSeat = Seat<(), View>;
