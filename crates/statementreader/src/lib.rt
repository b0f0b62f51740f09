//! Reading statements, token by token, and a single assertion over a prelude.
#![tactic(auto)]

mod labels;
pub mod laws;
mod place;
mod prelude_rows;
mod recent;
mod steps;
mod unit_reader;
mod unit_rows;
mod units;
mod words;

pub use place::{
    MarkedToken, OpenAssertion, OpenFloat, OpenHypothesis, Place, PreludePlace, Scope, Theorem,
    UnitPlace, is_outermost,
};
pub use prelude_rows::next_prelude_place;
pub use recent::Recent;
pub use steps::{Named, StepPlace, named_step, push_named, recalled_named_step};
pub use unit_reader::{UnitProgress, UnitReader};
pub use unit_rows::next_unit_place;
pub use units::read_assertion;
pub use words::take_word;
