//! Where in a text a fault stands, as a keeper looks for it: its line and column, the statement's label, the rule in plain words, and the
//! line with the word at fault underlined. It stands behind a fault, which readers and checkers tell by a byte or a step, and in front of
//! whoever prints it. Nothing here decides whether there is a fault.
#![tactic(auto)]

mod fronts;
mod lines;
mod rules;
mod spot;
mod steps;
mod taken;
mod telling;

pub use fronts::Part;
pub use lines::{line_at, lines_of};
pub use rules::proof_rule;
pub use spot::Spot;
pub use steps::theorem_at;
pub use telling::{printed_name, proof_line, source_line, spot_at, text_line, told_at, told_line};
