//! What a database text declares, as plain data, and which texts declare it.
#![tactic(auto)]

mod cited;
mod database;
mod dotted;
mod fitting;
mod label;
pub mod laws;
mod limits;
pub mod numeral;
mod prelude;
mod proof;
mod sequence;
mod statement;
mod step_ref;
mod symbol_word;
mod symbols;
mod word_steps;

pub use database::Database;
pub use dotted::{hypothesis_number, is_dotted, trunk};
pub use fitting::{are_citing_apart, fits, is_lawful_label};
pub use label::Label;
pub use limits::{
    MOST_ASSERTIONS, MOST_BYTES, MOST_DECLARED, MOST_HYPOTHESES, MOST_NAME_BYTES, MOST_PAIRS,
    MOST_STEPS, MOST_SYMBOLS,
};
pub use prelude::Prelude;
pub use proof::{PLACES, Proof};
pub use sequence::Sequence;
pub use statement::{Assertion, Expr, Float, Frame, Kind, Step, Symbol};
pub use step_ref::{StepRef, is_same_step};
pub use symbol_word::SymbolWord;
pub use symbols::{Name, SymbolTable};
pub use word_steps::{WordStep, WordSteps};
