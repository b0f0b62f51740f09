//! Why a theorem is taken as an axiom.

/// Why a theorem of a source is taken as an axiom: the first of these that holds.
#[derive(Clone, Copy, Debug, PartialEq, Eq)]
pub enum Reason {
    /// A step of its proof isn't there.
    Unfinished,
    /// Its proof has over 16,384 steps.
    TooLong,
    /// It stands in front of what is chosen.
    InFront,
    /// It cites an assertion that isn't chosen.
    CitesUnchosen,
    /// An expression of its proof has over 65,535 symbols.
    LongExpression,
}
