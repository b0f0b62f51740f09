//! Limits of the profile: how much of each a database may have. The Metamath book has none.

/// The most bytes of a text.
pub const MOST_BYTES: usize = 16_777_216;

/// The most bytes of a symbol or a label.
pub const MOST_NAME_BYTES: usize = 255;

/// The most constants, the most variables and the most `$f`.
pub const MOST_DECLARED: usize = 65_535;

/// The most symbols of a statement or a hypothesis.
pub const MOST_SYMBOLS: usize = 65_535;

/// The most pairs of variables of an assertion that may not meet.
pub const MOST_PAIRS: usize = 65_535;

/// The most hypotheses of an assertion.
pub const MOST_HYPOTHESES: usize = 1_000;

/// The most steps of a proof.
pub const MOST_STEPS: usize = 16_384;

/// The most assertions of a database, and the most slots of a library.
pub const MOST_ASSERTIONS: usize = 4_096;
