//! What an item of a source is, as far as it matters for who leaves.

/// What becomes of an assertion.
#[derive(Clone, Copy, Debug, PartialEq, Eq)]
pub enum Fate {
    /// It keeps its place.
    Stays,
    /// It is deleted.
    Deleted,
    /// It is put in elsewhere.
    Moves,
}

/// What an item of a source is.
#[derive(Clone, Copy, Debug, PartialEq, Eq)]
pub enum Part {
    /// A comment that is no heading: right in front of an assertion it describes it.
    Description,
    /// A comment that heads what follows.
    Heading,
    /// `${`
    Opening,
    /// `$}`
    Closing,
    /// `$a` or `$p`, and what becomes of it.
    Assertion(Fate),
    /// Another statement.
    Other,
}
