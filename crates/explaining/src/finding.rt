//! What a step at fault of a proof asks for, and what it finds.

/// What a step at fault asks for, and what it finds. Labels and symbols are words of the source.
#[derive(Debug, Drop)]
pub enum Finding<'a> {
    /// The expression in the place of a `$f` of what is cited doesn't begin with its type.
    WrongType {
        /// The label of the assertion that is cited.
        cited: &'a [u8],
        /// The label of the `$f`.
        float: &'a [u8],
        /// Its type.
        wanted: &'a [u8],
        /// The expression in its place.
        found: Vec<&'a [u8]>,
    },
    /// The expression in the place of a `$e` of what is cited isn't what the substitution makes of it.
    HypothesisDiffers {
        /// The label of the assertion that is cited.
        cited: &'a [u8],
        /// The label of the `$e`.
        premise: &'a [u8],
        /// What it says after substitution.
        wanted: Vec<&'a [u8]>,
        /// The expression in its place.
        found: Vec<&'a [u8]>,
    },
    /// What stands for two variables of a mandatory pair of what is cited isn't apart in the theorem.
    NotDisjoint {
        /// The label of the assertion that is cited.
        cited: &'a [u8],
        /// The first variable of the pair.
        first: &'a [u8],
        /// The second.
        second: &'a [u8],
        /// What stands for the first.
        for_first: Vec<&'a [u8]>,
        /// What stands for the second.
        for_second: Vec<&'a [u8]>,
        /// The first variable of what stands for the first that isn't apart from all of the other.
        one: &'a [u8],
        /// The first variable of what stands for the second that isn't apart from it: the same, or no pair of the theorem with it.
        other: &'a [u8],
    },
    /// What the whole proof derives isn't the statement.
    StatementDiffers {
        /// The statement.
        wanted: Vec<&'a [u8]>,
        /// What is derived.
        found: Vec<&'a [u8]>,
    },
}

/// The first fault of a proof, with what it finds.
#[derive(Debug, Drop)]
pub struct Explained<'a> {
    /// The number of the step at fault, from 1, as labels, numbers and `?` are counted; at the end that of the last.
    pub step: usize,
    /// What it finds.
    pub finding: Finding<'a>,
}
