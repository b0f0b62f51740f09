//! What is wished for, and what is chosen.

use std::alloc::AllocError;

/// Which assertions of a source are to be taken.
#[derive(Clone, Copy, Debug)]
pub enum Wish<'w> {
    /// All.
    All,
    /// Those with these labels, and all that their proofs need: the nearest, so far as 4,096 assertions allow.
    For(&'w [&'w [u8]]),
    /// Those from one label to another, and in front of them what their proofs cite, as axioms.
    Between(&'w [u8], &'w [u8]),
    /// Just those with the first labels; of them those with the second labels as axioms.
    These(&'w [&'w [u8]], &'w [&'w [u8]]),
}

/// What is chosen, for each assertion by its place.
#[derive(Debug, Drop)]
pub struct Selection {
    /// Whether it is chosen.
    pub chosen: Vec<bool>,
    /// Whether it is chosen and stands in front of the choice: then it is taken as an axiom.
    pub front: Vec<bool>,
}

/// Why nothing is chosen.
#[derive(Clone, Copy, Debug)]
pub enum Unchosen<'w> {
    /// No assertion of the source has this label.
    UnknownLabel(&'w [u8]),
    /// The first of two labels stands behind the second.
    Backwards,
    /// So many assertions would be taken: more than 4,096.
    TooMany(usize),
    /// Memory ran out.
    NoMemory,
}

impl<'w> From<AllocError> for Unchosen<'w> {
    ghost use Rattle.std.specs.Prelude.{◌≡◌};
    ghost use Rattle.choosing.specs.declared.wish.Unchosen.TheVariants.{NoMemory};

    ghost from_gives = { λ _ e. e ≡ NoMemory };

    fn from(_e: AllocError) -> Unchosen<'w> {
        Unchosen::NoMemory
    }
}
