//! What each step tells. These types are for the proofs alone.

ghost use Rattle.claims.specs.Rule.{dealt_left, newcomer, claimed, joined, nobody};

use crate::view::View;
use atomic_table::{Join, Play, Split};

/// Makes a seat for a claimant of the first seat.
pub(crate) struct Deal;

impl Split<View> for Deal {
    ghost left = { dealt_left };

    ghost right = { newcomer };
}

/// Claims the next number.
pub(crate) struct Claim;

impl Play<(), View> for Claim {
    ghost then = { claimed };
}

/// Gives what one claimant has to another.
pub(crate) struct Gather;

impl Join<View> for Gather {
    ghost both = { joined };

    ghost spent = { nobody };
}
