//! Comments: which tokens stand in one, open one or close one.

ghost use Rattle.std.specs.Prelude.{◌≡◌};
ghost use Rattle.mmtext.specs.Text.{mark_of};
ghost use Rattle.mmtext.specs.Views.{seen, turn_at, Gives};

use crate::fault::{FaultKind, Stop, fault_at};
use crate::mark::{Mark, contains_comment_mark};
use crate::token::Token;

/// What a token is to comments.
#[derive(Drop)]
pub enum Turn {
    /// It is part of a comment. Whether one is open behind it.
    Skipped(bool),
    /// It stands outside of comments.
    Read,
}

/// What a token is to comments, behind a place in one or outside of one.
pub fn comment_turn(in_comment: bool, token: Token<'_>, mark: Mark) -> Result<Turn, Stop>
    ensures { Gives (λ r. r) result (turn_at in_comment (seen token.entry) mark) }
{
    if in_comment {
        if mark == Mark::Uncomment {
            return Ok(Turn::Skipped(false));
        }
        if contains_comment_mark(token.text) {
            return Err(fault_at(token, FaultKind::BadToken));
        }
        return Ok(Turn::Skipped(true));
    }
    match mark {
        Mark::Comment => Ok(Turn::Skipped(true)),
        Mark::Include | Mark::Included => Err(fault_at(token, FaultKind::OutOfProfile)),
        Mark::Uncomment => Err(fault_at(token, FaultKind::BadToken)),
        _ => Ok(Turn::Read),
    }
}
