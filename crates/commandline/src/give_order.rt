//! What a command line asks to give back.

ghost use Rattle.std.specs.Prelude.{IfSome, IsNone};
ghost use Rattle.clap.specs.Words.{Text, subcommand_rows_of};
ghost use Rattle.commandline.specs.GiveOrders.{AsksToGive};

use crate::order::{subcommand_in, text_in};
use clap::ArgMatches;

/// What a command line asks to give back: the paths of three texts.
#[derive(Clone, Copy)]
pub struct GiveOrder<'a> {
    /// That of the source.
    pub source: &'a str,
    /// That of the library that was taken of it.
    pub library: &'a str,
    /// That of the history over the library.
    pub history: &'a str,
}

/// The order to give back that a command line gives. None where it asks for another job, or for none.
pub fn give_of<'a>(matches: &ArgMatches<'a>) -> Option<GiveOrder<'a>>
    ensures some { IfSome result (λ order. AsksToGive
        (subcommand_rows_of matches.now) order.source.now order.library.now order.history.now) }
    ensures none { IsNone result → (source library history : Text) → AsksToGive (subcommand_rows_of matches.now) source library history
        → ⊥ }
{
    let (name, of) = subcommand_in(matches)?;
    if name != "give" {
        return None;
    }
    Some(GiveOrder {
        source: text_in(of, "SOURCE")?,
        library: text_in(of, "LIBRARY")?,
        history: text_in(of, "HISTORY")?,
    })
}
