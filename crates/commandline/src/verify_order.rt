//! What a command line asks to verify.

ghost use Rattle.std.specs.Prelude.{◌≡◌, ℕ, IfSome, IsNone, Option};
ghost use Rattle.clap.specs.Words.{Text, found_of, rows_of, subcommand_rows_of};
ghost use Rattle.commandline.specs.VerifyOrders.{HasCheckers, AsksToVerify};

use crate::arguments::WORKERS;
use crate::order::{number_if_given, subcommand_in, text_in};
use clap::ArgMatches;

/// What a command line asks to verify.
#[derive(Clone, Copy)]
pub struct VerifyOrder<'a> {
    /// The path of the source.
    pub path: &'a str,
    /// How many threads check proofs beside one another, 1 to 64, if that is given.
    pub workers: Option<usize>,
}

/// How many check, if that is given. None beyond the limits.
fn checkers_in(of: &ArgMatches<'_>) -> Option<Option<usize>>
    ensures some { IfSome result (HasCheckers (rows_of (found_of of.now))) }
    ensures none { IsNone result → (workers : Option ℕ) → HasCheckers (rows_of (found_of of.now)) workers → ⊥ }
{
    let workers = number_if_given(of, "workers")?;
    if workers.is_some_and(|n| n < 1 || n > WORKERS) {
        return None;
    }
    Some(workers)
}

/// The order to verify that a command line gives. None where it asks for another job, or for none.
pub fn verify_of<'a>(matches: &ArgMatches<'a>) -> Option<VerifyOrder<'a>>
    ensures some { IfSome result (λ order. AsksToVerify (subcommand_rows_of matches.now) order.path.now order.workers) }
    ensures none { IsNone result → (path : Text) (workers : Option ℕ) → AsksToVerify (subcommand_rows_of matches.now) path workers → ⊥ }
{
    let (name, of) = subcommand_in(matches)?;
    if name != "verify" {
        return None;
    }
    Some(VerifyOrder {
        path: text_in(of, "SOURCE")?,
        workers: checkers_in(of)?,
    })
}
