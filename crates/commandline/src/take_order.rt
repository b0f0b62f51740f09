//! What a command line asks to take.

ghost use Rattle.std.specs.Prelude.{IfOk, IfSome, IsNone, map, option_map};
ghost use Rattle.clap.specs.Words.{Text, subcommand_rows_of};
ghost use Rattle.commandline.specs.TakeOrders.{AsksToTake, IsTakeOrder};

use crate::order::{put_all, subcommand_in, text_in, texts_in};
use clap::ArgMatches;
use std::alloc::{AllocError, Global};

/// What a command line asks to take.
#[derive(Drop)]
pub struct TakeOrder<'a> {
    /// The path of the source.
    pub path: &'a str,
    /// The labels that `--for` gives, in their order.
    pub labels: Vec<&'a str>,
    /// The label that `--from` gives.
    pub from: Option<&'a str>,
    /// The label that `--to` gives.
    pub to: Option<&'a str>,
}

/// The order to take that a command line gives. None where it asks for another job, or for none.
///
/// # Errors
///
/// Want of memory.
pub fn take_of<'a>(
    alloc: Global,
    matches: &ArgMatches<'a>,
) -> Result<Option<TakeOrder<'a>>, AllocError>
    ensures some { IfOk result (λ given. IfSome given (λ order. IsTakeOrder (subcommand_rows_of matches.now) order.path.now
        (map (λ l. l.now) order.labels.items) (option_map (λ s. s.now) order.from) (option_map (λ s. s.now) order.to))) }
    ensures none { IfOk result (λ given. IsNone given → (path : Text) → AsksToTake (subcommand_rows_of matches.now) path → ⊥) }
{
    let Some((name, of)) = subcommand_in(matches) else {
        return Ok(None);
    };
    if name != "take" {
        return Ok(None);
    }
    let Some(path) = text_in(of, "SOURCE") else {
        return Ok(None);
    };
    let mut labels = Vec::new(alloc);
    put_all(&mut labels, texts_in(of, "for"))?;
    Ok(Some(TakeOrder {
        path,
        labels,
        from: text_in(of, "from"),
        to: text_in(of, "to"),
    }))
}
