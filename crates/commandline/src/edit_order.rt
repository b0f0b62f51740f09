//! What a command line asks to edit.

ghost use Rattle.std.specs.Prelude.{◌≡◌, codes, ℕ, IfOk, IfSome, IsNone, Option, map};
ghost use Rattle.clap.specs.Words.{Text, first_of, found_of, rows_of, subcommand_rows_of};
ghost use Rattle.commandline.specs.EditOrders.{AreOutputsGiven, AsksToEdit, IsAllowed, IsEditOrder, IsPlaceGiven, is_flagged};

use crate::order::{limits_in, put_all, subcommand_in, text_in, texts_in};
use clap::ArgMatches;
use std::alloc::{AllocError, Global};

/// Where an edited source goes.
#[derive(Clone, Copy)]
pub enum Destination<'a> {
    /// To the standard output.
    Printed,
    /// Into the file at this path.
    File(&'a str),
    /// In place of the source.
    Source,
}

/// Where what an edit gives goes.
#[derive(Clone, Copy)]
pub struct Outputs<'a> {
    /// Where the edited source goes.
    pub place: Destination<'a>,
    /// The path of the file that tells what became of each transaction, if it is asked for.
    pub replies: Option<&'a str>,
}

/// What is allowed to an edit that isn't without being asked for.
#[derive(Clone, Copy, Debug)]
pub struct Allowed {
    /// The source is printed also where not all transactions were done.
    pub partial: bool,
    /// Scripts may do what comments of the source discourage.
    pub force: bool,
}

/// What a command line asks to edit.
#[derive(Drop)]
pub struct EditOrder<'a> {
    /// The path of the source, and behind it those of the scripts: at least one.
    pub paths: Vec<&'a str>,
    /// How many workers run the scripts, 1 to 64.
    pub workers: usize,
    /// For how many words the store of the run has room, at most 16,777,216, if that is given.
    pub room: Option<usize>,
    /// Where the edited source and what became of the transactions go. None where `--output` and `--in-place` are both given.
    pub outputs: Option<Outputs<'a>>,
    /// What is allowed to it.
    pub allowed: Allowed,
}

/// Whether a flag is given.
fn flag_in(of: &ArgMatches<'_>, id: &str) -> bool
    ensures { result ≡ is_flagged (first_of id.now (rows_of (found_of of.now))) }
{
    match text_in(of, id) {
        Some(text) => text == "true",
        None => false,
    }
}

/// Where the edited source goes. None where two places are given.
fn place_in<'a>(of: &ArgMatches<'a>) -> Option<Destination<'a>>
    ensures { IsPlaceGiven (first_of (codes "output") (rows_of (found_of of.now)))
        (is_flagged (first_of (codes "in-place") (rows_of (found_of of.now)))) result }
{
    match (text_in(of, "output"), flag_in(of, "in-place")) {
        (None, false) => Some(Destination::Printed),
        (Some(path), false) => Some(Destination::File(path)),
        (None, true) => Some(Destination::Source),
        (Some(_), true) => None,
    }
}

/// Where all goes. None where the edited source has two places.
fn outputs_in<'a>(of: &ArgMatches<'a>) -> Option<Outputs<'a>>
    ensures { AreOutputsGiven (rows_of (found_of of.now)) result }
{
    let place = place_in(of)?;
    Some(Outputs {
        place,
        replies: text_in(of, "replies"),
    })
}

/// What is allowed.
fn allowed_in(of: &ArgMatches<'_>) -> Allowed
    ensures { IsAllowed (rows_of (found_of of.now)) result }
{
    Allowed {
        partial: flag_in(of, "partial"),
        force: flag_in(of, "force"),
    }
}

/// The order to edit that a command line gives. None where it asks for another job, or for none.
///
/// # Errors
///
/// Want of memory.
pub fn edit_of<'a>(
    alloc: Global,
    matches: &ArgMatches<'a>,
) -> Result<Option<EditOrder<'a>>, AllocError>
    ensures some { IfOk result (λ given. IfSome given (λ order. IsEditOrder (subcommand_rows_of matches.now)
        (map (λ p. p.now) order.paths.items) order.workers order.room order.outputs order.allowed)) }
    ensures none { IfOk result (λ given. IsNone given → (path : Text) (workers : ℕ) (room : Option ℕ)
        → AsksToEdit (subcommand_rows_of matches.now) path workers room → ⊥) }
{
    let Some((name, of)) = subcommand_in(matches) else {
        return Ok(None);
    };
    if name != "edit" {
        return Ok(None);
    }
    let Some(path) = text_in(of, "SOURCE") else {
        return Ok(None);
    };
    let Some((workers, room)) = limits_in(of) else {
        return Ok(None);
    };
    let mut paths = vec![in alloc; path]?;
    put_all(&mut paths, texts_in(of, "SCRIPT"))?;
    Ok(Some(EditOrder {
        paths,
        workers,
        room,
        outputs: outputs_in(of),
        allowed: allowed_in(of),
    }))
}
