//! The command lines that the program takes.

ghost use Rattle.std.specs.Prelude.{IfOk};
ghost use Rattle.clap.specs.Words.{App, Rule, with_rule, with_subcommand};
ghost use Rattle.commandline.specs.CommandLine.{IsArgument, IsLine, file_rule, option_rule, flag_rule, workers_rule, checkers_rule, room_rule, scripts_rule};
ghost use Rattle.commandline.specs.CommandLine.{check_app, run_app, replay_app, take_app, give_app, verify_app, edit_app, program_app};

use clap::builder::ValueParser;
use clap::{Arg, ArgAction, Command};
use std::alloc::{AllocError, Global};

/// The most workers that a run has, and the most threads that check proofs beside one another.
pub(crate) const WORKERS: usize = 64;

/// The most words that the store of a run has room for.
pub(crate) const ROOM: usize = 16_777_216;

/// What is said of the database of a job.
const DATABASE: &str = "A Metamath database";

/// What is said of the history of a run.
const HISTORY: &str = "The history of a run over it";

/// What is said of a history whose edits are given back.
const GIVEN_HISTORY: &str = "The history of a run over it; - is the standard input";

/// What is said of the scripts of a run.
const SCRIPTS: &str = "Edit scripts: each worker runs one after another";

/// What is said of the scripts of an edit.
const EDIT_SCRIPTS: &str =
    "Edit scripts: each worker runs one after another; - is the standard input";

/// What is said of a source.
const SOURCE: &str =
    "A database in the whole language of Metamath, without $[; - is the standard input";

/// `NAME`: the path of a file that a job needs.
fn file<'a>(alloc: Global, name: &'a str, help: &'a str) -> Arg<'a>
    ensures { IsArgument (file_rule name.now) result }
{
    Arg::new(alloc, name)
        .help(help)
        .required(true)
        .action(ArgAction::Set)
}

/// `--NAME VALUE`: an option that a job may have, once or as often as wished.
fn option<'a>(
    alloc: Global,
    name: &'a str,
    value: &'a str,
    action: ArgAction,
    help: &'a str,
) -> Arg<'a>
    ensures { IsArgument (option_rule name.now action) result }
{
    Arg::new(alloc, name)
        .long(name)
        .value_name(value)
        .help(help)
        .action(action)
}

/// `--workers N`.
fn workers<'a>(alloc: Global) -> Arg<'a>
    ensures { IsArgument workers_rule result }
{
    Arg::new(alloc, "workers")
        .long("workers")
        .value_name("N")
        .help("How many workers run the scripts, 1 to 64: each takes the next one")
        .value_parser(ValueParser::unsigned(1, WORKERS as u64))
        .default_value("1")
        .action(ArgAction::Set)
}

/// `--workers N` of a command that checks proofs.
fn checkers<'a>(alloc: Global) -> Arg<'a>
    ensures { IsArgument checkers_rule result }
{
    Arg::new(alloc, "workers")
        .long("workers")
        .value_name("N")
        .help(
            "How many threads check proofs beside one another, 1 to 64; without it as many as processors",
        )
        .value_parser(ValueParser::unsigned(1, WORKERS as u64))
        .action(ArgAction::Set)
}

/// `--room W`.
fn room<'a>(alloc: Global) -> Arg<'a>
    ensures { IsArgument room_rule result }
{
    Arg::new(alloc, "room")
        .long("room")
        .value_name("W")
        .help(
            "How many words the store of labels, statements and proofs has, up to 16777216; \
             without it 1048576, or as many as the database and the scripts can need, if these are more",
        )
        .long_help(
            "How many words the store of labels, statements and proofs has, up to 16777216; \
             without it 1048576, or as many as the database and the scripts can need, if these are more. \
             What a transaction stages stays used. Raise it where a run answers `store full`",
        )
        .value_parser(ValueParser::unsigned(0, ROOM as u64))
        .action(ArgAction::Set)
}

/// `--NAME`: an option that a job may have, without a value.
fn flag<'a>(alloc: Global, name: &'a str, help: &'a str) -> Arg<'a>
    ensures { IsArgument (flag_rule name.now) result }
{
    Arg::new(alloc, name)
        .long(name)
        .help(help)
        .action(ArgAction::SetTrue)
}

/// The scripts of a run or of an edit.
fn scripts<'a>(alloc: Global, help: &'a str) -> Arg<'a>
    ensures { IsArgument scripts_rule result }
{
    Arg::new(alloc, "SCRIPT")
        .help(help)
        .required(true)
        .num_args(1..)
        .action(ArgAction::Append)
}

/// A command line with one argument more, unless memory ran out before.
fn with_argument<'a>(
    line: Result<Command<'a>, AllocError>,
    argument: Arg<'a>,
) -> Result<Command<'a>, AllocError>
    ensures { (app : App) (rule : Rule) → IfOk line.entry (IsLine app) → IsArgument rule argument.entry
        → IfOk result (IsLine (with_rule app rule)) }
{
    match line {
        Ok(line) => line.arg(argument),
        Err(error) => {
            drop(argument);
            Err(error)
        }
    }
}

/// A command line with one subcommand more, unless memory ran out before.
fn with_line<'a>(
    line: Result<Command<'a>, AllocError>,
    below: Result<Command<'a>, AllocError>,
) -> Result<Command<'a>, AllocError>
    ensures { (app sub : App) → IfOk line.entry (IsLine app) → IfOk below.entry (IsLine sub)
        → IfOk result (IsLine (with_subcommand app sub.top)) }
{
    match (line, below) {
        (Ok(line), Ok(below)) => line.subcommand(below),
        (Ok(line), Err(error)) => {
            drop(line);
            Err(error)
        }
        (Err(error), below) => {
            drop(below);
            Err(error)
        }
    }
}

/// `mmrefactor check DB`.
fn check_line<'a>(alloc: Global) -> Result<Command<'a>, AllocError>
    ensures { IfOk result (IsLine check_app) }
{
    Command::new(alloc, "check")
        .about("Checks the proofs of a database; prints the number of its assertions")
        .arg(file(alloc, "DB", DATABASE))
}

/// `mmrefactor run [--workers N] [--room W] [--history FILE] DB SCRIPT..`.
fn run_line<'a>(alloc: Global) -> Result<Command<'a>, AllocError>
    ensures { IfOk result (IsLine run_app) }
{
    let line = Command::new(alloc, "run")
        .about("Runs edit scripts over a database; prints their replies and the resulting database")
        .arg(workers(alloc));
    let line = with_argument(line, room(alloc));
    let history = option(
        alloc,
        "history",
        "FILE",
        ArgAction::Set,
        "Writes the history of the run to this file",
    );
    let line = with_argument(line, history);
    let line = with_argument(line, file(alloc, "DB", DATABASE));
    with_argument(line, scripts(alloc, SCRIPTS))
}

/// `mmrefactor replay DB HISTORY`.
fn replay_line<'a>(alloc: Global) -> Result<Command<'a>, AllocError>
    ensures { IfOk result (IsLine replay_app) }
{
    Command::new(alloc, "replay")
        .about("Does a history again and compares its replies; prints the resulting database")
        .arg(file(alloc, "DB", DATABASE))?
        .arg(file(alloc, "HISTORY", HISTORY))
}

/// `mmrefactor take [--for LABEL].. [--from LABEL --to LABEL] SOURCE`.
fn take_line<'a>(alloc: Global) -> Result<Command<'a>, AllocError>
    ensures { IfOk result (IsLine take_app) }
{
    let line = Command::new(alloc, "take")
        .about("Takes a library from a database in the whole language; prints it")
        .after_help("Example: mmrefactor take --for sqrt2irr set.mm > sqrt2irr.mm");
    let asked = option(
        alloc,
        "for",
        "LABEL",
        ArgAction::Append,
        "Takes this assertion and all that its proof needs; several may be given",
    );
    let line = line.arg(asked);
    let first = option(
        alloc,
        "from",
        "LABEL",
        ArgAction::Set,
        "Takes the assertions from this one to that of --to, and what they cite before as axioms",
    );
    let line = with_argument(line, first);
    let last = option(
        alloc,
        "to",
        "LABEL",
        ArgAction::Set,
        "The last of the assertions that --from begins",
    );
    let line = with_argument(line, last);
    with_argument(line, file(alloc, "SOURCE", SOURCE))
}

/// `mmrefactor give SOURCE LIBRARY HISTORY`.
fn give_line<'a>(alloc: Global) -> Result<Command<'a>, AllocError>
    ensures { IfOk result (IsLine give_app) }
{
    let line = Command::new(alloc, "give")
        .about("Gives the edits of a history back into the source; prints it with them")
        .after_help("Example: mmrefactor give set.mm sqrt2irr.mm run.history > edited.mm")
        .arg(file(alloc, "SOURCE", SOURCE));
    let library = file(
        alloc,
        "LIBRARY",
        "The library that `take` printed of the source; - is the standard input",
    );
    let line = with_argument(line, library);
    with_argument(line, file(alloc, "HISTORY", GIVEN_HISTORY))
}

/// `mmrefactor verify [--workers N] SOURCE`.
fn verify_line<'a>(alloc: Global) -> Result<Command<'a>, AllocError>
    ensures { IfOk result (IsLine verify_app) }
{
    let line = Command::new(alloc, "verify")
        .about(
            "Checks all proofs of a database in the whole language; prints how many assertions it has",
        )
        .after_help("Example: mmrefactor verify set.mm")
        .arg(checkers(alloc));
    with_argument(line, file(alloc, "SOURCE", SOURCE))
}

/// `mmrefactor edit [--workers N] [--room W] [--in-place | --output FILE] [--replies FILE] [--partial] [--force] SOURCE SCRIPT..`.
fn edit_line<'a>(alloc: Global) -> Result<Command<'a>, AllocError>
    ensures { IfOk result (IsLine edit_app) }
{
    let line = Command::new(alloc, "edit")
        .about(
            "Edits a database in the whole language by scripts; prints it with the edits, verified",
        )
        .after_help("Example: mmrefactor edit --output edited.mm set.mm changes.edits")
        .arg(workers(alloc));
    let line = with_argument(line, room(alloc));
    let output = option(
        alloc,
        "output",
        "FILE",
        ArgAction::Set,
        "Writes the edited database to this file, which is not SOURCE, instead of printing it",
    );
    let line = with_argument(line, output);
    let in_place = flag(
        alloc,
        "in-place",
        "Puts the edited database in place of SOURCE, instead of printing it",
    );
    let line = with_argument(line, in_place);
    let replies = option(
        alloc,
        "replies",
        "FILE",
        ArgAction::Set,
        "Writes what became of each transaction to this file, one line of JSON each",
    );
    let line = with_argument(line, replies);
    let partial = flag(
        alloc,
        "partial",
        "Prints the database also where some transaction was not done; the status is 3 then",
    );
    let line = with_argument(line, partial);
    let force = flag(
        alloc,
        "force",
        "Also does what comments of SOURCE discourage: proof modification, new usage",
    );
    let line = with_argument(line, force);
    let line = with_argument(line, file(alloc, "SOURCE", SOURCE));
    with_argument(line, scripts(alloc, EDIT_SCRIPTS))
}

/// The command lines that the program takes: `mmrefactor check DB`, `mmrefactor run [--workers N] [--room W] [--history FILE] DB
/// SCRIPT..`, `mmrefactor replay DB HISTORY`, `mmrefactor take [--for LABEL].. [--from LABEL --to LABEL] SOURCE`, `mmrefactor give SOURCE
/// LIBRARY HISTORY`, `mmrefactor verify [--workers N] SOURCE` and `mmrefactor edit [--workers N] [--room W] [--in-place | --output FILE]
/// [--replies FILE] [--partial] [--force] SOURCE SCRIPT..`.
///
/// That `--from` and `--to` go together, and not with `--for`, and that `--in-place` does not go with `--output`, is no rule of these
/// lines.
///
/// # Errors
///
/// Want of memory.
pub fn command_line<'a>(alloc: Global) -> Result<Command<'a>, AllocError>
    ensures { IfOk result (IsLine program_app) }
{
    let line = Command::new(alloc, "mmrefactor")
        .version("0.1.0")
        .about("Refactors libraries of Metamath theorems")
        .subcommand_required(true)
        .arg_required_else_help(true);
    let line = with_line(Ok(line), check_line(alloc));
    let line = with_line(line, run_line(alloc));
    let line = with_line(line, replay_line(alloc));
    let line = with_line(line, take_line(alloc));
    let line = with_line(line, give_line(alloc));
    let line = with_line(line, verify_line(alloc));
    with_line(line, edit_line(alloc))
}
