//! Runs transactions.

ghost use Rattle.std.specs.Prelude.{◌≡◌, All, IfOk};
ghost use Rattle.library.specs.Fitting.{CommandFits};
ghost use Rattle.cells.specs.Sight.{Onward, TakesAtMost};
ghost use Rattle.cells.specs.Answers.{ForEachBefore, MayDo, CommandAnswers, RunAnswers};
ghost use Rattle.groundwork.specs.Takes.{TakesBodies};
ghost use Rattle.commands.specs.Takes.{most_words_of};
ghost use Rattle.groundwork.specs.Touches.{KeepsTo};
ghost use Rattle.commands.specs.Touches.{KeepsToAll};
ghost use Rattle.groundwork.specs.Footprints.{ReadsFor};
ghost use Rattle.commands.specs.Footprints.{ReadsForAll};

use cells::{Cells, CommandError, RunError};
use library::{Command, Reply};
use mmsyntax::{Prelude, Sequence};
use moves::move_to;
use newlabels::{add, rename};
use removals::delete;
use replacements::replace;
use reproofs::reprove;
use shows::{list, show};
use std::alloc::Global;

/// Does the commands of a transaction, one after another, each over what those before it kept aside, and answers the reply to each. Each
/// command is within the limits of the prelude, which is the library's; and the run may keep values aside where it is an edit, and stage
/// words where it stages.
///
/// The replies are those of the transaction's definition over the library, and the cells then show the library as it is after it: for every
/// state of the cells that agrees with what was read, shows a library that verifies, and has the ranges that were seen. So whatever else
/// becomes of cells that were not read, nothing changes in the answer. No cells are read but those of what the commands look for and
/// change, also where it ends early, and values are kept aside for no cells but those of what they change.
///
/// # Errors
///
/// The first command that is refused, counted from 1, with its reason. The run halts. What was kept aside by then is the
/// caller's to throw away.
pub fn run<C: Cells>(
    alloc: Global,
    prelude: &Prelude,
    cells: &mut C,
    commands: &[Command],
) -> Result<Sequence<Reply>, RunError>
    requires may { All (MayDo (C.sight cells.old)) commands.now }
    requires prelude { prelude.now ≡ (C.sight cells.old).setting.prelude }
    requires fits { All (CommandFits prelude.now) commands.now }
    ensures onward { Onward (C.sight cells.old) (C.sight cells.new) }
    ensures answers { RunAnswers (C.sight cells.old) (C.sight cells.new) commands.now result }
    ensures taken { ForEachBefore (C.sight cells.old) (C.sight cells.new)
        (λ st lib. TakesAtMost (most_words_of commands.now) (C.sight cells.old) (C.sight cells.new)) }
    ensures keeps { IfOk result (λ _. KeepsToAll (C.sight cells.old) (C.sight cells.new) commands.now) }
    ensures reads { ReadsForAll (C.sight cells.old) (C.sight cells.new) commands.now }
{
    let mut replies = Vec::new(alloc);
    for (done, command) in commands.iter().enumerate() {
        match take(alloc, prelude, cells, command) {
            Ok(reply) => replies.push(reply)?,
            Err(error) => return Err(error.at(done + 1)),
        }
    }
    Ok(Sequence::from_vec(replies))
}

/// Does one command, over what is kept aside. It is within the limits of the prelude, which is the library's, and the run may do it. It
/// reads no cells but those of what it looks for and changes, and keeps values aside for no cells but those of what it changes.
///
/// # Errors
///
/// It is refused: nothing was kept aside or staged. The run halts.
pub fn take<C: Cells>(
    alloc: Global,
    prelude: &Prelude,
    cells: &mut C,
    command: &Command,
) -> Result<Reply, CommandError>
    requires may { MayDo (C.sight cells.old) command.now }
    requires prelude { prelude.now ≡ (C.sight cells.old).setting.prelude }
    requires fits { CommandFits prelude.now command.now }
    ensures onward { Onward (C.sight cells.old) (C.sight cells.new) }
    ensures answers { CommandAnswers (C.sight cells.old) (C.sight cells.new) command.now result }
    ensures taken { TakesBodies command.now (C.sight cells.old) (C.sight cells.new) }
    ensures keeps { IfOk result (λ _. KeepsTo (C.sight cells.old) (C.sight cells.new) command.now) }
    ensures reads { ReadsFor (C.sight cells.old) (C.sight cells.new) command.now }
{
    match command {
        Command::Add { rank, assertion } => add(alloc, prelude, cells, *rank, assertion),
        Command::Reprove { label, steps } => reprove(alloc, prelude, cells, label, steps),
        Command::Replace { label, old, new } => { replace(alloc, prelude, cells, label, old, new) }
        Command::Rename { old, new } => rename(alloc, prelude, cells, old, new),
        Command::Move { label, rank } => move_to(alloc, cells, label, *rank),
        Command::Delete { label } => delete(alloc, cells, label),
        Command::Show { label } => show(alloc, cells, label),
        Command::List => list(alloc, cells),
    }
}
