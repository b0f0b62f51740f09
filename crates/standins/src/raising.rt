//! Scripts whose ranks count the axioms in front of a library.

ghost use Rattle.std.specs.Prelude.{◌≡◌, All, IfOk, map};
ghost use Rattle.library.specs.Fitting.{CommandFits};
ghost use Rattle.mmsyntax.specs.Tables.{Tables};
ghost use Rattle.standins.specs.StandIns.{raised, raised_command, raised_rank};

use library::{Command, Script, SharedList, Transaction};
use mmsyntax::Sequence;
use std::alloc::{AllocError, Global};

/// A rank that is higher by so much, but not over the highest.
fn raised_rank(by: u32, rank: u32) -> u32
    ensures { result ≡ raised_rank by rank }
{
    rank.saturating_add(by)
}

/// A command with such a rank, where it has one.
fn raised_command(alloc: Global, by: u32, command: &Command) -> Result<Command, AllocError>
    ensures { IfOk result (λ made. made ≡ raised_command by command.now) }
{
    match command {
        Command::Add { rank, assertion } => Ok(Command::Add {
            rank: raised_rank(by, *rank),
            assertion: assertion.copy(alloc)?,
        }),
        Command::Move { label, rank } => Ok(Command::Move {
            label: label.copy(alloc)?,
            rank: raised_rank(by, *rank),
        }),
        _ => command.copy(alloc),
    }
}

/// A transaction with such ranks.
fn raised_commands(alloc: Global, by: u32, commands: &[Command]) -> Result<Transaction, AllocError>
    ensures { IfOk result (λ made. made ≡ map (raised_command by) commands.now) }
{
    let mut made = Vec::with_capacity(alloc, commands.len())?;
    for command in commands {
        made.push(raised_command(alloc, by, command)?)?;
    }
    SharedList::from_vec(alloc, made)
}

/// A script with such ranks.
fn raised_script(alloc: Global, by: u32, script: &Script) -> Result<Script, AllocError>
    ensures { IfOk result (λ made. made ≡ map (map (raised_command by)) script.now) }
{
    let mut made = Vec::with_capacity(alloc, script.as_slice().len())?;
    for transaction in script.as_slice() {
        made.push(raised_commands(alloc, by, transaction.as_slice())?)?;
    }
    Ok(Sequence::from_vec(made))
}

/// Scripts with ranks that are higher by so much, but not over the highest. They are within the limits within which the old are.
pub(crate) fn raise(alloc: Global, by: u32, scripts: &[Script]) -> Result<Vec<Script>, AllocError>
    ensures raised { IfOk result (λ made. made.items ≡ raised by scripts.now) }
    ensures fit { (t : Tables) → All (All (All (CommandFits t))) scripts.now
        → IfOk result (λ made. All (All (All (CommandFits t))) made.items) }
{
    let mut made = Vec::with_capacity(alloc, scripts.len())?;
    for script in scripts {
        made.push(raised_script(alloc, by, script)?)?;
    }
    Ok(made)
}
