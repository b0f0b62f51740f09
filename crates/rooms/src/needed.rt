//! How many words of a store a run can need: each is taken off the largest room, and what is gone then is needed.

ghost use Rattle.std.specs.Prelude.{◌≡◌, ◌≤◌, ◌-◌, sum_by};
ghost use Rattle.plaincells.specs.Measures.{all_bodies_length};
ghost use Rattle.cells.specs.State.{most_words};
ghost use Rattle.groundwork.specs.Takes.{command_words};
ghost use Rattle.rooms.specs.Rooms.{room_for as needed_room, staged_words};

use crate::longest::longest_in;
use library::{Command, Script};
use mmsyntax::{Assertion, Database};
use plaincells::room_behind;

/// The most words that a store has room for.
const MOST_ROOM: usize = 16_777_216;

/// How many words are left to spare.
const SPARE: usize = 65_536;

/// What is left of a room behind the bodies of assertions, 0 where they don't fit.
fn behind_assertions(assertions: &[Assertion], room: usize) -> usize
    ensures { result ≡ room - all_bodies_length assertions.now }
{
    let mut left = room;
    for assertion in assertions {
        left = room_behind(assertion, left).unwrap_or(0);
    }
    left
}

/// What is left of a room behind the bodies that a command stages, 0 where they don't fit. A theorem that it changes has so many steps.
fn behind_command(command: &Command, longest: usize, room: usize) -> usize
    ensures { result ≡ room - command_words (λ label. longest) command.now }
{
    match command {
        Command::Add { assertion, .. } => room_behind(assertion, room).unwrap_or(0),
        Command::Reprove { steps, .. } => room.saturating_sub(steps.len()),
        Command::Replace { .. } => room.saturating_sub(longest),
        Command::Rename { new, .. } => room.saturating_sub(new.as_slice().len()),
        Command::Move { .. } | Command::Delete { .. } | Command::Show { .. } | Command::List => {
            room
        }
    }
}

/// What is left of a room behind what commands stage.
fn behind_commands(commands: &[Command], longest: usize, room: usize) -> usize
    ensures { result ≡ room - sum_by (command_words (λ label. longest)) commands.now }
{
    let mut left = room;
    for command in commands {
        left = behind_command(command, longest, left);
    }
    left
}

/// What is left of a room behind what the transactions of a script stage.
fn behind_script(script: &Script, longest: usize, room: usize) -> usize
    ensures { result ≡ room - sum_by (sum_by (command_words (λ label. longest))) script.now }
{
    let mut left = room;
    for transaction in script.as_slice() {
        left = behind_commands(transaction.as_slice(), longest, left);
    }
    left
}

/// What is left of a room behind what scripts stage.
fn behind_scripts(scripts: &[Script], longest: usize, room: usize) -> usize
    ensures { result ≡ room - staged_words longest scripts.now }
{
    let mut left = room;
    for script in scripts {
        left = behind_script(script, longest, left);
    }
    left
}

/// For how many words a store has to have room at most, where these scripts are run over the database: the words of the bodies of its
/// assertions, twice those that the commands of the scripts stage, and 65,536 to spare: a try that meets a conflict may stage other words
/// the next time. But at most 16,777,216, as no store has more.
///
/// A command that adds a theorem takes the words of its label, its statement and its proof; one that gives a theorem another proof or
/// another label those of that; one that replaces citations in a proof as many as the longest proof of the database and of the scripts has
/// steps.
pub fn room_for(db: &Database, scripts: &[Script]) -> usize
    ensures room { result ≡ needed_room db.now scripts.now }
    ensures within { result ≤ most_words }
    // The database fits into it, unless it fits into no store.
    ensures fits { all_bodies_length db.now.assertions ≤ most_words → all_bodies_length db.now.assertions ≤ result }
{
    let longest = longest_in(db, scripts);
    let left = behind_assertions(db.assertions(), MOST_ROOM - SPARE);
    let once = behind_scripts(scripts, longest, left);
    MOST_ROOM - behind_scripts(scripts, longest, once)
}
