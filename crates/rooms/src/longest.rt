//! How long the proofs of a run are.

ghost use Rattle.std.specs.Prelude.{◌≡◌, max};
ghost use Rattle.rooms.specs.Rooms.{brought_steps, largest_by, longest_proof, proof_steps};

use library::{Command, Script};
use mmsyntax::{Assertion, Database};

/// The steps of the longest proof of assertions.
fn longest_kept(assertions: &[Assertion]) -> usize
    ensures { result ≡ largest_by proof_steps assertions.now }
{
    let mut longest: usize = 0;
    for assertion in assertions {
        longest = longest.max(assertion.proof.len());
    }
    longest
}

/// How many steps the proof has that a command brings, 0 where it brings none.
fn steps_of(command: &Command) -> usize
    ensures { result ≡ brought_steps command.now }
{
    match command {
        Command::Add { assertion, .. } => assertion.proof.len(),
        Command::Reprove { steps, .. } => steps.len(),
        Command::Replace { .. }
        | Command::Rename { .. }
        | Command::Move { .. }
        | Command::Delete { .. }
        | Command::Show { .. }
        | Command::List => 0,
    }
}

/// The steps of the longest proof that commands bring, or this many, if they are more.
fn longest_of_commands(commands: &[Command], before: usize) -> usize
    ensures { result ≡ max before (largest_by brought_steps commands.now) }
{
    let mut longest = before;
    for command in commands {
        longest = longest.max(steps_of(command));
    }
    longest
}

/// The steps of the longest proof that the transactions of a script bring, or this many, if they are more.
fn longest_of_script(script: &Script, before: usize) -> usize
    ensures { result ≡ max before (largest_by (largest_by brought_steps) script.now) }
{
    let mut longest = before;
    for transaction in script.as_slice() {
        longest = longest_of_commands(transaction.as_slice(), longest);
    }
    longest
}

/// The steps of the longest proof that a theorem can have while scripts are run over a database.
pub(crate) fn longest_in(db: &Database, scripts: &[Script]) -> usize
    ensures { result ≡ longest_proof db.now scripts.now }
{
    let mut longest = longest_kept(db.assertions());
    for script in scripts {
        longest = longest_of_script(script, longest);
    }
    longest
}
