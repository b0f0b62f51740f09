//! Whether the commands of a history change nothing but labels and proofs.

ghost use Rattle.std.specs.Prelude.{◌↔◌, All, IsTrue};
ghost use Rattle.sourceediting.specs.Following.{KeepsPlaces, all_commands};

use library::{Command, Entry};

/// Whether a command changes nothing but labels and proofs.
fn keeps_places(command: &Command) -> bool
    ensures { IsTrue result ↔ KeepsPlaces command.now }
{
    match command {
        Command::Add { .. } | Command::Move { .. } | Command::Delete { .. } => false,
        Command::Reprove { .. }
        | Command::Replace { .. }
        | Command::Rename { .. }
        | Command::Show { .. }
        | Command::List => true,
    }
}

/// Whether no command of a transaction adds, moves or deletes.
fn all_keep_places(commands: &[Command]) -> bool
    ensures { IsTrue result ↔ All KeepsPlaces commands.now }
{
    for command in commands {
        if !keeps_places(command) {
            return false;
        }
    }
    true
}

/// Whether no command of a history adds, moves or deletes.
pub(crate) fn keep_places(entries: &[Entry]) -> bool
    ensures { IsTrue result ↔ All KeepsPlaces (all_commands entries.now) }
{
    for entry in entries {
        if let Entry::Done { commands, .. } = entry
            && !all_keep_places(commands.as_slice())
        {
            return false;
        }
    }
    true
}
