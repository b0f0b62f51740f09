//! What a run is to be allowed for its commands.

ghost use Rattle.std.specs.Prelude.{◌≡◌};
ghost use Rattle.cells.specs.Answers.{stages, has_staging};

use library::Command;

/// Whether the command stages a body: a label's, a statement's or a proof's. A run takes it only where it may stage words.
pub fn stages(command: &Command) -> bool
    ensures { result ≡ stages command.now }
{
    match command {
        Command::Add { .. }
        | Command::Reprove { .. }
        | Command::Replace { .. }
        | Command::Rename { .. } => true,
        Command::Move { .. } | Command::Delete { .. } | Command::Show { .. } | Command::List =>
            false,
    }
}

/// Whether some command stages a body.
pub fn has_staging(commands: &[Command]) -> bool
    ensures { result ≡ has_staging commands.now }
{
    commands.iter().any(stages)
}
