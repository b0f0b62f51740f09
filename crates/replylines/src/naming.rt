//! A command, as it is named where it is refused.

ghost use Rattle.std.specs.Prelude.{◌≡◌, IfOk, string_bytes};
ghost use Rattle.checking.specs.FaultLines.{shown_label};
ghost use Rattle.replylines.specs.CommandTexts.{command_text};

use library::Command;
use std::alloc::{AllocError, Global};

/// A label as it is printed: itself, where it is text, as each label of a script is.
pub fn shown(label: &[u8]) -> &str
    ensures { result.now ≡ shown_label label.now }
{
    match str::from_utf8(label) {
        Ok(text) => text,
        Err(_) => "?",
    }
}

/// A command's word, and the labels that it speaks of.
///
/// # Errors
///
/// Want of memory.
pub fn command_text(alloc: Global, command: &Command) -> Result<String, AllocError>
    ensures { IfOk result (λ text. string_bytes text ≡ command_text command.now) }
{
    match command {
        Command::Add { assertion, .. } => {
            let label = shown(assertion.label.as_slice());
            format!(in alloc; "add {label}")
        }
        Command::Reprove { label, .. } => {
            let label = shown(label.as_slice());
            format!(in alloc; "reprove {label}")
        }
        Command::Replace { label, old, new } => {
            let (label, old) = (shown(label.as_slice()), shown(old.as_slice()));
            let new = shown(new.as_slice());
            format!(in alloc; "replace {label} {old} {new}")
        }
        Command::Rename { old, new } => {
            let (old, new) = (shown(old.as_slice()), shown(new.as_slice()));
            format!(in alloc; "rename {old} {new}")
        }
        Command::Move { label, .. } => {
            let label = shown(label.as_slice());
            format!(in alloc; "move {label}")
        }
        Command::Delete { label } => {
            let label = shown(label.as_slice());
            format!(in alloc; "delete {label}")
        }
        Command::Show { label } => {
            let label = shown(label.as_slice());
            format!(in alloc; "show {label}")
        }
        Command::List => format!(in alloc; "list"),
    }
}
