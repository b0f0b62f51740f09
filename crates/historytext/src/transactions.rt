//! The lines of a transaction.

ghost use Rattle.std.specs.Prelude.{◌≡◌, ◌++◌, ◌∷◌, [], All, OnOk, codes};
ghost use Rattle.std.specs.Fmt.{decimal};
ghost use Rattle.std.specs.List.{flat_map};
ghost use Rattle.mmsyntax.specs.Layout.{line};
ghost use Rattle.mmsyntax.specs.Assertions.{Fits};
ghost use Rattle.library.specs.Fitting.{CommandFits};
ghost use Rattle.historytext.specs.Layout.{command_text, transaction_text};

use crate::numbers::put_number;
use itoa::Buffer;
use library::Command;
use mmsyntax::{Assertion, Label, Prelude, Proof};
use mmwriter::{put_assertion, put_steps, put_word};
use std::alloc::AllocError;

/// A line for the rank, then the lines of the assertion.
fn put_add(
    out: &mut Vec<u8>,
    prelude: &Prelude,
    rank: u32,
    assertion: &Assertion,
) -> Result<(), AllocError>
    requires { Fits prelude.now assertion.now }
    ensures { OnOk result (out.new.items ≡ out.old.items ++ command_text prelude.now (Command.Add rank assertion.now)) }
{
    out.extend_from_slice(b"add")?;
    put_number(out, rank as u64)?;
    out.push(b'\n')?;
    put_assertion(out, prelude, assertion)
}

fn put_reprove(
    out: &mut Vec<u8>,
    prelude: &Prelude,
    label: &Label,
    steps: &Proof,
) -> Result<(), AllocError>
    ensures { OnOk result (out.new.items ≡ out.old.items ++ command_text prelude.now (Command.Reprove label.now steps.now)) }
{
    out.extend_from_slice(b"reprove")?;
    put_word(out, label.as_slice())?;
    out.extend_from_slice(b" $=")?;
    put_steps(out, prelude, label.as_slice(), steps)?;
    out.extend_from_slice(b" $.\n")
}

/// Words, each with a space before it.
fn put_words(out: &mut Vec<u8>, words: &[&[u8]]) -> Result<(), AllocError>
    ensures { OnOk result (out.new.items ≡ out.old.items ++ flat_map (λ w. 32 ∷ w.now) words.now) }
{
    for word in words {
        put_word(out, word)?;
    }
    Ok(())
}

/// A line of the word of a command and of those behind it.
fn put_line(out: &mut Vec<u8>, name: &[u8], words: &[&[u8]]) -> Result<(), AllocError>
    ensures { OnOk result (out.new.items ≡ out.old.items ++ (name.now ++ (flat_map (λ w. 32 ∷ w.now) words.now ++ 10 ∷ []))) }
{
    out.extend_from_slice(name)?;
    put_words(out, words)?;
    out.extend_from_slice(b"\n")
}

fn put_move(out: &mut Vec<u8>, label: &Label, rank: u32) -> Result<(), AllocError>
    ensures { OnOk result (out.new.items ≡ out.old.items ++ line (codes "move" ∷ label.now ∷ decimal rank ∷ [])) }
{
    let mut digits = Buffer::new();
    put_line(
        out,
        b"move",
        &[label.as_slice(), digits.format(rank as u64).as_bytes()],
    )
}

/// The lines of a command. A hypothesis that a step names is counted from 1, as in a text.
fn put_command(out: &mut Vec<u8>, prelude: &Prelude, command: &Command) -> Result<(), AllocError>
    requires { CommandFits prelude.now command.now }
    ensures { OnOk result (out.new.items ≡ out.old.items ++ command_text prelude.now command.now) }
{
    match command {
        Command::Add { rank, assertion } => put_add(out, prelude, *rank, assertion),
        Command::Reprove { label, steps } => put_reprove(out, prelude, label, steps),
        Command::Replace { label, old, new } => {
            put_line(
                out,
                b"replace",
                &[label.as_slice(), old.as_slice(), new.as_slice()],
            )
        }
        Command::Rename { old, new } => put_line(out, b"rename", &[old.as_slice(), new.as_slice()]),
        Command::Move { label, rank } => put_move(out, label, *rank),
        Command::Delete { label } => put_line(out, b"delete", &[label.as_slice()]),
        Command::Show { label } => put_line(out, b"show", &[label.as_slice()]),
        Command::List => put_line(out, b"list", &[]),
    }
}

fn put_commands(
    out: &mut Vec<u8>,
    prelude: &Prelude,
    commands: &[Command],
) -> Result<(), AllocError>
    requires { All (CommandFits prelude.now) commands.now }
    ensures { OnOk result (out.new.items ≡ out.old.items ++ flat_map (command_text prelude.now) commands.now) }
{
    for command in commands {
        put_command(out, prelude, command)?;
    }
    Ok(())
}

/// Puts the lines of a transaction behind `out`: `begin`, those of each command, `commit`.
///
/// A step of another proof that names a `$f` which the prelude does not have is written as an empty word. After an error nothing is
/// promised of the bytes in `out`.
pub fn put_transaction(
    out: &mut Vec<u8>,
    prelude: &Prelude,
    commands: &[Command],
) -> Result<(), AllocError>
    requires { All (CommandFits prelude.now) commands.now }
    ensures { OnOk result (out.new.items ≡ out.old.items ++ transaction_text prelude.now commands.now) }
{
    out.extend_from_slice(b"begin\n")?;
    put_commands(out, prelude, commands)?;
    out.extend_from_slice(b"commit\n")
}
