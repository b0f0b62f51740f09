//! The commands of scripts, in order.

ghost use Rattle.std.specs.Prelude.{◌≡◌, ◌++◌, IfOk, OnOk, map};
ghost use Rattle.mmtext.specs.Views.{seen};
ghost use Rattle.source.specs.Views.{seen_words};
ghost use Rattle.spreading.specs.Forms.{AreParts};
ghost use Rattle.expanding.specs.Commands.{AreCommands, command_of};
ghost use Rattle.expanding.specs.Barred.{words_of};
ghost use Rattle.expanding.specs.Bars.{seen_command, seen_part};
ghost use Rattle.expanding.specs.Views.{seen_scripts};

use crate::asking::spoken_in;
use mmtext::Token;
use spreading::{begins_with, part_length};
use std::alloc::{AllocError, Global};

/// A command of a script, or a word that stands alone.
#[derive(Clone, Copy)]
pub(crate) struct Command<'w, 'a> {
    /// Which script, from 0.
    pub script: usize,
    /// The words.
    pub words: &'w [Token<'a>],
}

/// Words in their parts, in order.
pub(crate) fn parts_in<'w, 'a>(
    alloc: Global,
    words: &'w [Token<'a>],
) -> Result<Vec<&'w [Token<'a>]>, AllocError>
    ensures { IfOk result (λ parts. AreParts (map seen words.now) (map seen_part parts.items)) }
{
    let mut parts = Vec::new(alloc);
    let mut at = 0;
    while at < words.len() {
        let rest = &words[at..];
        let part = &rest[..part_length(rest)];
        parts.push(part)?;
        at += part.len();
    }
    Ok(parts)
}

/// Puts parts of a script.
fn put_parts<'w, 'a>(
    commands: &mut Vec<Command<'w, 'a>>,
    script: usize,
    parts: &[&'w [Token<'a>]],
) -> Result<(), AllocError>
    ensures { OnOk result (map seen_command commands.new.items
        ≡ map seen_command commands.old.items ++ map (command_of script) (map seen_part parts.now)) }
{
    for words in parts {
        commands.push(Command {
            script,
            words: *words,
        })?;
    }
    Ok(())
}

/// The commands of scripts.
pub(crate) fn commands_of<'w, 'a>(
    alloc: Global,
    scripts: &'w [Vec<Token<'a>>],
) -> Result<Vec<Command<'w, 'a>>, AllocError>
    ensures { IfOk result (λ commands. AreCommands 0 (seen_scripts scripts.now) (map seen_command commands.items)) }
{
    let mut commands = Vec::new(alloc);
    for (script, words) in scripts.iter().enumerate() {
        let parts = parts_in(alloc, words.as_slice())?;
        put_parts(&mut commands, script, parts.as_slice())?;
    }
    Ok(commands)
}

/// The words of the commands that begin with one.
pub(crate) fn words_of<'a>(
    alloc: Global,
    verb: &[u8],
    commands: &[Command<'_, 'a>],
) -> Result<Vec<&'a [u8]>, AllocError>
    ensures { IfOk result (λ words. seen_words words.items ≡ words_of verb.now (map seen_command commands.now)) }
{
    let mut words = Vec::new(alloc);
    for command in commands {
        if begins_with(command.words, verb) {
            let more = spoken_in(alloc, command.words)?;
            words.extend_from_slice(more.as_slice())?;
        }
    }
    Ok(words)
}
