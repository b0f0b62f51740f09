//! Reading a script, token by token.

ghost use Rattle.std.specs.Prelude.{◌≡◌, List, All, IfOk};
ghost use Rattle.mmtext.specs.Text.{Token as SeenToken};
ghost use Rattle.mmtext.specs.Views.{seen, Gives};
ghost use Rattle.mmtext.specs.Laws.{IsRead};
ghost use Rattle.mmsyntax.specs.Tables.{Tables};
ghost use Rattle.library.specs.declared.command.Command.{Command};
ghost use Rattle.library.specs.Fitting.{CommandFits};
ghost use Rattle.scripts.specs.Scripts.{SpellsScript};
ghost use Rattle.scripts.specs.ScriptFaults.{Led as SeenLed, led, command_row, in_place, whole, script_language};
ghost use Rattle.scripts.specs.ScriptViews.{decided, seen_led, seen_place, seen_at};

mod command_rows;
mod numerals;
mod place;

use command_rows::is_word;
pub use command_rows::{
    read_command_word, read_in_command, read_label, read_rank, take_in_command,
};
use library::{Command, Script, SharedList, Transaction};
use mmsyntax::{MOST_BYTES, Prelude, Sequence};
use mmtext::{FaultKind, Mark, Reader, Stop, TextFault, Token, fault_at, read};
pub use numerals::is_numeral;
use place::{Place, ScriptReader};
pub use place::{CommandPlace, Labels, Led, Verb};
use statementreader::Recent;
use std::alloc::Global;
use std::mem;

/// A place in a command, or one more command behind the others, unless the token that was read there has a fault.
fn go_on<'a>(mut commands: Vec<Command>, next: Result<Led<'a>, Stop>) -> Result<Place<'a>, Stop>
    ensures { (t : Tables) (script : List (List Command)) (token : SeenToken) (leads : SeenLed)
        → Gives (seen_led t) next.entry (decided token leads)
        → Gives (seen_at t script) result (led script commands.items token leads) }
{
    match next {
        Ok(Led::Inside(place)) => Ok(Place::Within(commands, place)),
        Ok(Led::Whole(command)) => {
            commands.push(command)?;
            Ok(Place::AtCommand(commands))
        }
        Err(stop) => Err(stop),
    }
}

/// Behind `begin` and whole commands: `commit`, or the word of a command.
fn read_at_command<'a>(
    alloc: Global,
    script: &mut Vec<Transaction>,
    commands: Vec<Command>,
    token: Token<'a>,
) -> Result<Place<'a>, Stop>
    ensures { (t : Tables) → Gives (seen_at t script.new.items) result
        (command_row t script.old.items commands.items (seen token.entry)) }
{
    if is_word(token, b"commit") {
        script.push(SharedList::from_vec(alloc, commands)?)?;
        return Ok(Place::Outermost);
    }
    go_on(commands, read_command_word(token))
}

/// Where a token leads that stands in no comment and opens none. A transaction that it ends is put behind the others.
fn next_place<'a>(
    alloc: Global,
    prelude: &Prelude,
    script: &mut Vec<Transaction>,
    place: Place<'a>,
    token: Token<'a>,
) -> Result<Place<'a>, Stop>
    ensures { Gives (seen_at prelude.now script.new.items) result
        (in_place prelude.now script.old.items (seen_place prelude.now place.entry) (seen token.entry)) }
{
    match place {
        Place::Outermost if is_word(token, b"begin") => { Ok(Place::AtCommand(Vec::new(alloc))) }
        Place::Outermost => Err(fault_at(token, FaultKind::BadToken)),
        Place::AtCommand(commands) => read_at_command(alloc, script, commands, token),
        Place::Within(commands, place) => {
            go_on(commands, read_in_command(alloc, prelude, place, token))
        }
    }
}

/// Goes from a place to where a token leads.
fn advance<'a>(
    alloc: Global,
    prelude: &Prelude,
    script: &mut Vec<Transaction>,
    place: &mut Place<'a>,
    token: Token<'a>,
) -> Result<(), Stop>
    ensures { Gives (λ _. seen_at prelude.now script.new.items place.new) result
        (in_place prelude.now script.old.items (seen_place prelude.now place.old) (seen token.entry)) }
{
    let here = mem::replace(place, Place::Outermost);
    let next = next_place(alloc, prelude, script, here, token)?;
    drop(mem::replace(place, next));
    Ok(())
}

/// The script of the transactions that were committed, where it may end at a place: no transaction is open.
fn ended_at(script: Vec<Transaction>, place: &Place<'_>) -> Option<Script>
    ensures { (t : Tables) → result ≡ whole script.items (seen_place t place.now) }
{
    match place {
        Place::Outermost => Some(Sequence::from_vec(script)),
        _ => None,
    }
}

impl<'a> Reader<'a> for ScriptReader<'a> {
    ghost use Rattle.std.specs.Prelude.{List};
    ghost use Rattle.library.specs.declared.command.Command.{Command};
    ghost use Rattle.statementreader.specs.Recalls.{RecallsTrue};
    ghost use Rattle.scripts.specs.ScriptFaults.{Progress, script_language};
    ghost use Rattle.scripts.specs.ScriptViews.{seen_progress};

    type Said = Script;

    ghost Place = { Progress };

    ghost Meaning = { List (List Command) };

    ghost language = { λ r. script_language r.prelude.now };

    ghost place = { seen_progress };

    ghost IsReady = { λ r. RecallsTrue r.prelude.now r.recent };

    ghost meaning = { λ script. script };

    fn most_bytes(&self) -> usize {
        MOST_BYTES
    }

    fn take_word(&mut self, alloc: Global, token: Token<'a>) -> Result<bool, Stop> {
        match &mut self.place {
            Place::Within(_, place) => {
                take_in_command(alloc, self.prelude, &mut self.recent, place, token)
            }
            _ => Ok(false),
        }
    }

    fn take(&mut self, alloc: Global, token: Token<'a>, _mark: Mark) -> Result<(), Stop> {
        advance(
            alloc,
            self.prelude,
            &mut self.script,
            &mut self.place,
            token,
        )
    }

    fn finish(self) -> Option<Script> {
        let ScriptReader {
            prelude: _,
            recent,
            script,
            place,
        } = self;
        drop(recent);
        let ended = ended_at(script, &place);
        drop(place);
        ended
    }
}

/// The script that a text spells over a prelude: transactions, each of them `begin`, commands and `commit`. Comments may stand between any
/// two words.
///
/// A command is `add` with a rank and one `$a` or `$p`, alone or in its block; `reprove` with a label, `$=`, steps and `$.`; `replace` with
/// a label, the old label and the new one; `rename` with the old label and the new one; `move` with a label and a rank; `delete` or `show`
/// with a label; or `list`. A label is any word without `$`. A rank is a number up to 4,294,967,295 in decimal digits without leading zero.
/// In another proof of L the step `L.k` is the k-th hypothesis, for k from 1 to 1,000, whether L has it or not. No library is looked at.
///
/// # Errors
///
/// The first fault of the text: `TooLong` at 16,777,216 if it has more bytes than that; else `BadByte` at the first byte that is neither
/// printable ASCII nor white space, also in a comment; else the fault of the first token that may not stand at its place; else `Unfinished`
/// at the length of a text that ends in a transaction or in a comment. `NoMemory`, with place 0, if memory ran out.
///
/// A token that may not stand at its place is `BadToken`, and besides:
///
/// - `OutOfProfile` for `$[` and `$]` outside of comments;
/// - `TooLong` for a rank that is higher;
/// - in an assertion the faults of `read_assertion`;
/// - in another proof `OutOfProfile` for `?` and `(`, `TooLong` for a step behind 16,384, and `BadLabel` for a label that is too long,
///   unless it is that of a `$f` or `L.k`.
pub fn read_script(alloc: Global, prelude: &Prelude, text: &[u8]) -> Result<Script, TextFault>
    // What is read is spelled so, and what is spelled so is read, unless memory runs out; a fault is the text's, or want of memory.
    ensures read { IsRead (script_language prelude.now) (SpellsScript prelude.now) text.now result }
    // Its commands are within the limits of the prelude.
    ensures fits { IfOk result (λ script. All (λ commands. All (CommandFits prelude.now) commands) script) }
{
    // Some text declares a prelude, so what is read over it fits.
    // For the proof: some text declares the prelude.
    let _floats = prelude.floats();
    let reader = ScriptReader {
        prelude,
        recent: Recent::for_text(alloc, text.len()),
        script: Vec::new(alloc),
        place: Place::Outermost,
    };
    read(alloc, reader, text)
}
