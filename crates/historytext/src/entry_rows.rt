//! Reading an entry of a history.

ghost use Rattle.std.specs.Prelude.{◌≡◌, ◌∷◌, ◌++◌, [], List, OnOk};
ghost use Rattle.mmtext.specs.Text.{Token as SeenToken};
ghost use Rattle.mmtext.specs.Views.{seen, Gives};
ghost use Rattle.mmsyntax.specs.Tables.{Tables};
ghost use Rattle.scripts.specs.ScriptFaults.{Led as SeenLed};
ghost use Rattle.scripts.specs.ScriptViews.{decided, seen_led};
ghost use Rattle.library.specs.declared.history.Entry.{Entry};
ghost use Rattle.library.specs.declared.history.Entry.TheVariants as entry;
ghost use Rattle.historytext.specs.Places.{Answered as SeenAnswered, answered, asked, begin_row, command_row, in_entry_row, replies_left};
ghost use Rattle.historytext.specs.Views.{answer, seen_answered, seen_entry_place, seen_at};

use crate::place::{Answered, EntryPlace, Place};
use crate::reply_rows::{read_in_reply, read_reply_word};
use library::{Command, Entry, Reply, SharedList};
use mmsyntax::Prelude;
use mmtext::{FaultKind, Stop, Token, fault_at};
use scripts::{Led, read_command_word, read_in_command};
use std::alloc::{AllocError, Global};

/// A place in a command, or one more command behind the others, unless the token that was read there has a fault.
fn go_on_asking<'a>(
    left: u64,
    mut commands: Vec<Command>,
    next: Result<Led<'a>, Stop>,
) -> Result<Place<'a>, Stop>
    ensures { (t : Tables) (entries : List Entry) (token : SeenToken) (leads : SeenLed)
        → Gives (seen_led t) next.entry (decided token leads)
        → Gives (seen_at t entries) result (asked entries left commands.items token leads) }
{
    let place = match next {
        Ok(Led::Inside(place)) => EntryPlace::Within(commands, place),
        Ok(Led::Whole(command)) => {
            commands.push(command)?;
            EntryPlace::AtCommand(commands)
        }
        Err(stop) => return Err(stop),
    };
    Ok(Place::InEntry(left, place))
}

/// Puts an entry behind the others.
fn add_done(
    alloc: Global,
    entries: &mut Vec<Entry>,
    commands: Vec<Command>,
    replies: Vec<Reply>,
) -> Result<(), AllocError>
    ensures { OnOk result (entries.new.items ≡ entries.old.items ++ entry.Done commands.items replies.items ∷ []) }
{
    entries.push(Entry::Done {
        commands: SharedList::from_vec(alloc, commands)?,
        replies: SharedList::from_vec(alloc, replies)?,
    })?;
    Ok(())
}

/// Behind whole replies: the entry is whole when each command has one.
fn go_on_replying<'a>(
    alloc: Global,
    entries: &mut Vec<Entry>,
    left: u64,
    commands: Vec<Command>,
    replies: Vec<Reply>,
) -> Result<Place<'a>, Stop>
    ensures { (t : Tables) → Gives (seen_at t entries.new.items) result
        (replies_left entries.old.items left commands.items replies.items) }
{
    if replies.len() != commands.len() {
        let place = EntryPlace::AtReply(commands, replies);
        return Ok(Place::InEntry(left, place));
    }
    match add_done(alloc, entries, commands, replies) {
        Ok(()) => Ok(Place::AtEntry(left)),
        Err(_) => Err(Stop::Memory),
    }
}

/// One more reply behind the others.
fn take_reply<'a>(
    alloc: Global,
    entries: &mut Vec<Entry>,
    left: u64,
    commands: Vec<Command>,
    mut replies: Vec<Reply>,
    reply: Reply,
) -> Result<Place<'a>, Stop>
    ensures { (t : Tables) → Gives (seen_at t entries.new.items) result
        (replies_left entries.old.items left commands.items (replies.items ++ reply ∷ [])) }
{
    replies.push(reply)?;
    go_on_replying(alloc, entries, left, commands, replies)
}

/// A place in a reply, or one more reply behind the others, unless the token that was read there has a fault.
fn go_on_answering<'a>(
    alloc: Global,
    entries: &mut Vec<Entry>,
    left: u64,
    commands: Vec<Command>,
    replies: Vec<Reply>,
    next: Result<Answered<'a>, Stop>,
) -> Result<Place<'a>, Stop>
    ensures { (t : Tables) (token : SeenToken) (leads : SeenAnswered) → Gives (seen_answered t) next.entry (answer token leads)
        → Gives (seen_at t entries.new.items) result (answered entries.old.items left commands.items replies.items token leads) }
{
    match next {
        Ok(Answered::Going(place)) => {
            let place = EntryPlace::Answering(commands, replies, place);
            Ok(Place::InEntry(left, place))
        }
        Ok(Answered::Whole(reply)) => take_reply(alloc, entries, left, commands, replies, reply),
        Err(stop) => Err(stop),
    }
}

/// Behind `done`: `begin`.
fn read_at_begin<'a>(alloc: Global, left: u64, token: Token<'a>) -> Result<Place<'a>, Stop>
    ensures { (t : Tables) (entries : List Entry) → Gives (seen_at t entries) result
        (begin_row entries left (seen token.entry)) }
{
    if token.text != b"begin".as_slice() {
        return Err(fault_at(token, FaultKind::BadToken));
    }
    Ok(Place::InEntry(left, EntryPlace::AtCommand(Vec::new(alloc))))
}

/// Behind `begin` and whole commands: `commit`, or the word of a command.
fn read_at_command<'a>(
    alloc: Global,
    entries: &mut Vec<Entry>,
    left: u64,
    commands: Vec<Command>,
    token: Token<'a>,
) -> Result<Place<'a>, Stop>
    ensures { (t : Tables) → Gives (seen_at t entries.new.items) result
        (command_row t entries.old.items left commands.items (seen token.entry)) }
{
    if token.text == b"commit".as_slice() {
        return go_on_replying(alloc, entries, left, commands, Vec::new(alloc));
    }
    go_on_asking(left, commands, read_command_word(token))
}

/// Where a token leads that stands in an entry, with so many others left.
pub(crate) fn read_in_entry<'a>(
    alloc: Global,
    prelude: &Prelude,
    entries: &mut Vec<Entry>,
    left: u64,
    place: EntryPlace<'a>,
    token: Token<'a>,
) -> Result<Place<'a>, Stop>
    ensures { Gives (seen_at prelude.now entries.new.items) result
        (in_entry_row prelude.now entries.old.items left (seen_entry_place prelude.now place.entry) (seen token.entry)) }
{
    match place {
        EntryPlace::AtBegin => read_at_begin(alloc, left, token),
        EntryPlace::AtCommand(commands) => {
            read_at_command(alloc, entries, left, commands, token)
        }
        EntryPlace::Within(commands, place) => {
            go_on_asking(
                left,
                commands,
                read_in_command(alloc, prelude, place, token),
            )
        }
        EntryPlace::AtReply(commands, replies) => {
            go_on_answering(
                alloc,
                entries,
                left,
                commands,
                replies,
                read_reply_word(token),
            )
        }
        EntryPlace::Answering(commands, replies, place) => {
            let next = read_in_reply(alloc, prelude, place, token);
            go_on_answering(alloc, entries, left, commands, replies, next)
        }
    }
}
