//! How an edit ends: what is told of it, and where its texts go.

ghost use Rattle.std.specs.Prelude.{◌≡◌, ◌∷◌, [], ℕ, List, is_ok, map, string_bytes};
ghost use Rattle.std.specs.Option.{option_map};
ghost use Rattle.outside.specs.Events.{Event, Adds, says};
ghost use Rattle.program.specs.Endings.{all_said, undone_status, status_if, put_by, IsFiled, IsExchanged, IsPrintedOut, IsPutAt, ArePutReplies, replies_of, replies_path};
ghost use Rattle.program.specs.Endings.{IsPutNotDone, IsNotDoneTold, said_of, reason_of, line_of, IsCut};
ghost use Rattle.program.specs.Endings.{IsPrintedTold, IsUndoneTold, IsUnfinishedTold, IsEditTold};

use crate::summary::note_if;
use commandline::{Destination, Outputs};
use conduct::{Manner, tell_unprinted, tell_unwritten};
use editscripts::Replies;
use edittext::{Account, Told};
use outside::{Reason, World, unread_text};
use replylines::not_done_line;
use std::alloc::Global;

/// Why nothing is done for an order to edit, before there is an answer.
#[derive(Clone, Copy)]
pub(crate) enum NotDone<'a> {
    /// What this path stands for can't be read, for this reason.
    Unread(&'a str, Reason),
    /// At this path is no plain file, in whose place a text could be put.
    NotPlain(&'a str),
    /// The system gives no random numbers.
    Unkeyed,
    /// Memory ran out.
    NoMemory,
}

/// Says lines, one after another.
fn say_all<W: World>(world: &mut W, lines: &[String])
    ensures { Adds (W.done world.old) (W.done world.new) (all_said lines.now) }
{
    for line in lines {
        world.say(line.as_str());
    }
}

/// The status where these lines say which transactions were not done.
fn undone_status(lines: &[String]) -> u8
    ensures { result ≡ undone_status lines.now }
{
    if lines.is_empty() { 0 } else { 3 }
}

/// The status where the edited source is where it is to be, and what became of the transactions; or one of them isn't.
fn status_if(written: Result<(), u8>, replied: bool, status: u8) -> u8
    ensures { result ≡ status_if written replied status }
{
    match (written, replied) {
        (Ok(()), true) => status,
        (Err(failed), true) => failed,
        (_, false) => 1,
    }
}

/// Whether a text is where it is to be; the status is 1 where it isn't.
fn put_by(well: bool) -> Result<(), u8>
    ensures { result ≡ put_by well }
{
    if well { Ok(()) } else { Err(1) }
}

/// Writes a text to the file at a path, and answers whether it is there; says why not.
pub(crate) fn file<W: World>(world: &mut W, alloc: Global, path: &str, text: &[u8]) -> bool
    ensures { (es : List Event) × Adds (W.done world.old) (W.done world.new) es × IsFiled path.now text.now es result }
{
    match world.write(alloc, path, text) {
        Ok(()) => true,
        Err(why) => {
            tell_unwritten(world, Manner::Full, path, &why);
            false
        }
    }
}

/// Puts a text in place of what the file at a path has, and answers whether it is there; says why not.
fn exchange<W: World>(world: &mut W, alloc: Global, path: &str, text: &[u8]) -> bool
    ensures { (es : List Event) × Adds (W.done world.old) (W.done world.new) es × IsExchanged path.now text.now es result }
{
    match world.replace(alloc, path, text) {
        Ok(()) => true,
        Err(why) => {
            tell_unwritten(world, Manner::Full, path, &why);
            false
        }
    }
}

/// Prints a text; or says why that can't be, unless the standard output is a closed pipe, and answers the status of that.
fn print<W: World>(world: &mut W, text: &[u8]) -> Result<(), u8>
    ensures { (es : List Event) × Adds (W.done world.old) (W.done world.new) es × IsPrintedOut text.now es result }
{
    match world.print(text) {
        Ok(()) => Ok(()),
        Err(why) => Err(tell_unprinted(world, Manner::Full, why)),
    }
}

/// Prints the edited source, writes it to a file, or puts it in place of the source; or says why that can't be, and answers the status of
/// that.
fn put_at<W: World>(
    world: &mut W,
    alloc: Global,
    place: Destination<'_>,
    source: &str,
    out: &[u8],
) -> Result<(), u8>
    ensures { (es : List Event) × Adds (W.done world.old) (W.done world.new) es
        × IsPutAt place.entry source.now out.now es result }
{
    match place {
        Destination::Printed => print(world, out),
        Destination::File(path) => put_by(file(world, alloc, path, out)),
        Destination::Source => put_by(exchange(world, alloc, source, out)),
    }
}

/// What became of the transactions, by whether the edited source was written.
fn replies_of(written: bool, replies: &Replies) -> &[u8]
    ensures { result.now ≡ replies_of written replies.now }
{
    if written {
        replies.written.as_slice()
    } else {
        replies.unwritten.as_slice()
    }
}

/// Writes what became of the transactions to the file at a path, if there is one and it was told, and answers whether it is there; says
/// why not.
fn put_replies<W: World>(
    world: &mut W,
    alloc: Global,
    path: Option<&str>,
    replies: Option<&Replies>,
    written: bool,
) -> bool
    ensures { (es : List Event) × Adds (W.done world.old) (W.done world.new) es
        × ArePutReplies (option_map (λ p. p.now) path.entry) (option_map (λ r. r.now) replies.entry) written es result }
{
    match (path, replies) {
        (Some(path), Some(replies)) => file(world, alloc, path, replies_of(written, replies)),
        _ => true,
    }
}

/// Writes to the file at a path, if there is one, why nothing is done, and what is said in front of that.
fn put_not_done<W: World>(
    world: &mut W,
    alloc: Global,
    path: Option<&str>,
    said: &str,
    reason: &str,
)
    ensures { (es : List Event) × Adds (W.done world.old) (W.done world.new) es
        × IsPutNotDone (option_map (λ p. p.now) path.entry) said.now reason.now es }
{
    let Some(path) = path else {
        return;
    };
    match not_done_line(alloc, said, reason) {
        Ok(line) => {
            file(world, alloc, path, line.as_slice());
        }
        Err(_) => world.say("no memory"),
    }
}

/// A line in two parts, which its first colon and space part; without these all of it is the second.
fn cut(line: &str) -> (&str, &str)
    ensures { IsCut line.now result.0.now result.1.now }
{
    match line.split_once(": ") {
        Some(parts) => parts,
        None => ("", line),
    }
}

/// Says why nothing is done, which the file at a path has then too, if there is one.
fn tell_refused<W: World>(world: &mut W, alloc: Global, path: Option<&str>, line: &str) -> u8
    ensures { (said : List ℕ) × (reason : List ℕ) × IsCut line.now said reason × (es : List Event)
        × Adds (W.done world.old) (W.done world.new) es
        × IsNotDoneTold (option_map (λ p. p.now) path.entry) said reason line.now es result }
{
    let (said, reason) = cut(line);
    world.say(line);
    put_not_done(world, alloc, path, said, reason);
    1
}

/// What is said in front of the reason why nothing is done.
fn said_of<'a>(why: NotDone<'a>) -> &'a str
    ensures { result.now ≡ said_of why.entry }
{
    match why {
        NotDone::Unread(path, _) | NotDone::NotPlain(path) => path,
        NotDone::Unkeyed | NotDone::NoMemory => "",
    }
}

/// The reason why nothing is done.
fn reason_of(why: NotDone<'_>) -> &'static str
    ensures { result.now ≡ reason_of why.entry }
{
    match why {
        NotDone::Unread(_, why) => unread_text(why),
        NotDone::NotPlain(_) => "not a plain file",
        NotDone::Unkeyed => "no random numbers",
        NotDone::NoMemory => "no memory",
    }
}

/// Says why nothing is done.
fn say_not_done<W: World>(world: &mut W, why: NotDone<'_>)
    ensures { Adds (W.done world.old) (W.done world.new) (says (line_of why.entry) ∷ []) }
{
    match why {
        NotDone::Unread(path, why) => world.say_of(path, unread_text(why)),
        NotDone::NotPlain(path) => world.say_of(path, "not a plain file"),
        NotDone::Unkeyed => world.say("no random numbers"),
        NotDone::NoMemory => world.say("no memory"),
    }
}

/// Says why nothing is done, which the file at a path has then too, if there is one: status 1.
pub(crate) fn tell_not_done<W: World>(
    world: &mut W,
    alloc: Global,
    path: Option<&str>,
    why: NotDone<'_>,
) -> u8
    ensures { (es : List Event) × Adds (W.done world.old) (W.done world.new) es
        × IsNotDoneTold (option_map (λ p. p.now) path.entry) (said_of why.entry) (reason_of why.entry) (line_of why.entry) es result }
{
    say_not_done(world, why);
    put_not_done(world, alloc, path, said_of(why), reason_of(why));
    1
}

/// Tells which transactions weren't done, puts the edited source where it goes, notes what was done, and then puts what became of each
/// transaction where that goes.
fn tell_printed<W: World>(
    world: &mut W,
    alloc: Global,
    outputs: Outputs<'_>,
    source: &str,
    out: &[u8],
    account: &Account,
) -> u8
    ensures { (es : List Event) × Adds (W.done world.old) (W.done world.new) es
        × IsPrintedTold outputs.entry source.now out.now account.now es result }
{
    let undone = account.undone.as_slice();
    say_all(world, undone);
    say_all(world, account.spoken.as_slice());
    let written = put_at(world, alloc, outputs.place, source, out);
    let (place, is_written) = (outputs.place, written.is_ok());
    note_if(world, alloc, is_written, place, source, out.len(), account);
    let replies = account.replies.as_ref();
    let well = put_replies(world, alloc, outputs.replies, replies, is_written);
    status_if(written, well, undone_status(undone))
}

/// Tells what became of the transactions, where no source is printed.
fn tell_undone<W: World>(
    world: &mut W,
    alloc: Global,
    outputs: Outputs<'_>,
    account: &Account,
) -> u8
    ensures { (es : List Event) × Adds (W.done world.old) (W.done world.new) es
        × IsUndoneTold outputs.entry account.now es result }
{
    say_all(world, account.undone.as_slice());
    let replies = account.replies.as_ref();
    let well = put_replies(world, alloc, outputs.replies, replies, false);
    status_if(Ok(()), well, 3)
}

/// Tells what became of the transactions, and why no source is printed behind their run.
fn tell_unfinished<W: World>(
    world: &mut W,
    alloc: Global,
    outputs: Outputs<'_>,
    account: &Account,
    line: &str,
) -> u8
    ensures { (es : List Event) × Adds (W.done world.old) (W.done world.new) es
        × IsUnfinishedTold outputs.entry account.now line.now es result }
{
    say_all(world, account.undone.as_slice());
    world.say(line);
    let replies = account.replies.as_ref();
    put_replies(world, alloc, outputs.replies, replies, false);
    1
}

/// Tells an answer: what became of the transactions, and the edited source where it goes; or the line of the refusal.
pub(crate) fn tell_edited<W: World>(
    world: &mut W,
    alloc: Global,
    outputs: Outputs<'_>,
    source: &str,
    told: &Told,
) -> u8
    ensures { (es : List Event) × Adds (W.done world.old) (W.done world.new) es
        × IsEditTold outputs.entry source.now told.now es result }
{
    match told {
        Told::Printed(out, account) => {
            tell_printed(world, alloc, outputs, source, out.as_slice(), account)
        }
        Told::Undone(account) => tell_undone(world, alloc, outputs, account),
        Told::Unfinished(account, line) => {
            tell_unfinished(world, alloc, outputs, account, line.as_str())
        }
        Told::Refused(line) => tell_refused(world, alloc, outputs.replies, line.as_str()),
    }
}
