//! The lines of a table.
//!
//! | The line | What is answered |
//! |---|---|
//! | `# ..`, or nothing | the line itself |
//! | `database NAME` | nothing: the lines `\| ..` behind it are the text of the database NAME |
//! | `open NAME SLOTS ROOM SESSIONS` | `opened SESSIONS`, or `not opened: ` and why |
//! | `A COMMAND ..` | what becomes of the transaction that the session A has of these commands, by one try, and its replies |
//! | `B learn A` | `learnt`: the session B has learnt what A has seen |
//! | `A snapshot` | `seen PLACE`, and the exported text of the library after PLACE entries |
//! | `finish A B ..` | `finished N`, the library's text then, and whether the replay of its history gives it; or `missing N`, `held CELL` |
//! | `locks A B ..` | the same end: the cells whose lock words have moved since the opening, in their order; or `none` |
//! | `random COUNT SEED` | how so many random transactions end, in the one-thread editor and over plain cells; or `the two differ` |
//! | any other | `cannot read this line` |
//!
//! The sessions of a library are called `A` to `Z`, or `1` to `64`. A line that can't be read changes nothing.

ghost use Rattle.std.specs.Prelude.{All, IfSome};
ghost use Rattle.lawful.specs.Lawful.{setting_given};
ghost use Rattle.library.specs.Fitting.{CommandFits};
ghost use Rattle.transaction.specs.Members.{IsSessionOf};
ghost use Rattle.trials.specs.Opened.{IsOpen};

use crate::ending::end;
use crate::opening::{Opened, open, unread};
use crate::outcomes::put_outcome;
use crate::random::compare;
use crate::seats::{learn, place_of};
use export::put_library;
use library::Transaction;
use scripts::read_script;
use std::alloc::Global;
use std::hash::RandomState;
use std::thread::Threads;
use transaction::{Library, Look, Session};
use wordrows::Written;

/// Writes what a line is answered; false where it can't be read. Before it stand the lines `before`; none where none of them begins a
/// database.
pub fn answer_line(
    rt: &(impl Threads + Sync),
    alloc: Global,
    keys: RandomState,
    out: &mut Written,
    opened: &mut Option<Opened>,
    before: &[Vec<u8>],
    line: &str,
) -> bool
    requires { IfSome opened.old IsOpen }
    ensures { IfSome opened.new IsOpen }
{
    let (word, behind) = line.split_once(' ').unwrap_or((line, ""));
    match word {
        "" | "#" => {
            out.put(line.as_bytes());
            out.put(b"\n");
            true
        }
        "database" => true,
        "|" => !before.is_empty(),
        "open" => open(rt, alloc, keys, out, opened, before, behind),
        "random" => compare(rt, alloc, keys, out, behind),
        _ => answer_opened(alloc, keys, out, opened, word, behind),
    }
}

/// Writes what a line is answered that ends what is open, or uses a session of it; false where it can't be read.
fn answer_opened(
    alloc: Global,
    keys: RandomState,
    out: &mut Written,
    opened: &mut Option<Opened>,
    word: &str,
    behind: &str,
) -> bool
    requires { IfSome opened.old IsOpen }
    ensures { IfSome opened.new IsOpen }
{
    if word == "finish" || word == "locks" {
        return end(alloc, keys, out, opened, behind, word == "locks");
    }
    match opened {
        Some(opened) => answer_session(alloc, out, opened, word, behind),
        None => false,
    }
}

/// Writes what the session of this name answers to words; false where they can't be read.
fn answer_session(
    alloc: Global,
    out: &mut Written,
    opened: &mut Opened,
    name: &str,
    words: &str,
) -> bool
    requires { IsOpen opened.old }
    ensures { IsOpen opened.new }
{
    let Some(place) = place_of(name) else {
        return false;
    };
    if let Some(other) = words.strip_prefix("learn ") {
        return learn(out, &opened.library, &mut opened.sessions, place, other);
    }
    match opened.sessions.get_mut(place) {
        Some(session) => attempt(alloc, out, &opened.library, session, words),
        None => false,
    }
}

/// Writes the lines of a look at the whole library: its place, and the exported text.
fn look(alloc: Global, out: &mut Written, library: &Library, session: &mut Session)
    requires { IsSessionOf library.now session.old }
    ensures { IsSessionOf library.now session.new }
{
    match session.snapshot(alloc, library) {
        Look::Read { place, library } => {
            out.show(format_args!("seen {place}\n"));
            let done = put_library(&mut out.bytes, &library);
            out.note(done);
        }
        Look::Conflict { .. } => out.put(b"conflict\n"),
        Look::NoMemory => out.is_short = true,
    }
}

/// Writes what a session sees, or what becomes of its transaction that has these words, by one try; false where they are no commands of
/// one transaction.
fn attempt(
    alloc: Global,
    out: &mut Written,
    library: &Library,
    session: &mut Session,
    words: &str,
) -> bool
    requires { IsSessionOf library.now session.old }
    ensures { IsSessionOf library.now session.new }
{
    if words == "snapshot" {
        look(alloc, out, library, session);
        return true;
    }
    let mut text = Written::new(alloc);
    text.show(format_args!("begin {words} commit"));
    match read_script(alloc, library.prelude(), text.bytes.as_slice()) {
        Ok(script) => attempt_script(alloc, out, library, session, script.as_slice()),
        Err(fault) => unread(out, fault),
    }
}

/// Writes what becomes of the one transaction of a script, by one try; false where it has another number of them.
fn attempt_script(
    alloc: Global,
    out: &mut Written,
    library: &Library,
    session: &mut Session,
    script: &[Transaction],
) -> bool
    requires own { IsSessionOf library.now session.old }
    requires fit { All (All (CommandFits (setting_given library.now.given).prelude)) script.now }
    ensures { IsSessionOf library.now session.new }
{
    let [transaction] = script else {
        return false;
    };
    let outcome = session.attempt(alloc, library, transaction);
    put_outcome(alloc, out, library.prelude(), &outcome);
    true
}
