//! What the calls begin and end with: a library in running words with its sessions, one try, and the library's end.

ghost use Rattle.std.specs.Prelude.{All, IfOk};
ghost use Rattle.lawful.specs.Lawful.{setting_given};
ghost use Rattle.library.specs.Fitting.{CommandFits};
ghost use Rattle.transaction.specs.Members.{IsSessionOf};

use crate::samples::database;
use finishing::{FinishError, finish};
use library::{PlainLibrary, Transaction};
use scripts::read_script;
use std::alloc::{AllocGlobal, Global};
use std::hash::RandomState;
use std::random::RandomSource;
use std::test::Fail;
use std::thread::Threads;
use transaction::{Library, Outcome, Session, Shape};

/// The library of a text with so much room, and its sessions.
pub(crate) fn opened(
    rt: &(impl AllocGlobal + RandomSource + Threads + Sync),
    text: &[u8],
    room: usize,
    sessions: usize,
) -> Result<(Library, Vec<Session>), Fail>
    ensures { IfOk result (λ made. All (IsSessionOf made.0) made.1.items) }
{
    let keys = RandomState::new(rt)?;
    let db = database(rt, text)?;
    let shape = Shape {
        slots: 4096,
        room,
        sessions,
    };
    Ok(Library::open(rt, rt.alloc(), keys, &db, shape)?)
}

/// What becomes of a transaction by one try, or where memory was refused to that, by the next.
fn try_twice(
    alloc: Global,
    library: &Library,
    session: &mut Session,
    transaction: &Transaction,
) -> Outcome
    requires own { IsSessionOf library.now session.old }
    requires fit { All (CommandFits (setting_given library.now.given).prelude) transaction.now }
    ensures { IsSessionOf library.now session.new }
{
    match session.attempt(alloc, library, transaction) {
        Outcome::NoMemory => session.attempt(alloc, library, transaction),
        outcome => outcome,
    }
}

/// The same of the one transaction of a script.
pub(crate) fn tried(
    alloc: Global,
    library: &Library,
    session: &mut Session,
    script: &[u8],
) -> Result<Outcome, Fail>
    requires { IsSessionOf library.now session.old }
    ensures { IsSessionOf library.now session.new }
{
    let script = read_script(alloc, library.prelude(), script)?;
    match script.as_slice() {
        [transaction] => Ok(try_twice(alloc, library, session, transaction)),
        _ => Err(Fail::from("one transaction")),
    }
}

/// The same of the first of the sessions.
pub(crate) fn tried_first(
    alloc: Global,
    library: &Library,
    sessions: &mut Vec<Session>,
    script: &[u8],
) -> Result<Outcome, Fail>
    requires { All (IsSessionOf library.now) sessions.old.items }
    ensures { All (IsSessionOf library.now) sessions.new.items }
{
    match sessions.get_mut(0) {
        Some(session) => tried(alloc, library, session, script),
        None => Err(Fail::from("a session")),
    }
}

/// The library at its end.
pub(crate) fn library_of(
    alloc: Global,
    library: Library,
    sessions: Vec<Session>,
) -> Result<PlainLibrary, FinishError>
    requires { All (IsSessionOf library) sessions.items }
{
    let (_history, after) = finish(alloc, library, sessions)?;
    Ok(after)
}

/// How many entries and assertions a library has at its end, or why it has no end.
pub(crate) fn end_of(
    alloc: Global,
    library: Library,
    sessions: Vec<Session>,
) -> Result<(usize, usize), FinishError>
    requires { All (IsSessionOf library) sessions.items }
{
    let (history, after) = finish(alloc, library, sessions)?;
    Ok((history.as_slice().len(), after.entries().len()))
}
