//! Copies of commands, of the replies to them, and of the library behind them.

ghost use Rattle.std.specs.Prelude.{All};
ghost use Rattle.transaction.specs.Members.{IsSessionOf};

use crate::same::is_same_library;
use crate::samples::{DEMO, database};
use crate::sessions::{library_of, opened, tried_first};
use library::{Command, PlainLibrary, Reply};
use scripts::read_script;
use std::alloc::{AllocError, AllocGlobal, Global};
use std::fmt::Debug;
use std::random::RandomSource;
use std::test::Fail;
use std::thread::Threads;
use transaction::{Library, Outcome, Session};

/// Each of the eight commands, over `DEMO`: with each kind of reply.
const EACH: &[u8] = b"begin add 900 th2 $p |- 0 = 0 $= tze th1 $.
reprove th2 $= tze tze tpl tze weq tze tze weq tze a2 tze tze tpl tze weq tze tze tpl tze weq tze tze weq wim
tze a2 tze tze tpl tze tze a1 mp mp $.
replace th2 a2 a2 rename th2 zero move zero 901 show zero list delete th1 commit";

/// Whether two values have the same text for a programmer, which has each field.
fn are_told_alike(alloc: Global, one: &impl Debug, other: &impl Debug) -> Result<bool, AllocError> {
    Ok(format!(in alloc; "{one:?}")? == format!(in alloc; "{other:?}")?)
}

/// Whether a copy of a command is equal to it.
fn is_command_copied(alloc: Global, command: &Command) -> Result<bool, AllocError> {
    are_told_alike(alloc, command, &command.copy(alloc)?)
}

/// Whether a copy of a reply is equal to it.
fn is_reply_copied(alloc: Global, reply: &Reply) -> Result<bool, AllocError> {
    are_told_alike(alloc, reply, &reply.copy(alloc)?)
}

/// Whether a copy of a library is equal to it.
fn is_library_copied(alloc: Global, library: &PlainLibrary) -> Result<bool, AllocError> {
    Ok(is_same_library(&library.copy(alloc)?, library))
}

/// A copy of each command is equal to it.
pub(crate) fn are_commands_copied(rt: &(impl AllocGlobal + RandomSource)) -> Result<bool, Fail> {
    let db = database(rt, DEMO.as_bytes())?;
    let script = read_script(rt.alloc(), db.prelude(), EACH)?;
    let mut count = 0_usize;
    for transaction in script.as_slice() {
        for command in transaction.as_slice() {
            if !is_command_copied(rt.alloc(), command)? {
                return Ok(false);
            }
            count = count.saturating_add(1);
        }
    }
    Ok(count == 8)
}

/// Whether each command was done, and a copy of each reply is equal to it.
fn are_copied(alloc: Global, outcome: &Outcome) -> Result<bool, AllocError> {
    let Outcome::Committed { number: 1, replies } = outcome else {
        return Ok(false);
    };
    for reply in replies.as_slice() {
        if !is_reply_copied(alloc, reply)? {
            return Ok(false);
        }
    }
    Ok(replies.as_slice().len() == 8)
}

/// Whether copies of the replies of the first session are equal to them.
fn are_its_replies_copied(
    alloc: Global,
    library: &Library,
    sessions: &mut Vec<Session>,
) -> Result<bool, Fail>
    requires { All (IsSessionOf library.now) sessions.old.items }
    ensures { All (IsSessionOf library.now) sessions.new.items }
{
    let outcome = tried_first(alloc, library, sessions, EACH)?;
    are_copied(alloc, &outcome).map_err(Fail::from)
}

/// A copy of each reply, and of the library at the end, is equal to it.
pub(crate) fn are_replies_copied(
    rt: &(impl AllocGlobal + RandomSource + Threads + Sync),
) -> Result<bool, Fail> {
    let (library, mut sessions) = opened(rt, DEMO.as_bytes(), 1000, 1)?;
    let are_copied = are_its_replies_copied(rt.alloc(), &library, &mut sessions)?;
    let after = library_of(rt.alloc(), library, sessions)?;
    let is_library_copied = is_library_copied(rt.alloc(), &after)?;
    Ok(are_copied && is_library_copied && after.entries().len() == 8)
}
