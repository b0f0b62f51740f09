//! The whole way of a caller: a library is opened, two sessions submit on threads of their own, one learns of the other and looks, and the
//! library at its end is exported. `docs/CALLING.md` explains it line by line.

ghost use Rattle.std.specs.Prelude.{All};
ghost use Rattle.lawful.specs.Lawful.{setting_given};
ghost use Rattle.library.specs.Fitting.{CommandFits};
ghost use Rattle.transaction.specs.Members.{IsSessionOf};

use crate::meeting::last_of;
use crate::samples::mini;
use crate::sessions::opened;
use export::export;
use finishing::finish;
use library::Transaction;
use scripts::read_script;
use std::alloc::{AllocGlobal, Global};
use std::random::RandomSource;
use std::sync::Wait;
use std::test::Fail;
use std::thread::{Threads, join};
use transaction::{Library, Look, Outcome, Session};

/// Two transactions, of which neither gets in the other's way for long.
const SCRIPT: &[u8] =
    b"begin add 200 t $p wff $= we $. commit begin add 300 u $p wff $= we $. commit";

/// The library behind both, whichever was first.
const BEHIND: &[u8] = b"$c wff $.\nwe $a wff $.\nt $p wff $= we $.\nu $p wff $= we $.\n";

/// A session submits a transaction: it tries until it meets no other. The session comes back with what became of it.
fn submitted<R: Wait>(
    rt: &R,
    alloc: Global,
    library: &Library,
    mut session: Session,
    transaction: &Transaction,
) -> (Session, Outcome)
    requires own { IsSessionOf library.now session }
    requires fit { All (CommandFits (setting_given library.now.given).prelude) transaction.now }
    ensures { IsSessionOf library.now result.0 }
{
    let outcome = session.submit(rt, alloc, library, transaction);
    (session, outcome)
}

/// Two sessions submit a transaction each, at once.
fn both_submit<R: Threads + Wait + Sync>(
    rt: &R,
    alloc: Global,
    library: &Library,
    one: Session,
    other: Session,
    first: &Transaction,
    second: &Transaction,
) -> (Session, Session)
    requires one { IsSessionOf library.now one }
    requires other { IsSessionOf library.now other }
    requires first { All (CommandFits (setting_given library.now.given).prelude) first.now }
    requires second { All (CommandFits (setting_given library.now.given).prelude) second.now }
    ensures one { IsSessionOf library.now result.0 }
    ensures other { IsSessionOf library.now result.1 }
{
    let (done, behind) = join(
        rt,
        move || submitted(rt, alloc, library, one, first),
        move || submitted(rt, alloc, library, other, second),
    );
    (done.0, behind.0)
}

/// The text of the library at its end, where a session that has learnt of the other looked at it before.
pub(crate) fn is_one_library(
    rt: &(impl AllocGlobal + RandomSource + Threads + Wait + Sync),
) -> Result<bool, Fail> {
    let alloc = rt.alloc();
    let (library, mut sessions) = opened(rt, mini(), 1000, 2)?;
    let script = read_script(alloc, library.prelude(), SCRIPT)?;
    let [first, second] = script.as_slice() else {
        return Err(Fail::from("two transactions"));
    };
    let one = last_of(&library, &mut sessions)?;
    let other = last_of(&library, &mut sessions)?;
    let (mut one, mut other) = both_submit(rt, alloc, &library, one, other, first, second);
    one.learn(&library, &mut other);
    let place = match one.snapshot(alloc, &library) {
        Look::Read { place, .. } => place,
        _ => 0,
    };
    sessions.push(one)?;
    sessions.push(other)?;
    let (history, after) = finish(alloc, library, sessions)?;
    let mut text = Vec::new(alloc);
    export(alloc, &after, &mut text)?;
    let entries = history.as_slice().len() as u64;
    Ok(place == entries && text.as_slice() == BEHIND)
}
