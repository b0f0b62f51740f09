//! Tries that meet another session. A try is one call, and a conflict is met only where another session commits in the middle of it: so it
//! takes a second thread.

ghost use Rattle.std.specs.Prelude.{All, IfOk};
ghost use Rattle.library.specs.Fitting.{CommandFits};
ghost use Rattle.lawful.specs.Lawful.{setting_given};
ghost use Rattle.transaction.specs.Members.{IsSessionOf};

use crate::samples::mini;
use crate::sessions::{opened, tried};
use library::Transaction;
use scripts::read_script;
use std::alloc::{AllocGlobal, Global};
use std::random::RandomSource;
use std::sync::atomic::AtomicBool;
use std::sync::atomic::Ordering::SeqCst;
use std::test::Fail;
use std::thread::{Threads, join};
use transaction::{Library, Outcome, Session};

/// How many conflicts are to be met.
const CONFLICTS: usize = 5;

/// How often a session tries at most. Nearly each try meets the other session, which commits all the time, and on one processor each is
/// met that is cut off: a try reads 4,096 slots, and all else takes no time beside it.
const TRIES: u64 = 200_000;

/// A transaction that stages three bodies, reads all slots, and is refused.
const REFUSED: &[u8] = b"begin add 200 t $p wff $= we $. list delete no commit";

/// That one, and another that moves what it cites, up and down.
const BOTH: &[u8] =
    b"begin add 200 t $p wff $= we $. list delete no commit begin move we 101 move we 100 commit";

/// What became of tries.
#[derive(Clone, Copy)]
struct Tries {
    conflicts: usize,
    /// That were neither conflicts nor refused.
    others: usize,
}

/// Tries a transaction until it has met so many conflicts, the other session is done, or so many tries are made, and tells the other one.
fn try_often(
    alloc: Global,
    library: &Library,
    mut session: Session,
    transaction: &Transaction,
    conflicts: usize,
    most: u64,
    done: &AtomicBool,
) -> (Session, Tries)
    requires own { IsSessionOf library.now session }
    requires fit { All (CommandFits (setting_given library.now.given).prelude) transaction.now }
    ensures { IsSessionOf library.now result.0 }
{
    let mut tries = Tries {
        conflicts: 0,
        others: 0,
    };
    for _ in 0..most {
        if tries.conflicts >= conflicts || done.load(SeqCst) {
            break;
        }
        match session.attempt(alloc, library, transaction) {
            Outcome::Conflict { .. } => tries.conflicts = tries.conflicts.saturating_add(1),
            Outcome::Refused { .. } => {}
            _ => tries.others = tries.others.saturating_add(1),
        }
    }
    done.store(true, SeqCst);
    (session, tries)
}

/// What the first of two sessions has, where both try at once, on two threads: that one until it has met its conflicts, the other until
/// that is done.
fn meet<R: Threads + Sync>(
    rt: &R,
    alloc: Global,
    library: &Library,
    one: Session,
    other: Session,
    refused: &Transaction,
    moves: &Transaction,
) -> (Session, Tries)
    requires one { IsSessionOf library.now one }
    requires other { IsSessionOf library.now other }
    requires refused { All (CommandFits (setting_given library.now.given).prelude) refused.now }
    requires moves { All (CommandFits (setting_given library.now.given).prelude) moves.now }
    ensures { IsSessionOf library.now result.0 }
{
    let flag = AtomicBool::new(false);
    let done = &flag;
    let (met, _) = join(
        rt,
        move || try_often(alloc, library, one, refused, CONFLICTS, TRIES, done),
        move || try_often(alloc, library, other, moves, usize::MAX, u64::MAX, done),
    );
    met
}

/// The same, by a text that has the two transactions.
fn meet_by<R: Threads + Sync>(
    rt: &R,
    alloc: Global,
    library: &Library,
    one: Session,
    other: Session,
) -> Result<(Session, Tries), Fail>
    requires one { IsSessionOf library.now one }
    requires other { IsSessionOf library.now other }
    ensures { IfOk result (λ made. IsSessionOf library.now made.0) }
{
    let script = read_script(alloc, library.prelude(), BOTH)?;
    let [refused, moves] = script.as_slice() else {
        return Err(Fail::from("two transactions"));
    };
    Ok(meet(rt, alloc, library, one, other, refused, moves))
}

/// What becomes of the one transaction of a script: `0` where it is refused at the opening, `f` where the store is full, `c` where it
/// commits, or `-`.
fn end_of_try(
    alloc: Global,
    library: &Library,
    session: &mut Session,
    script: &[u8],
) -> Result<u8, Fail>
    requires { IsSessionOf library.now session.old }
    ensures { IsSessionOf library.now session.new }
{
    let outcome = tried(alloc, library, session, script)?;
    Ok(match &outcome {
        Outcome::Refused { place: 0, .. } => b'0',
        Outcome::StoreFull => b'f',
        Outcome::Committed { .. } => b'c',
        _ => b'-',
    })
}

/// Whether no word of the store is left but for what a session staged.
fn has_none_left(alloc: Global, library: &Library, one: &mut Session) -> Result<bool, Fail>
    requires { IsSessionOf library.now one.old }
{
    let renaming = end_of_try(alloc, library, one, b"begin rename we wf commit")?;
    let addition = b"begin add 200 t $p wff $= we $. commit";
    let staged = end_of_try(alloc, library, one, addition)?;
    Ok(renaming == b'f' && staged == b'c')
}

/// Whether the tries of a session that met another one took no word of a store that has just those of an addition: they are staged by a
/// first try, and at last no word is left but for what the session staged.
fn has_its_words_alone<R: Threads + Sync>(
    rt: &R,
    alloc: Global,
    library: &Library,
    mut one: Session,
    other: Session,
) -> Result<bool, Fail>
    requires one { IsSessionOf library.now one }
    requires other { IsSessionOf library.now other }
{
    let first = end_of_try(alloc, library, &mut one, REFUSED)?;
    let (mut one, tries) = meet_by(rt, alloc, library, one, other)?;
    let has_none_left = has_none_left(alloc, library, &mut one)?;
    Ok(first == b'0' && tries.conflicts == CONFLICTS && tries.others == 0 && has_none_left)
}

/// Takes the last of the sessions.
pub(crate) fn last_of(library: &Library, sessions: &mut Vec<Session>) -> Result<Session, Fail>
    requires { All (IsSessionOf library.now) sessions.old.items }
    ensures own { IfOk result (IsSessionOf library.now) }
    ensures others { All (IsSessionOf library.now) sessions.new.items }
{
    let _ = library;
    match sessions.pop() {
        Some(session) => Ok(session),
        None => Err(Fail::from("a session")),
    }
}

/// The tries of one session that met another one took no further word of the store.
pub(crate) fn took_no_further_word(
    rt: &(impl AllocGlobal + RandomSource + Threads + Sync),
) -> Result<bool, Fail> {
    // The words of `we`, 7, and of `t`: 1 of its label, 5 of its statement and 1 of its proof.
    let (library, mut sessions) = opened(rt, mini(), 14, 2)?;
    let one = last_of(&library, &mut sessions)?;
    let other = last_of(&library, &mut sessions)?;
    has_its_words_alone(rt, rt.alloc(), &library, one, other)
}
