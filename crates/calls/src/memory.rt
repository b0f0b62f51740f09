//! Want of memory: what calls on a library in running words answer where it is refused, and what they answer after that.
//!
//! Each call is answered so where memory is there, and `tools/refuse-memory` makes it with each allocation refused in turn. Where the call
//! that it is of answers something else, the answer isn't the wanted one. Where memory is refused to what goes before that call or comes
//! after it, want of memory is the error.

ghost use Rattle.std.specs.Prelude.{All};
ghost use Rattle.transaction.specs.Members.{IsSessionOf};

use crate::again;
use crate::samples::{DEMO, database};
use crate::sessions::{end_of, opened, tried_first};
use export::write_library;
use finishing::FinishError;
use mmstatement::Database;
use scripts::Reply;
use std::alloc::{AllocError, AllocGlobal, Global};
use std::hash::RandomState;
use std::random::RandomSource;
use std::test::Fail;
use std::thread::Threads;
use transaction::{Library, Look, OpenError, Outcome, Session, Shape};

/// The room of each library: words enough that no try lacks any.
const ROOM: usize = 1_048_576;

/// Calls by name. A row of texts and numbers alone costs the check little.
struct Row {
    name: &'static str,
    /// The library's text: `demo`, or `rules`.
    database: &'static str,
    /// The one transaction that is tried, or `open`, or `look`.
    script: &'static str,
    /// What is counted in the answer: the replies, the rank of what is shown, the lines of a list; behind `end`, the assertions.
    count: usize,
}

/// The calls.
const ROWS: [Row; 16] = [
    Row {
        name: "an_addition_is_tried_again",
        database: "demo",
        script: "begin add 900 th2 $p |- 0 = 0 $= tze th1 $. commit",
        count: 1,
    },
    Row {
        name: "a_new_proof_is_tried_again",
        database: "demo",
        script: "begin reprove th1 $= tt tze tpl tt weq tt tt weq tt a2 tt tze tpl tt weq tt tze tpl tt weq tt tt weq wim
tt a2 tt tze tpl tt tt a1 mp mp $. commit",
        count: 1,
    },
    Row {
        name: "a_replacement_is_tried_again",
        database: "demo",
        script: "begin replace th1 a2 a2 commit",
        count: 1,
    },
    Row {
        name: "a_renaming_is_tried_again",
        database: "demo",
        script: "begin rename th1 refl commit",
        count: 1,
    },
    Row {
        name: "a_move_is_tried_again",
        database: "demo",
        script: "begin move th1 801 commit",
        count: 1,
    },
    Row {
        name: "a_deletion_is_tried_again",
        database: "demo",
        script: "begin delete th1 commit",
        count: 1,
    },
    Row {
        name: "what_is_shown_is_tried_again",
        database: "demo",
        script: "begin show th1 commit",
        count: 800,
    },
    Row {
        name: "a_list_is_tried_again",
        database: "demo",
        script: "begin list commit",
        count: 8,
    },
    Row {
        name: "all_commands_are_tried_again",
        database: "demo",
        script: "begin add 900 th2 $p |- 0 = 0 $= tze th1 $.
reprove th2 $= tze tze tpl tze weq tze tze weq tze a2 tze tze tpl tze weq tze tze tpl tze weq tze tze weq wim
tze a2 tze tze tpl tze tze a1 mp mp $.
replace th2 a2 a2 rename th2 zero move zero 901 show zero list delete zero commit",
        count: 8,
    },
    Row {
        name: "all_commands_on_rules_are_tried_again",
        database: "rules",
        script: "begin add 500 ${ $d x y $. th3.1 $e |- x y $. th3 $p |- x y x $= wx wy th3.1 th2 $. $}
reprove th3 $= wx wy th3.1 th $.
replace th3 th th rename th3 rule move rule 501 show rule list delete rule commit",
        count: 8,
    },
    Row {
        name: "a_library_is_opened_again",
        database: "demo",
        script: "open",
        count: 2,
    },
    Row {
        name: "a_library_of_rules_is_opened_again",
        database: "rules",
        script: "open",
        count: 2,
    },
    Row {
        name: "a_look_is_tried_again",
        database: "demo",
        script: "look",
        count: 0,
    },
    Row {
        name: "a_look_at_rules_is_tried_again",
        database: "rules",
        script: "look",
        count: 0,
    },
    Row {
        name: "an_end_is_whole_or_lacks_memory",
        database: "demo",
        script: "end begin rename th1 refl commit",
        count: 8,
    },
    Row {
        name: "an_end_of_rules_is_whole_or_lacks_memory",
        database: "rules",
        script: "end begin rename th2 rule commit",
        count: 4,
    },
];

/// A database with `$d` and `$e`, whose second theorem cites the first: both are of the same rule.
const RULES: &str = "$c wff |- $.
$v x y $.
wx $f wff x $.
wy $f wff y $.
id $a |- x y x $.
wc $a wff $.
${
  $d x y $.
  th.1 $e |- x y $.
  th $p |- x y x $= wx wy id $.
$}
${
  $d x y $.
  th2.1 $e |- x y $.
  th2 $p |- x y x $= wx wy th2.1 th $.
$}
";

/// Makes the calls of this name, and says whether the answers are the wanted ones.
pub(crate) fn make(
    rt: &(impl AllocGlobal + RandomSource + Threads + Sync),
    name: &str,
) -> Result<bool, Fail> {
    for row in &ROWS {
        if row.name == name {
            let text = if row.database == "rules" { RULES } else { DEMO };
            return is_answered(rt, row, text.as_bytes());
        }
    }
    again::make(rt, name)
}

/// Whether the call of a row over the library of a text has its answer.
fn is_answered(
    rt: &(impl AllocGlobal + RandomSource + Threads + Sync),
    row: &Row,
    text: &[u8],
) -> Result<bool, Fail> {
    match row.script {
        "open" => is_opened(rt, text, row.count),
        "look" => is_seen(rt, text),
        script => match script.strip_prefix("end ") {
            Some(script) => is_ended(rt, text, script, row.count),
            None => is_done(rt, text, script, row.count),
        },
    }
}

/// With how many sessions the library of a database is opened, of so many; 0 where it isn't opened, and none where memory was refused.
fn sessions_of(
    rt: &(impl AllocGlobal + Threads + Sync),
    keys: RandomState,
    db: &Database,
    count: usize,
) -> Option<usize> {
    let shape = Shape {
        slots: 4096,
        room: ROOM,
        sessions: count,
    };
    match Library::open(rt, rt.alloc(), keys, db, shape) {
        Ok((_library, sessions)) => Some(sessions.len()),
        Err(OpenError::NoMemory) => None,
        Err(_) => Some(0),
    }
}

/// Whether the library of a text is opened with so many sessions: by one try, or where memory was refused to that, by the next.
fn is_opened(
    rt: &(impl AllocGlobal + RandomSource + Threads + Sync),
    text: &[u8],
    count: usize,
) -> Result<bool, Fail> {
    let keys = RandomState::new(rt)?;
    let db = database(rt, text)?;
    let sessions = match sessions_of(rt, keys, &db, count) {
        None => sessions_of(rt, keys, &db, count),
        sessions => sessions,
    };
    Ok(sessions == Some(count))
}

/// Whether a look at the whole library sees just a text; none where memory was refused to it.
fn sees(
    alloc: Global,
    library: &Library,
    session: &mut Session,
    text: &[u8],
) -> Result<Option<bool>, AllocError>
    requires { IsSessionOf library.now session.old }
    ensures { IsSessionOf library.now session.new }
{
    match session.snapshot(alloc, library) {
        Look::Read { place: 0, library } => {
            Ok(Some(write_library(alloc, &library)?.as_slice() == text))
        }
        Look::NoMemory => Ok(None),
        _ => Ok(Some(false)),
    }
}

/// The same of the first session, or where memory was refused to that, of its next look.
fn sees_at_last(
    alloc: Global,
    library: &Library,
    sessions: &mut Vec<Session>,
    text: &[u8],
) -> Result<bool, AllocError>
    requires { All (IsSessionOf library.now) sessions.old.items }
{
    let Some(session) = sessions.get_mut(0) else {
        return Ok(false);
    };
    match sees(alloc, library, session, text)? {
        Some(is_seen) => Ok(is_seen),
        None => Ok(sees(alloc, library, session, text)? == Some(true)),
    }
}

/// Whether a look at the whole library of a text sees just the text.
fn is_seen(
    rt: &(impl AllocGlobal + RandomSource + Threads + Sync),
    text: &[u8],
) -> Result<bool, Fail> {
    let (library, mut sessions) = opened(rt, text, ROOM, 1)?;
    sees_at_last(rt.alloc(), &library, &mut sessions, text).map_err(Fail::from)
}

/// Whether a transaction of the first session has its answer.
fn has_answer(
    alloc: Global,
    library: &Library,
    sessions: &mut Vec<Session>,
    script: &str,
    count: usize,
) -> Result<bool, Fail>
    requires { All (IsSessionOf library.now) sessions.old.items }
    ensures { All (IsSessionOf library.now) sessions.new.items }
{
    let outcome = tried_first(alloc, library, sessions, script.as_bytes())?;
    Ok(has_count(&outcome, count))
}

/// Whether the library of a text has one entry and so many assertions at its end, behind one transaction, or memory was refused to that.
fn is_ended(
    rt: &(impl AllocGlobal + RandomSource + Threads + Sync),
    text: &[u8],
    script: &str,
    assertions: usize,
) -> Result<bool, Fail> {
    let (library, mut sessions) = opened(rt, text, ROOM, 1)?;
    // What the transaction is answered is asked of other rows.
    has_answer(rt.alloc(), &library, &mut sessions, script, 0)?;
    let end = end_of(rt.alloc(), library, sessions);
    Ok(end == Ok((1, assertions)) || end == Err(FinishError::NoMemory))
}

/// Whether a transaction has its answer over the library of a text.
fn is_done(
    rt: &(impl AllocGlobal + RandomSource + Threads + Sync),
    text: &[u8],
    script: &str,
    count: usize,
) -> Result<bool, Fail> {
    let (library, mut sessions) = opened(rt, text, ROOM, 1)?;
    has_answer(rt.alloc(), &library, &mut sessions, script, count)
}

/// Whether an outcome is the first entry with so many replies, or shows `th1` with that rank at the opening, or lists so many there.
fn has_count(outcome: &Outcome, count: usize) -> bool {
    match outcome {
        Outcome::Committed { number: 1, replies } => replies.as_slice().len() == count,
        Outcome::Read { place: 0, replies } => match replies.as_slice() {
            [
                Reply::Shown {
                    rank,
                    citers: 0,
                    assertion,
                },
            ] => *rank as usize == count && assertion.proof.len() == 34,
            [Reply::Listed(lines)] => lines.as_slice().len() == count,
            _ => false,
        },
        _ => false,
    }
}
