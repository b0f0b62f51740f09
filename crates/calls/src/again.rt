//! Calls that need no session, each made once more where memory was refused to it: for `tools/refuse-memory`, as those of `memory`.
//!
//! Each is answered as it is where memory is there, or that memory was refused, and then its next call is answered.

ghost use Rattle.std.specs.Prelude.{All};
ghost use Rattle.derivation.specs.Databases.{AllCheck};
ghost use Rattle.historytext.specs.Layout.{EntryFitsText};

use crate::exporting::library;
use crate::samples::{DEMO, checked, database, is_demo_renamed};
use derivation::{ProofFault, ProofFaultKind};
use export::{ExportError, export, write_library};
use history::{ReplayError, replay};
use historytext::{read_history, write_history};
use library::{Entry, PlainLibrary};
use mmstatement::{Database, FaultKind, Prelude, TextFault, read_database, write_database};
use proofcheck::check_all;
use std::alloc::{AllocError, AllocGlobal, Global};
use std::hash::RandomState;
use std::random::RandomSource;
use std::test::Fail;
use std::thread::Threads;

/// How many slots the library has.
const SLOTS: usize = 4096;

/// A history over `DEMO` in canonical layout: a transaction with each command, and a number that met a conflict.
const HISTORY: &[u8] = b"history 2
done
begin
add 900
th2 $p |- 0 = 0 $= tze th1 $.
reprove th2 $= tze th1 $.
replace th2 th1 th1
rename th1 refl
move th2 901
show th2
list
delete th2
commit
  done
  done
  done
  done
  done
  shown 901 0
    th2 $p |- 0 = 0 $= tze refl $.
  listed 9
    100 tze a 2
    200 tpl a 1
    300 weq a 1
    400 wim a 1
    500 a1 a 1
    600 a2 a 1
    700 mp a 1
    800 refl p 1
    901 th2 p 0
  done
void
";

/// Whether a text is read, and written as it was; none where memory was refused to the reading.
fn reads(alloc: Global, keys: RandomState, text: &[u8]) -> Result<Option<bool>, AllocError> {
    match read_database(alloc, keys, text) {
        Ok(db) => Ok(Some(write_database(alloc, &db)?.as_slice() == text)),
        Err(
            TextFault {
                place: 0,
                kind: FaultKind::NoMemory,
            },
        ) => Ok(None),
        Err(_) => Ok(Some(false)),
    }
}

/// `DEMO` is read, by one call or the next.
fn is_read(rt: &(impl AllocGlobal + RandomSource)) -> Result<bool, Fail> {
    let keys = RandomState::new(rt)?;
    let is_so = match reads(rt.alloc(), keys, DEMO.as_bytes())? {
        None => reads(rt.alloc(), keys, DEMO.as_bytes())?,
        is_so => is_so,
    };
    Ok(is_so == Some(true))
}

/// Whether the proofs of a database check; none where memory was refused.
fn checks(rt: &(impl AllocGlobal + Threads + Sync), db: &Database) -> Option<bool> {
    match check_all(rt, rt.alloc(), db) {
        Ok(()) => Some(true),
        Err(
            (
                _,
                ProofFault {
                    kind: ProofFaultKind::NoMemory,
                    ..
                },
            ),
        ) => None,
        Err(_) => Some(false),
    }
}

/// The proofs of `DEMO` check, by one call or the next.
fn is_checked(rt: &(impl AllocGlobal + RandomSource + Threads + Sync)) -> Result<bool, Fail> {
    let db = database(rt, DEMO.as_bytes())?;
    let is_so = match checks(rt, &db) {
        None => checks(rt, &db),
        is_so => is_so,
    };
    Ok(is_so == Some(true))
}

/// Whether a history is done again over a database; none where memory was refused to that.
fn replays(
    alloc: Global,
    keys: RandomState,
    db: &Database,
    history: &[Entry],
) -> Result<Option<bool>, AllocError>
    requires checks { AllCheck db.now }
    requires fit { All (EntryFitsText db.now.prelude) history.now }
{
    match replay(alloc, keys, db, SLOTS, history) {
        Ok(library) => Ok(Some(is_demo_renamed(write_library(alloc, &library)?.as_slice()))),
        Err(ReplayError::NoMemory) => Ok(None),
        Err(_) => Ok(Some(false)),
    }
}

/// The history is done again over `DEMO`, by one call or the next.
fn is_replayed(rt: &(impl AllocGlobal + RandomSource + Threads + Sync)) -> Result<bool, Fail> {
    let keys = RandomState::new(rt)?;
    let db = checked(rt, DEMO.as_bytes())?;
    let history = read_history(rt.alloc(), db.prelude(), HISTORY)?;
    let is_so = match replays(rt.alloc(), keys, &db, history.as_slice())? {
        None => replays(rt.alloc(), keys, &db, history.as_slice())?,
        is_so => is_so,
    };
    Ok(is_so == Some(true))
}

/// Whether a history is written as the text; none where memory was refused.
fn writes(alloc: Global, prelude: &Prelude, history: &[Entry]) -> Option<bool>
    requires { All (EntryFitsText prelude.now) history.now }
{
    match write_history(alloc, prelude, history) {
        Ok(text) => Some(text.as_slice() == HISTORY),
        Err(_) => None,
    }
}

/// The history is written, by one call or the next.
fn is_written(rt: &(impl AllocGlobal + RandomSource)) -> Result<bool, Fail> {
    let db = database(rt, DEMO.as_bytes())?;
    let history = read_history(rt.alloc(), db.prelude(), HISTORY)?;
    let is_so = match writes(rt.alloc(), db.prelude(), history.as_slice()) {
        None => writes(rt.alloc(), db.prelude(), history.as_slice()),
        is_so => is_so,
    };
    Ok(is_so == Some(true))
}

/// Whether a library is exported to a writer in memory; none where memory was refused, and nothing written.
fn exports(alloc: Global, library: &PlainLibrary, out: &mut Vec<u8>) -> Option<bool> {
    match export(alloc, library, out) {
        Ok(()) => Some(out.as_slice() == DEMO.as_bytes()),
        Err(ExportError::NoMemory) if out.is_empty() => None,
        Err(_) => Some(false),
    }
}

/// The library of `DEMO` is exported, by one call or the next, to a writer that has its room.
fn is_exported(rt: &(impl AllocGlobal + RandomSource + Threads + Sync)) -> Result<bool, Fail> {
    let library = library(rt, DEMO.as_bytes())?;
    let mut out = Vec::with_capacity(rt.alloc(), DEMO.len())?;
    let is_so = match exports(rt.alloc(), &library, &mut out) {
        None => exports(rt.alloc(), &library, &mut out),
        is_so => is_so,
    };
    Ok(is_so == Some(true))
}

/// Makes the calls of this name, and says whether the answers are the wanted ones.
pub(crate) fn make(
    rt: &(impl AllocGlobal + RandomSource + Threads + Sync),
    name: &str,
) -> Result<bool, Fail> {
    match name {
        "a_database_is_read_again" => is_read(rt),
        "proofs_are_checked_again" => is_checked(rt),
        "a_history_is_replayed_again" => is_replayed(rt),
        "a_history_is_written_again" => is_written(rt),
        "a_library_is_exported_again" => is_exported(rt),
        _ => Err(Fail::from("there are no calls of this name")),
    }
}
