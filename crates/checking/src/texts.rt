//! A check and a replay, from bytes to bytes.

ghost use Rattle.std.specs.Prelude.{◌≡◌, ◌≢◌, ◌++◌, ◌∷◌, [], IfOk, IfErr, codes};
ghost use Rattle.std.specs.Fmt.{decimal};
ghost use Rattle.checking.specs.declared.fault.Fault.{Fault as FaultOfJob};
ghost use Rattle.checking.specs.declared.fault.Fault.TheVariants.{NoMemory};
ghost use Rattle.checking.specs.Checks.{IsCheck, IsReplay, LeadsTo, IsDatabaseFault, IsReplayFault, RefusesWith};

use crate::database::read_and_check;
use crate::fault::Fault;
use crate::replaying::{read_entries, replay_entries, replayed_text};
use library::{History, PlainLibrary};
use std::alloc::{AllocError, Global};
use std::hash::RandomState;
use std::thread::Threads;

/// `ok`, and the number of assertions.
fn print_count(alloc: Global, count: usize) -> Result<Vec<u8>, AllocError>
    ensures { IfOk result (λ out. out.items ≡ codes "ok " ++ (decimal count ++ 10 ∷ [])) }
{
    let line = format!(in alloc; "ok {count}\n")?;
    Ok(line.into_bytes())
}

/// Checks the proofs of a database, as a text, and gives what is printed.
pub fn check(
    rt: &(impl Threads + Sync),
    alloc: Global,
    keys: RandomState,
    db: &[u8],
) -> Result<Vec<u8>, Fault>
    ensures done { IfOk result (λ out. IsCheck db.now out.items) }
    ensures fault { IfErr result (λ f. f ≢ NoMemory → IsDatabaseFault db.now f) }
    ensures refused { (f : FaultOfJob) → IsDatabaseFault db.now f → RefusesWith f result }
{
    let db = read_and_check(rt, alloc, keys, db)?;
    Ok(print_count(alloc, db.assertions().len())?)
}

/// Does the transactions of a history again, over a database, as texts, and gives the entries of the history and the library after them.
pub fn replay_library(
    rt: &(impl Threads + Sync),
    alloc: Global,
    keys: RandomState,
    db: &[u8],
    history: &[u8],
) -> Result<(History, PlainLibrary), Fault>
    ensures done { IfOk result (λ r. LeadsTo db.now history.now r.0 r.1) }
    ensures fault { IfErr result (λ f. f ≢ NoMemory → IsReplayFault db.now history.now f) }
    ensures refused { (f : FaultOfJob) → IsReplayFault db.now history.now f → RefusesWith f result }
{
    let db = read_and_check(rt, alloc, keys, db)?;
    let entries = read_entries(alloc, db.prelude(), history)?;
    let library = replay_entries(alloc, keys, &db, entries.as_slice())?;
    Ok((entries, library))
}

/// Does the transactions of a history again, over a database, as texts, and gives what is printed. Every entry counts, also one without
/// commands.
pub fn replay(
    rt: &(impl Threads + Sync),
    alloc: Global,
    keys: RandomState,
    db: &[u8],
    history: &[u8],
) -> Result<Vec<u8>, Fault>
    ensures done { IfOk result (λ out. IsReplay db.now history.now out.items) }
    ensures fault { IfErr result (λ f. f ≢ NoMemory → IsReplayFault db.now history.now f) }
    ensures refused { (f : FaultOfJob) → IsReplayFault db.now history.now f → RefusesWith f result }
{
    let (entries, library) = replay_library(rt, alloc, keys, db, history)?;
    // For the proof: the library verifies, and is in export order.
    let _entries = library.entries();
    Ok(replayed_text(alloc, entries.as_slice().len(), &library)?)
}
