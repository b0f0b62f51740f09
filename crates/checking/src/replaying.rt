//! A history done again over the library of a database: what is printed of it, or its fault.

ghost use Rattle.std.specs.Prelude.{◌≡◌, ◌≢◌, ◌++◌, ◌∷◌, List, All, IfOk, IfErr, codes};
ghost use Rattle.std.specs.Fmt.{decimal};
ghost use Rattle.mmtext.specs.declared.fault.TextFault.{TextFault as FaultOfText};
ghost use Rattle.derivation.specs.Databases.{AllCheck};
ghost use Rattle.library.specs.declared.history.Entry.{Entry as EntryOf};
ghost use Rattle.historytext.specs.Places.{FaultyHistory};
ghost use Rattle.historytext.specs.Layout.{EntryFitsText};
ghost use Rattle.checking.specs.declared.fault.Fault.{Fault as FaultOfJob};
ghost use Rattle.checking.specs.declared.fault.Fault.TheVariants.{NoMemory};
ghost use Rattle.checking.specs.Checks.{library_lines, IsHistory, IsAfter, IsDifference, RefusesWith};
ghost use Rattle.checking.specs.Parts.{IsHistoryFault, GivesOrLacksMemory, IsRefusedWith};

use crate::fault::{Fault, text_fault};
use export::put_library;
use history::ReplayError;
use historytext::read_history;
use library::{Entry, History, PlainLibrary};
use mmstatement::{Database, Prelude};
use std::alloc::{AllocError, Global};
use std::hash::RandomState;

/// The slots of a library of the program.
pub const SLOTS: usize = 4096;

/// Reads the history of a replay, which is the text behind the database's.
pub(crate) fn read_entries(alloc: Global, prelude: &Prelude, text: &[u8]) -> Result<History, Fault>
    ensures done { IfOk result (IsHistory prelude.now text.now) }
    ensures fit { IfOk result (λ history. All (EntryFitsText prelude.now) history) }
    ensures only { (history : List EntryOf) → IsHistory prelude.now text.now history → GivesOrLacksMemory result history }
    ensures fault { IfErr result (λ f. f ≢ NoMemory → IsHistoryFault prelude.now text.now f) }
    ensures refused { (f : FaultOfText) → FaultyHistory prelude.now text.now f → IsRefusedWith 1 f result }
{
    match read_history(alloc, prelude, text) {
        Ok(history) => Ok(history),
        Err(fault) => Err(text_fault(1, fault)),
    }
}

/// Does the transactions of a history again, over the library of a database, and gives the library after them.
pub(crate) fn replay_entries(
    alloc: Global,
    keys: RandomState,
    db: &Database,
    history: &[Entry],
) -> Result<PlainLibrary, Fault>
    requires checks { AllCheck db.now }
    requires fit { All (EntryFitsText db.now.prelude) history.now }
    ensures done { IfOk result (IsAfter db.now history.now) }
    ensures fault { IfErr result (λ f. f ≢ NoMemory → IsDifference db.now history.now f) }
    ensures refused { (f : FaultOfJob) → IsDifference db.now history.now f → RefusesWith f result }
{
    // For the proof: a database has at most as many assertions as there are slots.
    let _assertions = db.assertions();
    match history::replay(alloc, keys, db, SLOTS, history) {
        Ok(library) => Ok(library),
        Err(ReplayError::Differs(n)) => Err(Fault::Differs(n)),
        Err(ReplayError::NoMemory) => Err(Fault::NoMemory),
        Err(ReplayError::TooMany) => unreachable!(),
    }
}

/// `replayed`, the number of entries, and the lines of a library.
pub(crate) fn replayed_text(
    alloc: Global,
    count: usize,
    library: &PlainLibrary,
) -> Result<Vec<u8>, AllocError>
    ensures { IfOk result (λ out. out.items ≡ codes "replayed " ++ (decimal count ++ 10 ∷ library_lines library.now)) }
{
    let line = format!(in alloc; "replayed {count}\n")?;
    let mut out = line.into_bytes();
    out.extend_from_slice(b"library\n")?;
    put_library(&mut out, library)?;
    Ok(out)
}
