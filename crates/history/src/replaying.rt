//! Histories done again: what an editor answers to their transactions, against the replies that they hold.

ghost use Rattle.mmsyntax.specs.declared.limits.TheConstants.{MOST_ASSERTIONS};
ghost use Rattle.std.specs.Prelude.{◌≡◌, ◌≤◌, ◌↔◌, IfOk, OnOk, IsTrue, map};
ghost use Rattle.derivation.specs.Databases.{AllCheck};
ghost use Rattle.library.specs.Histories.{seen_entry, after_entry, EntryFits, EntriesFit, IsRepeated};
ghost use Rattle.history.specs.Replays.{Replays};

use crate::editor::{ApplyError, Editor, OpenError};
use crate::same::same_replies;
use library::{Entry, PlainLibrary};
use mmsyntax::Database;
use std::alloc::{AllocError, Global};
use std::hash::RandomState;
use thiserror::Error;

/// Why a history isn't replayed, in the order of their numbers from 1.
#[derive(Clone, Copy, Debug, PartialEq, Eq, Error)]
pub enum ReplayError {
    /// Entry n, counted from 1, is the first whose replies aren't the editor's.
    #[error("entry {0} differs")]
    Differs(usize),
    /// The database has more assertions than there are slots.
    #[error("more assertions than slots")]
    TooMany,
    /// Memory ran out.
    #[error("out of memory")]
    NoMemory,
}

impl ReplayError {
    ghost use Rattle.std.specs.Prelude.{◌≡◌};
    ghost use Rattle.history.specs.Errors.{replay_number, replay_name};

    /// The number of the error, from 1 to 3.
    pub fn number(self) -> u32
        ensures { result ≡ replay_number self }
    {
        match self {
            ReplayError::Differs(_) => 1,
            ReplayError::TooMany => 2,
            ReplayError::NoMemory => 3,
        }
    }

    /// The name of the error: its variant's word.
    pub fn name(self) -> &'static str
        ensures { result.now ≡ replay_name self }
    {
        match self {
            ReplayError::Differs(_) => "Differs",
            ReplayError::TooMany => "TooMany",
            ReplayError::NoMemory => "NoMemory",
        }
    }
}

impl From<OpenError> for ReplayError {
    ghost use Rattle.std.specs.Prelude.{◌≡◌};
    ghost use Rattle.history.specs.Replays.{unopened};

    ghost from_gives = { λ opening error. error ≡ unopened opening };

    fn from(error: OpenError) -> Self {
        match error {
            OpenError::TooMany => ReplayError::TooMany,
            OpenError::NoMemory => ReplayError::NoMemory,
        }
    }
}

impl From<AllocError> for ReplayError {
    ghost use Rattle.std.specs.Prelude.{◌≡◌};
    ghost use Rattle.history.specs.declared.replaying.ReplayError.TheVariants.{NoMemory};

    ghost from_gives = { λ _ error. error ≡ NoMemory };

    fn from(_error: AllocError) -> Self {
        ReplayError::NoMemory
    }
}

/// Does an entry's transaction, and says whether the replies are the entry's. An entry without commands has no others.
fn repeats(alloc: Global, editor: &mut Editor, entry: &Entry) -> Result<bool, AllocError>
    requires fit { EntryFits editor.old.setting.prelude (seen_entry entry.now) }
    ensures setting { editor.new.setting ≡ editor.old.setting }
    ensures same { IfOk result (λ same. IsTrue same ↔ IsRepeated editor.old.setting editor.old.library (seen_entry entry.now)) }
    ensures after { OnOk result (editor.new.library ≡ after_entry editor.old.setting editor.old.library (seen_entry entry.now)) }
{
    let Entry::Done { commands, replies } = entry else {
        return Ok(true);
    };
    match editor.apply(alloc, commands.as_slice()) {
        Ok(made) => Ok(same_replies(made.as_slice(), replies.as_slice())),
        Err(ApplyError::Refused(_)) => Ok(false),
        Err(ApplyError::NoMemory) => Err(AllocError),
    }
}

/// Does the transactions of a history again, from the opening library of a database whose proofs check, and answers the library after them.
/// Each command is within the limits of the database's prelude. There are 1 to 4,096 slots.
///
/// # Errors
///
/// `Differs` with the first entry whose transaction is refused or has other replies than the entry's; `TooMany`; or `NoMemory`.
pub fn replay(
    alloc: Global,
    keys: RandomState,
    db: &Database,
    slots: usize,
    history: &[Entry],
) -> Result<PlainLibrary, ReplayError>
    requires slots { (1 ≤ slots) × (slots ≤ MOST_ASSERTIONS) }
    requires checks { AllCheck db.now }
    requires fit { EntriesFit db.now.prelude (map seen_entry history.now) }
    ensures { Replays db.now slots (map seen_entry history.now) result }
{
    let mut editor = Editor::open(alloc, keys, db, slots)?;
    for (i, entry) in history.iter().enumerate() {
        if !repeats(alloc, &mut editor, entry)? {
            return Err(ReplayError::Differs(i + 1));
        }
    }
    Ok(editor.into_library())
}
