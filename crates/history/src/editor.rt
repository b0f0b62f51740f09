//! The one-thread editor: the definition of transactions as a program.

ghost use Rattle.mmsyntax.specs.declared.limits.TheConstants.{MOST_ASSERTIONS};

use crate::draft::Draft;
use library::{Command, PlainLibrary, Refused, Reply};
use mmsyntax::{Database, Prelude, Sequence};
use std::alloc::{AllocError, Global};
use std::hash::RandomState;
use std::marker::Model;
use thiserror::Error;

/// Why an editor is not opened, in the order of their numbers from 1.
#[derive(Clone, Copy, Debug, PartialEq, Eq, Error)]
pub enum OpenError {
    /// The database has more assertions than there are slots.
    #[error("more assertions than slots")]
    TooMany,
    /// Memory ran out.
    #[error("out of memory")]
    NoMemory,
}

/// Why a transaction has no replies, in the order of their numbers from 1. The library is then as it was.
#[derive(Clone, Copy, Debug, PartialEq, Eq, Error)]
pub enum ApplyError {
    /// A command was refused, and with it the transaction.
    #[error("{0}")]
    Refused(Refused),
    /// Memory ran out.
    #[error("out of memory")]
    NoMemory,
}

impl OpenError {
    ghost use Rattle.std.specs.Prelude.{◌≡◌};
    ghost use Rattle.history.specs.Errors.{open_number, open_name};

    /// The number of the error, 1 or 2.
    pub fn number(self) -> u32
        ensures { result ≡ open_number self }
    {
        match self {
            OpenError::TooMany => 1,
            OpenError::NoMemory => 2,
        }
    }

    /// The name of the error: its variant's word.
    pub fn name(self) -> &'static str
        ensures { result.now ≡ open_name self }
    {
        match self {
            OpenError::TooMany => "TooMany",
            OpenError::NoMemory => "NoMemory",
        }
    }
}

impl ApplyError {
    ghost use Rattle.std.specs.Prelude.{◌≡◌};
    ghost use Rattle.history.specs.Errors.{apply_number, apply_name};

    /// The number of the error, 1 or 2.
    pub fn number(self) -> u32
        ensures { result ≡ apply_number self }
    {
        match self {
            ApplyError::Refused(_) => 1,
            ApplyError::NoMemory => 2,
        }
    }

    /// The name of the error: its variant's word.
    pub fn name(self) -> &'static str
        ensures { result.now ≡ apply_name self }
    {
        match self {
            ApplyError::Refused(_) => "Refused",
            ApplyError::NoMemory => "NoMemory",
        }
    }
}

impl From<AllocError> for OpenError {
    ghost use Rattle.std.specs.Prelude.{◌≡◌};
    ghost use Rattle.history.specs.declared.editor.OpenError.TheVariants.{NoMemory};

    ghost from_gives = { λ _ error. error ≡ NoMemory };

    fn from(_error: AllocError) -> Self {
        OpenError::NoMemory
    }
}

impl From<AllocError> for ApplyError {
    ghost use Rattle.std.specs.Prelude.{◌≡◌};
    ghost use Rattle.history.specs.declared.editor.ApplyError.TheVariants.{NoMemory};

    ghost from_gives = { λ _ error. error ≡ NoMemory };

    fn from(_error: AllocError) -> Self {
        ApplyError::NoMemory
    }
}

/// A library that verifies, and the transactions on it, one after another on one thread.
///
/// A clause sees the setting and the library: a list in whatever order, of which `into_library` shows the export order.
pub struct Editor {
    draft: Draft,
}

// Proved here once: a derived drop is proved again in each crate that drops such a value.
impl Drop for Editor {
    fn drop(self) {
        let Editor { draft: _ } = self;
    }
}

impl Model for Editor {
    ghost use Rattle.history.specs.Editors.{Held};
    ghost use Rattle.history.specs.Drafts.{IsSettled, now_in};

    ghost Value = { Held };

    ghost view = { λ e. record { setting = e.draft.setting; library = now_in e.draft } };

    ghost invariant = { λ e. IsSettled e.draft };
}

impl Editor {
    ghost use Rattle.std.specs.Prelude.{◌≡◌, ◌≤◌, length, All};
    ghost use Rattle.derivation.specs.Databases.{AllCheck};
    ghost use Rattle.library.specs.Library.{Verifies, ShowsInOrder};
    ghost use Rattle.library.specs.Fitting.{CommandFits};
    ghost use Rattle.history.specs.Editors.{Answers};
    ghost use Rattle.history.specs.Openings.{EditorOpens};

    /// Opens the opening library of a database whose proofs check over the earlier assertions. Its k-th assertion has the rank 100 k, and
    /// there is room for `slots` assertions, 1 to 4,096.
    ///
    /// # Errors
    ///
    /// `TooMany` where the database has more assertions than there are slots, and `NoMemory`.
    pub fn open(
        alloc: Global,
        keys: RandomState,
        db: &Database,
        slots: usize,
    ) -> Result<Editor, OpenError>
        requires slots { (1 ≤ slots) × (slots ≤ MOST_ASSERTIONS) }
        requires checks { AllCheck db.now }
        ensures { EditorOpens db.now slots result }
    {
        let assertions = db.assertions();
        if assertions.len() > slots {
            return Err(OpenError::TooMany);
        }
        let prelude = db.prelude().copy(alloc)?;
        let draft = Draft::open(alloc, keys, prelude, slots, assertions)?;
        Ok(Editor { draft })
    }

    /// The prelude of its assertions.
    pub fn prelude(&self) -> &Prelude
        ensures { result.now ≡ self.now.setting.prelude }
    {
        self.draft.prelude()
    }

    /// How many assertions the library may hold.
    pub fn slots(&self) -> usize
        ensures { result ≡ self.now.setting.slots }
    {
        self.draft.slots()
    }

    /// How many assertions the library holds. It verifies, after every transaction.
    pub fn assertion_count(&self) -> usize
        ensures value { result ≡ length self.now.library }
        ensures verifies { Verifies self.now.setting self.now.library }
    {
        self.draft.assertion_count()
    }

    /// Does all commands of a transaction in order, and answers the reply to each. Each command is within the limits of the prelude.
    ///
    /// # Errors
    ///
    /// `Refused` with the first command that is refused, counted from 1, and the reason; or `NoMemory`. The library is
    /// then as it was.
    pub fn apply(
        &mut self,
        alloc: Global,
        commands: &[Command],
    ) -> Result<Sequence<Reply>, ApplyError>
        requires { All (CommandFits self.old.setting.prelude) commands.now }
        ensures { Answers self.old commands.now result self.new }
    {
        match self.draft.take_all(alloc, commands) {
            Ok(replies) => {
                self.draft.settle();
                Ok(replies)
            }
            Err(error) => {
                self.draft.undo();
                Err(error)
            }
        }
    }

    /// The library that it holds, in export order. It takes no memory.
    pub fn into_library(self) -> PlainLibrary
        ensures setting { result.setting ≡ self.setting }
        ensures shown { ShowsInOrder self.library result.entries }
    {
        let Editor { draft } = self;
        draft.into_library()
    }
}
