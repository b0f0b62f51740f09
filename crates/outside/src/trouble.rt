//! Why a text is not read or written.

ghost use Rattle.std.specs.Prelude.{◌≡◌, None};
ghost use Rattle.std.specs.IoError.{error_kind};
ghost use Rattle.outside.specs.Troubles.{IsTroubleOf};

use crate::reason::{Reason, reason_of};
use std::io;
use std::io::ErrorKind;

/// Why a text is not read or written.
#[derive(Clone, Copy, Debug, PartialEq, Eq)]
pub enum Trouble {
    /// Memory ran out.
    NoMemory,
    /// The system refuses it.
    Refused(Reason),
}

/// Why a text isn't where it is to be.
#[derive(Debug, Drop)]
pub struct Unwritten {
    /// Why it isn't.
    pub trouble: Trouble,
    /// The path of a new file that was made for it and couldn't be removed, if there is one.
    pub left: Option<String>,
}

/// Want of memory, or any other trouble with its reason.
pub(crate) fn trouble_of(error: &io::Error) -> Trouble
    ensures { IsTroubleOf (error_kind error.now) result }
{
    match error.kind() {
        ErrorKind::OutOfMemory => Trouble::NoMemory,
        _ => Trouble::Refused(reason_of(error)),
    }
}

/// A text isn't where it is to be, for this trouble, and no new file is left.
pub(crate) fn not_written(trouble: Trouble) -> Unwritten
    ensures why { result.trouble ≡ trouble }
    ensures none { result.left ≡ None }
{
    Unwritten {
        trouble,
        left: None,
    }
}
