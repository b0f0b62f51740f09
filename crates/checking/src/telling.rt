//! How a fault is told: its line, and the text that it is a fault of.

ghost use Rattle.std.specs.Prelude.{◌≡◌, map, IfOk, string_bytes};
ghost use Rattle.checking.specs.FaultLines.{shown_label, file_of, line_of};

use crate::fault::Fault;
use mmstatement::Label;
use std::alloc::{AllocError, Global};
use std::error::Error;
use std::fmt;

/// A label as it is printed: itself, as labels have letters, digits and signs of ASCII alone.
fn text_of(label: &Label) -> &str
    ensures { result.now ≡ shown_label label.now }
{
    match str::from_utf8(label.as_slice()) {
        Ok(text) => text,
        Err(_) => "?",
    }
}

/// The line of the fault without the path of its text, as in `text 2 BadToken at byte 6`.
impl fmt::Display for Fault {
    ghost use Rattle.std.specs.Prelude.{Some};
    ghost use Rattle.checking.specs.FaultLines.{fault_text};

    ghost output = { λ fault. Some (fault_text fault) };

    fn fmt<W: fmt::Write>(&self, f: &mut fmt::Formatter<W>) -> fmt::Result {
        match self {
            Fault::Text { fault, .. } => write!(f, "text {fault}"),
            Fault::Proof { label, fault } => {
                let label = text_of(label);
                write!(f, "proof of {label}: {fault}")
            }
            Fault::Differs(entry) => write!(f, "entry {entry} differs"),
            Fault::StoreFull => write!(f, "store full"),
            Fault::Missing(number) => write!(f, "missing {number}"),
            Fault::Held(cell) => write!(f, "held {cell}"),
            Fault::NoThread => write!(f, "no thread"),
            Fault::NoMemory => write!(f, "no memory"),
        }
    }
}

impl Error for Fault {}

impl Fault {
    /// Which text has the fault: the database is 0, then each script from 1 on, or the history, which is 1. None for what is no text's
    /// fault.
    pub fn file(&self) -> Option<usize>
        ensures { result ≡ file_of self.now }
    {
        match self {
            Fault::Text { file, .. } => Some(*file),
            Fault::Proof { .. } => Some(0),
            Fault::Differs(_) => Some(1),
            Fault::StoreFull
            | Fault::Missing(_)
            | Fault::Held(_)
            | Fault::NoThread
            | Fault::NoMemory => None,
        }
    }

    /// The line of the fault behind the path of its text, `PATH: FAULT`, where the paths are those of the database, then of each script or
    /// of the history. Want of memory has no path.
    pub fn line(&self, alloc: Global, paths: &[&str]) -> Result<String, AllocError>
        ensures { IfOk result (λ line. string_bytes line ≡ line_of (map (λ path. path.now) paths.now) self.now) }
    {
        match self.file() {
            Some(file) => {
                let path = paths.get(file).copied().unwrap_or("");
                format!(in alloc; "{path}: {self}")
            }
            None => format!(in alloc; "{self}"),
        }
    }
}
