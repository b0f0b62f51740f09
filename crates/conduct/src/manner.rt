//! How a command reads, and what it tells of the system.

ghost use Rattle.std.specs.Prelude.{◌≡◌, option_map};
ghost use Rattle.conduct.specs.Manner.{origin, unread_line, unwritten_line};

use outside::{Reason, unread_text, unwritten_text};

/// How a command reads, and what it tells of the system.
#[derive(Clone, Copy, Debug, PartialEq, Eq)]
pub enum Manner {
    /// Each path is a file's, and no reason is told: so it is with `check`, `run` and `replay`.
    Short,
    /// The path `-` is the standard input, the system's reason is told, and nothing is said of a closed pipe: so it is with all others.
    Full,
}

/// The path of the standard input.
pub const INPUT: &str = "-";

impl Manner {
    /// The path of the file that a path stands for. None where it stands for the standard input.
    pub(crate) fn origin<'a>(self, path: &'a str) -> Option<&'a str>
        ensures { option_map (λ p. p.now) result ≡ origin self path.entry.now }
    {
        match self {
            Manner::Full if path == INPUT => None,
            _ => Some(path),
        }
    }

    /// What is said of a text that can't be read.
    pub(crate) fn unread_line(self, why: Reason) -> &'static str
        ensures { result.now ≡ unread_line self why }
    {
        match self {
            Manner::Short => "cannot read",
            Manner::Full => unread_text(why),
        }
    }

    /// What is said of a text that can't be written.
    pub(crate) fn unwritten_line(self, why: Reason) -> &'static str
        ensures { result.now ≡ unwritten_line self why }
    {
        match self {
            Manner::Short => "cannot write",
            Manner::Full => unwritten_text(why),
        }
    }
}
