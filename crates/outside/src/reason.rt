//! Why the system refuses something, and how that is told.

ghost use Rattle.std.specs.Prelude.{◌≡◌};
ghost use Rattle.std.specs.IoError.{error_kind};
ghost use Rattle.outside.specs.Reasons.{reason_by, unread_text, unwritten_text};

use std::io;
use std::io::ErrorKind;

/// Why the system refuses something, as far as that is told.
#[derive(Clone, Copy, Debug, PartialEq, Eq)]
pub enum Reason {
    /// Nothing is at the path.
    NoSuchFile,
    /// Whoever runs the program may not do it.
    NotPermitted,
    /// A folder is at the path.
    IsFolder,
    /// A part of the path that is to be a folder is none.
    IsNoFolder,
    /// The disk is full, or what may be used of it.
    NoSpace,
    /// Nothing may be changed where the path leads.
    ReadOnly,
    /// A name in the path is too long.
    LongName,
    /// Too many links lead to one file.
    ManyLinks,
    /// The links of the path lead in a circle, or there are too many of them.
    LinksInCircle,
    /// Each name that was tried for a new file is taken.
    NameTaken,
    /// The file gets larger than the system allows.
    TooLarge,
    /// Another program uses it.
    InUse,
    /// Nobody reads what is written there.
    ClosedPipe,
    /// Any other reason, which isn't told.
    Untold,
}

/// The reason that is told for an error of the system.
pub(crate) fn reason_of(error: &io::Error) -> Reason
    ensures { result ≡ reason_by (error_kind error.now) }
{
    match error.kind() {
        ErrorKind::NotFound => Reason::NoSuchFile,
        ErrorKind::PermissionDenied => Reason::NotPermitted,
        ErrorKind::IsADirectory => Reason::IsFolder,
        ErrorKind::NotADirectory => Reason::IsNoFolder,
        ErrorKind::StorageFull | ErrorKind::QuotaExceeded => Reason::NoSpace,
        ErrorKind::ReadOnlyFilesystem => Reason::ReadOnly,
        ErrorKind::InvalidFilename => Reason::LongName,
        ErrorKind::TooManyLinks => Reason::ManyLinks,
        ErrorKind::FilesystemLoop => Reason::LinksInCircle,
        ErrorKind::AlreadyExists => Reason::NameTaken,
        ErrorKind::FileTooLarge => Reason::TooLarge,
        ErrorKind::ResourceBusy | ErrorKind::ExecutableFileBusy => Reason::InUse,
        ErrorKind::BrokenPipe => Reason::ClosedPipe,
        _ => Reason::Untold,
    }
}

/// What is said of a text that can't be read, for this reason.
pub fn unread_text(why: Reason) -> &'static str
    ensures { result.now ≡ unread_text why }
{
    match why {
        Reason::NoSuchFile => "cannot read: no such file",
        Reason::NotPermitted => "cannot read: not permitted",
        Reason::IsFolder => "cannot read: is a folder",
        Reason::IsNoFolder => "cannot read: is no folder",
        Reason::NoSpace => "cannot read: no space is left",
        Reason::ReadOnly => "cannot read: the file system is read-only",
        Reason::LongName => "cannot read: the name is too long",
        Reason::ManyLinks => "cannot read: too many links",
        Reason::LinksInCircle => "cannot read: the links lead in a circle",
        Reason::NameTaken => "cannot read: the name is taken",
        Reason::TooLarge => "cannot read: the file gets too large",
        Reason::InUse => "cannot read: it is in use",
        Reason::ClosedPipe => "cannot read: the pipe is closed",
        Reason::Untold => "cannot read",
    }
}

/// What is said of a text that can't be written, for this reason.
pub fn unwritten_text(why: Reason) -> &'static str
    ensures { result.now ≡ unwritten_text why }
{
    match why {
        Reason::NoSuchFile => "cannot write: no such file",
        Reason::NotPermitted => "cannot write: not permitted",
        Reason::IsFolder => "cannot write: is a folder",
        Reason::IsNoFolder => "cannot write: is no folder",
        Reason::NoSpace => "cannot write: no space is left",
        Reason::ReadOnly => "cannot write: the file system is read-only",
        Reason::LongName => "cannot write: the name is too long",
        Reason::ManyLinks => "cannot write: too many links",
        Reason::LinksInCircle => "cannot write: the links lead in a circle",
        Reason::NameTaken => "cannot write: the name is taken",
        Reason::TooLarge => "cannot write: the file gets too large",
        Reason::InUse => "cannot write: it is in use",
        Reason::ClosedPipe => "cannot write: the pipe is closed",
        Reason::Untold => "cannot write",
    }
}
