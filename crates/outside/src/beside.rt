//! A text is put in place of what a file has, by a new file beside it.

ghost use Rattle.std.specs.Prelude.{ℕ, List, Some, option_map, IfOk, IfErr, string_bytes};
ghost use Rattle.outside.specs.Deeds.{Deed};
ghost use Rattle.outside.specs.Tried.{Turns, IsMade, IsUnmade, IsPermitted, IsFilled, IsMoved, IsFinished};
ghost use Rattle.outside.specs.Written.{IsPutOver, IsPutAt, IsPutInto};

use crate::disk::Disk;
use crate::reason::Reason;
use crate::trouble::{Trouble, Unwritten, not_written, trouble_of};
use std::alloc::Global;
use std::io::ErrorKind;

/// How many names are tried for a new file.
const NAMES: usize = 100;

/// Why no new file is made beside another.
enum Unmade {
    /// The folder doesn't allow it.
    Denied,
    /// Any other trouble.
    Other(Trouble),
}

/// Makes a new file in the folder of the file at a path, and answers it with its path.
///
/// # Errors
///
/// All of the names are taken, the folder or the system refuses it, or there is no memory for a name.
fn make_beside<D: Disk>(
    disk: &mut D,
    alloc: Global,
    real: &str,
) -> Result<(D::File, String), Unmade>
    ensures at { IfOk result (λ made. D.is_at made.0 (string_bytes made.1)) }
    ensures made { IfOk result (λ made. IsMade
        (record { before = D.did disk.old; after = D.did disk.new; known = D.holds disk.old; now = D.holds disk.new })
        real.now (string_bytes made.1)) }
    ensures unmade { IfErr result (IsUnmade
        (record { before = D.did disk.old; after = D.did disk.new; known = D.holds disk.old; now = D.holds disk.new })) }
{
    for number in 0..NAMES {
        let Ok(name) = format!(in alloc; "{real}.new{number}") else {
            return Err(Unmade::Other(Trouble::NoMemory));
        };
        match disk.create_new(name.as_str()) {
            Ok(file) => return Ok((file, name)),
            Err(error) => match error.kind() {
                ErrorKind::AlreadyExists => {}
                ErrorKind::PermissionDenied => return Err(Unmade::Denied),
                _ => return Err(Unmade::Other(trouble_of(&error))),
            },
        }
    }
    Err(Unmade::Other(Trouble::Refused(Reason::NameTaken)))
}

/// Gives a new file the permissions of the old one, if there is one.
fn permit<D: Disk>(disk: &mut D, file: &D::File, old: Option<&str>) -> Result<(), Trouble>
    ensures { (real beside : List ℕ) → D.is_at file.now beside → (ds : List Deed)
        × Turns (record { before = D.did disk.old; after = D.did disk.new; known = D.holds disk.old; now = D.holds disk.new }) ds
        × IsPermitted (option_map (λ p. p.now) old.entry) real beside ds result }
{
    let Some(path) = old else {
        return Ok(());
    };
    match disk.take_permissions(file, path) {
        Ok(()) => Ok(()),
        Err(error) => Err(trouble_of(&error)),
    }
}

/// Writes a text whole to a new file, and waits until it is on the disk itself.
fn fill<D: Disk>(disk: &mut D, file: &mut D::File, text: &[u8]) -> Result<(), Trouble>
    ensures { (real beside : List ℕ) → D.is_at file.old beside → (ds : List Deed)
        × Turns (record { before = D.did disk.old; after = D.did disk.new; known = D.holds disk.old; now = D.holds disk.new }) ds
        × IsFilled real beside text.now ds result }
{
    if let Err(error) = disk.fill(file, text) {
        return Err(trouble_of(&error));
    }
    match disk.sync(file) {
        Ok(()) => Ok(()),
        Err(error) => Err(trouble_of(&error)),
    }
}

/// Writes a text whole to a new file, which gets the permissions of the old one, if there is one, and moves it over that.
fn move_over<D: Disk>(
    disk: &mut D,
    file: &mut D::File,
    beside: &str,
    old: Option<&str>,
    real: &str,
    text: &[u8],
) -> Result<(), Trouble>
    requires { D.is_at file.old beside.now }
    ensures { (ds : List Deed)
        × Turns (record { before = D.did disk.old; after = D.did disk.new; known = D.holds disk.old; now = D.holds disk.new }) ds
        × IsMoved (option_map (λ p. p.now) old.entry) real.now beside.now text.now ds result }
{
    if let Err(trouble) = permit(disk, file, old) {
        return Err(trouble);
    }
    if let Err(trouble) = fill(disk, file, text) {
        return Err(trouble);
    }
    match disk.rename(beside, real) {
        Ok(()) => Ok(()),
        Err(error) => Err(trouble_of(&error)),
    }
}

/// Puts a text into a new file, and moves that over the old one, if there is one. Where that fails, the new file is removed.
fn finish<D: Disk>(
    disk: &mut D,
    mut file: D::File,
    beside: String,
    old: Option<&str>,
    real: &str,
    text: &[u8],
) -> Result<(), Unwritten>
    requires { D.is_at file (string_bytes beside) }
    ensures { (ds : List Deed)
        × Turns (record { before = D.did disk.old; after = D.did disk.new; known = D.holds disk.old; now = D.holds disk.new }) ds
        × IsFinished (option_map (λ p. p.now) old.entry) real.now (string_bytes beside) text.now ds result }
{
    let Err(trouble) = move_over(disk, &mut file, beside.as_str(), old, real, text) else {
        return Ok(());
    };
    match disk.remove(beside.as_str()) {
        Ok(()) => Err(not_written(trouble)),
        Err(_) => Err(Unwritten {
            trouble,
            left: Some(beside),
        }),
    }
}

/// Puts a text in place of what the plain file at a path has, which is no link: it is written whole to a new file, and that is moved over
/// the old one. Where that fails, the new file is removed.
pub(crate) fn put_over<D: Disk>(
    disk: &mut D,
    alloc: Global,
    real: &str,
    text: &[u8],
) -> Result<(), Unwritten>
    ensures { (ds : List Deed)
        × Turns (record { before = D.did disk.old; after = D.did disk.new; known = D.holds disk.old; now = D.holds disk.new }) ds
        × IsPutOver (Some real.now) real.now text.now ds result }
{
    match make_beside(disk, alloc, real) {
        Ok((file, beside)) => finish(disk, file, beside, Some(real), real, text),
        Err(Unmade::Denied) => Err(not_written(Trouble::Refused(Reason::NotPermitted))),
        Err(Unmade::Other(trouble)) => Err(not_written(trouble)),
    }
}

/// Writes a text over what the file at a path has.
pub(crate) fn cut_over<D: Disk>(disk: &mut D, path: &str, text: &[u8]) -> Result<(), Unwritten>
    ensures { (ds : List Deed)
        × Turns (record { before = D.did disk.old; after = D.did disk.new; known = D.holds disk.old; now = D.holds disk.new }) ds
        × IsPutInto path.now text.now ds result }
{
    let mut file = match disk.create(path) {
        Ok(file) => file,
        Err(error) => return Err(not_written(trouble_of(&error))),
    };
    match disk.fill(&mut file, text) {
        Ok(()) => Ok(()),
        Err(error) => Err(not_written(trouble_of(&error))),
    }
}

/// Puts a text in place of what the file at a path has, if one is there, and which is no link. Where the folder allows no new file, the
/// text is written over what the file has.
pub(crate) fn put_at<D: Disk>(
    disk: &mut D,
    alloc: Global,
    old: Option<&str>,
    real: &str,
    text: &[u8],
) -> Result<(), Unwritten>
    ensures { (ds : List Deed)
        × Turns (record { before = D.did disk.old; after = D.did disk.new; known = D.holds disk.old; now = D.holds disk.new }) ds
        × IsPutAt (option_map (λ p. p.now) old.entry) real.now text.now ds result }
{
    match make_beside(disk, alloc, real) {
        Ok((file, beside)) => finish(disk, file, beside, old, real, text),
        Err(Unmade::Denied) => cut_over(disk, real, text),
        Err(Unmade::Other(trouble)) => Err(not_written(trouble)),
    }
}
