//! Where files lie, and what is done there: each call is one of the system's.

use std::alloc::Global;
use std::io;

/// Where a path leads.
#[derive(Debug, Drop)]
pub enum Lead {
    /// To a plain file: the path of that, behind all links.
    Plain(String),
    /// Nowhere: nothing is there, no link either.
    Free,
    /// To something else: a folder, a device, a pipe, or a link to nothing.
    Other,
}

/// Where files lie: what is known of them, and what was done there, contracts see. Only the calls here make it known, so whoever promises
/// it over any disk has made them.
pub trait Disk {
    ghost use Rattle.std.specs.Prelude.{◌≡◌, ◌∷◌, [], ℕ, Bool, List, Option, None, IfOk, IfErr, IfSome, OnOk, take, string_bytes};
    ghost use Rattle.std.specs.IoError.{error_kind};
    ghost use Rattle.std.specs.declared.io.ErrorKind.{ErrorKind};
    ghost use Rattle.outside.specs.Deeds.{Deed, Does, failure_of, makes, cuts, permits, fills, syncs, moves, removes};
    ghost use Rattle.outside.specs.Leads.{Leads};

    /// A file that is open.
    type File: Drop;

    /// What the file at a path holds, where that is known: then nobody changes it.
    ghost holds: { Self → List ℕ → Option (List ℕ) } = { λ _ _. None };

    /// Whether just these deeds were done so far, as far as that is known.
    ghost did: { Self → List Deed → Type 0 } = { λ _ _. Unit {0} };

    /// Whether an open file is the one at a path, as far as that is known.
    ghost is_at: { Self.File → List ℕ → Type 0 } = { λ _ _. Unit {0} };

    /// What an open file has left to be read, where that is known.
    ghost remaining: { Self.File → Option (List ℕ) } = { λ _. None };

    /// Whether the system refuses to read the file at a path, by an error of this kind, as far as that is known.
    ghost refuses: { List ℕ → ErrorKind → Type 0 } = { λ _ _. Unit {0} };

    /// Whether the system answers so where it is asked if two paths lead to one file, as far as that is known.
    ghost tells_one: { List ℕ → List ℕ → Bool → Type 0 } = { λ _ _ _. Unit {0} };

    /// Whether the system answers so where it is asked if a path leads to a plain file, or nowhere, as far as that is known.
    ghost tells_plain: { List ℕ → Bool → Type 0 } = { λ _ _. Unit {0} };

    /// Whether the system doesn't tell where a path leads, for an error of this kind, want of memory too, as far as that is known.
    ghost hides: { List ℕ → ErrorKind → Type 0 } = { λ _ _. Unit {0} };

    /// Whether a path leads to the plain file at another one, which is no link, as far as that is known.
    ghost leads: { List ℕ → List ℕ → Type 0 } = { λ _ _. Unit {0} };

    /// Whether nothing is at a path, as far as that is known.
    ghost is_free: { List ℕ → Type 0 } = { λ _. Unit {0} };

    /// Whether something else than a plain file is at a path, as far as that is known.
    ghost is_other: { List ℕ → Type 0 } = { λ _. Unit {0} };

    /// Opens the file at a path, to read it from its beginning.
    ///
    /// # Errors
    ///
    /// The system refuses it.
    fn open(&self, path: &str) -> io::Result<Self::File>
        ensures is_at { IfOk result (λ file. is_at file path.now) }
        ensures holds { IfOk result (λ file. IfSome (holds self.now path.now) (λ held. remaining file ≡ Some held)) }
        ensures refused { IfErr result (λ e. refuses path.now (error_kind e)) };

    /// Reads what an open file has left, up to so many bytes, behind a text that is empty.
    ///
    /// # Errors
    ///
    /// The system refuses it, or there is no memory for the text.
    fn read_to(&self, file: &mut Self::File, most: u64, text: &mut Vec<u8>) -> io::Result<()>
        requires { text.old.items ≡ [] }
        ensures whole { OnOk result (IfSome (remaining file.old) (λ left. text.new.items ≡ take most left)) }
        ensures refused { (path : List ℕ) → is_at file.old path → IfErr result (λ e. refuses path (error_kind e)) };

    /// Where a path leads.
    ///
    /// # Errors
    ///
    /// The system doesn't tell, or there is no memory for the path.
    fn lead(&self, alloc: Global, path: &str) -> io::Result<Lead>
        ensures told { IfOk result (Leads (leads path.now) (is_free path.now) (is_other path.now)) }
        ensures hidden { IfErr result (λ e. hides path.now (error_kind e)) };

    /// Makes the file at a path, to write it from its beginning, in place of one that was there.
    ///
    /// # Errors
    ///
    /// The system refuses it.
    fn create(&mut self, path: &str) -> io::Result<Self::File>
        ensures does { Does (did self.old) (did self.new) (holds self.old) (holds self.new) (cuts path.now (failure_of result) ∷ []) }
        ensures is_at { IfOk result (λ file. is_at file path.now) };

    /// Makes a file at a path where nothing is, to write it.
    ///
    /// # Errors
    ///
    /// Something is there, the folder doesn't allow it, or the system refuses it.
    fn create_new(&mut self, path: &str) -> io::Result<Self::File>
        ensures does { Does (did self.old) (did self.new) (holds self.old) (holds self.new) (makes path.now (failure_of result) ∷ []) }
        ensures is_at { IfOk result (λ file. is_at file path.now) };

    /// Gives an open file the permissions of the file at a path.
    ///
    /// # Errors
    ///
    /// The system refuses it.
    fn take_permissions(&mut self, file: &Self::File, path: &str) -> io::Result<()>
        ensures { (at : List ℕ) → is_at file.now at
            → Does (did self.old) (did self.new) (holds self.old) (holds self.new) (permits at path.now (failure_of result) ∷ []) };

    /// Writes a text to an open file.
    ///
    /// # Errors
    ///
    /// The system doesn't take it whole: the file has a front of it.
    fn fill(&mut self, file: &mut Self::File, text: &[u8]) -> io::Result<()>
        ensures does { (at : List ℕ) → is_at file.old at
            → Does (did self.old) (did self.new) (holds self.old) (holds self.new) (fills at text.now (failure_of result) ∷ []) }
        ensures stays { (at : List ℕ) → is_at file.old at → is_at file.new at };

    /// Waits until what was written to an open file is on the disk itself.
    ///
    /// # Errors
    ///
    /// The system can't.
    fn sync(&mut self, file: &Self::File) -> io::Result<()>
        ensures { (at : List ℕ) → is_at file.now at
            → Does (did self.old) (did self.new) (holds self.old) (holds self.new) (syncs at (failure_of result) ∷ []) };

    /// Moves the file at a path to another one, over what is there, in one step: that has the old file or the new one at any time.
    ///
    /// # Errors
    ///
    /// The system refuses it, and nothing is moved.
    fn rename(&mut self, from: &str, to: &str) -> io::Result<()>
        ensures { Does (did self.old) (did self.new) (holds self.old) (holds self.new) (moves from.now to.now (failure_of result) ∷ []) };

    /// Removes the file at a path.
    ///
    /// # Errors
    ///
    /// The system refuses it.
    fn remove(&mut self, path: &str) -> io::Result<()>
        ensures { Does (did self.old) (did self.new) (holds self.old) (holds self.new) (removes path.now (failure_of result) ∷ []) };

    /// Whether two paths lead to one file, as far as the system tells.
    fn is_one_file(&self, one: &str, other: &str) -> bool
        ensures { tells_one one.now other.now result };

    /// Whether a path leads to a plain file, or nowhere, as far as the system tells.
    fn is_plain(&self, path: &str) -> bool
        ensures { tells_plain path.now result };
}
