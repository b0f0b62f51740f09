//! What lies outside of the program: files, and the standard input, output and error.

use crate::reason::Reason;
use crate::trouble::{Trouble, Unwritten};
use std::alloc::Global;

/// What the program does on the outside. Contracts see all that was done, in order.
pub trait World {
    ghost use Rattle.std.specs.Prelude.{◌≡◌, ◌++◌, ◌∷◌, [], List, codes, option_map, true};
    ghost use Rattle.outside.specs.Events.{Event, Adds, reading_of, trouble_in, path_left, leaving, reason_in, compares, asks, writes, replaces, prints, says, notes, shows};

    /// Whether just this was done so far, as far as what lies outside tells.
    ghost done: { Self → List Event → Type 0 };

    /// Reads the file at a path, or the standard input where there is no path, up to one byte more than any text may have.
    ///
    /// # Errors
    ///
    /// It can't be read, or there is no memory for it.
    fn read(&mut self, alloc: Global, path: Option<&str>) -> Result<Vec<u8>, Trouble>
        ensures { Adds (done self.old) (done self.new) (reading_of (option_map (λ p. p.now) path.entry) result ∷ []) };

    /// Whether two paths lead to one file, as far as the system tells. A path leads where it leads itself, though nothing is there.
    fn is_one_file(&mut self, one: &str, other: &str) -> bool
        ensures told { Adds (done self.old) (done self.new) (compares one.now other.now result ∷ []) }
        ensures same { one.now ≡ other.now → result ≡ true };

    /// Whether a path leads to a plain file, which is no folder, device or pipe, or nowhere, as far as the system tells.
    fn is_plain(&mut self, path: &str) -> bool
        ensures { Adds (done self.old) (done self.new) (asks path.now result ∷ []) };

    /// Writes a text to the file at a path, in place of what it had.
    ///
    /// # Errors
    ///
    /// The file can't be written whole, or there is no memory for that. It has what it had, unless no new file can be made beside it: what
    /// it has then is not said.
    fn write(&mut self, alloc: Global, path: &str, text: &[u8]) -> Result<(), Unwritten>
        ensures { Adds (done self.old) (done self.new) (writes path.now text.now (trouble_in result) ∷ leaving (path_left result)) };

    /// Puts a text in place of what the plain file at a path has: at any time that has the one or the other whole.
    ///
    /// # Errors
    ///
    /// The text can't be put there, or there is no memory for that: the file has what it had.
    fn replace(&mut self, alloc: Global, path: &str, text: &[u8]) -> Result<(), Unwritten>
        ensures { Adds (done self.old) (done self.new) (replaces path.now text.now (trouble_in result) ∷ leaving (path_left result)) };

    /// Prints a text on the standard output.
    ///
    /// # Errors
    ///
    /// It isn't printed whole, for this reason.
    fn print(&mut self, text: &[u8]) -> Result<(), Reason>
        ensures { Adds (done self.old) (done self.new) (prints text.now (reason_in result) ∷ []) };

    /// Says a line on the standard error, if that takes it.
    fn say(&mut self, line: &str)
        ensures { Adds (done self.old) (done self.new) (says line.now ∷ []) };

    /// Says a line of the file at a path on the standard error, behind the path and a colon, if that takes it.
    fn say_of(&mut self, path: &str, line: &str)
        ensures { Adds (done self.old) (done self.new) (says (path.now ++ (codes ": " ++ line.now)) ∷ []) };

    /// Notes a line on the standard error where that is a terminal, if it takes it, and nowhere else.
    fn note(&mut self, line: &str)
        ensures { Adds (done self.old) (done self.new) (notes line.now ∷ []) };

    /// Shows what the parser of command lines says, help and the version on the standard output, all else on the standard error.
    ///
    /// # Errors
    ///
    /// It isn't shown whole, for this reason.
    fn show(&mut self, error: &clap::Error) -> Result<(), Reason>
        ensures { Adds (done self.old) (done self.new) (shows error.now (reason_in result) ∷ []) };
}
