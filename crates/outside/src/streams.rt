//! The standard input, output and error: what is read, and what is put there.

use std::io;

/// The standard input, output and error: what they have and hold, where that is known, contracts see.
pub trait Streams {
    ghost use Rattle.std.specs.Prelude.{◌≡◌, ◌++◌, [], ℕ, Bool, List, Option, None, IfErr, IfSome, OnOk, codes, take};
    ghost use Rattle.std.specs.IoError.{error_kind};
    ghost use Rattle.std.specs.declared.io.ErrorKind.{ErrorKind};
    ghost use Rattle.outside.specs.Deeds.{failure_of};
    ghost use Rattle.outside.specs.Streams.{IsAppended, Lasts, Stays};

    /// What the standard input has, where that is known.
    ghost input: { Option (List ℕ) } = { None };

    /// Whether the system refuses to read the standard input, by an error of this kind, as far as that is known.
    ghost input_refuses: { ErrorKind → Type 0 } = { λ _. Unit {0} };

    /// What the standard output holds, where that is known.
    ghost out: { Self → Option (List ℕ) } = { λ _. None };

    /// Whether a write on the standard output failed, by an error of this kind, as far as that is known.
    ghost out_failed: { Self → ErrorKind → Type 0 } = { λ _ _. Unit {0} };

    /// What the standard error holds, where that is known.
    ghost err: { Self → Option (List ℕ) } = { λ _. None };

    /// Whether a write on the standard error failed, by an error of this kind, as far as that is known.
    ghost err_failed: { Self → ErrorKind → Type 0 } = { λ _ _. Unit {0} };

    /// Whether the standard error is a terminal, or isn't, as far as that is known.
    ghost tells_terminal: { Bool → Type 0 } = { λ _. Unit {0} };

    /// Whether the standard error is a terminal.
    fn is_terminal(&self) -> bool
        ensures { tells_terminal result };

    /// Reads what the standard input has, up to so many bytes, behind a text that is empty.
    ///
    /// # Errors
    ///
    /// The system refuses it, or there is no memory for the text.
    fn read_input(&self, most: u64, text: &mut Vec<u8>) -> io::Result<()>
        requires { text.old.items ≡ [] }
        ensures whole { OnOk result (IfSome input (λ all. text.new.items ≡ take most all)) }
        ensures refused { IfErr result (λ e. input_refuses (error_kind e)) };

    /// Prints a text on the standard output.
    ///
    /// # Errors
    ///
    /// A write failed: a front of the text is printed.
    fn print(&mut self, text: &[u8]) -> io::Result<()>
        ensures put { IsAppended (out_failed self.new) (out self.old) (out self.new) text.now (failure_of result) }
        ensures lasts { Lasts (out_failed self.old) (out_failed self.new) }
        ensures other { Stays (err_failed self.old) (err_failed self.new) (err self.old) (err self.new) };

    /// Says a line on the standard error, and ends it.
    ///
    /// # Errors
    ///
    /// A write failed: a front of the line is said.
    fn say(&mut self, line: &str) -> io::Result<()>
        ensures put { IsAppended (err_failed self.new) (err self.old) (err self.new) (line.now ++ codes "\n") (failure_of result) }
        ensures lasts { Lasts (err_failed self.old) (err_failed self.new) }
        ensures other { Stays (out_failed self.old) (out_failed self.new) (out self.old) (out self.new) };

    /// Says a line of the file at a path so, behind the path and a colon.
    ///
    /// # Errors
    ///
    /// A write failed: a front of the line is said.
    fn say_of(&mut self, path: &str, line: &str) -> io::Result<()>
        ensures put { IsAppended (err_failed self.new) (err self.old) (err self.new)
            ((path.now ++ (codes ": " ++ line.now)) ++ codes "\n") (failure_of result) }
        ensures lasts { Lasts (err_failed self.old) (err_failed self.new) }
        ensures other { Stays (out_failed self.old) (out_failed self.new) (out self.old) (out self.new) };

    /// Shows what the parser of command lines says, on the stream of that.
    ///
    /// # Errors
    ///
    /// A write failed.
    fn show(&mut self, error: &clap::Error) -> io::Result<()>
        ensures out { Lasts (out_failed self.old) (out_failed self.new) }
        ensures err { Lasts (err_failed self.old) (err_failed self.new) };
}
