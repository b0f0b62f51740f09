//! A runtime for one command line: it has the words, and what is printed on either stream goes to the standard output of the table.

ghost use Rattle.std.specs.Io.{WritesAtMost};

use std::alloc::{Allocator, Global};
use std::collections::VecDeque;
use std::env::FillError;
use std::fmt::Display;
use std::io::{BufRead, Lines, Write};
use std::random::RandomSource;
use std::rt::{Clock, Env, Files};
use std::sync::Wait;
use std::sync::atomic::AtomicU64;
use std::sync::atomic::Ordering::SeqCst;
use std::thread::Threads;
use std::time::Duration;
use std::{fs, io};

/// How the streams of a command line are, its words, and what the system gives.
#[derive(Clone, Copy, PartialEq, Eq)]
pub enum Mode {
    /// All is printed.
    Open,
    /// The standard output is a closed pipe.
    Closed,
    /// The standard output lies on a full disk.
    Full,
    /// The standard input is the file whose path is the first word.
    Given,
    /// The standard error is a terminal.
    Terminal,
    /// The standard output goes into the file whose path is the first word.
    Kept,
    /// There are no random numbers.
    Unkeyed,
    /// No word is UTF-8.
    Garbled,
}

/// A runtime for one command line. The files are those of the runtime that it stands on.
#[derive(Drop)]
pub struct Stage<'r, R> {
    rt: &'r R,
    mode: Mode,
    words: &'r str,
    looks: AtomicU64,
}

impl<'r, R> Stage<'r, R> {
    /// The words are those of a row, between single spaces: the first, which says how the streams are, stands for the program's name. A row
    /// whose output is kept, or whose input is given, has the path in front of them.
    pub fn new(rt: &'r R, mode: Mode, row: &'r str) -> Self {
        let words = match mode {
            Mode::Kept | Mode::Given => row.split_once(' ').unwrap_or((row, "")).1,
            _ => row,
        };
        Stage {
            rt,
            mode,
            words,
            looks: AtomicU64::new(0),
        }
    }

    /// Whether its standard error is a terminal.
    pub fn is_terminal(&self) -> bool {
        matches!(self.mode, Mode::Terminal)
    }
}

impl<R: AllocGlobal> Alloc for Stage<'_, R> {
    type A = Global;

    fn alloc(&self) -> Global {
        self.rt.alloc()
    }
}

impl<R: Threads> Threads for Stage<'_, R> {}

impl<R: Wait> Wait for Stage<'_, R> {}

impl<R: RandomSource> RandomSource for Stage<'_, R> {
    fn fill_bytes(&self, buf: &mut [u8]) -> io::Result<()> {
        match self.mode {
            Mode::Unkeyed => Err(io::Error::from(io::ErrorKind::Unsupported)),
            _ => self.rt.fill_bytes(buf),
        }
    }
}

/// Prints the first line of a text behind the name of its stream, with escapes for what isn't seen.
fn print_first(
    rt: &(impl Print + AllocGlobal),
    stream: &str,
    value: impl Display + Drop,
) -> io::Result<()> {
    let text = format!(in rt.alloc(); "{value}")?;
    let first = text.as_str().lines().next().unwrap_or("");
    println!(rt; "{stream}: {first:?}")
}

impl<R: Files + Print + AllocGlobal> Print for Stage<'_, R> {
    fn print<D: Display + Drop>(&self, value: D) -> io::Result<()> {
        match self.mode {
            Mode::Closed => Err(io::Error::from(io::ErrorKind::BrokenPipe)),
            Mode::Full => Err(io::Error::from(io::ErrorKind::StorageFull)),
            _ => print_first(self.rt, "output", value),
        }
    }

    fn println<D: Display + Drop>(&self, value: D) -> io::Result<()> {
        self.print(value)
    }

    fn write_all(&self, bytes: &[u8]) -> io::Result<()> {
        match self.mode {
            Mode::Closed => Err(io::Error::from(io::ErrorKind::BrokenPipe)),
            Mode::Full => Err(io::Error::from(io::ErrorKind::StorageFull)),
            Mode::Kept => match self.words.split(' ').next() {
                Some(path) => fs::write(self.rt, path, bytes),
                None => Ok(()),
            },
            _ => self.rt.write_all(bytes),
        }
    }
}

impl<R: Print + AllocGlobal> Eprint for Stage<'_, R> {
    fn eprint<D: Display + Drop>(&self, value: D) -> io::Result<()> {
        print_first(self.rt, "error", value)
    }

    fn eprintln<D: Display + Drop>(&self, value: D) -> io::Result<()> {
        println!(self.rt; "error line: {value}")
    }
}

impl<R: Files + AllocGlobal> Input for Stage<'_, R> {
    type Reader = VecDeque<u8>;

    fn read_line<A: Allocator + Clone>(&self, buf: &mut String<A>) -> io::Result<usize> {
        self.reader().read_line(buf)
    }

    fn lines<A: Allocator>(&self, alloc: A) -> Lines<VecDeque<u8>, A> {
        self.reader().lines(alloc)
    }

    /// Nothing, where no input is given or its file can't be read.
    fn reader(&self) -> VecDeque<u8> {
        let mut given = VecDeque::new(self.rt.alloc());
        if let (Mode::Given, Some(path)) = (self.mode, self.words.split(' ').next()) {
            if let Ok(text) = fs::read(self.rt, path) {
                let _ = given.write_all(text.as_slice());
            }
        }
        given
    }
}

/// A byte that no UTF-8 has.
const GARBLE: &[u8] = b"\xff";

/// Copies a text to the front of a buffer.
fn fill(buf: &mut [u8], text: &[u8]) -> Result<usize, FillError>
    ensures { WritesAtMost result buf.new }
{
    let length = text.len();
    if length > buf.len() {
        return Err(FillError::TooLong);
    }
    buf[..length].copy_from_slice(text);
    Ok(length)
}

impl<R> Env for Stage<'_, R> {
    fn arg(&self, i: usize, buf: &mut [u8]) -> Result<usize, FillError> {
        match self.words.split(' ').nth(i) {
            Some(_) if self.mode == Mode::Garbled => fill(buf, GARBLE),
            Some(word) => fill(buf, word.as_bytes()),
            None => Err(FillError::NotPresent),
        }
    }

    fn var(&self, _name: &str, _buf: &mut [u8]) -> Result<usize, FillError> {
        Err(FillError::NotPresent)
    }

    fn var_at(&self, _i: usize, _buf: &mut [u8]) -> Result<usize, FillError> {
        Err(FillError::NotPresent)
    }
}

impl<R> Clock for Stage<'_, R> {
    /// Two seconds more at each look.
    fn monotonic(&self) -> io::Result<Duration> {
        let looks = self.looks.fetch_add(1, SeqCst);
        Ok(Duration::from_secs(looks.saturating_mul(2)))
    }

    fn since_1970(&self) -> io::Result<Duration> {
        self.monotonic()
    }
}
