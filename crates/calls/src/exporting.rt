//! A library exported to writers that take few bytes at a call, fail, or take none.

use crate::samples::{DEMO, checked, mini};
use export::{ExportError, export};
use history::Editor;
use library::PlainLibrary;
use std::alloc::{AllocGlobal, Global};
use std::hash::RandomState;
use std::io;
use std::io::{ErrorKind, Write};
use std::random::RandomSource;
use std::test::Fail;
use std::thread::Threads;

/// A writer in memory that takes at most so many bytes at a call, and fails at one call.
#[derive(Drop)]
struct Slow {
    held: Vec<u8>,
    most: usize,
    calls: usize,
    /// The number of the call that fails, counted from 1. 0: none fails.
    fails_at: usize,
    flushes: usize,
}

impl Write for Slow {
    fn write(&mut self, buf: &[u8]) -> io::Result<usize> {
        self.calls = self.calls.saturating_add(1);
        if self.calls == self.fails_at {
            return Err(io::Error::from(ErrorKind::BrokenPipe));
        }
        let count = buf.len().min(self.most);
        self.held.extend_from_slice(&buf[..count])?;
        Ok(count)
    }

    fn flush(&mut self) -> io::Result<()> {
        self.flushes = self.flushes.saturating_add(1);
        Ok(())
    }
}

/// The opening library of a database whose proofs check, with room for eight assertions.
pub(crate) fn library(
    rt: &(impl AllocGlobal + RandomSource + Threads + Sync),
    text: &[u8],
) -> Result<PlainLibrary, Fail> {
    let keys = RandomState::new(rt)?;
    let db = checked(rt, text)?;
    match Editor::open(rt.alloc(), keys, &db, 8) {
        Ok(editor) => Ok(editor.into_library()),
        Err(error) => Err(Fail::from(error)),
    }
}

/// Whether the export of the library of a text, to a writer that takes at most so many bytes at a call and fails at one call, ends behind
/// so many bytes and calls: with an error, unless these are all. Nothing is called behind an error.
fn ends_behind(
    library: (&PlainLibrary, &[u8]),
    alloc: Global,
    most: usize,
    fails_at: usize,
    written: usize,
    calls: usize,
) -> bool {
    let (library, text) = library;
    let mut writer = Slow {
        held: Vec::new(alloc),
        most,
        calls: 0,
        fails_at,
        flushes: 0,
    };
    let answer = export(alloc, library, &mut writer);
    let wanted = if written == text.len() {
        Ok(())
    } else {
        Err(ExportError::Write { written })
    };
    answer == wanted
        && Some(writer.held.as_slice()) == text.get(..written)
        && writer.calls == calls
        && writer.flushes == 0
}

/// Exports to a writer that takes a byte at a call and fails at one call, at each of them in turn.
pub(crate) fn fails_at_each_call(
    rt: &(impl AllocGlobal + RandomSource + Threads + Sync),
) -> Result<bool, Fail> {
    let text = DEMO.as_bytes();
    let library = library(rt, text)?;
    for written in 0..text.len() {
        if !ends_behind(
            (&library, text),
            rt.alloc(),
            1,
            written + 1,
            written,
            written + 1,
        ) {
            return Ok(false);
        }
    }
    Ok(true)
}

/// Exports to a writer that fails at its third call, to one that takes nothing, and to one that takes a byte at a call.
pub(crate) fn calls_nothing_behind(
    rt: &(impl AllocGlobal + RandomSource + Threads + Sync),
) -> Result<bool, Fail> {
    let library = library(rt, mini())?;
    let library = (&library, mini());
    Ok(
        ends_behind(library, rt.alloc(), 7, 3, 14, 3)
            && ends_behind(library, rt.alloc(), 0, 0, 0, 1)
            && ends_behind(library, rt.alloc(), 1, 0, 23, 23),
    )
}
