//! How answers are written.

use crate::written::Written;
use tlwords::{ClosedCell, ClosedWords, Conflict, Outcome};

/// What is said of a line that can't be read, or can't be done now.
pub const CANNOT: &[u8] = b"cannot do this line";

/// ` WORD NUMBER`, or ` WORD none`.
fn put_option(out: &mut Written, word: &str, number: Option<u64>) {
    match number {
        Some(number) => out.show(format_args!(" {word} {number}")),
        None => out.show(format_args!(" {word} none")),
    }
}

/// Where a run met a newer version.
pub fn put_conflict(out: &mut Written, conflict: &Conflict) {
    let (cell, word) = (conflict.cell, conflict.word);
    out.show(format_args!("conflict cell {cell} word {word}"));
    put_option(out, "before", conflict.before);
}

/// How a run ended.
pub fn put_outcome(out: &mut Written, outcome: &Outcome) {
    match outcome {
        Outcome::Committed(number) => out.show(format_args!("committed {number}")),
        Outcome::Read(place) => out.show(format_args!("read at {place}")),
        Outcome::Conflict { conflict, drawn } => {
            put_conflict(out, conflict);
            put_option(out, "drew", *drawn);
        }
        Outcome::NumbersUsed => out.put(b"numbers used"),
    }
}

/// Lock word and value of each cell.
fn put_cells(out: &mut Written, cells: &[ClosedCell]) {
    for cell in cells {
        let (lock, value) = (cell.lock, cell.value);
        out.show(format_args!(" {lock}:{value}"));
    }
}

/// Each word of a store.
fn put_words(out: &mut Written, words: &[u64]) {
    for word in words {
        out.show(format_args!(" {word}"));
    }
}

/// The clock, the tail of the store, lock word and value of each cell, and the words that are given of the store.
pub fn put_closed(out: &mut Written, closed: &ClosedWords) {
    let (clock, tail) = (closed.clock, closed.tail);
    out.show(format_args!("clock {clock} tail {tail} cells"));
    put_cells(out, closed.cells.as_slice());
    out.put(b" store");
    put_words(out, closed.store.as_slice());
}
