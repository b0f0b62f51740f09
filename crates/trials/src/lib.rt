//! The table of sessions, and what is measured of this repository's crates (`measuring`).
//!
//! The table has lines that open libraries and use their sessions, and what each is answered.
//! The lines stand in the `stdin` of `workbench`, and what was worked out by hand from the rules in its `stdout`. The gate runs that
//! program over the one and compares what it prints with the other, so that a row costs no proof. `answering` says which lines there
//! are.
#![tactic(auto)]

// the table of sessions
mod answering;
mod ending;
mod opening;
mod outcomes;
mod random;
mod seats;

// for both: a library in plain cells
mod in_cells;

// measurements
mod cell_work;
mod check_work;
mod files;
mod measuring;
mod meet_work;
mod mutex_work;
mod session_work;
mod times;
mod word_work;

ghost use Rattle.std.specs.Prelude.{IfSome};
ghost use Rattle.trials.specs.Opened.{IsOpen};

use crate::answering::answer_line;
pub use crate::measuring::{Ending, measure};
use crate::opening::Opened;
use std::alloc::{AllocError, Global};
use std::hash::RandomState;
use std::thread::Threads;
use wordrows::Written;

/// Writes what the lines of a table are answered, in order.
fn answer_all(
    rt: &(impl Threads + Sync),
    alloc: Global,
    keys: RandomState,
    out: &mut Written,
    opened: &mut Option<Opened>,
    lines: &[Vec<u8>],
)
    requires { IfSome opened.old IsOpen }
{
    let mut has_database = false;
    for (number, line) in lines.iter().enumerate() {
        has_database |= line.starts_with(b"database");
        let before = if has_database { number } else { 0 };
        let before = lines.get(..before).unwrap_or(lines);
        let is_read = match str::from_utf8(line.as_slice()) {
            Ok(line) => answer_line(rt, alloc, keys, out, opened, before, line),
            Err(_) => false,
        };
        if !is_read {
            out.put(b"cannot read this line\n");
        }
    }
}

/// What the lines of a table are answered, in order.
///
/// # Errors
///
/// Want of memory.
pub fn answer_sessions(
    rt: &(impl Threads + Sync),
    alloc: Global,
    keys: RandomState,
    lines: &[Vec<u8>],
) -> Result<Vec<u8>, AllocError> {
    let mut out = Written::new(alloc);
    let mut opened = None;
    answer_all(rt, alloc, keys, &mut out, &mut opened, lines);
    if out.is_short {
        return Err(AllocError);
    }
    Ok(out.bytes)
}
