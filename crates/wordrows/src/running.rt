//! What runs do.

ghost use Rattle.std.specs.Prelude.{◌≡◌, true, IsTrue};
ghost use Rattle.std.specs.List.{Contains};
ghost use Rattle.tlwords.specs.Runs.{was_read};
ghost use Rattle.wordrows.specs.Seats.{is_named, IsThere, RestsAt, RunsAt};

use crate::line::Step;
use crate::print::{put_conflict, put_outcome};
use crate::seat::{Anything, Playing, Resting};
use crate::written::Written;
use std::alloc::{AllocError, Global};
use tlwords::{Mode, Range, Words, begin};

/// Writes a number behind a word.
fn put_number(out: &mut Written, word: &str, number: u64) {
    out.show(format_args!("{word} {number}"));
}

/// Begins a run.
pub fn begin_run<'w>(
    alloc: Global,
    out: &mut Written,
    words: &'w Words<Anything>,
    rest: Resting,
    mode: Mode,
) -> Playing<'w>
    requires { RestsAt words.now rest }
    ensures { RunsAt words.now result }
{
    let Resting { pass, ranges } = rest;
    let run = begin(words, pass, mode);
    put_number(out, "began at", run.place());
    Playing {
        run,
        mode,
        read: Vec::new(alloc),
        ranges,
    }
}

/// Whether the cell is one of these.
fn has_cell(cells: &[usize], cell: usize) -> bool
    ensures { IsTrue result → Contains cells.now cell }
{
    cells.contains(&cell)
}

/// Whether the range is one of these.
fn has_range(ranges: &[Range], range: Range) -> bool
    ensures { IsTrue result → Contains ranges.now range }
{
    ranges.contains(&range)
}

/// Notes that a cell was read, where the run may write.
fn note_cell(
    words: &Words<Anything>,
    playing: &mut Playing<'_>,
    cell: usize,
) -> Result<(), AllocError>
    requires runs { RunsAt words.now playing.old }
    requires read { playing.old.mode ≡ Mode.Writing → was_read playing.old.run.slots cell ≡ true }
    ensures runs { RunsAt words.now playing.new }
    ensures same { playing.new.run ≡ playing.old.run }
{
    if playing.mode == Mode::Reading {
        return Ok(());
    }
    playing.read.push(cell)?;
    Ok(())
}

/// Notes that the pass knows of a range.
fn note_range(
    words: &Words<Anything>,
    playing: &mut Playing<'_>,
    range: Range,
) -> Result<(), AllocError>
    requires runs { RunsAt words.now playing.old }
    requires there { IsThere playing.old.run.known.seen.ranges range }
    ensures { RunsAt words.now playing.new }
{
    playing.ranges.push(range)?;
    Ok(())
}

/// Reads a cell; false where there is none. Where it is to hold the word that names a range, the pass knows of that range from then on.
fn read(
    out: &mut Written,
    words: &Words<Anything>,
    named: bool,
    playing: &mut Playing<'_>,
    cell: usize,
) -> bool
    requires named { is_named words.now ≡ named }
    requires runs { RunsAt words.now playing.old }
    ensures { RunsAt words.now playing.new }
{
    if cell >= words.cells() {
        return false;
    }
    let value = match playing.run.read(cell) {
        Ok(value) => value,
        Err(conflict) => {
            put_conflict(out, &conflict);
            return true;
        }
    };
    let noted = note_cell(words, playing, cell);
    out.note(noted);
    put_number(out, "read", value);
    let range = Range::named(value);
    if named && range.len != 0 {
        let known = note_range(words, playing, range);
        out.note(known);
    }
    true
}

/// Keeps a value for a cell that was read; false where it was not. Where cells name ranges, that value is 0.
fn write(
    out: &mut Written,
    words: &Words<Anything>,
    named: bool,
    playing: &mut Playing<'_>,
    cell: usize,
    value: u64,
) -> bool
    requires named { is_named words.now ≡ named }
    requires runs { RunsAt words.now playing.old }
    ensures { RunsAt words.now playing.new }
{
    if cell >= words.cells() || playing.mode == Mode::Reading {
        return false;
    }
    if named && value != 0 {
        return false;
    }
    if !has_cell(playing.read.as_slice(), cell) {
        return false;
    }
    playing.run.write(cell, value);
    out.put(b"kept");
    true
}

/// Keeps the word that names a range for a cell that was read; false where it was not, or the pass doesn't know of the range.
fn name(
    out: &mut Written,
    words: &Words<Anything>,
    playing: &mut Playing<'_>,
    cell: usize,
    range: Range,
) -> bool
    requires { RunsAt words.now playing.old }
    ensures { RunsAt words.now playing.new }
{
    if cell >= words.cells() || playing.mode == Mode::Reading {
        return false;
    }
    if range.start >= 1 << 25 || range.len >= 1 << 25 {
        return false;
    }
    if !has_cell(playing.read.as_slice(), cell) || !has_range(playing.ranges.as_slice(), range) {
        return false;
    }
    let value = range.word();
    playing.run.write(cell, value);
    out.put(b"kept");
    true
}

/// Throws away what was kept.
fn forget(out: &mut Written, words: &Words<Anything>, playing: &mut Playing<'_>) -> bool
    requires { RunsAt words.now playing.old }
    ensures { RunsAt words.now playing.new }
{
    playing.run.forget();
    out.put(b"forgot");
    true
}

/// Writes the range that was staged.
fn put_range(out: &mut Written, range: Range) {
    let (start, len) = (range.start, range.len);
    out.show(format_args!("staged {start} {len}"));
}

/// Stages words; false where there are none.
fn stage(
    out: &mut Written,
    words: &Words<Anything>,
    playing: &mut Playing<'_>,
    staged: &[u64],
) -> bool
    requires { RunsAt words.now playing.old }
    ensures { RunsAt words.now playing.new }
{
    if staged.is_empty() {
        return false;
    }
    match playing.run.stage(staged) {
        Ok(range) => {
            let known = note_range(words, playing, range);
            out.note(known);
            put_range(out, range);
            true
        }
        Err(full) => {
            out.show(format_args!("refused {full}"));
            true
        }
    }
}

/// Loads a word of a range; false where it has none there, or the pass doesn't know of it.
fn load(
    out: &mut Written,
    words: &Words<Anything>,
    playing: &mut Playing<'_>,
    range: Range,
    index: usize,
) -> bool
    requires { RunsAt words.now playing.old }
    ensures { RunsAt words.now playing.new }
{
    if index >= range.len || !has_range(playing.ranges.as_slice(), range) {
        return false;
    }
    put_number(out, "loaded", playing.run.load(range, index));
    true
}

/// Does what a run goes on after; false where it can't.
pub fn go_on(
    out: &mut Written,
    words: &Words<Anything>,
    named: bool,
    playing: &mut Playing<'_>,
    step: Step<'_>,
) -> bool
    requires named { is_named words.now ≡ named }
    requires runs { RunsAt words.now playing.old }
    ensures { RunsAt words.now playing.new }
{
    match (step.letter, step.numbers) {
        (b's', staged) => stage(out, words, playing, staged),
        (b'f', _) => forget(out, words, playing),
        (b'r', [cell]) => read(out, words, named, playing, *cell as usize),
        (b'w', [cell, value]) => write(out, words, named, playing, *cell as usize, *value),
        (b'n', [cell, start, len]) => {
            name(out, words, playing, *cell as usize, range_of(*start, *len))
        }
        (b'l', [start, len, index]) => {
            load(out, words, playing, range_of(*start, *len), *index as usize)
        }
        _ => false,
    }
}

/// The range of two numbers of a line.
fn range_of(start: u64, len: u64) -> Range {
    Range {
        start: start as usize,
        len: len as usize,
    }
}

/// Commits.
pub fn commit(
    out: &mut Written,
    words: &Words<Anything>,
    playing: Playing<'_>,
    note: u64,
) -> Resting
    requires { RunsAt words.now playing }
    ensures { RestsAt words.now result }
{
    let (run, ranges) = playing.into_parts();
    let (pass, outcome) = run.commit(&note);
    put_outcome(out, &outcome);
    Resting { pass, ranges }
}

/// Ends a run with nothing written.
pub fn leave(out: &mut Written, words: &Words<Anything>, playing: Playing<'_>) -> Resting
    requires { RunsAt words.now playing }
    ensures { RestsAt words.now result }
{
    let (run, ranges) = playing.into_parts();
    out.put(b"left");
    Resting {
        pass: run.leave(),
        ranges,
    }
}
