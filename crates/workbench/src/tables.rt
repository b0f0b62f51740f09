//! The tables of the standard input, step by step.

ghost use Rattle.std.specs.Prelude.{◌≤◌, length};

use crate::lines::{do_row, is_silent, words_of};
use diskrows::answer_files;
use machinerows::answer_schedules;
use std::alloc::{AllocError, Global};
use std::hash::RandomState;
use std::io::{BufRead, BufReader};
use std::process::Termination;
use std::random::RandomSource;
use std::rt::{Clock, Env, Files};
use std::sync::Wait;
use std::test::Fail;
use std::thread::Threads;
use std::time::CpuClock;
use std::{env, io};
use trials::{Ending, answer_sessions, measure};
use wordrows::answer_table;

/// What stands in front of the name of a table.
const HEAD: &str = "%% ";

/// What stands in front of the text of a row of command lines.
const TEXT: &[u8] = b"|";

/// The table of command lines.
const COMMANDS: &str = "commands";

/// Puts a line behind others.
fn put_line(lines: &mut Vec<Vec<u8>>, line: io::Result<Vec<u8>>) -> io::Result<()> {
    lines.push(line?)?;
    Ok(())
}

/// Reads the lines of the standard input, without their line feeds.
pub(crate) fn read_lines(
    rt: &(impl Input + AllocGlobal),
    lines: &mut Vec<Vec<u8>>,
) -> io::Result<()> {
    for line in BufReader::new(rt.alloc(), rt.reader())?.split(rt.alloc(), b'\n') {
        put_line(lines, line)?;
    }
    Ok(())
}

/// What is done at a time: a table with all its lines, or a row of the table of command lines with the lines of its text. That table's
/// first step has no line.
#[derive(Clone, Copy)]
pub(crate) struct Step<'l> {
    /// The name of the table.
    pub(crate) name: &'l str,
    /// Whether the table begins there.
    begins: bool,
    /// The row; empty where the table begins.
    pub(crate) row: &'l str,
    /// The lines of the table, or those of the row's text.
    lines: &'l [Vec<u8>],
}

/// How many lines stand in front of the first that begins with these bytes, or that doesn't.
fn count_before(lines: &[Vec<u8>], bytes: &[u8], is_with: bool) -> usize
    ensures { result ≤ length lines.now }
{
    lines
        .iter()
        .position(|line| line.starts_with(bytes) == is_with)
        .unwrap_or(lines.len())
}

/// The first step in a table of this name, and the lines behind it. None where there is no line.
pub(crate) fn next_step<'l>(
    name: &'l str,
    lines: &'l [Vec<u8>],
) -> Option<(Step<'l>, &'l [Vec<u8>])> {
    let (first, behind) = lines.split_first()?;
    let first = str::from_utf8(first.as_slice()).unwrap_or("no text");
    let (begins, name, row, count) = match first.strip_prefix(HEAD) {
        Some(COMMANDS) => (true, COMMANDS, "", 0),
        Some(begun) => (true, begun, "", count_before(behind, HEAD.as_bytes(), true)),
        None => (false, name, first, count_before(behind, TEXT, false)),
    };
    let (lines, behind) = behind.split_at(count);
    let step = Step {
        name,
        begins,
        row,
        lines,
    };
    Some((step, behind))
}

/// Prints the line that begins the table of a step, or its row, unless nothing is printed of that. Whether it is printed.
pub(crate) fn begin_step(rt: &impl Print, step: Step<'_>) -> bool {
    let (mark, line) = if step.begins {
        ("%%", step.name)
    } else {
        ("==", step.row)
    };
    is_silent(line) || println!(rt; "{mark} {line}").is_ok()
}

/// Prints what a table of sessions is answered.
fn do_sessions(
    rt: &(impl AllocGlobal + Print + RandomSource + Threads + Sync),
    lines: &[Vec<u8>],
) -> io::Result<()> {
    let keys = RandomState::new(rt)?;
    print_answers(rt, answer_sessions(rt, rt.alloc(), keys, lines))
}

/// Prints what the lines of a table are answered.
fn print_answers(rt: &impl Print, answers: Result<Vec<u8>, AllocError>) -> io::Result<()> {
    rt.write_all(answers?.as_slice())
}

/// Does a measurement by the words of a line, and says so where it isn't done. It may wait.
fn measure_line<R>(rt: &R, line: &[u8]) -> io::Result<()>
where
    R: Files
        + AllocGlobal
        + Print
        + Eprint
        + RandomSource
        + Clock
        + CpuClock
        + Threads
        + Wait
        + Sync,
{
    let words = words_of(rt.alloc(), str::from_utf8(line).unwrap_or(""))?;
    match measure(rt, words.as_slice()) {
        Ending::Done => Ok(()),
        _ => println!(rt; "not done"),
    }
}

/// Does each measurement of a table. It may wait.
fn do_measures<R>(rt: &R, lines: &[Vec<u8>]) -> io::Result<()>
where
    R: Files
        + AllocGlobal
        + Print
        + Eprint
        + RandomSource
        + Clock
        + CpuClock
        + Threads
        + Wait
        + Sync,
{
    for line in lines {
        measure_line(rt, line.as_slice())?;
    }
    Ok(())
}

/// Prints the name of a call, and whether it is answered as is wanted; says why it isn't. Few bounds make it cheap.
fn print_answered(
    rt: &(impl Print + Eprint),
    name: &str,
    answer: Result<(), Fail>,
) -> io::Result<()> {
    let word = if answer.is_ok() { "" } else { "not " };
    let _ = answer.report(rt);
    println!(rt; "{word}{name}")
}

/// Makes the calls of a table, by their names, and says which were answered as is wanted. It may wait.
fn do_calls<R>(rt: &R, subject: &str, lines: &[Vec<u8>]) -> io::Result<()>
where
    R: AllocGlobal + Print + Eprint + RandomSource + Threads + Wait + Sync,
{
    for line in lines {
        let name = str::from_utf8(line.as_slice()).unwrap_or("");
        print_answered(rt, name, calls::make(rt, subject.as_bytes(), name))?;
    }
    Ok(())
}

/// Prints what a table is answered, or does what a row asks for that is no command line. It may wait.
pub(crate) fn do_step<R>(rt: &R, step: Step<'_>) -> io::Result<()>
where
    R: Files
        + AllocGlobal
        + Print
        + Eprint
        + RandomSource
        + Clock
        + CpuClock
        + Threads
        + Wait
        + Sync,
{
    match step.name {
        COMMANDS => do_row(rt, step.row, step.lines),
        "sessions" => do_sessions(rt, step.lines),
        "words" => print_answers(rt, answer_table(rt.alloc(), step.lines)),
        "machine" => print_answers(rt, answer_schedules(rt.alloc(), step.lines)),
        "files" => print_answers(rt, answer_files(rt.alloc(), step.lines)),
        "measures" => do_measures(rt, step.lines),
        subject => do_calls(rt, subject, step.lines),
    }
}

/// The words of the command line.
fn given_words(rt: &(impl AllocGlobal + Env)) -> io::Result<Vec<String>> {
    Ok(env::args(rt)?.collect::<Vec<String>>(rt.alloc())?)
}

/// Measures what the words of the command line ask for. None where there is none of them. It may wait.
pub(crate) fn measure_given<R>(rt: &R) -> Option<Ending>
where
    R: Files
        + AllocGlobal
        + Print
        + Eprint
        + RandomSource
        + Env
        + Clock
        + CpuClock
        + Threads
        + Wait
        + Sync,
{
    let Ok(words) = given_words(rt) else {
        return Some(Ending::Failed);
    };
    match words.as_slice() {
        [] | [_] => None,
        [_, words @ ..] => Some(measure(rt, words)),
    }
}

/// Prints the status of a command line. Whether it is printed.
pub(crate) fn print_status(rt: &impl Print, status: u8) -> bool {
    println!(rt; "status {status}").is_ok()
}
