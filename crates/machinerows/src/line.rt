//! What lines are answered.

use crate::event::{cut, event_of, read_events};
use crate::print::{Opened, show, show_or_none, show_world};
use std::alloc::{AllocError, Global};
use std::mem;
use tlcore::{Ran, World, run_schedule, step};

/// What is said of a line that can't be read.
const CANNOT: &str = "cannot do this line";

/// A world of cells with these values, and of so many idle seats.
fn open(alloc: Global, values: &[u64], seats: usize) -> Result<Opened, AllocError> {
    Ok(Opened {
        world: World::open(alloc, values, seats)?,
        cells: values.len(),
        seats,
    })
}

/// The numbers between the blanks of a text. None where a word is none.
fn read_values(alloc: Global, text: &str) -> Result<Option<Vec<u64>>, AllocError> {
    let mut values = Vec::new(alloc);
    for word in text.split_ascii_whitespace() {
        let Ok(value) = word.parse::<u64>() else {
            return Ok(None);
        };
        values.push(value)?;
    }
    Ok(Some(values))
}

/// Opens a world by a line, whose words behind the first are these.
fn answer_open(
    alloc: Global,
    out: &mut Vec<u8>,
    opened: &mut Opened,
    words: &str,
) -> Result<(), AllocError> {
    let (seats, values) = words.split_once(" values").unwrap_or((words, "none"));
    let Ok(seats) = seats
        .strip_prefix("seats ")
        .unwrap_or("none")
        .parse::<usize>()
    else {
        return show(out, CANNOT);
    };
    let Some(values) = read_values(alloc, values)? else {
        return show(out, CANNOT);
    };
    let now = open(alloc, values.as_slice(), seats)?;
    drop(mem::replace(opened, now));
    show_world(out, opened)
}

/// Runs the schedule that a text says.
fn answer_run(
    alloc: Global,
    out: &mut Vec<u8>,
    opened: &mut Opened,
    text: &str,
) -> Result<(), AllocError> {
    let Some(events) = read_events(alloc, text)? else {
        return show(out, CANNOT);
    };
    let Ran { world, took } = run_schedule(alloc, &opened.world, events.as_slice())?;
    drop(mem::replace(&mut opened.world, world));
    show(out, format_args!("took {took} "))?;
    show_world(out, opened)
}

/// Takes the event that a text says, where it is lawful.
fn answer_step(
    alloc: Global,
    out: &mut Vec<u8>,
    opened: &mut Opened,
    text: &str,
) -> Result<(), AllocError> {
    let Some((seat, action)) = event_of(text) else {
        return show(out, CANNOT);
    };
    match step(alloc, &opened.world, seat, action)? {
        Some(world) => {
            drop(mem::replace(&mut opened.world, world));
            show_world(out, opened)
        }
        None => show(out, "not lawful"),
    }
}

/// Tells what the seat that a text names has read of the cell that it names.
fn answer_value(out: &mut Vec<u8>, world: &World, text: &str) -> Result<(), AllocError> {
    let (seat, cell) = cut(text);
    match (seat.parse::<usize>(), cell.parse::<usize>()) {
        (Ok(seat), Ok(cell)) => show_or_none(out, world.value_read(seat, cell)),
        _ => show(out, CANNOT),
    }
}

/// Answers a line that is no comment.
fn answer_line(
    alloc: Global,
    out: &mut Vec<u8>,
    opened: &mut Opened,
    line: &str,
) -> Result<(), AllocError> {
    let (verb, behind) = cut(line);
    match verb {
        "open" => answer_open(alloc, out, opened, behind),
        "run" => answer_run(alloc, out, opened, behind),
        "step" => answer_step(alloc, out, opened, behind),
        "value" => answer_value(out, &opened.world, behind),
        _ => show(out, CANNOT),
    }
}

/// Writes a line, and what it is answered.
fn put_line(
    alloc: Global,
    out: &mut Vec<u8>,
    opened: &mut Opened,
    line: &[u8],
) -> Result<(), AllocError> {
    out.extend_from_slice(line)?;
    if !line.is_empty() && !line.starts_with(b"#") {
        show(out, ": ")?;
        answer_line(
            alloc,
            out,
            opened,
            str::from_utf8(line).unwrap_or("no text"),
        )?;
    }
    show(out, "\n")
}

/// What the lines of a table are answered, in order.
///
/// # Errors
///
/// Want of memory.
pub fn answer_schedules(alloc: Global, lines: &[Vec<u8>]) -> Result<Vec<u8>, AllocError> {
    let mut out = Vec::new(alloc);
    let mut opened = open(alloc, &[], 0)?;
    for line in lines {
        put_line(alloc, &mut out, &mut opened, line.as_slice())?;
    }
    Ok(out)
}
