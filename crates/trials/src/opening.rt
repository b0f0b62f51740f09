//! Openings of libraries from the databases of a table.

ghost use Rattle.std.specs.Prelude.{IfSome};
ghost use Rattle.trials.specs.Opened.{IsOpen};

use crate::outcomes::put_unopened;
use mmreader::read_database;
use mmsyntax::Database;
use mmtext::{FaultKind, TextFault};
use std::alloc::Global;
use std::hash::RandomState;
use std::mem;
use std::thread::Threads;
use transaction::{Library, Session, Shape};
use wordrows::Written;

/// A library that is open, with all its sessions in the order of their names, and the database that it was opened from.
#[derive(Drop)]
pub struct Opened {
    pub database: Database,
    pub library: Library,
    pub sessions: Vec<Session>,
}

/// False: what has this fault can't be read, if it isn't want of memory.
pub fn unread(out: &mut Written, fault: TextFault) -> bool {
    if let FaultKind::NoMemory = fault.kind {
        out.is_short = true;
    }
    false
}

/// The shape that three words say: the slots, the room and the sessions.
fn shape_of(words: &str) -> Option<Shape> {
    let (slots, behind) = words.split_once(' ')?;
    let (room, sessions) = behind.split_once(' ')?;
    Some(Shape {
        slots: slots.parse::<usize>().ok()?,
        room: room.parse::<usize>().ok()?,
        sessions: sessions.parse::<usize>().ok()?,
    })
}

/// The text of the database of this name, by the lines of a table; nothing where there is none.
fn text_of(alloc: Global, lines: &[Vec<u8>], name: &str) -> Written {
    let mut text = Written::new(alloc);
    let mut is_within = false;
    for line in lines {
        if let Some(other) = line.as_slice().strip_prefix(b"database ") {
            is_within = other == name.as_bytes();
        } else if is_within && let Some(words) = line.as_slice().strip_prefix(b"|") {
            text.put(words);
            text.put(b"\n");
        }
    }
    text
}

/// Opens the library of a database, and writes `opened` and how many sessions there are, or why it isn't opened: what was open before
/// stays so then.
fn open_database(
    rt: &(impl Threads + Sync),
    alloc: Global,
    keys: RandomState,
    out: &mut Written,
    opened: &mut Option<Opened>,
    database: Database,
    shape: Shape,
)
    requires { IfSome opened.old IsOpen }
    ensures { IfSome opened.new IsOpen }
{
    match Library::open(rt, alloc, keys, &database, shape) {
        Ok((library, sessions)) => {
            let count = shape.sessions;
            out.show(format_args!("opened {count}\n"));
            let next = Opened {
                database,
                library,
                sessions,
            };
            drop(mem::replace(opened, Some(next)));
        }
        Err(error) => put_unopened(out, error),
    }
}

/// Opens the library of a database, by words that say its name and the shape, as `open_database` does. False where there is no such
/// database or shape.
pub fn open(
    rt: &(impl Threads + Sync),
    alloc: Global,
    keys: RandomState,
    out: &mut Written,
    opened: &mut Option<Opened>,
    lines: &[Vec<u8>],
    words: &str,
) -> bool
    requires { IfSome opened.old IsOpen }
    ensures { IfSome opened.new IsOpen }
{
    let (name, shape) = words.split_once(' ').unwrap_or((words, ""));
    let Some(shape) = shape_of(shape) else {
        return false;
    };
    let text = text_of(alloc, lines, name);
    out.is_short |= text.is_short;
    if text.bytes.is_empty() {
        return false;
    }
    match read_database(alloc, keys, text.bytes.as_slice()) {
        Ok(database) => {
            open_database(rt, alloc, keys, out, opened, database, shape);
            true
        }
        Err(fault) => unread(out, fault),
    }
}
