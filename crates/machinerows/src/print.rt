//! How a world is shown.

use std::alloc::AllocError;
use std::fmt::Display;
use std::io::Write;
use tlcore::World;

/// A world, with how many cells and seats it has.
#[derive(Drop)]
pub(crate) struct Opened {
    /// The world.
    pub(crate) world: World,
    /// How many cells it has.
    pub(crate) cells: usize,
    /// How many seats it has.
    pub(crate) seats: usize,
}

/// Writes these words. Writing into a vector fails only for want of memory.
pub(crate) fn show(out: &mut Vec<u8>, words: impl Display + Drop) -> Result<(), AllocError> {
    write!(out, "{words}").map_err(|_| AllocError)
}

/// A number, or `none`.
pub(crate) fn show_or_none(out: &mut Vec<u8>, number: Option<u64>) -> Result<(), AllocError> {
    match number {
        Some(number) => show(out, number),
        None => show(out, "none"),
    }
}

/// The two words of a cell.
fn show_cell(out: &mut Vec<u8>, world: &World, cell: usize) -> Result<(), AllocError> {
    show(out, " ")?;
    show_or_none(out, world.lock(cell))?;
    show(out, ":")?;
    show_or_none(out, world.value(cell))
}

/// The two words of each cell.
fn show_cells(out: &mut Vec<u8>, opened: &Opened) -> Result<(), AllocError> {
    show(out, " cells")?;
    for cell in 0..opened.cells {
        show_cell(out, &opened.world, cell)?;
    }
    Ok(())
}

/// How an entry stands.
fn status_of(settled: Option<bool>) -> &'static str {
    match settled {
        None => " open",
        Some(true) => " done",
        Some(false) => " void",
    }
}

/// How each entry of the history stands.
fn show_entries(out: &mut Vec<u8>, world: &World) -> Result<(), AllocError> {
    show(out, " entries")?;
    for number in 1..=world.clock() {
        show(out, status_of(world.settled(number)))?;
    }
    Ok(())
}

/// The seats whose last run met a conflict.
fn show_conflicted(out: &mut Vec<u8>, opened: &Opened) -> Result<(), AllocError> {
    show(out, " conflicted")?;
    for seat in 0..opened.seats {
        if opened.world.conflicted(seat) {
            show(out, format_args!(" {seat}"))?;
        }
    }
    Ok(())
}

/// All that a world shows.
pub(crate) fn show_world(out: &mut Vec<u8>, opened: &Opened) -> Result<(), AllocError> {
    let clock = opened.world.clock();
    show(out, format_args!("clock {clock}"))?;
    show_cells(out, opened)?;
    show_entries(out, &opened.world)?;
    show_conflicted(out, opened)
}
