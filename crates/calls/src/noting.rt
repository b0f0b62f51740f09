//! Which cells a transaction on a library in plain cells reads and writes.

ghost use Rattle.std.specs.Prelude.{◌≡◌, All};
ghost use Rattle.library.specs.Fitting.{CommandFits};

use crate::samples::{DEMO, checked};
use cells::{Cells, Halt};
use commands::run;
use library::Command;
use mmstatement::Prelude;
use plaincells::PlainCells;
use ranges::Range;
use scripts::read_script;
use std::alloc::{AllocError, AllocGlobal, Global};
use std::random::RandomSource;
use std::test::Fail;
use std::thread::Threads;

/// How many slots the library has, and how many cells these have.
const SLOTS: usize = 4096;

const CELLS: usize = 28_672;

/// The room of the store.
const ROOM: usize = 1000;

/// Cells that note of each whether it was read or written.
#[derive(Drop)]
struct NotedCells<C> {
    cells: C,
    /// By the number of the cell.
    noted: Vec<bool>,
}

/// Notes a cell.
fn note(noted: &mut Vec<bool>, cell: usize) {
    if let Some(is_noted) = noted.get_mut(cell) {
        *is_noted = true;
    }
}

// Each call is that of the cells.
impl<C: Cells> Cells for NotedCells<C> {
    type Origin = C::Origin;

    ghost sight = { λ n. C.sight n.cells };

    fn slots(&self) -> usize {
        self.cells.slots()
    }

    fn read(&mut self, cell: usize) -> Result<u64, Halt> {
        note(&mut self.noted, cell);
        self.cells.read(cell)
    }

    fn write(&mut self, cell: usize, value: u64) {
        note(&mut self.noted, cell);
        self.cells.write(cell, value);
    }

    fn load(&mut self, range: Range, index: usize) -> u64 {
        self.cells.load(range, index)
    }

    fn load_all(&mut self, range: Range, words: &mut Vec<u64>) -> Result<(), AllocError> {
        self.cells.load_all(range, words)
    }

    fn stage(&mut self, words: &[u64]) -> Result<Range, Halt> {
        self.cells.stage(words)
    }

    ghost grounded = { λ n. C.grounded n.cells };
}

/// Whether commands are done over cells.
fn is_done(
    alloc: Global,
    prelude: &Prelude,
    cells: &mut NotedCells<PlainCells>,
    commands: &[Command],
) -> bool
    requires prelude { prelude.now ≡ cells.old.cells.prelude }
    requires fit { All (CommandFits prelude.now) commands.now }
{
    run(alloc, prelude, cells, commands).is_ok()
}

/// Whether the one transaction of a script is done over cells.
fn is_script_done(
    alloc: Global,
    prelude: &Prelude,
    cells: &mut NotedCells<PlainCells>,
    script: &[u8],
) -> Result<bool, Fail>
    requires { prelude.now ≡ cells.old.cells.prelude }
{
    let script = read_script(alloc, prelude, script)?;
    match script.as_slice() {
        [transaction] => Ok(is_done(alloc, prelude, cells, transaction.as_slice())),
        _ => Err(Fail::from("one transaction")),
    }
}

/// Of each cell whether the one transaction of a script over the library reads or writes it.
fn noted(alloc: Global, cells: PlainCells, script: &[u8]) -> Result<Vec<bool>, Fail> {
    let prelude = cells.prelude().copy(alloc)?;
    let mut cells = NotedCells {
        cells,
        noted: vec![in alloc; false; CELLS]?,
    };
    if !is_script_done(alloc, &prelude, &mut cells, script)? {
        return Err(Fail::from("the transaction is done"));
    }
    let NotedCells { cells: _, noted } = cells;
    Ok(noted)
}

/// The same over the library of `DEMO` as it is opened.
fn noted_at_opening(
    rt: &(impl AllocGlobal + RandomSource + Threads + Sync),
    script: &[u8],
) -> Result<Vec<bool>, Fail> {
    let db = checked(rt, DEMO.as_bytes())?;
    let cells = PlainCells::open(rt.alloc(), &db, SLOTS, ROOM)?;
    noted(rt.alloc(), cells, script)
}

/// Whether each of two notes has a cell, and none is in both.
fn are_apart(some: &[bool], others: &[bool]) -> bool {
    for (one, other) in some.iter().zip(others) {
        if *one && *other {
            return false;
        }
    }
    some.contains(&true) && others.contains(&true)
}

/// Renamings of two assertions have no cell in common.
pub(crate) fn are_renamings_apart(
    rt: &(impl AllocGlobal + RandomSource + Threads + Sync),
) -> Result<bool, Fail> {
    let some = noted_at_opening(rt, b"begin rename a1 x commit")?;
    let others = noted_at_opening(rt, b"begin rename a2 y commit")?;
    Ok(are_apart(some.as_slice(), others.as_slice()))
}
