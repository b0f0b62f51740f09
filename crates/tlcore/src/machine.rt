//! The machine's world as one value, and its steps.
#![tactic(auto)]

ghost use Rattle.std.specs.Option.{option_map, unwrap_or};
ghost use Rattle.std.specs.Prelude.{◌≡◌, ◌<◌, ℕ, List, IfOk, Some, length, slice_get, option_and_then, false};
ghost use Rattle.tlcore.specs.History.{settled as settled_in};
ghost use Rattle.tlcore.specs.Seats.{Read as ReadValue, find_read as find_read_of};
ghost use Rattle.tlcore.specs.Machine.{next};
ghost use Rattle.tlcore.specs.Schedules.{start, seated, opened};
ghost use Rattle.tlcore.specs.Steps.{Acts, IsNext, world_of, MeetsInvariant};

use crate::actions::Action;
use crate::cells::Cell;
use crate::committing::{check, draw, release, store, take};
use crate::entries::{Entry, Status};
use crate::reading::{begin, load, look, relook};
use crate::seats::{Phase, Seat};
use crate::sets::find_read;
use std::alloc::{AllocError, Global};
use std::marker::Model;

/// A world of the machine: the words of the cells, the seats and the history.
///
/// The clock is the length of the history, since each draw advances the one and adds to the other. The readers take no
/// memory, and none changes the world.
#[derive(Drop)]
pub struct World {
    cells: Vec<Cell>,
    seats: Vec<Seat>,
    history: Vec<Entry>,
}

impl Model for World {
    ghost use Rattle.tlcore.specs.Machine.{World as WorldValue};

    ghost Value = { WorldValue };

    ghost use Rattle.tlcore.specs.Steps.{world_of, MeetsInvariant};

    ghost view = { λ a. world_of a.cells.items a.seats.items a.history.items };

    ghost invariant = { λ a. MeetsInvariant (world_of a.cells.items a.seats.items a.history.items) };
}

impl World {
    /// The world before the first event: cell `i` holds `values[i]` at version 0, as many seats are idle, and the clock is 0.
    ///
    /// The only error is want of memory.
    #[tactic(auto, using(crate::proofs::Stepping::seated_more))]
    pub fn open(alloc: Global, values: &[u64], seats: usize) -> Result<World, AllocError>
        ensures { IfOk result (λ w. w ≡ start values.now seats) }
    {
        let cells = opened_cells(alloc, values)?;
        let seats = idle_seats(alloc, seats)?;
        Ok(World {
            cells,
            seats,
            history: Vec::new(alloc),
        })
    }

    /// The clock: how many numbers were drawn.
    pub fn clock(&self) -> u64
        ensures { result ≡ self.now.clock }
    {
        self.history.len() as u64
    }

    /// The lock word of a cell, which counts from 0: twice its version, and one more where it is locked. None where there is
    /// no such cell.
    pub fn lock(&self, cell: usize) -> Option<u64>
        ensures { result ≡ option_map (λ x. x.lock) (slice_get self.now.cells cell) }
    {
        let cells = self.cells.as_slice();
        if cell < cells.len() {
            Some(cells[cell].lock)
        } else {
            None
        }
    }

    /// The value word of a cell, which counts from 0. None where there is no such cell.
    pub fn value(&self, cell: usize) -> Option<u64>
        ensures { result ≡ option_map (λ x. x.value) (slice_get self.now.cells cell) }
    {
        let cells = self.cells.as_slice();
        if cell < cells.len() {
            Some(cells[cell].value)
        } else {
            None
        }
    }

    /// How the run that drew this number ended: `Some(true)` where its entry is Done, `Some(false)` where it is Void.
    ///
    /// Numbers count from 1 to the clock. None where the entry is Open, and for a number that nobody drew.
    pub fn settled(&self, number: u64) -> Option<bool>
        ensures { result ≡ settled_in self.now.history number }
    {
        let history = self.history.as_slice();
        if number == 0 || number > history.len() as u64 {
            return None;
        }
        let entry = &history[(number - 1) as usize];
        match entry.status {
            Status::Open => None,
            Status::Void => Some(false),
            Status::Done => Some(true),
        }
    }

    /// The value that the last read of a cell found, of those that the seat's last run has ended. Seats and cells count from 0.
    ///
    /// None where there is no such seat, and where the run has ended no read of the cell.
    pub fn value_read(&self, seat: usize, cell: usize) -> Option<u64>
        ensures { result ≡ option_and_then (λ t. option_map (λ r. r.value) (find_read_of cell t.reads)) (slice_get self.now.seats seat) }
    {
        let seats = self.seats.as_slice();
        if seat < seats.len() {
            let seat = &seats[seat];
            find_read(cell, seat.reads.as_slice()).map(|read| read.value)
        } else {
            None
        }
    }

    /// Whether the seat's last run met a conflict, and no `Begin` of the seat came since. A seat that isn't there met none.
    pub fn conflicted(&self, seat: usize) -> bool
        ensures { result ≡ unwrap_or (option_map (λ t. t.conflicted) (slice_get self.now.seats seat)) false }
    {
        let seats = self.seats.as_slice();
        if seat < seats.len() {
            let seat = &seats[seat];
            seat.conflicted
        } else {
            false
        }
    }

    /// An equal world.
    pub(crate) fn copy(&self, alloc: Global) -> Result<World, AllocError>
        ensures { IfOk result (λ w. w ≡ self.now) }
    {
        let cells = self.cells.clone()?;
        let seats = copy_seats(alloc, &self.seats)?;
        let history = copy_history(alloc, &self.history)?;
        Ok(World {
            cells,
            seats,
            history,
        })
    }
}

fn opened_cells(alloc: Global, values: &[u64]) -> Result<Vec<Cell>, AllocError>
    ensures { IfOk result (λ v. v.items ≡ opened values.now) }
{
    values
        .iter()
        .map(|v| Cell { lock: 0, value: *v })
        .collect(alloc)
}

#[tactic(auto, using(crate::proofs::Stepping::seated_more))]
fn idle_seats(alloc: Global, seats: usize) -> Result<Vec<Seat>, AllocError>
    ensures { IfOk result (λ v. v.items ≡ seated seats) }
{
    let mut all = Vec::new(alloc);
    for _i in 0..seats {
        all.push(Seat {
            phase: Phase::Idle,
            rv: 0,
            reads: Vec::new(alloc),
            held: Vec::new(alloc),
            conflicted: false,
            clocks: Vec::new(alloc),
            locked: Vec::new(alloc),
            looked: None,
        })?;
    }
    Ok(all)
}

fn copy_seats(alloc: Global, seats: &[Seat]) -> Result<Vec<Seat>, AllocError>
    ensures { IfOk result (λ v. v.items ≡ seats.now) }
{
    let mut copies = Vec::new(alloc);
    for seat in seats {
        copies.push(seat.copy()?)?;
    }
    Ok(copies)
}

fn copy_history(alloc: Global, history: &[Entry]) -> Result<Vec<Entry>, AllocError>
    ensures { IfOk result (λ v. v.items ≡ history.now) }
{
    let mut copies = Vec::new(alloc);
    for entry in history {
        copies.push(entry.copy()?)?;
    }
    Ok(copies)
}

/// A history is far from the largest number, since each entry takes memory.
fn is_short(history: &[Entry]) -> bool
    ensures { length history.now < 4611686018427387904 }
{
    history.len() < 4611686018427387904
}

/// The event of one seat, on the cells, that seat and the history.
fn act(
    alloc: Global,
    cells: &mut Vec<Cell>,
    seat: &mut Seat,
    history: &mut Vec<Entry>,
    action: Action,
) -> Result<bool, AllocError>
    requires words { (c : ℕ) (r : ReadValue) → find_read_of c seat.old.reads ≡ Some r → r.word < 18446744073709551615 }
    requires numbers { (entry : ℕ) → seat.old.phase ≡ Phase.Storing entry → entry < 4611686018427387904 }
    ensures { IfOk result (λ b. Acts cells.old.items seat.old history.old.items action b cells.new.items seat.new history.new.items) }
{
    match action {
        Action::Begin => begin(alloc, cells, seat, history),
        Action::Look(cell) => Ok(look(cells, seat, cell)),
        Action::Load(cell) => Ok(load(cells, seat, cell)),
        Action::Relook(cell) => relook(cells, seat, cell),
        Action::Take(cell, value) => take(cells, seat, cell, value),
        Action::Draw => draw(alloc, cells, seat, history),
        Action::Check(cell) => Ok(check(cells, seat, cell)),
        Action::Store(cell) => store(alloc, cells, seat, history, cell),
        Action::Release(cell) => release(alloc, cells, seat, history, cell),
    }
}

/// The event of a seat, where it is lawful.
fn advance(
    alloc: Global,
    cells: &mut Vec<Cell>,
    seats: &mut Vec<Seat>,
    history: &mut Vec<Entry>,
    seat: usize,
    action: Action,
) -> Result<bool, AllocError>
    requires { MeetsInvariant (world_of cells.old.items seats.old.items history.old.items) }
    ensures { let now = world_of cells.old.items seats.old.items history.old.items in let later =
        world_of cells.new.items seats.new.items history.new.items in IfOk result (λ b. IsNext now seat action b later) }
{
    // For the proof: the next number is none too high.
    let _short = is_short(history);
    if seat >= seats.len() {
        return Ok(false);
    }
    let took = act(alloc, cells, &mut seats[seat], history, action)?;
    Ok(took)
}

/// The world after the action of a seat, and `None` exactly where the action isn't lawful there: also where there is no such
/// seat or no such cell. Seats and cells count from 0.
///
/// The world itself stays. The only error is want of memory.
pub fn step(
    alloc: Global,
    world: &World,
    seat: usize,
    action: Action,
) -> Result<Option<World>, AllocError>
    ensures { IfOk result (λ after. after ≡ next world.now seat action) }
{
    let mut after = world.copy(alloc)?;
    if advance(
        alloc,
        &mut after.cells,
        &mut after.seats,
        &mut after.history,
        seat,
        action,
    )? {
        Ok(Some(after))
    } else {
        Ok(None)
    }
}
