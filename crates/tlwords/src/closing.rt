//! The end of a memory.
#![tactic(auto)]

ghost use Rattle.std.specs.Prelude.{◌≡◌, ℕ, ◌+◌, ◌*◌, ◌<◌, ◌≤◌, ◌^◌, [], ◌∷◌, ◌++◌, All, map, length, min, IfOk};
ghost use mathlib.Core.Option.{some};
ghost use lib.ListN.{get_elem?};
ghost use Rattle.std.specs.Slots.{slots_items, slots_len, IsFull};
ghost use Rattle.tlwords.specs.Callers.{SitsAt};
ghost use Rattle.tlwords.specs.Closing.{AreCellsOf, IsStoreOf, AreGathered, ClosesAll};
ghost use Rattle.tlwords.specs.Plays.{IsSameSeat};
ghost use Rattle.tlwords.specs.Known.{gone_known};
ghost use Rattle.tlwords.specs.Layout.{front_size, tail_at, store_at};

use crate::law::Law;
use crate::layout::{CLOCK, FIRST_LOCK, FIRST_VALUE, STORE, TAIL};
use crate::passes::Pass;
use crate::plays::GiveUp;
use crate::rule::{Board, TableSeat};
use crate::words::Words;
use atomic_table::Closed;
use std::alloc::{AllocError, Global};

/// The two words of a cell.
#[derive(Clone, Copy)]
pub struct ClosedCell {
    /// Twice the version, and one more where the cell is locked.
    pub lock: u64,
    /// The value.
    pub value: u64,
}

/// The words at the end.
#[derive(Drop)]
pub struct ClosedWords {
    /// How many words the store has room for.
    pub room: usize,
    /// How many numbers were drawn.
    pub clock: u64,
    /// How many words of the store were taken, or more than it has where a staging was refused.
    pub tail: u64,
    /// The cells, in order.
    pub cells: Vec<ClosedCell>,
    /// The words of the store, in order: all of them (`close`), or those up to the tail (`close_taken`). Behind the tail each is 0.
    pub store: Vec<u64>,
}

/// Ends a memory, and the passes of it that are given, and gives all its words. They show one history, into which grows what each of the
/// passes had seen, and the store has each finished range. A lock that is held is that of a seat in the middle of a run, and no more seats
/// hold one than passes are left out: a pass is at rest, and holds nothing. Where as many passes are given as there were sessions, no lock
/// is held any more, and the clock and the tail are where these passes moved them. What it costs goes by the cells and by the room:
/// `close_taken` reads no word behind the tail.
///
/// # Errors
///
/// Want of memory. The words and the passes are gone then.
pub fn close<L: Law>(
    alloc: Global,
    words: Words<L>,
    passes: Vec<Pass<L>>,
) -> Result<ClosedWords, AllocError>
    requires { All (λ p. SitsAt words p) passes.items }
    ensures closes { IfOk result (λ c. ClosesAll L.terms words.table.shared.key.setting.value words.table.shared.key.values.value.items
        words.table.shared.key.store.value.items words.table.shared.key.sessions passes.items c) }
    ensures store { IfOk result (λ c. (c.room ≡ words.room) × (length c.store.items ≡ words.room)) }
{
    let cells = words.cells;
    let room = words.room;
    let table = end::<L>(words, passes);
    gather(alloc, table, cells, room, room)
}

/// Ends a memory as `close` does, and gives of its store the words up to the tail alone: the words that were taken, or all of them where a
/// staging was refused. What it costs goes by the cells and by these words, not by the room.
///
/// # Errors
///
/// Want of memory. The words and the passes are gone then.
pub fn close_taken<L: Law>(
    alloc: Global,
    words: Words<L>,
    passes: Vec<Pass<L>>,
) -> Result<ClosedWords, AllocError>
    requires { All (λ p. SitsAt words p) passes.items }
    ensures closes { IfOk result (λ c. ClosesAll L.terms words.table.shared.key.setting.value words.table.shared.key.values.value.items
        words.table.shared.key.store.value.items words.table.shared.key.sessions passes.items c) }
    ensures store { IfOk result (λ c. (c.room ≡ words.room) × (length c.store.items ≡ min c.tail words.room)) }
{
    let cells = words.cells;
    let room = words.room;
    let table = end::<L>(words, passes);
    let tail = table.word(2 * cells + TAIL);
    let taken = tail.min(room as u64) as usize;
    gather(alloc, table, cells, room, taken)
}

// The table that no thread shares any more. Whatever is gathered of it ends the memory.
fn end<L: Law>(words: Words<L>, passes: Vec<Pass<L>>) -> Closed<(), Global>
    requires { All (λ p. SitsAt words p) passes.items }
    ensures words { (slots_len result.words ≡ store_at words.cells words.room) × IsFull result.words × (slots_len result.slots ≡ 0) }
    ensures closes { (c : ClosedWords) → AreGathered (slots_items result.words) words.cells words.room c → ClosesAll L.terms
        words.table.shared.key.setting.value words.table.shared.key.values.value.items words.table.shared.key.store.value.items
        words.table.shared.key.sessions passes.items c }
{
    let table = words.into_table();
    let mut passes = passes;
    match passes.pop() {
        Some(last) => end_with::<L>(table, last, passes),
        None => end_alone::<L>(table),
    }
}

// Gives all these passes up to the one of this seat, the last of them first.
fn give_up_all<L: Law>(table: &Board<L>, seat: &mut TableSeat<L>, passes: &mut Vec<Pass<L>>)
    requires seat { (seat.old.table_id ≡ table.now.shared.table_id) × (0 < table.now.shared.table_id.words) }
    requires passes { All (λ p. p.home.table ≡ table.now.shared.table_id) passes.old.items }
    ensures seat { IsSameSeat seat.old seat.new }
    ensures is { seat.new.me.0 ≡ record seat.old.me.0 { gone = seat.new.me.0.gone } }
    ensures gone { seat.new.me.0.gone ≡ map gone_known passes.old.items ++ seat.old.me.0.gone }
{
    while let Some(pass) = passes.pop() {
        let parts = pass.into_parts();
        table.shared.join_seat::<GiveUp>(seat, parts.0);
    }
}

fn end_with<L: Law>(table: Board<L>, last: Pass<L>, mut passes: Vec<Pass<L>>) -> Closed<(), Global>
    requires last { last.home.table ≡ table.shared.table_id }
    requires passes { All (λ p. p.home.table ≡ table.shared.table_id) passes.items }
    requires words { 0 < table.shared.table_id.words }
    ensures words { (slots_len result.words ≡ table.shared.table_id.words) × IsFull result.words
        × (slots_len result.slots ≡ table.shared.table_id.slots) }
    ensures closes { (cells : ℕ) (c : ClosedWords) → table.shared.table_id.words ≡ store_at cells table.shared.key.room
        → AreGathered (slots_items result.words) cells table.shared.key.room c
        → ClosesAll L.terms table.shared.key.setting.value table.shared.key.values.value.items table.shared.key.store.value.items
        table.shared.key.sessions (passes.items ++ last ∷ []) c }
{
    let mut seat = last.into_parts().0;
    give_up_all::<L>(&table, &mut seat, &mut passes);
    table.close_with(seat)
}

fn end_alone<L: Law>(table: Board<L>) -> Closed<(), Global>
    requires { 1 ≤ table.shared.key.sessions }
    ensures words { (slots_len result.words ≡ table.shared.table_id.words) × IsFull result.words
        × (slots_len result.slots ≡ table.shared.table_id.slots) }
    ensures closes { (cells : ℕ) (c : ClosedWords) → table.shared.table_id.words ≡ store_at cells table.shared.key.room
        → AreGathered (slots_items result.words) cells table.shared.key.room c
        → ClosesAll L.terms table.shared.key.setting.value table.shared.key.values.value.items table.shared.key.store.value.items
        table.shared.key.sessions [] c }
{
    table.close()
}

// The words that no thread shares any more, of the store so many.
fn gather(
    alloc: Global,
    table: Closed<(), Global>,
    cells: usize,
    room: usize,
    count: usize,
) -> Result<ClosedWords, AllocError>
    requires words { (slots_len table.words ≡ store_at cells room) × IsFull table.words × (slots_len table.slots ≡ 0) × (cells < 2 ^ 32)
        × (room ≤ 2 ^ 24) }
    requires reaches { (tail : ℕ) → get_elem? (slots_items table.words) (tail_at cells) ≡ some tail → min tail room ≤ count }
    requires within { count ≤ room }
    ensures gathered { IfOk result (λ c. AreGathered (slots_items table.words) cells room c) }
    ensures count { IfOk result (λ c. (c.room ≡ room) × (length c.store.items ≡ count)) }
{
    let clock = table.word(CLOCK);
    let tail = table.word(2 * cells + TAIL);
    let gathered = gather_all(alloc, &table, cells, count);
    table.free();
    let (cells, store) = gathered?;
    Ok(ClosedWords {
        room,
        clock,
        tail,
        cells,
        store,
    })
}

// The cells, and so many words of the store.
fn gather_all(
    alloc: Global,
    table: &Closed<(), Global>,
    cells: usize,
    taken: usize,
) -> Result<(Vec<ClosedCell>, Vec<u64>), AllocError>
    requires words { (store_at cells taken ≤ slots_len table.now.words) × IsFull table.now.words × (cells < 2 ^ 32) × (taken ≤ 2 ^ 24) }
    ensures cells { IfOk result (λ r. AreCellsOf (slots_items table.now.words) r.0.items × (length r.0.items ≡ cells)) }
    ensures store { IfOk result (λ r. IsStoreOf (slots_items table.now.words) cells r.1.items × (length r.1.items ≡ taken)) }
{
    Ok((
        gather_cells(alloc, table, cells)?,
        gather_store(alloc, table, cells, taken)?,
    ))
}

fn gather_cells(
    alloc: Global,
    table: &Closed<(), Global>,
    cells: usize,
) -> Result<Vec<ClosedCell>, AllocError>
    requires { (front_size cells ≤ slots_len table.now.words) × IsFull table.now.words × (cells < 2 ^ 32) }
    ensures { IfOk result (λ v. AreCellsOf (slots_items table.now.words) v.items × (length v.items ≡ cells)) }
{
    let mut closed = Vec::with_capacity(alloc, cells)?;
    for cell in 0..cells {
        closed.push_reserved(ClosedCell {
            lock: table.word(2 * cell + FIRST_LOCK),
            value: table.word(2 * cell + FIRST_VALUE),
        });
    }
    Ok(closed)
}

fn gather_store(
    alloc: Global,
    table: &Closed<(), Global>,
    cells: usize,
    taken: usize,
) -> Result<Vec<u64>, AllocError>
    requires { (store_at cells taken ≤ slots_len table.now.words) × IsFull table.now.words × (cells < 2 ^ 32) × (taken ≤ 2 ^ 24) }
    ensures { IfOk result (λ v. IsStoreOf (slots_items table.now.words) cells v.items × (length v.items ≡ taken)) }
{
    let mut closed = Vec::with_capacity(alloc, taken)?;
    for offset in 0..taken {
        closed.push_reserved(table.word(2 * cells + STORE + offset));
    }
    Ok(closed)
}
