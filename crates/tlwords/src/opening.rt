//! The opening of a memory.
#![tactic(auto)]

ghost use Rattle.std.specs.Prelude.{◌≡◌, ℕ, ◌+◌, ◌*◌, ◌<◌, ◌≤◌, ◌^◌, [], ◌∷◌, ◌++◌, ◌-◌, length, replicate, IfOk, IfErr, Err, All, map, ◌⊎◌};
ghost use Rattle.ranges.specs.Ranges.{Range, ranges_named};
ghost use Rattle.tlwords.specs.Layout.{opening_words, front_of, shelf_of};
ghost use Rattle.tlwords.specs.Terms.{AreNamed};
ghost use Rattle.tlwords.specs.Callers.{home_of, AreOfOneOpening, IsOpened};
ghost use Rattle.tlwords.specs.Known.{Knows};
ghost use Rattle.tlwords.specs.Calls.{IsDealt, new_pass};
ghost use Rattle.tlwords.specs.declared.opening.OpenFault.TheVariants.{BadShape, StoreFull, NoMemory};
ghost use Rattle.ranges.specs.Ranges.{AreOfOneStore};
ghost use Rattle.tlwords.specs.Runs.{IsBadShape, down, dealer};

use crate::law::Law;
use crate::layout::{HEAD, STORE, UNUSED};
use crate::log::Log;
use crate::passes::Pass;
use crate::plays::Deal;
use crate::rule::{Opening, TableSeat};
use crate::words::Words;
use atomic_table::Table;
use std::alloc::{AllocError, Global};
use std::error::Error;
use std::fmt;
use std::snapshot::Snapshot;

/// Why a memory was not opened.
#[derive(Clone, Copy, Debug, PartialEq, Eq)]
pub enum OpenFault {
    /// There are to be 0 to 4,294,967,295 cells, 1 to 64 sessions, and a room of 0 to 16,777,216 words.
    BadShape,
    /// The store's opening words are more than its room.
    StoreFull,
    /// There was no memory.
    NoMemory,
}

impl OpenFault {
    ghost use Rattle.tlwords.specs.Faults.{number_of, name_of};

    /// The number of the fault, from 1 to 3.
    pub fn number(self) -> u32
        ensures { result ≡ number_of self }
    {
        match self {
            OpenFault::BadShape => 1,
            OpenFault::StoreFull => 2,
            OpenFault::NoMemory => 3,
        }
    }

    /// The name of the fault, as messages print it.
    pub fn name(self) -> &'static str
        ensures { result.now ≡ name_of self }
    {
        match self {
            OpenFault::BadShape => "BadShape",
            OpenFault::StoreFull => "StoreFull",
            OpenFault::NoMemory => "NoMemory",
        }
    }
}

/// The number and the name of the fault, as in `2 StoreFull`.
impl fmt::Display for OpenFault {
    ghost use Rattle.std.specs.Prelude.{Some};
    ghost use Rattle.tlwords.specs.Faults.{number_of, name_of, printed};

    ghost output = { λ fault. Some (printed (number_of fault) (name_of fault)) };

    fn fmt<W: fmt::Write>(&self, f: &mut fmt::Formatter<W>) -> fmt::Result {
        let number = self.number();
        let name = self.name();
        write!(f, "{number} {name}")
    }
}

impl Error for OpenFault {}

impl From<AllocError> for OpenFault {
    ghost use Rattle.tlwords.specs.declared.opening.OpenFault.TheVariants.{NoMemory};

    ghost from_gives = { λ _ fault. fault ≡ NoMemory };

    fn from(_error: AllocError) -> Self {
        OpenFault::NoMemory
    }
}

/// The most cells that a memory has.
pub const MOST_CELLS: usize = (1 << 32) - 1;

/// The most words that a store has.
pub const MOST_ROOM: usize = 1 << 24;

impl<L: Law> Words<L> {
    /// Opens a memory whose cells have these values, with a pass for each session, and a store of `room` words that begins with
    /// `store`. Each word of the room is written.
    ///
    /// The ranges of the store that the values of range cells name are finished, but empty ones, and each pass has seen them.
    ///
    /// # Errors
    ///
    /// `BadShape` for more than 4,294,967,295 cells, other than 1 to 64 sessions, or a room of more than 16,777,216 words; then `StoreFull`
    /// where `store` has more words than the room; and `NoMemory`.
    pub fn open(
        alloc: Global,
        setting: &L::Setting,
        values: Vec<u64>,
        store: Vec<u64>,
        room: usize,
        sessions: usize,
    ) -> Result<(Words<L>, Vec<Pass<L>>), OpenFault>
        requires opens { L.terms.opens setting.now (ranges_named (L.terms.ranged setting.now) store.items values.items) values.items }
        requires named { AreNamed L.terms setting.now (ranges_named (L.terms.ranged setting.now) store.items values.items) values.items }
        ensures sizes { IfOk result (λ r. (r.0.cells ≡ length values.items) × (r.0.room ≡ room)) }
        ensures key { IfOk result (λ r. (r.0.table.shared.key.setting.value ≡ setting.now)
            × (r.0.table.shared.key.values.value.items ≡ values.items) × (r.0.table.shared.key.store.value.items ≡ store.items)
            × (r.0.table.shared.key.sessions ≡ sessions)) }
        ensures passes { IfOk result (λ r. All (λ p. p
            ≡ new_pass (home_of r.0) (ranges_named (L.terms.ranged setting.now) store.items values.items) p.name) r.1.items) }
        ensures opening { IfOk result (λ r. All (λ p. AreOfOneOpening r.0 p) r.1.items) }
        ensures sound { IfOk result (λ r. All (λ p. Knows L.terms p) r.1.items) }
        ensures names { IfOk result (λ r. map (λ p. p.name) r.1.items ≡ down sessions sessions) }
        ensures shape { (IsBadShape (length values.items) sessions room → result ≡ Err BadShape)
            × (result ≡ Err BadShape → IsBadShape (length values.items) sessions room) }
        ensures full { ((IsBadShape (length values.items) sessions room → ⊥) → room < length store.items → result ≡ Err StoreFull)
            × (result ≡ Err StoreFull → room < length store.items) }
    {
        if values.len() > MOST_CELLS || sessions == 0 || sessions > 64 || room > MOST_ROOM {
            return Err(OpenFault::BadShape);
        }
        if store.len() > room {
            return Err(OpenFault::StoreFull);
        }
        lay_out::<L>(alloc, setting, &values, &store, room, sessions)
    }
}

// The words and the passes of a memory whose shape is right.
fn lay_out<L: Law>(
    alloc: Global,
    setting: &L::Setting,
    values: &Vec<u64>,
    store: &Vec<u64>,
    room: usize,
    sessions: usize,
) -> Result<(Words<L>, Vec<Pass<L>>), OpenFault>
    requires shape { (length values.now.items < 2 ^ 32) × (1 ≤ sessions) × (sessions ≤ 64) × (room ≤ 2 ^ 24)
        × (length store.now.items ≤ room) }
    requires opens { L.terms.opens setting.now (ranges_named (L.terms.ranged setting.now) store.now.items values.now.items)
        values.now.items }
    requires named { AreNamed L.terms setting.now (ranges_named (L.terms.ranged setting.now) store.now.items values.now.items)
        values.now.items }
    ensures opened { IfOk result (λ r. IsOpened L.terms setting.now values.now.items store.now.items room sessions r.0 r.1.items) }
    ensures fault { IfErr result (λ e. e ≡ NoMemory) }
{
    let words = first_words(alloc, values.as_slice(), store.as_slice(), room)?;
    let about = Opening {
        setting: Snapshot::of(setting),
        values: Snapshot::of(values),
        store: Snapshot::of(store),
        room,
        sessions,
    };
    let made = Table::of_words(alloc, words.as_slice(), &about);
    let Ok((table, mut seat)) = made else {
        return Err(OpenFault::NoMemory);
    };
    let words = Words {
        table,
        cells: values.len(),
        room,
    };
    let passes = deal_all(
        alloc,
        &words,
        &mut seat,
        setting,
        values.as_slice(),
        store.as_slice(),
        sessions,
    )?;
    Ok((words, passes))
}

// All words of the table: those of the clock and the cells, and behind them the tail of the store and the store's words. Memory for them
// is reserved once.
fn first_words(
    alloc: Global,
    values: &[u64],
    store: &[u64],
    room: usize,
) -> Result<Vec<u64>, AllocError>
    requires { (length values.now < 2 ^ 32) × (length store.now ≤ room) × (room ≤ 2 ^ 24) }
    ensures { IfOk result (λ v. v.items ≡ front_of 0 (opening_words values.now)
        ++ shelf_of (length store.now) (store.now ++ replicate (room - length store.now) 0)) }
{
    let mut words = cell_words(alloc, values, 2 * values.len() + STORE + room)?;
    words.extend_from_slice(&UNUSED)?;
    words.push(store.len() as u64)?;
    words.extend_from_slice(&UNUSED)?;
    words.extend_from_slice(store)?;
    let length = words.len() + (room - store.len());
    words.resize(length, 0)?;
    Ok(words)
}

// The words of the clock and the cells, with memory for so many words.
fn cell_words(alloc: Global, values: &[u64], capacity: usize) -> Result<Vec<u64>, AllocError>
    ensures { IfOk result (λ v. v.items ≡ front_of 0 (opening_words values.now)) }
{
    let mut words = Vec::with_capacity(alloc, capacity)?;
    words.extend_from_slice(&HEAD)?;
    for i in 0..values.len() {
        words.push(0)?;
        words.push(values[i])?;
    }
    Ok(words)
}

// A pass for each session, each with a part of the first seat's right to draw.
fn deal_all<L: Law>(
    alloc: Global,
    words: &Words<L>,
    seat: &mut TableSeat<L>,
    setting: &L::Setting,
    values: &[u64],
    store: &[u64],
    sessions: usize,
) -> Result<Vec<Pass<L>>, AllocError>
    requires table { (seat.old.table_id ≡ words.now.table.shared.table_id) × (words.now.cells ≡ length values.now) }
    requires store { AreOfOneStore words.now.room (ranges_named (L.terms.ranged setting.now) store.now values.now) }
    requires first { (sessions ≤ 64) × (seat.old.me.0
        ≡ dealer setting.now values.now words.now.room (ranges_named (L.terms.ranged setting.now) store.now values.now) sessions 0) }
    ensures passes { IfOk result (λ v. All (λ p. IsDealt setting.now values.now words.now.room
        (ranges_named (L.terms.ranged setting.now) store.now values.now) words.now.table.shared.table_id p) v.items) }
    ensures names { IfOk result (λ v. map (λ p. p.name) v.items ≡ down sessions sessions) }
{
    let mut passes = Vec::new(alloc);
    for _ in 0..sessions {
        let log = Log::new(alloc, words.cells)?;
        passes.reserve(1)?;
        let pass = Pass {
            seat: words.table.shared.split_seat::<Deal>(seat),
            log,
            count: 0,
            full: false,
        };
        passes.push_reserved(pass);
    }
    Ok(passes)
}
