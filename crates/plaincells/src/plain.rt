//! Cells and a store on plain vectors, for one thread.

ghost use Rattle.cells.specs.State.{most_words};
ghost use Rattle.mmsyntax.specs.declared.limits.TheConstants.{MOST_ASSERTIONS};
ghost use Rattle.std.specs.Prelude.{◌≡◌, ◌≢◌, ◌≤◌, ◌<◌, ◌*◌, ◌+◌, ◌++◌, ◌↔◌, [], ◌∷◌, length, slice_index, is_ok, true, false, if◌then◌else◌, IfOk, IfErr, IsErrOf, IsOkUnless};
ghost use Rattle.cells.specs.Sight.{IsCaused, Looks, Reads, Stages, ReadsWithin, ReadsNothing};
ghost use Rattle.cells.specs.Slots.{cell_count};
ghost use Rattle.plaincells.specs.Plain.{undone, ranges_in, ShowsSome, BeganWithSome, HoldNames, LieInStore, IsLogOf, AreNamedBy, behind, with_place};

use cells::{Cells, Halt, is_range_cell};
use mmsyntax::Prelude;
use ranges::Range;
use std::alloc::{AllocError, Global};

/// A library in cells, and the store of its bodies, on plain vectors.
///
/// What a run writes stands in the cells at once; `undo` gives back what they held when the run began, and `keep` begins another.
pub struct PlainCells {
    prelude: Prelude,
    slots: usize,
    room: usize,
    values: Vec<u64>,
    // each cell that this run read, with what it held then
    log: Vec<(usize, u64)>,
    store: Vec<u64>,
    ranges: Vec<Range>,
    // whether the store had no room for words that this run was to stage
    full: bool,
    ghost some: { 1 ≤ slots },
    ghost few: { slots ≤ MOST_ASSERTIONS },
    ghost long: { length values.items ≡ 7 * slots },
    ghost roomy: { room ≤ most_words },
    ghost stored: { length store.items ≤ room },
    ghost logged: { IsLogOf (7 * slots) log.items },
    ghost lie: { LieInStore store.items ranges.items },
    ghost names: { HoldNames slots values.items (ranges_in store.items ranges.items) },
    ghost began_with_names: { HoldNames slots (undone values.items log.items) (ranges_in store.items ranges.items) },
    ghost began: { ∥ BeganWithSome (record { prelude = prelude; slots = slots }) room values.items log.items store.items ranges.items ∥₁ },
}

// Proved here once: a derived drop is proved again in each crate that drops such a value.
impl Drop for PlainCells {
    fn drop(self) {
        let PlainCells {
            prelude: _,
            slots: _,
            room: _,
            values: _,
            log: _,
            store: _,
            ranges: _,
            full: _,
        } = self;
    }
}

impl PlainCells {
    ghost use Rattle.plaincells.specs.PlainViews.{cells_setting, AreBlank, AreOfWords, ShowNamed, AreSameButLog, AreSameButValues};

    /// The cells of a library without assertions, over a prelude, with a store that has room for so many words.
    ///
    /// # Errors
    ///
    /// Want of memory.
    pub fn empty(
        alloc: Global,
        prelude: Prelude,
        slots: usize,
        room: usize,
    ) -> Result<PlainCells, AllocError>
        requires some { 1 ≤ slots }
        requires few { slots ≤ MOST_ASSERTIONS }
        requires roomy { room ≤ most_words }
        ensures { IfOk result (λ made. AreBlank prelude slots room made) }
    {
        // For the proof: a prelude is sound.
        let _sound = prelude.floats();
        Ok(PlainCells {
            prelude,
            slots,
            room,
            values: vec![in alloc; 0; 7 * slots]?,
            log: Vec::new(alloc),
            store: Vec::new(alloc),
            ranges: Vec::new(alloc),
            full: false,
        })
    }

    /// The cells of a library that these values show, with a store of just these words, which has room for no more.
    ///
    /// # Errors
    ///
    /// Want of memory.
    pub fn of_words(
        alloc: Global,
        prelude: Prelude,
        slots: usize,
        values: Vec<u64>,
        store: Vec<u64>,
    ) -> Result<PlainCells, AllocError>
        requires some { 1 ≤ slots }
        requires few { slots ≤ MOST_ASSERTIONS }
        requires long { length values.items ≡ 7 * slots }
        requires roomy { length store.items ≤ most_words }
        requires shows { ShowNamed (record { prelude = prelude; slots = slots }) values.items store.items }
        ensures { IfOk result (λ made. AreOfWords prelude slots values.items store.items made) }
    {
        let ranges = named_ranges(alloc, slots, values.as_slice())?;
        Ok(PlainCells {
            prelude,
            slots,
            room: store.len(),
            values,
            log: Vec::new(alloc),
            store,
            ranges,
            full: false,
        })
    }

    /// The prelude of the library's assertions.
    pub fn prelude(&self) -> &Prelude
        ensures { result.now ≡ self.now.prelude }
    {
        &self.prelude
    }

    /// The prelude of the library's assertions. The cells are gone then.
    pub fn into_prelude(self) -> Prelude
        ensures { result ≡ self.prelude }
    {
        let PlainCells {
            prelude,
            slots: _,
            room: _,
            values: _,
            log: _,
            store: _,
            ranges: _,
            full: _,
        } = self;
        prelude
    }

    /// The values of all cells as they stand now, whoever wrote them, and the words of the store that are taken. The cells are gone then.
    pub fn into_words(self) -> (Vec<u64>, Vec<u64>)
        ensures { (result.0 ≡ self.values) × (result.1 ≡ self.store) }
    {
        let PlainCells {
            prelude: _,
            slots: _,
            room: _,
            values,
            log: _,
            store,
            ranges: _,
            full: _,
        } = self;
        (values, store)
    }

    /// How many words of the store are taken.
    pub fn taken(&self) -> usize
        ensures { result ≡ length self.now.store.items }
    {
        self.store.len()
    }

    /// The value of a cell as it stands now, whoever wrote it.
    pub fn value(&self, cell: usize) -> u64
        requires { cell < 7 * self.now.slots }
        ensures { result ≡ slice_index self.now.values.items cell }
    {
        self.values[cell]
    }

    /// The values of all cells as they stand now, whoever wrote them.
    pub fn values(&self) -> &[u64]
        ensures { result.now ≡ self.now.values.items }
    {
        self.values.as_slice()
    }

    /// Keeps what this run wrote, and begins another.
    pub fn keep(&mut self)
        requires { ∥ ShowsSome (cells_setting self.old) self.old.values.items self.old.store.items self.old.ranges.items ∥₁ }
        ensures log { self.new.log.items ≡ [] }
        ensures fresh { self.new.full ≡ false }
        ensures same { AreSameButLog self.old self.new }
    {
        self.log.clear();
        self.full = false;
    }

    /// Gives each cell the value that it had when this run began, and begins another. What was staged stays in the store.
    pub fn undo(&mut self)
        ensures log { self.new.log.items ≡ [] }
        ensures fresh { self.new.full ≡ false }
        ensures values { self.new.values.items ≡ undone self.old.values.items self.old.log.items }
        ensures same { AreSameButValues self.old self.new }
    {
        give_back(self.values.as_mut_slice(), &mut self.log);
        self.full = false;
    }
}

/// The ranges that the range cells name which have these values, once for each cell that names one.
fn named_ranges(alloc: Global, slots: usize, values: &[u64]) -> Result<Vec<Range>, AllocError>
    requires { slots ≤ MOST_ASSERTIONS }
    ensures { IfOk result (λ ranges. AreNamedBy slots values.now (length values.now) ranges.items) }
{
    let mut ranges = Vec::new(alloc);
    for (cell, &value) in values.iter().enumerate() {
        if is_range_cell(slots, cell) && value != 0 {
            ranges.push(Range::named(value))?;
        }
    }
    Ok(ranges)
}

/// Gives each cell of a log the value that it had before, the last first. The log is empty then.
fn give_back(values: &mut [u64], log: &mut Vec<(usize, u64)>)
    requires { IsLogOf (length values.old) log.old.items }
    ensures log { log.new.items ≡ [] }
    ensures values { values.new ≡ undone values.old log.old.items }
{
    while let Some((cell, value)) = log.pop() {
        values[cell] = value;
    }
}

/// Puts words behind those of a store, and their range behind the others. Both stay as they are where memory runs out.
fn put_behind(
    store: &mut Vec<u64>,
    ranges: &mut Vec<Range>,
    words: &[u64],
) -> Result<Range, AllocError>
    ensures range { IfOk result (λ range. range ≡ behind store.old.items words.now) }
    ensures store { store.new.items ≡ (if is_ok result then store.old.items ++ words.now else store.old.items) }
    ensures ranges { ranges.new.items ≡ with_place (is_ok result) ranges.old.items (behind store.old.items words.now) }
{
    let range = Range {
        start: store.len(),
        len: words.len(),
    };
    ranges.reserve(1)?;
    store.extend_from_slice(words)?;
    ranges.push_reserved(range);
    Ok(range)
}

impl Cells for PlainCells {
    ghost use mathlib.Core.Logic.{∥∥₁_map};
    ghost use Rattle.plaincells.specs.PlainViews.{cells_sight, first_state};

    type Origin = ();

    ghost sight = { cells_sight };

    fn slots(&self) -> usize {
        self.slots
    }

    // the trait's clauses, and why it halts
    fn read(&mut self, cell: usize) -> Result<u64, Halt>
        requires { cell < cell_count (cells_sight self.old).setting.slots }
        ensures ok { IfOk result (λ v. Reads cell v (cells_sight self.old) (cells_sight self.new)) }
        ensures err { IfErr result (λ _. Looks (cells_sight self.old) (cells_sight self.new)) }
        ensures halts { IfErr result (IsCaused (cells_sight self.new)) }
        ensures reads { ReadsWithin (λ c. c ≡ cell) (cells_sight self.old) (cells_sight self.new) }
        ensures memory { IsOkUnless result Halt.NoMemory }
    {
        let value = self.values[cell];
        match self.log.push((cell, value)) {
            Ok(()) => Ok(value),
            Err(_) => Err(Halt::NoMemory),
        }
    }

    fn write(&mut self, cell: usize, value: u64) {
        self.values[cell] = value;
    }

    fn load(&mut self, range: Range, index: usize) -> u64 {
        self.store[range.start + index]
    }

    fn load_all(&mut self, range: Range, words: &mut Vec<u64>) -> Result<(), AllocError> {
        words.extend_from_slice(&self.store[range.start..range.start + range.len])?;
        Ok(())
    }

    // the trait's clauses, and when the store is full
    fn stage(&mut self, words: &[u64]) -> Result<Range, Halt>
        requires may { (cells_sight self.old).may_stage ≡ true }
        requires some { words.now ≢ [] }
        ensures ok { IfOk result (λ range. Stages words.now range (cells_sight self.old) (cells_sight self.new)) }
        ensures err { IfErr result (λ _. Looks (cells_sight self.old) (cells_sight self.new)) }
        ensures halts { IfErr result (IsCaused (cells_sight self.new)) }
        ensures reads { ReadsNothing (cells_sight self.old) (cells_sight self.new) }
        ensures full { IsErrOf result Halt.StoreFull ↔ (self.old.room < length self.old.store.items + length words.now) }
    {
        if words.len() > self.room - self.store.len() {
            self.full = true;
            return Err(Halt::StoreFull);
        }
        match put_behind(&mut self.store, &mut self.ranges, words) {
            Ok(range) => Ok(range),
            Err(_) => Err(Halt::NoMemory),
        }
    }

    ghost grounded = { λ c. ∥∥₁_map c.began (λ b. (first_state c, b.0, b.1 c.full)) };
}
