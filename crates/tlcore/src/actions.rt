//! The actions: one atomic step on one word each.

/// One atomic step of a seat: one load, store, compare-exchange or fetch-and-add of one word.
///
/// Each variant says where it is lawful and what follows. A run is what a seat does from one `Begin` to the next: it reads
/// cells, takes those that it writes, draws a number, checks what it read, stores, and releases. Cells count from 0 and
/// numbers from 1. The steps are those of "Transactional Locking II" (Dice, Shalev, Shavit, DISC 2006), section 2.2, "write
/// transactions"; a transaction that only reads ends without a step.
#[derive(Clone, Copy)]
pub enum Action {
    /// Step 1: samples the clock as the run's place rv.
    ///
    /// Lawful where the seat is idle, or its run holds no cell and is outside a read: that run is over.
    Begin,
    /// Step 2: first look at the lock word of a cell, before its load.
    ///
    /// Lawful where the run is reading. A word that is odd, or of a version above rv, is a conflict, and the seat is idle.
    Look(usize),
    /// Step 2: load of the value word of a cell.
    ///
    /// Lawful directly after a `Look` at this cell that passed.
    Load(usize),
    /// Step 2: second look at the lock word of a cell, after its load.
    ///
    /// Lawful directly after the `Load` of this cell. Where the word is that of the first look, the cell is read; another
    /// word is a conflict, and the seat is idle.
    Relook(usize),
    /// Step 3: one try to lock a cell, by a compare-exchange from the word that its read found to that word + 1. The second
    /// part is the value to be stored, kept aside until the `Store`.
    ///
    /// Lawful where the run has read the cell and each cell that it holds is a smaller one. Another word is a conflict: the
    /// seat is idle where it held nothing, and else it has to release what it holds.
    Take(usize, u64),
    /// Step 4: advances the clock by 1. Its new value is the number wv of the run, and the entry wv of the history is Open.
    ///
    /// Lawful where the run holds at least one cell. No cell is taken afterwards.
    Draw,
    /// Step 5: a look at the lock word of a cell that was read and isn't held.
    ///
    /// Lawful after the `Draw`, for the smallest such cell that isn't checked yet, and nowhere where rv + 1 = wv. A word
    /// that is odd, or of a version above rv, is a conflict, and the seat has to release what it holds.
    Check(usize),
    /// Step 6: stores the value of a cell that the run holds.
    ///
    /// Lawful once no cell is left to check, and where rv + 1 = wv directly after the `Draw`. The first one makes the entry
    /// Done.
    Store(usize),
    /// Step 6: stores the lock word of a cell that the run holds, and the run holds it no more.
    ///
    /// Lawful after the cell's own `Store`, with the word 2 * wv; and after a conflict, with the word that the `Take` found:
    /// there the first one makes the entry Void, if the run has drawn a number. After the last one the seat is idle.
    Release(usize),
}
