//! What a run sees of a library's cells.

ghost use Rattle.std.specs.Prelude.{◌≡◌, ◌≢◌, ◌<◌, ◌++◌, ℕ, List, [], Some, true, IfOk, IfErr, OnOk, slice_get};
ghost use Rattle.library.specs.declared.library.Ranked.{Ranked};
ghost use Rattle.ranges.specs.Ranges.{Names};
ghost use Rattle.cells.specs.State.{State};
ghost use Rattle.cells.specs.Slots.{cell_count, is_ranged};
ghost use Rattle.cells.specs.Sight.{Sight, WasRead, Suits, Looks, Reads, Writes, Stages, IsCaused, KnowsRange, ReadsWithin, ReadsNothing};

use crate::halt::Halt;
use ranges::Range;
use std::alloc::AllocError;

/// The cells of a library and the store of its bodies, as one run sees them. What it writes is kept aside: it reads it back, and nobody
/// else sees it yet.
///
/// Cells count from 0; a library of S slots has 7 S cells. Contracts speak of what the run has seen: the finished ranges that it knows,
/// what it has read, and what it keeps aside; of what it may do; and of what it began with, which no call changes: so whoever lends a run
/// gets the same one back.
pub trait Cells {
    /// What a run began with, for contracts alone.
    type Origin;

    // what the run has seen, and what it may do
    ghost sight: { Self → Sight Self.Origin };

    /// How many slots the library has.
    fn slots(&self) -> usize
        ensures { result ≡ (sight self.now).setting.slots };

    /// The value of the cell: the one that the run keeps aside for it, or else that of the state under the run.
    ///
    /// # Errors
    ///
    /// The run met another session, or memory ran out. What was kept aside stays.
    fn read(&mut self, cell: usize) -> Result<u64, Halt>
        requires { cell < cell_count (sight self.old).setting.slots }
        ensures ok { IfOk result (λ v. Reads cell v (sight self.old) (sight self.new)) }
        ensures err { IfErr result (λ _. Looks (sight self.old) (sight self.new)) }
        ensures halts { IfErr result (IsCaused (sight self.new)) }
        ensures reads { ReadsWithin (λ c. c ≡ cell) (sight self.old) (sight self.new) };

    /// Keeps a value aside for a cell that was read, in a run that may. It takes no memory.
    fn write(&mut self, cell: usize, value: u64)
        requires may { (sight self.old).may_write ≡ true }
        requires cell { cell < cell_count (sight self.old).setting.slots }
        requires read { WasRead (sight self.old) cell }
        requires named { is_ranged (sight self.old).setting.slots cell ≡ true → Names (sight self.old).ranges value }
        ensures { Writes cell value (sight self.old) (sight self.new) };

    /// A word of a finished range that the run knows, by its index from 0.
    fn load(&mut self, range: Range, index: usize) -> u64
        requires { (words : List ℕ) × KnowsRange (sight self.old) range words × (index < range.len) }
        ensures looks { Looks (sight self.old) (sight self.new) }
        ensures word { (words : List ℕ) → KnowsRange (sight self.old) range words → slice_get words index ≡ Some result }
        ensures reads { ReadsNothing (sight self.old) (sight self.new) };

    /// Puts the words of a finished range that the run knows behind others, in order.
    ///
    /// # Errors
    ///
    /// Want of memory. What was kept aside stays.
    fn load_all(&mut self, range: Range, words: &mut Vec<u64>) -> Result<(), AllocError>
        requires { (found : List ℕ) × KnowsRange (sight self.old) range found }
        ensures looks { Looks (sight self.old) (sight self.new) }
        ensures ok { OnOk result ((found : List ℕ) → KnowsRange (sight self.old) range found → words.new.items ≡ words.old.items ++ found) }
        ensures reads { ReadsNothing (sight self.old) (sight self.new) };

    /// A finished range with these words, of which there is at least one, in a run that may stage.
    ///
    /// # Errors
    ///
    /// The store has no room for the words, or memory ran out. What was kept aside stays.
    fn stage(&mut self, words: &[u64]) -> Result<Range, Halt>
        requires may { (sight self.old).may_stage ≡ true }
        requires some { words.now ≢ [] }
        ensures ok { IfOk result (λ range. Stages words.now range (sight self.old) (sight self.new)) }
        ensures err { IfErr result (λ _. Looks (sight self.old) (sight self.new)) }
        ensures halts { IfErr result (IsCaused (sight self.new)) }
        ensures reads { ReadsNothing (sight self.old) (sight self.new) };

    // all that was read agrees with some state that shows a library that verifies
    ghost grounded: { (x : Self) → ∥ ((st : State) × (lib : List Ranked) × Suits (sight x) st lib) ∥₁ };
}
