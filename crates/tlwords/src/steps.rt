//! Single steps on the clock and the cells' words. Each is one load, store, compare-exchange or fetch-and-add of one word, and but for
//! `recall` and `refresh`, which load the spare word, one event of the machine.
#![tactic(auto)]

ghost use Rattle.std.specs.Prelude.{◌≡◌, ◌≢◌, ℕ, suc, ◌+◌, ◌*◌, ◌/◌, ◌%◌, ◌^◌, ◌<◌, ◌≤◌, ◌⊎◌, ◌||◌, Some, [], length, true, false};
ghost use Rattle.tlcore.specs.Seats.{reads_of, writes_of, find_read, find_held, all_below, all_settled, is_due, is_next};
ghost use Rattle.tlcore.specs.History.{wv};
ghost use Rattle.tlwords.specs.Terms.{Permits};
ghost use Rattle.tlcore.specs.declared.seats.Read.{Read};
ghost use Rattle.tlcore.specs.declared.seats.Held.{Held};
ghost use Rattle.tlcore.specs.declared.seats.Phase.TheVariants.{Idle, Reading, Looked, Loaded, Taking, Checking, Storing, Failing, Voiding};
ghost use Rattle.tlwords.specs.Runs.{HasCause, IsSeated};
ghost use Rattle.tlwords.specs.Plays.{IsSameSeat, GivesBack, MayStore, Sampled, Looks, Loads, Relooks, Takes, Draws, Checks, Stores};
ghost use Rattle.tlwords.specs.Plays.{Releases, Recalls, Refreshes, told_by, witness};

use crate::law::Law;
use crate::layout::{CLOCK, FIRST_LOCK, FIRST_VALUE, SPARE};
use crate::plays::{
    Begin, Check, Draw, Load, Look, Recall, Refresh, Release, Relook, Said, Store, Take, Tell,
};
use crate::rule::TableSeat;
use crate::words::Words;

/// Whether a run at this place goes on after a look that found this lock word: it is free, and of no version above the place.
pub(crate) fn passes(word: u64, place: u64) -> bool
    ensures yes { result ≡ true → (word % 2 ≡ 0) × (word / 2 ≤ place) }
    ensures no { result ≡ false → HasCause place word }
{
    word % 2 == 0 && word / 2 <= place
}

/// Samples the clock as the place of a new run.
pub(crate) fn begin<L: Law>(words: &Words<L>, seat: &mut TableSeat<L>) -> u64
    requires table { seat.old.table_id ≡ words.now.table.shared.table_id }
    requires phase { (seat.old.me.0.seat.phase ≡ Idle) ⊎ (seat.old.me.0.seat.phase ≡ Reading) }
    ensures seat { IsSameSeat seat.old seat.new }
    ensures told { Sampled L.terms seat.old.me result seat.new.me }
{
    // A load, since a run that only reads is to leave the clock as it is: with an advance all readers would meet at this word. It stands
    // in front of the first look: a place that is sampled behind one may be above a commit that changed what that look allowed to be read.
    words.load::<Begin<L>>(seat, CLOCK)
}

/// First look at the cell's lock word.
pub(crate) fn look<L: Law>(words: &Words<L>, seat: &mut TableSeat<L>, cell: usize) -> u64
    requires seated { IsSeated words.now seat.old }
    requires cell { cell < words.now.cells }
    requires phase { seat.old.me.0.seat.phase ≡ Reading }
    ensures seat { IsSameSeat seat.old seat.new }
    ensures told { Looks L.terms cell seat.old.me result seat.new.me }
{
    // A load, since a reader takes no lock. It stands in front of the load of the value: without it a value above the place would be used.
    words.load::<Look<L>>(seat, 2 * cell + FIRST_LOCK)
}

/// Load of the cell's value word, after a look that found this lock word.
pub(crate) fn load<L: Law>(words: &Words<L>, seat: &mut TableSeat<L>, cell: usize, word: u64) -> u64
    requires seated { IsSeated words.now seat.old }
    requires cell { cell < words.now.cells }
    requires phase { seat.old.me.0.seat.phase ≡ Looked cell word }
    ensures seat { IsSameSeat seat.old seat.new }
    ensures told { Loads L.terms seat.old.me result seat.new.me }
{
    // It stands between two looks at the lock word: behind the second, it could find the value of a commit that came after both.
    words.load::<Load<L>>(seat, 2 * cell + FIRST_VALUE)
}

/// Second look at the cell's lock word, after the load of this value.
pub(crate) fn relook<L: Law>(
    words: &Words<L>,
    seat: &mut TableSeat<L>,
    cell: usize,
    word: u64,
    value: u64,
) -> u64
    requires seated { IsSeated words.now seat.old }
    requires cell { cell < words.now.cells }
    requires phase { seat.old.me.0.seat.phase ≡ Loaded cell word value }
    ensures seat { IsSameSeat seat.old seat.new }
    ensures told { Relooks L.terms seat.old.me result seat.new.me }
{
    // Versions only grow, so the word of the first look comes back after no commit: where it stands here, the value was its value. Without
    // this look a commit that locks and stores between the first look and the load would be read, with a version above the place.
    words.load::<Relook<L>>(seat, 2 * cell + FIRST_LOCK)
}

/// One try to lock the cell, from the word that its read has seen. The value is the one to be stored.
pub(crate) fn take<L: Law, G: Said<L::Note>>(
    words: &Words<L>,
    seat: &mut TableSeat<L>,
    cell: usize,
    word: u64,
    value: u64,
) -> u64
    requires seated { IsSeated words.now seat.old }
    requires cell { cell < words.now.cells }
    requires said { G.value ≡ value }
    requires phase { (seat.old.me.0.seat.phase ≡ Reading) ⊎ ((seat.old.me.0.seat.phase ≡ Taking)
        × (all_below cell seat.old.me.0.seat.held ≡ true)) }
    requires read { (d : Read) × (find_read cell seat.old.me.0.seat.reads ≡ Some d) × (d.word ≡ word) }
    requires room { (word + 1 < 2 ^ 64) × (1 ≤ seat.old.me.0.rights) }
    ensures seat { IsSameSeat seat.old seat.new }
    ensures told { Takes L.terms cell value word seat.old.me result seat.new.me }
{
    // An exchange: with a load and a store two runs could hold one cell. It compares with the word that the read has seen, so it also fails
    // where the cell has changed since. It is one try and no loop, since a run whose cell has changed can't commit any more.
    words.compare_exchange::<Take<L, G>>(seat, 2 * cell + FIRST_LOCK, word, word + 1)
}

/// Advances the clock. The run's number is one more than the result.
pub(crate) fn draw<L: Law, G: Said<L::Note>>(
    words: &Words<L>,
    seat: &mut TableSeat<L>,
    note: &L::Note,
) -> u64
    requires seated { IsSeated words.now seat.old }
    requires lawful { (y : L.Setting) → seat.old.me.0.setting ≡ Some y
        → Permits L.terms y seat.old.me.0.seen.ranges (reads_of seat.old.me.0.seat.reads) (writes_of seat.old.me.0.seat.held) note.now }
    requires said { G.note ≡ Some note.now }
    requires phase { seat.old.me.0.seat.phase ≡ Taking }
    requires writes { writes_of seat.old.me.0.seat.held ≢ [] }
    requires room { length seat.old.me.0.drawn + 1 ≤ 2 ^ 40 * seat.old.me.0.rights }
    ensures seat { IsSameSeat seat.old seat.new }
    ensures told { Draws L.terms (Some note.now) seat.old.me result seat.new.me }
{
    // A fetch-and-add: with a load and a store two runs could draw one number. It stands behind the last lock and in front of the first
    // check: a run that drew before it held its cells could be missed by a reader whose place is its number.
    words.fetch_add::<Draw<L, G>>(seat, CLOCK, 1)
}

/// Look at the lock word of a cell that was read and isn't held, after the draw.
pub(crate) fn check<L: Law>(words: &Words<L>, seat: &mut TableSeat<L>, cell: usize) -> u64
    requires seated { IsSeated words.now seat.old }
    requires cell { cell < words.now.cells }
    requires phase { (i : ℕ) × (upto : ℕ) × (seat.old.me.0.seat.phase ≡ Checking i upto) × (is_next seat.old.me.0.seat i ≡ false)
        × (is_due seat.old.me.0.seat upto cell ≡ true) }
    requires read { (d : Read) × (find_read cell seat.old.me.0.seat.reads ≡ Some d) }
    ensures seat { IsSameSeat seat.old seat.new }
    ensures told { Checks L.terms cell seat.old.me result seat.new.me }
{
    // It stands behind the draw: a run with a smaller number held its cells before it drew, so this look sees its lock or its version.
    // In front of the draw, such a run could still come between the check and the number.
    words.load::<Check<L>>(seat, 2 * cell + FIRST_LOCK)
}

/// Store of the value of a cell that the run holds.
pub(crate) fn store<L: Law>(words: &Words<L>, seat: &mut TableSeat<L>, cell: usize, value: u64)
    requires seated { IsSeated words.now seat.old }
    requires cell { cell < words.now.cells }
    requires phase { (i : ℕ) × MayStore seat.old.me.0.seat i }
    requires held { (k : Held) × (find_held cell seat.old.me.0.seat.held ≡ Some k) × (k.value ≡ value) }
    ensures seat { IsSameSeat seat.old seat.new }
    ensures told { Stores L.terms cell seat.old.me seat.new.me }
{
    // A store and no exchange: while a run holds the cell, each try of another to take it fails.
    words.store::<Store<L>>(seat, 2 * cell + FIRST_VALUE, value);
}

/// Store of the lock word of a cell that the run holds.
pub(crate) fn release<L: Law>(words: &Words<L>, seat: &mut TableSeat<L>, cell: usize, word: u64)
    requires seated { IsSeated words.now seat.old }
    requires cell { cell < words.now.cells }
    requires held { (k : Held) × (find_held cell seat.old.me.0.seat.held ≡ Some k) × GivesBack seat.old.me.0.seat k word }
    ensures seat { IsSameSeat seat.old seat.new }
    ensures told { Releases L.terms cell seat.old.me seat.new.me }
{
    // A store, since nobody else changes the lock word of a held cell. It stands behind the store of the value: released earlier, the old
    // value would be read under the new version.
    words.store::<Release<L>>(seat, 2 * cell + FIRST_LOCK, word);
}

/// Adds a call that wrote nothing to those of the pass, by a load of the spare word.
pub(crate) fn recall<L: Law, G: Said<L::Note>>(
    words: &Words<L>,
    seat: &mut TableSeat<L>,
    note: &L::Note,
)
    requires seated { IsSeated words.now seat.old }
    requires lawful { (y : L.Setting) → seat.old.me.0.setting ≡ Some y
        → Permits L.terms y seat.old.me.0.seen.ranges (reads_of seat.old.me.0.seat.reads) [] note.now }
    requires said { G.note ≡ Some note.now }
    ensures seat { IsSameSeat seat.old seat.new }
    ensures told { Recalls L.terms (Some note.now) seat.old.me seat.new.me }
{
    // A load of a word that nobody writes: a seat learns of the history, and notes its own call, at a step of its own. This one changes
    // nothing and meets nobody; with another word it would be an event of the machine.
    words.load::<Recall<L, G>>(seat, SPARE);
}

/// Sees the history so far, by a load of the spare word.
pub(crate) fn refresh<L: Law>(words: &Words<L>, seat: &mut TableSeat<L>)
    requires table { seat.old.table_id ≡ words.now.table.shared.table_id }
    ensures seat { IsSameSeat seat.old seat.new }
    ensures told { Refreshes L.terms seat.old.me seat.new.me }
{
    // The same load as `recall`'s, for the same reason; it notes no call.
    words.load::<Refresh<L>>(seat, SPARE);
}

/// Tells one seat what another has seen, by two loads of the spare word. It is to sample the clock next.
pub(crate) fn tell<L: Law>(words: &Words<L>, seat: &mut TableSeat<L>, other: &mut TableSeat<L>)
    requires table { (seat.old.table_id ≡ words.now.table.shared.table_id) × (other.old.table_id ≡ words.now.table.shared.table_id) }
    ensures seat { IsSameSeat seat.old seat.new × (seat.new.me ≡ (told_by seat.old.me.0 (witness other.old.me.0), seat.old.me.1)) }
    ensures other { IsSameSeat other.old other.new × (other.new.me ≡ other.old.me) }
{
    // A view changes at a step alone, so both calls load a word and ignore it. `other` is asked first: its view is told as it is then.
    let token = words.table.shared.split_seat::<Tell>(other);
    words.table.shared.join_seat::<Tell>(seat, token);
}
