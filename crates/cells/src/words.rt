//! The words of bodies that cells name.

ghost use Rattle.std.specs.Prelude.{◌≡◌, ◌≢◌, ◌<◌, ◌+◌, ◌*◌, ◌^◌, ◌↔◌, ◌≤◌, ℕ, List, [], true, IsTrue, IfOk, IfErr, is_some, length, take, drop};
ghost use Rattle.mmsyntax.specs.Dotted.{hypothesis_numbered, is_dotted};
ghost use Rattle.ranges.specs.Ranges.{Names};
ghost use Rattle.cells.specs.Slots.{cell_count, is_ranged};
ghost use Rattle.cells.specs.Sight.{Sight, IsCaused, Looks, KnowsRange, ForEachState, ReadsWithin, ReadsNothing};
ghost use Rattle.cells.specs.Lookups.{AreWordsOf, IsFirstWordOf};

use crate::cells::Cells;
use crate::halt::Halt;
use mmsyntax::hypothesis_number;
use ranges::Range;
use std::alloc::Global;

/// The fewest bytes of `.k`, for a k from 1 to 1,000.
const SHORTEST_TAIL: usize = 2;

/// The most.
const LONGEST_TAIL: usize = 5;

/// The range that a word names which was read from a range cell, if it is not 0.
pub(crate) fn range_of<C: Cells>(cells: &C, word: u64) -> Range
    requires some { word ≢ 0 }
    requires named { Names (C.sight cells.now).ranges word }
    ensures known { (words : List ℕ) × KnowsRange (C.sight cells.now) result words }
    ensures word { word ≡ result.start * 2 ^ 25 + result.len }
{
    Range::named(word)
}

/// Whether the range has these words.
pub(crate) fn has_words<C: Cells>(cells: &mut C, range: Range, text: &[u8]) -> bool
    requires { (words : List ℕ) × KnowsRange (C.sight cells.old) range words }
    ensures looks { Looks (C.sight cells.old) (C.sight cells.new) }
    ensures same { (words : List ℕ) → KnowsRange (C.sight cells.old) range words → (IsTrue result ↔ words ≡ text.now) }
    ensures reads { ReadsNothing (C.sight cells.old) (C.sight cells.new) }
{
    if range.len != text.len() {
        return false;
    }
    begins_with(cells, range, text)
}

/// Whether the words of the range begin with these.
fn begins_with<C: Cells>(cells: &mut C, range: Range, text: &[u8]) -> bool
    requires known { (words : List ℕ) × KnowsRange (C.sight cells.old) range words }
    requires long { length text.now ≤ range.len }
    ensures looks { Looks (C.sight cells.old) (C.sight cells.new) }
    ensures same { (words : List ℕ) → KnowsRange (C.sight cells.old) range words
        → (IsTrue result ↔ take (length text.now) words ≡ text.now) }
    ensures reads { ReadsNothing (C.sight cells.old) (C.sight cells.new) }
{
    for (index, byte) in text.iter().enumerate() {
        if cells.load(range, index) != *byte as u64 {
            return false;
        }
    }
    true
}

/// Whether the words of the range are a label `L.k`, where L is this label, for a k from 1 to 1,000. It loads no word of a range that isn't
/// 2 to 5 words longer than the label.
pub(crate) fn has_dotted<C: Cells>(cells: &mut C, range: Range, label: &[u8]) -> bool
    requires { (words : List ℕ) × KnowsRange (C.sight cells.old) range words }
    ensures looks { Looks (C.sight cells.old) (C.sight cells.new) }
    ensures same { (words : List ℕ) → KnowsRange (C.sight cells.old) range words → result ≡ is_dotted label.now words }
    ensures reads { ReadsNothing (C.sight cells.old) (C.sight cells.new) }
{
    if label.is_empty() || range.len < label.len() {
        return false;
    }
    is_numbered(cells, range, label.len()) && begins_with(cells, range, label)
}

/// Whether the words of the range behind the first ones are `.k`, for a k from 1 to 1,000.
fn is_numbered<C: Cells>(cells: &mut C, range: Range, front: usize) -> bool
    requires known { (words : List ℕ) × KnowsRange (C.sight cells.old) range words }
    requires long { front ≤ range.len }
    ensures looks { Looks (C.sight cells.old) (C.sight cells.new) }
    ensures same { (words : List ℕ) → KnowsRange (C.sight cells.old) range words
        → result ≡ is_some (hypothesis_numbered [] (drop front words)) }
    ensures reads { ReadsNothing (C.sight cells.old) (C.sight cells.new) }
{
    let mut tail = [0; LONGEST_TAIL];
    let count = range.len - front;
    if count < SHORTEST_TAIL || count > LONGEST_TAIL {
        return false;
    }
    for index in 0..count {
        let word = cells.load(range, front + index);
        if word > 255 {
            return false;
        }
        tail[index] = word as u8;
    }
    hypothesis_number(&[], &tail[..count]).is_some()
}

/// The words of the body that a range cell names; none where it holds 0.
pub(crate) fn words_of<C: Cells>(
    alloc: Global,
    cells: &mut C,
    cell: usize,
) -> Result<Vec<u64>, Halt>
    requires cell { cell < cell_count (C.sight cells.old).setting.slots }
    requires ranged { is_ranged (C.sight cells.old).setting.slots cell ≡ true }
    ensures looks { Looks (C.sight cells.old) (C.sight cells.new) }
    ensures ok { IfOk result (λ made. ForEachState (C.sight cells.new) (λ st. AreWordsOf st cell made.items)) }
    ensures halts { IfErr result (IsCaused (C.sight cells.new)) }
    ensures reads { ReadsWithin (λ c. c ≡ cell) (C.sight cells.old) (C.sight cells.new) }
{
    let word = cells.read(cell)?;
    if word == 0 {
        return Ok(Vec::new(alloc));
    }
    let range = range_of(cells, word);
    let mut words = Vec::new(alloc);
    cells.load_all(range, &mut words)?;
    Ok(words)
}

/// The first word of the body that a range cell names; 0 where it holds 0.
pub(crate) fn first_word<C: Cells>(cells: &mut C, cell: usize) -> Result<u64, Halt>
    requires cell { cell < cell_count (C.sight cells.old).setting.slots }
    requires ranged { is_ranged (C.sight cells.old).setting.slots cell ≡ true }
    ensures looks { Looks (C.sight cells.old) (C.sight cells.new) }
    ensures ok { IfOk result (λ first. IsFirstWordOf (C.sight cells.new) cell first) }
    ensures halts { IfErr result (IsCaused (C.sight cells.new)) }
    ensures reads { ReadsWithin (λ c. c ≡ cell) (C.sight cells.old) (C.sight cells.new) }
{
    let word = cells.read(cell)?;
    if word == 0 {
        return Ok(0);
    }
    let range = range_of(cells, word);
    if range.len == 0 {
        return Ok(0);
    }
    Ok(cells.load(range, 0))
}
