//! Lists of numbers in which each is found by a look-up.

ghost use Rattle.std.specs.Prelude.{◌≡◌, ◌<◌, ◌≤◌, ◌==◌, ◌||◌, ℕ, false, IfOk, OnOk, length, slice_index_or};
ghost use Rattle.std.specs.List.{list_any};
ghost use Rattle.sourceframes.specs.Marks.{has, AreMarked, AreOthers};

use std::alloc::{AllocError, Global};
use std::collections::HashSet;
use std::marker::Model;
use wordkeys::WordKeys;

/// The most numbers that have a mark: with more words than that, a list doesn't pay for all of them.
const MOST_MARKS: usize = 4096;

/// Numbers. Contracts see them as a list.
#[derive(Drop)]
pub(crate) struct Marked {
    numbers: Vec<u32>,
    /// Of each number below their count: whether it is one of them.
    marks: Vec<bool>,
    /// Those that are past the marks.
    others: HashSet<u32, WordKeys>,
}

impl Model for Marked {
    ghost use Rattle.std.specs.Prelude.{List, ℕ, length};
    ghost use Rattle.sourceframes.specs.Marks.{AreMarked, AreOthers};

    ghost Value = { List ℕ };

    ghost view = { λ m. m.numbers.items };

    ghost invariant = { λ m. AreMarked m.numbers.items m.marks.items × AreOthers m.numbers.items (length m.marks.items) m.others };
}

impl Marked {
    /// These numbers, of words of a table that has so many.
    ///
    /// # Errors
    ///
    /// Want of memory.
    pub(crate) fn new(
        alloc: Global,
        keys: WordKeys,
        numbers: Vec<u32>,
        words: usize,
    ) -> Result<Marked, AllocError>
        ensures { IfOk result (λ made. made ≡ numbers.items) }
    {
        let mut marks = vec![in alloc; false; words.min(MOST_MARKS)]?;
        let mut others = HashSet::with_hasher(alloc, keys);
        for number in &numbers {
            mark(&mut marks, &mut others, *number)?;
        }
        Ok(Marked {
            numbers,
            marks,
            others,
        })
    }

    /// Whether a number is one of them.
    pub(crate) fn contains(&self, number: u32) -> bool
        ensures { result ≡ list_any (λ v. v == number) self.now }
    {
        let place = number as usize;
        if place < self.marks.len() {
            self.marks[place]
        } else {
            self.others.contains(&number)
        }
    }
}

/// Marks a number, if it is below the count of marks, or else adds it to the others.
fn mark(
    marks: &mut Vec<bool>,
    others: &mut HashSet<u32, WordKeys>,
    number: u32,
) -> Result<(), AllocError>
    ensures count { OnOk result (length marks.new.items ≡ length marks.old.items) }
    ensures marked { OnOk result ((n : ℕ) → n < length marks.new.items
        → slice_index_or marks.new.items n false ≡ (slice_index_or marks.old.items n false || (number == n))) }
    ensures others { OnOk result ((n : ℕ) → length marks.new.items ≤ n → has others.new n ≡ (has others.old n || (number == n))) }
{
    let place = number as usize;
    if place < marks.len() {
        marks[place] = true;
    } else {
        others.insert(number)?;
    }
    Ok(())
}
