//! Where a library lies: the numbers of its cells.

ghost use Rattle.mmsyntax.specs.declared.limits.TheConstants.{MOST_ASSERTIONS};
ghost use Rattle.std.specs.Prelude.{◌≡◌, ◌<◌, ◌≤◌, ◌+◌, Some, None, MatchOption};
ghost use Rattle.cells.specs.Slots.{name_cell, statement_cell, proof_cell, rank_cell, citers_cell, bucket_cell, next_cell, hash, bucket, is_ranged};

use crate::cells::Cells;
use mmsyntax::trunk;

/// How many slots the library has: 1 to 4,096.
pub fn slot_count<C: Cells>(cells: &C) -> usize
    ensures value { result ≡ (C.sight cells.now).setting.slots }
    ensures some { 1 ≤ result }
    ensures few { result ≤ MOST_ASSERTIONS }
{
    cells.slots()
}

/// The bucket of a label, from 0: the hash of L for a label `L.k`, with k from 1 to 1,000, and of the whole label for any other. So the
/// labels `L.k` all lie in the bucket of the hash of L.
pub fn bucket(label: &[u8], slots: usize) -> usize
    requires some { 1 ≤ slots }
    requires few { slots ≤ MOST_ASSERTIONS }
    ensures value { result ≡ bucket slots label.now }
    ensures within { result < slots }
{
    hash(trunk(label), slots)
}

/// The hash of a word, from 0: h, from 0, by `h = (31 h + byte) mod slots` over its bytes.
#[tactic(auto, using(std::proofs::lemmas::List::Sums::fold_more))]
pub(crate) fn hash(word: &[u8], slots: usize) -> usize
    requires some { 1 ≤ slots }
    requires few { slots ≤ MOST_ASSERTIONS }
    ensures value { result ≡ hash slots word.now }
    ensures within { result < slots }
{
    let mut hash = 0;
    for byte in word {
        hash = (31 * hash + *byte as usize) % slots;
    }
    hash
}

/// The slot that a word of a chain leads to; none at the end of the chain.
pub fn link(word: u64, slots: usize) -> Option<usize>
    ensures { MatchOption result ((i : _) → i < slots → word ≡ i + 1 → ⊥) (λ i. (i < slots) × (word ≡ i + 1)) }
{
    if word == 0 || word > slots as u64 {
        return None;
    }
    Some((word - 1) as usize)
}

/// Whether the cell is a range cell: a name, statement or proof cell, which holds 0 or a word that names a range.
pub fn is_range_cell(slots: usize, cell: usize) -> bool
    requires { slots ≤ MOST_ASSERTIONS }
    ensures { result ≡ is_ranged slots cell }
{
    cell < 5 * slots && cell % 5 < 3
}

/// The cell of a slot's name.
pub fn name_cell(slot: usize) -> usize
    requires { slot < MOST_ASSERTIONS }
    ensures { result ≡ name_cell slot }
{
    5 * slot
}

/// The cell of a slot's statement.
pub fn statement_cell(slot: usize) -> usize
    requires { slot < MOST_ASSERTIONS }
    ensures { result ≡ statement_cell slot }
{
    5 * slot + 1
}

/// The cell of a slot's proof.
pub fn proof_cell(slot: usize) -> usize
    requires { slot < MOST_ASSERTIONS }
    ensures { result ≡ proof_cell slot }
{
    5 * slot + 2
}

/// The cell of a slot's rank.
pub fn rank_cell(slot: usize) -> usize
    requires { slot < MOST_ASSERTIONS }
    ensures { result ≡ rank_cell slot }
{
    5 * slot + 3
}

/// The cell of a slot's number of citers.
pub fn citers_cell(slot: usize) -> usize
    requires { slot < MOST_ASSERTIONS }
    ensures { result ≡ citers_cell slot }
{
    5 * slot + 4
}

/// The cell of a bucket, which holds the first slot of its chain plus 1, or 0.
pub fn bucket_cell(slots: usize, bucket: usize) -> usize
    requires few { slots ≤ MOST_ASSERTIONS }
    requires within { bucket < slots }
    ensures { result ≡ bucket_cell slots bucket }
{
    5 * slots + bucket
}

/// The next cell of a slot, which holds the next slot of its chain plus 1, or 0.
pub fn next_cell(slots: usize, slot: usize) -> usize
    requires few { slots ≤ MOST_ASSERTIONS }
    requires within { slot < slots }
    ensures { result ≡ next_cell slots slot }
{
    6 * slots + slot
}
