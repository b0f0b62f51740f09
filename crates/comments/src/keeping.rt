//! Whether the comments of a source stand in the text with edits too.

ghost use Rattle.std.specs.Prelude.{◌≡◌, ◌↔◌, false, IfOk, IsTrue, map};
ghost use Rattle.comments.specs.Kept.{AreKept, AreLost};
ghost use Rattle.comments.specs.Walks.{seen_texts};

use crate::walking::comment_texts;
use giving::LabelMap;
use std::alloc::{AllocError, Global};
use std::hash::RandomState;

/// Whether texts are equal.
fn are_equal(ones: &[Vec<u8>], others: &[Vec<u8>]) -> bool
    ensures { IsTrue result ↔ (seen_texts ones.now ≡ seen_texts others.now) }
{
    if ones.len() != others.len() {
        return false;
    }
    for (i, text) in ones.iter().enumerate() {
        if text.as_slice() != others[i].as_slice() {
            return false;
        }
    }
    true
}

/// Whether each comment of a source that stands between its statements stands between the statements of a text too, with changed labels,
/// as often as in the source, and no other does, but for some that go with assertions that were deleted, and stand there no more.
/// `gone` are the labels of these.
///
/// The comments of both texts are compared in order, however they stand, and however their words are parted. It costs about as much as
/// both texts have bytes, and that order.
///
/// # Errors
///
/// Want of memory.
pub fn are_kept(
    alloc: Global,
    keys: RandomState,
    changes: &LabelMap<'_>,
    gone: &LabelMap<'_>,
    source: &[u8],
    out: &[u8],
) -> Result<bool, AllocError>
    ensures kept { IfOk result (λ kept. IsTrue kept → AreKept changes.now (map (λ c. c.0) gone.now) source.now out.now) }
    ensures lost { IfOk result (λ kept. kept ≡ false → AreLost changes.now (map (λ c. c.0) gone.now) source.now out.now) }
{
    let nothing = LabelMap::new(alloc, keys, Vec::new(alloc))?;
    let mut wanted = comment_texts(alloc, changes, gone, source)?;
    let mut there = comment_texts(alloc, &nothing, &nothing, out)?;
    wanted.sort_unstable();
    there.sort_unstable();
    Ok(are_equal(wanted.as_slice(), there.as_slice()))
}
