//! The call `rewrite`.

ghost use Rattle.std.specs.Prelude.{IfNone, IfOk, IfSome};
ghost use Rattle.items.specs.Bare.{HasBare};
ghost use Rattle.items.specs.Divided.{IsDivided};
ghost use Rattle.items.specs.Rewriting.{IsRewritten};

use crate::reading::read_item;
use crate::writing::put_item;
use giving::LabelMap;
use mmtext::next_token;
use std::alloc::{AllocError, Global};

/// The text of a source with changed labels, and with other proofs of some theorems, which are named by their labels before. A label
/// changes in front of `$a` and `$p`, in proofs, but among the letters of a compressed one, and where a word of a comment speaks of it
/// (crate `commentwords`). Every other byte stays. None where the text isn't items, one behind the other, or where a proof is for an
/// assertion that has none.
///
/// It costs about as much as the source has bytes.
///
/// # Errors
///
/// Want of memory.
pub fn rewrite(
    alloc: Global,
    changes: &LabelMap<'_>,
    proofs: &LabelMap<'_>,
    source: &[u8],
) -> Result<Option<Vec<u8>>, AllocError>
    ensures rewritten { IfOk result (λ made. IfSome made (λ out. IsRewritten changes.now proofs.now source.now out.items)) }
    ensures bare { IsDivided source.now → IfOk result (λ made. IfNone made (HasBare proofs.now source.now)) }
{
    let mut out = Vec::with_capacity(alloc, source.len())?;
    let mut at = 0;
    while let Some(item) = read_item(source, at) {
        if !put_item(&mut out, changes, proofs, source, at, item)? {
            return Ok(None);
        }
        at = item.end;
    }
    match next_token(source, at) {
        Some(_) => Ok(None),
        None => {
            out.extend_from_slice(&source[at..])?;
            Ok(Some(out))
        }
    }
}
