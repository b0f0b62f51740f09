//! Maps from words, which own them.

ghost use Rattle.std.specs.Prelude.{OnOk, OnErr};
ghost use Rattle.std.specs.HashMap.{IsUnchanged};
ghost use Rattle.mmunits.specs.WordMaps.{FindsToo, FindsUnlessBefore};

use std::alloc::{AllocError, Global};
use std::collections::HashMap;
use std::hash::RandomState;

/// Puts a value at a word, in the place of what was there. Where memory runs out, the map stays as it was.
pub(crate) fn put_at<V: Drop>(
    alloc: Global,
    map: &mut HashMap<Vec<u8>, V, RandomState>,
    word: &[u8],
    value: V,
) -> Result<(), AllocError>
    ensures put { OnOk result (FindsToo map.old word.now value map.new) }
    ensures kept { OnErr result (IsUnchanged map.old map.new) }
{
    let key = Vec::from_slice(alloc, word)?;
    map.insert(key, value)?;
    Ok(())
}

/// Puts a value at a word, unless there is one. Where memory runs out, the map stays as it was.
pub(crate) fn put_if_none<V: Drop>(
    alloc: Global,
    map: &mut HashMap<Vec<u8>, V, RandomState>,
    word: &[u8],
    value: V,
) -> Result<(), AllocError>
    ensures put { OnOk result (FindsUnlessBefore map.old word.now value map.new) }
    ensures kept { OnErr result (IsUnchanged map.old map.new) }
{
    if map.contains_key(word) {
        return Ok(());
    }
    put_at(alloc, map, word, value)
}
