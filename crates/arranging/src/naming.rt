//! Whether what leaves its block stands under its own label behind what describes it.

ghost use Rattle.std.specs.Prelude.{◌≡◌, ◌<◌, All, IfNone, IfOk, IfSome, IsTrue, length};
ghost use Rattle.giving.specs.Staying.{changed};
ghost use Rattle.arranging.specs.Arranged.{label_in_source};
ghost use Rattle.arranging.specs.Named.{BeginsWith, IsNamedFrom};

use crate::coming::Coming;
use crate::held::is_labelled;
use giving::LabelMap;
use items::read_items;
use std::alloc::{AllocError, Global};

/// The label that an assertion of the source has then.
fn label_then<'c>(changes: &'c LabelMap<'_>, label: &'c [u8]) -> &'c [u8]
    ensures { result.now ≡ changed changes.now label.now }
{
    match changes.text_for(label) {
        Some(other) => other,
        None => label,
    }
}

/// Whether the first item of a text is the assertion with a label.
fn begins_with(alloc: Global, text: &[u8], label: &[u8]) -> Result<bool, AllocError>
    ensures { IfOk result (λ yes. IsTrue yes → BeginsWith text.now label.now) }
{
    let Some(items) = read_items(alloc, text)? else {
        return Ok(false);
    };
    Ok(is_labelled(items.as_slice(), 0, label))
}

/// Whether one of the source goes as it stood, or is written anew under the label that it has then.
fn is_named_then(
    alloc: Global,
    changes: &LabelMap<'_>,
    coming: Coming<'_>,
) -> Result<bool, AllocError>
    ensures { IfOk result (λ yes. IsTrue yes → IsNamedFrom changes.now coming.entry (label_in_source coming.entry)) }
{
    let Some(label) = coming.source else {
        return Ok(true);
    };
    if coming.back.is_empty() {
        return Ok(true);
    }
    begins_with(alloc, coming.back, label_then(changes, label))
}

/// The number of the first of these that doesn't, if one doesn't.
pub(crate) fn first_misnamed(
    alloc: Global,
    changes: &LabelMap<'_>,
    comings: &[Coming<'_>],
) -> Result<Option<usize>, AllocError>
    ensures named { IfOk result (λ made. IfNone made (All (λ c. IsNamedFrom changes.now c (label_in_source c)) comings.now)) }
    ensures one { IfOk result (λ made. IfSome made (λ number. number < length comings.now)) }
{
    for (number, coming) in comings.iter().enumerate() {
        if !is_named_then(alloc, changes, *coming)? {
            return Ok(Some(number));
        }
    }
    Ok(None)
}
