//! Under which labels the descriptions of what was added go into the source.

ghost use Rattle.std.specs.Prelude.{◌≡◌, IfOk, option_map};
ghost use Rattle.source.specs.Views.{seen_pairs};
ghost use Rattle.sourceediting.specs.Views.{seen_followed, seen_following};
ghost use Rattle.dressing.specs.Descriptions.{description_then, descriptions_then};

use giving::LabelMap;
use sourceediting::{Followed, Following};
use std::alloc::{AllocError, Global};

/// The description of an assertion that was added, and its label in the end.
fn description_then<'x>(
    descriptions: &LabelMap<'x>,
    followed: &Followed<'x>,
) -> Option<(&'x [u8], &'x [u8])>
    ensures { option_map (λ d. (d.0.now, d.1.now)) result ≡ description_then descriptions.now (seen_followed followed.entry.now) }
{
    if followed.source.is_some() {
        return None;
    }
    let comment = descriptions.text_for(followed.first)?;
    Some((followed.label_then(), comment))
}

/// The descriptions of what was added, under the labels in the end.
///
/// # Errors
///
/// Want of memory.
pub(crate) fn descriptions_then<'x>(
    alloc: Global,
    descriptions: &LabelMap<'x>,
    following: &Following<'x>,
) -> Result<Vec<(&'x [u8], &'x [u8])>, AllocError>
    ensures { IfOk result (λ made. seen_pairs made.items ≡ descriptions_then descriptions.now (seen_following following.now)) }
{
    let mut made = Vec::new(alloc);
    for followed in following.living.as_slice() {
        if let Some(pair) = description_then(descriptions, followed) {
            made.push(pair)?;
        }
    }
    Ok(made)
}
