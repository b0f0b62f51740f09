//! What is told of what is about to be printed, where the second look finds it not as it should be; and its comments.

ghost use Rattle.std.specs.Prelude.{◌≡◌, ◌≢◌, ℕ, List, IfErr, IfOk, OnOk, length, slice_get};
ghost use Rattle.std.specs.Option.{option_map};
ghost use Rattle.source.specs.Views.{seen_words};
ghost use Rattle.giving.specs.Staying.{others};
ghost use Rattle.comments.specs.Kept.{AreKept};
ghost use Rattle.mmtext.specs.declared.fault.FaultKind.TheVariants.{NoMemory as OutOfMemory};
ghost use Rattle.source.specs.Faults.{FaultySource};
ghost use Rattle.secondlook.specs.declared.unlike.Unlike.TheVariants.{AnotherAssertion};
ghost use Rattle.givetext.specs.Causes.{Known, IsTextThen, IsUnfit, IsJustified};
ghost use Rattle.givetext.specs.Parts.{IsLoss};

use crate::refusal::Refusal;
use crate::standing::first_behind;
use comments::are_kept;
use giving::LabelMap;
use mmsyntax::Label;
use mmtext::{FaultKind, TextFault};
use secondlook::Unlike;
use source::Declared;
use sourceediting::marked;
use std::alloc::{AllocError, Global};
use std::hash::RandomState;

/// The label of the assertion with a number among those that aren't the library's.
fn other_at<'a, D: Declared<'a>>(declared: &D, own: &[bool], number: usize) -> Option<&'a [u8]>
    requires { length own.now ≡ length (D.scope declared.now).assertions }
    ensures { option_map (λ w. w.now) result
        ≡ option_map (λ x. x.label) (slice_get (others own.now (D.scope declared.now).assertions) number) }
{
    let mut left = number;
    for (place, is_own) in own.iter().enumerate() {
        if *is_own {
            continue;
        }
        if left == 0 {
            return declared.label(place);
        }
        left -= 1;
    }
    None
}

/// Another assertion than the library's isn't as it was: that with a number among these.
fn changed<'a, D: Declared<'a>>(
    alloc: Global,
    declared: &D,
    own: &[bool],
    number: usize,
) -> Result<Refusal, AllocError>
    requires { length own.now ≡ length (D.scope declared.now).assertions }
    ensures { (k : Known) (source : List ℕ) → k.old ≡ D.scope declared.now → k.own ≡ own.now
        → IsUnfit k source (AnotherAssertion number) → IfOk result (IsJustified k source) }
{
    match other_at(declared, own, number) {
        Some(label) => Ok(Refusal::Changes(Label::from_slice(alloc, label)?)),
        None => Ok(Refusal::AnotherAssertion),
    }
}

/// Why the source with the edits can't be read, whose text has this fault.
pub(crate) fn unread<'a, D: Declared<'a>>(
    alloc: Global,
    keys: RandomState,
    declared: &D,
    out: &[u8],
    changes: &LabelMap<'_>,
    own: &[bool],
    fault: TextFault,
) -> Result<Refusal, AllocError>
    requires { length own.now ≡ length (D.scope declared.now).assertions }
    ensures { (k : Known) (source : List ℕ) → k.old ≡ D.scope declared.now → k.changes ≡ changes.now → k.own ≡ own.now
        → IsTextThen k source out.now → (fault.kind ≢ OutOfMemory → FaultySource out.now fault) → IfOk result (IsJustified k source) }
{
    if fault.kind == FaultKind::NoMemory {
        return Ok(Refusal::NoMemory);
    }
    if fault.kind != FaultKind::UnknownLabel {
        return Ok(Refusal::Unread(fault));
    }
    match first_behind(alloc, keys, declared, changes, own, out)? {
        Some((label, by)) => Ok(Refusal::StandsBehind {
            label: Label::from_slice(alloc, label)?,
            by: Label::from_slice(alloc, by)?,
        }),
        None => Ok(Refusal::Unread(fault)),
    }
}

/// Why the source with the edits isn't printed.
pub(crate) fn unprinted<'a, D: Declared<'a>>(
    alloc: Global,
    declared: &D,
    own: &[bool],
    why: Unlike,
) -> Result<Refusal, AllocError>
    requires { length own.now ≡ length (D.scope declared.now).assertions }
    ensures { (k : Known) (source : List ℕ) → k.old ≡ D.scope declared.now → k.own ≡ own.now → IsUnfit k source why
        → IfOk result (IsJustified k source) }
{
    match why {
        Unlike::Untaken => Ok(Refusal::Untaken),
        Unlike::AnotherLibrary => Ok(Refusal::AnotherLibrary),
        Unlike::AnotherPrelude => Ok(Refusal::AnotherLibrary),
        Unlike::AnotherAssertion(number) => changed(alloc, declared, own, number),
        Unlike::NoMemory => Err(AllocError),
    }
}

/// No comment between the statements of the source is lost, and none is made, but for the labels that change. Those of deleted assertions,
/// which are gone, may be left out.
pub(crate) fn keep_comments(
    alloc: Global,
    keys: RandomState,
    changes: &LabelMap<'_>,
    gone: &[&[u8]],
    source: &[u8],
    out: &[u8],
) -> Result<(), Refusal>
    ensures kept { OnOk result (AreKept changes.now (seen_words gone.now) source.now out.now) }
    ensures refused { IfErr result (IsLoss changes.now (seen_words gone.now) source.now out.now) }
{
    let gone = marked(alloc, keys, gone)?;
    if !are_kept(alloc, keys, changes, &gone, source, out)? {
        return Err(Refusal::CommentLost);
    }
    Ok(())
}
