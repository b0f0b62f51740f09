//! Choosing: from a wish to what is chosen.

ghost use Rattle.std.specs.Prelude.{◌≡◌, ◌≢◌, None, Some, IfOk, IfErr};
ghost use Rattle.source.specs.Whole.{IsWhole};
ghost use Rattle.prooftrees.specs.Frames.{Holds};
ghost use Rattle.choosing.specs.Choices.{place_in, IsChosen, IsUnchosen};
ghost use Rattle.choosing.specs.declared.wish.Unchosen.TheVariants.{NoMemory, UnknownLabel};
ghost use Rattle.choosing.specs.declared.wish.Wish.TheVariants.{All, For, Between, These};

use crate::between::{needed_between, selected};
use crate::marks::{count_marked, marks_of};
use crate::nearest::choose_nearest;
use crate::wish::{Selection, Unchosen, Wish};
use mmsyntax::MOST_ASSERTIONS;
use prooftrees::Frames;
use source::Declared;
use std::alloc::Global;
use std::hash::RandomState;

/// All are chosen.
fn choose_all<'a, 'w, D: Declared<'a>>(
    alloc: Global,
    declared: &D,
) -> Result<Selection, Unchosen<'w>>
    requires { IsWhole (D.scope declared.now) }
    ensures chosen { IfOk result (IsChosen (D.scope declared.now) All) }
    ensures refused { IfErr result (λ why. why ≢ NoMemory → IsUnchosen (D.scope declared.now) All why) }
{
    let count = declared.assertions();
    if count > MOST_ASSERTIONS {
        return Err(Unchosen::TooMany(count));
    }
    Ok(Selection {
        chosen: vec![in alloc; true; count]?,
        front: vec![in alloc; false; count]?,
    })
}

/// Those with these labels are chosen, and what their proofs need.
fn choose_for<'a, 'w, D: Declared<'a>>(
    alloc: Global,
    keys: RandomState,
    declared: &D,
    frames: &mut Frames,
    labels: &'w [&'w [u8]],
) -> Result<Selection, Unchosen<'w>>
    requires whole { IsWhole (D.scope declared.now) }
    requires frames { Holds (D.scope declared.now).assertions frames.old }
    ensures frames { IfOk result (λ _. Holds (D.scope declared.now).assertions frames.new) }
    ensures chosen { IfOk result (IsChosen (D.scope declared.now) (For labels.entry)) }
    ensures refused { IfErr result (λ why. why ≢ NoMemory → IsUnchosen (D.scope declared.now) (For labels.entry) why) }
{
    let asked = marks_of(alloc, declared, labels)?;
    let count = count_marked(&asked);
    if count > MOST_ASSERTIONS {
        return Err(Unchosen::TooMany(count));
    }
    let front = vec![in alloc; false; asked.len()]?;
    let chosen = choose_nearest(alloc, keys, declared, frames, asked, MOST_ASSERTIONS)?;
    Ok(Selection { chosen, front })
}

/// The place of the assertion with a label of a wish, or that none has it.
fn place_of<'a, 'w, D: Declared<'a>>(declared: &D, label: &'w [u8]) -> Result<usize, Unchosen<'w>>
    ensures found { IfOk result (λ place. place_in (D.scope declared.now) label.now ≡ Some place) }
    ensures unknown { IfErr result (λ why. (why ≡ UnknownLabel label.entry) × (place_in (D.scope declared.now) label.now ≡ None)) }
{
    match declared.place_of(label) {
        Some(place) => Ok(place),
        None => Err(Unchosen::UnknownLabel(label)),
    }
}

/// Those from one label to another are chosen, and in front of them what their proofs cite.
fn choose_between<'a, 'w, D: Declared<'a>>(
    alloc: Global,
    keys: RandomState,
    declared: &D,
    frames: &mut Frames,
    from: &'w [u8],
    to: &'w [u8],
) -> Result<Selection, Unchosen<'w>>
    requires whole { IsWhole (D.scope declared.now) }
    requires frames { Holds (D.scope declared.now).assertions frames.old }
    ensures frames { IfOk result (λ _. Holds (D.scope declared.now).assertions frames.new) }
    ensures chosen { IfOk result (IsChosen (D.scope declared.now) (Between from.entry to.entry)) }
    ensures refused { IfErr result (λ why. why ≢ NoMemory → IsUnchosen (D.scope declared.now) (Between from.entry to.entry) why) }
{
    let begin = place_of(declared, from)?;
    let last = place_of(declared, to)?;
    if last < begin {
        return Err(Unchosen::Backwards);
    }
    let wanted = needed_between(alloc, keys, declared, frames, begin, last)?;
    let selection = selected(wanted, begin, last)?;
    let count = count_marked(&selection.chosen);
    if count > MOST_ASSERTIONS {
        return Err(Unchosen::TooMany(count));
    }
    Ok(selection)
}

/// Just those with the first labels are chosen, and those with the second stand in front.
fn choose_these<'a, 'w, D: Declared<'a>>(
    alloc: Global,
    declared: &D,
    labels: &'w [&'w [u8]],
    axioms: &'w [&'w [u8]],
) -> Result<Selection, Unchosen<'w>>
    requires { IsWhole (D.scope declared.now) }
    ensures chosen { IfOk result (IsChosen (D.scope declared.now) (These labels.entry axioms.entry)) }
    ensures refused { IfErr result (λ why. why ≢ NoMemory → IsUnchosen (D.scope declared.now) (These labels.entry axioms.entry) why) }
{
    let chosen = marks_of(alloc, declared, labels)?;
    let front = marks_of(alloc, declared, axioms)?;
    let count = labels.len();
    if count > MOST_ASSERTIONS {
        return Err(Unchosen::TooMany(count));
    }
    Ok(Selection { chosen, front })
}

/// What is chosen of a source by a wish.
///
/// Each proof that is needed is read once, and those that aren't are not read.
///
/// # Errors
///
/// In this order: the first label that no assertion has; labels that stand the wrong way round; more than 4,096 assertions, with their
/// number. Want of memory at any time. After an error nothing is said of the frames.
pub fn choose<'a, 'w, D: Declared<'a>>(
    alloc: Global,
    keys: RandomState,
    declared: &D,
    frames: &mut Frames,
    wish: Wish<'w>,
) -> Result<Selection, Unchosen<'w>>
    requires whole { IsWhole (D.scope declared.now) }
    requires frames { Holds (D.scope declared.now).assertions frames.old }
    ensures frames { IfOk result (λ _. Holds (D.scope declared.now).assertions frames.new) }
    ensures chosen { IfOk result (IsChosen (D.scope declared.now) wish.entry) }
    ensures refused { IfErr result (λ why. why ≢ NoMemory → IsUnchosen (D.scope declared.now) wish.entry why) }
{
    match wish {
        Wish::All => choose_all(alloc, declared),
        Wish::For(labels) => choose_for(alloc, keys, declared, frames, labels),
        Wish::Between(from, to) => choose_between(alloc, keys, declared, frames, from, to),
        Wish::These(labels, axioms) => choose_these(alloc, declared, labels, axioms),
    }
}
