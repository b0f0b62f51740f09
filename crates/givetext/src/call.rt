//! The call `give`: a library is taken of a source again, a history is done over it, and the source is written anew with its edits, and
//! looked at again.

ghost use Rattle.std.specs.Prelude.{◌≡◌, ◌≢◌, IfOk, IfErr, length, map};
ghost use Rattle.source.specs.Scopes.{Assertion, Scope, is_in};
ghost use Rattle.source.specs.Sources.{DeclaresText};
ghost use Rattle.source.specs.Whole.{IsWhole};
ghost use Rattle.taking.specs.Reasons.{Choice};
ghost use Rattle.checking.specs.Checks.{LeadsTo};
ghost use Rattle.choosing.specs.declared.wish.Wish.{Wish as WishOf};
ghost use Rattle.intake.specs.Intakes.{IsRefusedOf};
ghost use Rattle.givetext.specs.Causes.{IsRefused};
ghost use Rattle.givetext.specs.Given.{IsTakenText, IsGiven};
ghost use Rattle.givetext.specs.Parts.{IsEdited, IsReplayRefusal, IsSourceRefusal, IsStopped, IsTakingRefusal, IsUntakenBy};
ghost use Rattle.givetext.specs.declared.refusal.Refusal.TheVariants.{NoMemory};

use crate::drafting::{Draft, EditedLibrary, Replayed, draft_edits};
use crate::looking::{look_at_draft, read_draft};
use crate::refusal::Refusal;
use checking::{Fault, replay_library};
use intake::{Follow, Taken, take_declared};
use scopes::Scopes;
use source::Declared;
use source::laws::sources_are_whole;
use sourcereader::read_source;
use std::alloc::Global;
use std::hash::RandomState;
use std::thread::Threads;
use taketext::{origin_of, write_taken};

/// What the source declares.
fn read_old<'a>(
    alloc: Global,
    keys: RandomState,
    source: &'a [u8],
    follow: &impl Follow,
) -> Result<Scopes<'a>, Refusal>
    ensures declares { IfOk result (λ s. DeclaresText source.now s.stand.scope) }
    ensures refused { IfErr result (IsSourceRefusal source.now) }
{
    follow.begin_reading();
    Ok(read_source(alloc, Scopes::new(alloc, keys), source)?)
}

/// Why no library is taken of the source.
fn untaken(refusal: intake::Refusal<'_, '_>) -> Refusal
    ensures { (s : Scope) (w : WishOf) → IsRefusedOf s w refusal.entry → IsUntakenBy s w result }
{
    match refusal {
        intake::Refusal::NoMemory => Refusal::NoMemory,
        _ => Refusal::NotTaken,
    }
}

/// The library is taken of the source again, by the choice that its comment tells: it has just this text.
fn take_old<'a, D: Declared<'a>>(
    rt: &(impl Threads + Sync),
    alloc: Global,
    keys: RandomState,
    declared: &D,
    source: &[u8],
    library: &[u8],
    follow: &impl Follow,
) -> Result<Taken<'a>, Refusal>
    requires { IsWhole (D.scope declared.now) }
    ensures taken { IfOk result (IsTakenText source.now (D.scope declared.now) library.now) }
    ensures refused { IfErr result (IsTakingRefusal source.now (D.scope declared.now) library.now) }
{
    let Some(origin) = origin_of(alloc, library)? else {
        return Err(Refusal::NotTaken);
    };
    let Some(wish) = origin.wish() else {
        return Err(Refusal::NotTaken);
    };
    let taken = match take_declared(rt, alloc, keys, declared, wish, follow) {
        Ok(taken) => taken,
        Err(refusal) => return Err(untaken(refusal)),
    };
    let text = write_taken(alloc, origin.path, source, wish, &taken)?;
    if text.as_slice() != library {
        return Err(Refusal::NotTaken);
    }
    Ok(taken)
}

/// The history is done again over the library.
fn replay_over(
    rt: &(impl Threads + Sync),
    alloc: Global,
    keys: RandomState,
    library: &[u8],
    history: &[u8],
) -> Result<Replayed, Refusal>
    ensures leads { IfOk result (λ r. LeadsTo library.now history.now r.entries r.edited) }
    ensures refused { IfErr result (IsReplayRefusal library.now history.now) }
{
    match replay_library(rt, alloc, keys, library, history) {
        Ok((entries, edited)) => Ok(Replayed { entries, edited }),
        Err(Fault::NoMemory) => Err(Refusal::NoMemory),
        Err(fault) => Err(Refusal::Replay(fault)),
    }
}

/// The source with the edits of a history that was done over a library which was taken of it. It is looked at again before it is given.
fn give_edits<'x, 'a: 'x>(
    rt: &(impl Threads + Sync),
    alloc: Global,
    keys: RandomState,
    old: &Scopes<'a>,
    edits: &EditedLibrary<'x, 'a>,
) -> Result<Vec<u8>, Refusal>
    requires chosen { length edits.now.taken.now.chosen.items ≡ length old.now.stand.scope.assertions }
    requires declares { DeclaresText edits.now.source.now old.now.stand.scope }
    ensures edited { let run = edits.now.replayed.now in
        (choice : Choice) → map (λ (x : Assertion). is_in choice.chosen x.label) old.now.stand.scope.assertions
        ≡ edits.now.taken.now.chosen.items
        → IfOk result (λ out.
        IsEdited edits.now.source.now old.now.stand.scope choice edits.now.taken.now run.entries run.edited out.items) }
    ensures refused { let run = edits.now.replayed.now in
        (choice : Choice) → map (λ (x : Assertion). is_in choice.chosen x.label) old.now.stand.scope.assertions
        ≡ edits.now.taken.now.chosen.items
        → IfErr result (λ why. why ≢ NoMemory
        → IsStopped edits.now.source.now old.now.stand.scope choice edits.now.taken.now run.entries run.edited why) }
{
    let draft = draft_edits(alloc, keys, old, edits)?;
    let new = read_draft(alloc, keys, old, &draft)?;
    look_at_draft(rt, alloc, keys, old, &new, edits, &draft)?;
    drop(new);
    let Draft { text, .. } = draft;
    Ok(text)
}

/// The source with the edits of a history over a library that was taken of it. It is looked at again before it is answered.
pub(crate) fn give(
    rt: &(impl Threads + Sync),
    alloc: Global,
    keys: RandomState,
    source: &[u8],
    library: &[u8],
    history: &[u8],
    follow: &impl Follow,
) -> Result<Vec<u8>, Refusal>
    ensures given { IfOk result (λ out. IsGiven source.now library.now history.now out.items) }
    ensures refused { IfErr result (IsRefused source.now library.now history.now) }
{
    let old = read_old(alloc, keys, source, follow)?;
    // For the proof: what is read is whole.
    sources_are_whole();
    let taken = take_old(rt, alloc, keys, &old, source, library, follow)?;
    let replayed = replay_over(rt, alloc, keys, library, history)?;
    let edits = EditedLibrary {
        source,
        taken: &taken,
        replayed: &replayed,
    };
    give_edits(rt, alloc, keys, &old, &edits)
}
