//! The call `take`: a source is read, assertions are chosen and placed, and what they say and prove is written down anew.

ghost use Rattle.std.specs.Prelude.{◌≡◌, ◌≢◌, ◌≤◌, length, IfOk, IfErr};
ghost use Rattle.source.specs.Whole.{IsWhole};
ghost use Rattle.source.specs.Flags.{kept};
ghost use Rattle.prooftrees.specs.Frames.{Holds};
ghost use Rattle.sites.specs.Sites.{AreSites};
ghost use Rattle.sites.specs.Namings.{AreNamedWell};
ghost use Rattle.choosing.specs.Choices.{IsChosen};
ghost use Rattle.choosing.specs.declared.wish.Wish.{Wish as WishOf};
ghost use Rattle.intake.specs.Intakes.{IsTakenByWish, IsLibraryOf, IsRefused, IsRefusedOf};
ghost use Rattle.intake.specs.Parts.{IsChoiceByFlags, HasSites};
ghost use Rattle.intake.specs.declared.refusal.Refusal.TheVariants.{NoMemory};
ghost use Rattle.mmsyntax.specs.declared.limits.TheConstants.{MOST_DECLARED};

use crate::refusal::Refusal;
use crate::rounds::take_placed;
use crate::taken::Taken;
use choosing::{Selection, Unchosen, Wish, choose};
use following::Follow;
use gathering::Placed;
use prooftrees::Frames;
use scopes::Scopes;
use sites::{LibraryNames, Sites, SourceNames, name_all, sites_of};
use source::Declared;
use source::laws::sources_are_whole;
use sourcereader::read_source;
use std::alloc::Global;
use std::hash::RandomState;
use std::thread::Threads;
use taking::Unnamed;

/// What is chosen of a source. After an error nothing is said of the frames.
fn select<'a, 'w, D: Declared<'a>>(
    alloc: Global,
    keys: RandomState,
    declared: &D,
    frames: &mut Frames,
    wish: Wish<'w>,
) -> Result<Selection, Refusal<'a, 'w>>
    requires whole { IsWhole (D.scope declared.now) }
    requires frames { Holds (D.scope declared.now).assertions frames.old }
    ensures frames { IfOk result (λ _. Holds (D.scope declared.now).assertions frames.new) }
    ensures chosen { IfOk result (IsChosen (D.scope declared.now) wish.entry) }
    ensures refused { IfErr result (IsRefusedOf (D.scope declared.now) wish.entry) }
{
    match choose(alloc, keys, declared, frames, wish) {
        Ok(selection) => Ok(selection),
        Err(Unchosen::UnknownLabel(label)) => Err(Refusal::UnknownLabel(label)),
        Err(Unchosen::Backwards) => Err(Refusal::Backwards),
        Err(Unchosen::TooMany(count)) => Err(Refusal::TooMany(count)),
        Err(Unchosen::NoMemory) => Err(Refusal::NoMemory),
    }
}

/// The places of what is chosen.
fn sites_for<'a, 'w, D: Declared<'a>>(
    alloc: Global,
    keys: RandomState,
    declared: &D,
    chosen: &[bool],
) -> Result<Sites<'a>, Refusal<'a, 'w>>
    requires whole { IsWhole (D.scope declared.now) }
    requires flags { length chosen.now ≡ length (D.scope declared.now).assertions }
    ensures sites { IfOk result (AreSites (D.scope declared.now) (kept chosen.now (D.scope declared.now).assertions)) }
    ensures refused { (w : WishOf) → IsChoiceByFlags (D.scope declared.now) w chosen.now
        → IfErr result (IsRefusedOf (D.scope declared.now) w) }
{
    match sites_of(alloc, keys, declared, chosen)? {
        Some(sites) => Ok(sites),
        None => Err(Refusal::TooWide),
    }
}

/// The names of what has places.
fn names_for<'a, 'w, D: Declared<'a>>(
    alloc: Global,
    keys: RandomState,
    declared: &D,
    sites: &Sites<'a>,
) -> Result<LibraryNames, Refusal<'a, 'w>>
    ensures names { IfOk result (AreNamedWell (D.scope declared.now) sites.now.constants sites.now.variables sites.now.floats
        sites.now.labels) }
    ensures few { IfOk result (λ _. length sites.now.floats ≤ MOST_DECLARED) }
    ensures refused { (w : WishOf) → HasSites (D.scope declared.now) w sites.now → IfErr result (IsRefusedOf (D.scope declared.now) w) }
{
    let words = SourceNames {
        constants: sites.constants(),
        variables: sites.variables(),
        floats: sites.floats(),
        labels: sites.labels(),
    };
    match name_all(alloc, keys, declared, words) {
        Ok(names) => Ok(names),
        Err(Unnamed::NoFreshName(word)) => Err(Refusal::NoFreshName(word)),
        Err(Unnamed::NoMemory) => Err(Refusal::NoMemory),
    }
}

/// How many are chosen.
fn count_chosen(chosen: &[bool]) -> usize {
    chosen.iter().filter(|is_chosen| **is_chosen).count()
}

/// Takes a library of a source that was read: what [`take`] says of a text holds of what the source declares. Who follows is told of each
/// assertion.
///
/// # Errors
///
/// Those of [`take`] but a fault of the text.
pub fn take_declared<'a, 'w, D: Declared<'a>>(
    rt: &(impl Threads + Sync),
    alloc: Global,
    keys: RandomState,
    declared: &D,
    wish: Wish<'w>,
    follow: &impl Follow,
) -> Result<Taken<'a>, Refusal<'a, 'w>>
    requires whole { IsWhole (D.scope declared.now) }
    ensures taken { IfOk result (IsLibraryOf (D.scope declared.now) wish.entry) }
    ensures refused { IfErr result (IsRefusedOf (D.scope declared.now) wish.entry) }
{
    let mut frames = Frames::new(alloc);
    let selection = select(alloc, keys, declared, &mut frames, wish)?;
    let chosen = selection.chosen.as_slice();
    let sites = sites_for(alloc, keys, declared, chosen)?;
    let names = names_for(alloc, keys, declared, &sites)?;
    follow.begin_assertions(count_chosen(chosen));
    let placed = Placed {
        sites: &sites,
        names: &names,
    };
    take_placed(
        rt,
        alloc,
        keys,
        declared,
        &mut frames,
        &placed,
        &selection,
        follow,
    )
}

/// Takes a library from a text. Who follows is told how far it is, but not that it is at its end.
#[tactic(auto, using(crate::proofs::Steps::whole_source, crate::proofs::Steps::taken_by, crate::proofs::Steps::refused_by))]
fn take_text<'a, 'w>(
    rt: &(impl Threads + Sync),
    alloc: Global,
    keys: RandomState,
    text: &'a [u8],
    wish: Wish<'w>,
    follow: &impl Follow,
) -> Result<Taken<'a>, Refusal<'a, 'w>>
    ensures taken { IfOk result (IsTakenByWish text.now wish.entry) }
    ensures refused { IfErr result (λ why. why ≢ NoMemory → IsRefused text.now wish.entry why) }
{
    follow.begin_reading();
    let scopes = read_source(alloc, Scopes::new(alloc, keys), text)?;
    sources_are_whole();
    take_declared(rt, alloc, keys, &scopes, wish, follow)
}

/// Takes a library of the profile from a source in the whole language.
///
/// The library says what the chosen assertions of the source say, by a map of names that keeps each name that the profile allows; a
/// theorem's proof is the listing of its tree, or the theorem is taken as an axiom and told with the reason; and its proofs check. It costs
/// about as much as the source has bytes and as what is taken has symbols and steps, the latter once more for each theorem that is taken as
/// an axiom because an expression of its proof is too long. Who follows is told how far it is, on the thread of the caller.
///
/// # Errors
///
/// The first that holds, in the order of [`Refusal`]; want of memory at any time.
pub fn take<'a, 'w>(
    rt: &(impl Threads + Sync),
    alloc: Global,
    keys: RandomState,
    text: &'a [u8],
    wish: Wish<'w>,
    follow: &impl Follow,
) -> Result<Taken<'a>, Refusal<'a, 'w>>
    ensures taken { IfOk result (IsTakenByWish text.now wish.entry) }
    ensures refused { IfErr result (λ why. why ≢ NoMemory → IsRefused text.now wish.entry why) }
{
    let taken = take_text(rt, alloc, keys, text, wish, follow);
    follow.end();
    taken
}
