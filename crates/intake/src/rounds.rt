//! The rounds of taking a library: a theorem whose proof has too long an expression is taken as an axiom in the next one.

ghost use Rattle.std.specs.Prelude.{◌≡◌, ℕ, true, length, set, slice_get, Some, IsTrue, IfOk, IfErr};
ghost use Rattle.std.specs.Str.{bytes_eq};
ghost use Rattle.mmtext.specs.Words.{Word};
ghost use Rattle.mmsyntax.specs.Tables.{place_of};
ghost use Rattle.source.specs.Scopes.{is_in};
ghost use Rattle.source.specs.Whole.{IsWhole};
ghost use Rattle.source.specs.Flags.{kept};
ghost use Rattle.prooftrees.specs.Frames.{Holds};
ghost use Rattle.sites.specs.Sites.{AreSites};
ghost use Rattle.sites.specs.Namings.{AreNamedWell};
ghost use Rattle.choosing.specs.Choices.{IsChosen, labels_of};
ghost use Rattle.choosing.specs.declared.wish.Wish.{Wish};
ghost use Rattle.gathering.specs.Placed.{map_of, tables_of};
ghost use Rattle.intake.specs.Intakes.{IsLibraryOf, IsRefusedOf};
ghost use Rattle.intake.specs.Parts.{AreAsMany, AreChosen, IsLibraryRound, IsLongRoundOf};

use crate::declaring::{library_of, word_at};
use crate::refusal::Refusal;
use crate::taken::Taken;
use choosing::Selection;
use following::Follow;
use gathering::{Flags, Placed, gather};
use prooftrees::Frames;
use sites::Sites;
use source::Declared;
use std::alloc::Global;
use std::hash::RandomState;
use std::thread::Threads;

/// How a round ends.
#[derive(Drop)]
pub(crate) enum Round<'a> {
    /// With the library, whose proofs check.
    Library(Taken<'a>),
    /// The first theorem of the library whose proof doesn't check, by its place there from 0: an expression of it is too long.
    Long(usize),
}

/// Who follows, told of the assertions in the first round alone.
#[derive(Drop)]
struct Following<'f, F: Follow> {
    follow: &'f F,
    is_first: bool,
}

impl<F: Follow> Follow for Following<'_, F> {
    fn pass_assertion(&self) {
        if self.is_first {
            self.follow.pass_assertion();
        }
    }
}

/// The library of what flags choose of a source, by the places that it has; or the place of the first theorem whose proof is too long.
///
/// After an error nothing is said of the frames.
fn take_round<'a, 'w, D: Declared<'a>>(
    rt: &(impl Threads + Sync),
    alloc: Global,
    keys: RandomState,
    declared: &D,
    frames: &mut Frames,
    placed: &Placed<'_, 'a>,
    flags: Flags<'_>,
    follow: &impl Follow,
) -> Result<Round<'a>, Refusal<'a, 'w>>
    requires whole { IsWhole (D.scope declared.now) }
    requires frames { Holds (D.scope declared.now).assertions frames.old }
    requires chosen { length flags.chosen.now ≡ length (D.scope declared.now).assertions }
    requires front { length flags.front.now ≡ length (D.scope declared.now).assertions }
    requires long { length flags.long.now ≡ length (D.scope declared.now).assertions }
    requires sites { AreSites (D.scope declared.now) (kept flags.chosen.now (D.scope declared.now).assertions) placed.now.sites.now }
    requires many { AreAsMany placed.now.sites.now placed.now.names.now }
    requires named { AreNamedWell (D.scope declared.now) placed.now.sites.now.constants placed.now.sites.now.variables
        placed.now.sites.now.floats placed.now.sites.now.labels placed.now.names.now }
    ensures frames { IfOk result (λ _. Holds (D.scope declared.now).assertions frames.new) }
    ensures taken { (w : Wish) → AreChosen (D.scope declared.now) w (map_of placed.now.sites.now placed.now.names.now)
        (tables_of placed.now.sites.now placed.now.names.now) flags.entry.chosen.now flags.entry.front.now flags.entry.long.now
        → IfOk result (IsLibraryRound (D.scope declared.now) w) }
    ensures long { IfOk result (IsLongRoundOf (D.scope declared.now) (map_of placed.now.sites.now placed.now.names.now)
        (tables_of placed.now.sites.now placed.now.names.now) flags.entry.chosen.now flags.entry.front.now flags.entry.long.now) }
    ensures refused { (w : Wish) → AreChosen (D.scope declared.now) w (map_of placed.now.sites.now placed.now.names.now)
        (tables_of placed.now.sites.now placed.now.names.now) flags.entry.chosen.now flags.entry.front.now flags.entry.long.now
        → IfErr result (IsRefusedOf (D.scope declared.now) w) }
{
    let gathered = gather(alloc, keys, declared, frames, placed, flags, follow)?;
    library_of(rt, alloc, keys, placed, gathered, flags.chosen)
}

/// The flag is set of the assertion that has a place in the library.
fn set_flag<'a, D: Declared<'a>>(declared: &D, sites: &Sites<'a>, place: usize, flags: &mut [bool])
    requires many { length flags.old ≡ length (D.scope declared.now).assertions }
    requires there { (label : Word) × (slice_get sites.now.labels place ≡ Some label)
        × IsTrue (is_in (labels_of (D.scope declared.now).assertions) label) }
    ensures { (label : Word) × (n : ℕ) × (slice_get sites.now.labels place ≡ Some label)
        × (place_of (λ x. bytes_eq label x.label) (D.scope declared.now).assertions ≡ Some n) × (flags.new ≡ set flags.old n true) }
{
    let Some(label) = word_at(sites.labels(), place) else {
        unreachable!()
    };
    let Some(number) = declared.place_of(label) else {
        unreachable!()
    };
    flags[number] = true;
}

/// Takes the library of what was chosen of a source, by the places that it has: a theorem whose proof has too long an expression is taken
/// as an axiom, and all is taken again. Who follows is told of each assertion once.
///
/// After an error nothing is said of the frames.
pub(crate) fn take_placed<'a, 'w, D: Declared<'a>>(
    rt: &(impl Threads + Sync),
    alloc: Global,
    keys: RandomState,
    declared: &D,
    frames: &mut Frames,
    placed: &Placed<'_, 'a>,
    selection: &Selection,
    follow: &impl Follow,
) -> Result<Taken<'a>, Refusal<'a, 'w>>
    requires whole { IsWhole (D.scope declared.now) }
    requires frames { Holds (D.scope declared.now).assertions frames.old }
    requires sites { AreSites (D.scope declared.now) (kept selection.now.chosen.items (D.scope declared.now).assertions)
        placed.now.sites.now }
    requires many { AreAsMany placed.now.sites.now placed.now.names.now }
    requires named { AreNamedWell (D.scope declared.now) placed.now.sites.now.constants placed.now.sites.now.variables
        placed.now.sites.now.floats placed.now.sites.now.labels placed.now.names.now }
    requires wished { (w : Wish) × IsChosen (D.scope declared.now) w selection.now }
    ensures taken { (w : Wish) → IsChosen (D.scope declared.now) w selection.now → IfOk result (IsLibraryOf (D.scope declared.now) w) }
    ensures refused { (w : Wish) → IsChosen (D.scope declared.now) w selection.now → IfErr result (IsRefusedOf (D.scope declared.now) w) }
{
    let chosen = selection.chosen.as_slice();
    let front = selection.front.as_slice();
    let mut long = vec![in alloc; false; chosen.len()]?;
    let mut is_first = true;
    loop {
        let follow = Following { follow, is_first };
        let flags = Flags {
            chosen,
            front,
            long: &long,
        };
        match take_round(rt, alloc, keys, declared, frames, placed, flags, &follow)? {
            Round::Library(taken) => return Ok(taken),
            Round::Long(place) => set_flag(declared, placed.sites, place, &mut long),
        }
        is_first = false;
    }
}
