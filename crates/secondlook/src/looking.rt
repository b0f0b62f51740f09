//! Looking again at what is about to be printed.

ghost use Rattle.std.specs.Prelude.{◌≡◌, ℕ, Bool, List, IfOk, IfErr, OnOk, length};
ghost use Rattle.source.specs.Sources.{DeclaresText};
ghost use Rattle.source.specs.Views.{seen_words};
ghost use Rattle.source.specs.Whole.{IsWhole};
ghost use Rattle.source.specs.Scopes.{Scope};
ghost use Rattle.choosing.specs.declared.wish.Wish.{Wish as WishOf};
ghost use Rattle.choosing.specs.declared.wish.Wish.TheVariants.{These};
ghost use Rattle.intake.specs.Intakes.{IsLibraryOf, IsRefusedOf};
ghost use Rattle.library.specs.Library.{Listed};
ghost use Rattle.giving.specs.Staying.{Change, StayAll, others};
ghost use Rattle.secondlook.specs.Compared.{IsNotStaying};
ghost use Rattle.secondlook.specs.Differing.{IsUnlike, IsUnlikeOf};
ghost use Rattle.secondlook.specs.Looked.{IsLookedAt};

use crate::edited::is_edited;
use crate::own::own_of;
use crate::unlike::Unlike;
use choosing::Wish;
use giving::{LabelMap, first_not_staying};
use intake::{Refusal, Taken, Unfollowed, take_declared};
use library::PlainLibrary;
use source::Declared;
use std::alloc::Global;
use std::hash::RandomState;
use std::thread::Threads;

/// Why no library is taken again.
fn untaken(refusal: Refusal<'_, '_>) -> Unlike
    ensures { (s : Scope) (w : WishOf) (old : Scope) (changes : List Change) (own : List Bool) (edited : Listed)
        → IsRefusedOf s w refusal.entry → IsUnlikeOf old s w changes own edited result }
{
    match refusal {
        Refusal::NoMemory => Unlike::NoMemory,
        _ => Unlike::Untaken,
    }
}

/// The library that is taken again, by the labels of its assertions then.
fn take_again<'o, D: Declared<'o>>(
    rt: &(impl Threads + Sync),
    alloc: Global,
    keys: RandomState,
    scopes: &D,
    then: &[&[u8]],
    axioms: &[&[u8]],
) -> Result<Taken<'o>, Unlike>
    requires { IsWhole (D.scope scopes.now) }
    ensures taken { IfOk result (IsLibraryOf (D.scope scopes.now) (These then.entry axioms.entry)) }
    ensures untaken { (old : Scope) (changes : List Change) (own : List Bool) (edited : Listed)
        → IfErr result (IsUnlikeOf old (D.scope scopes.now) (These then.entry axioms.entry) changes own edited) }
{
    let wish = Wish::These(then, axioms);
    match take_declared(rt, alloc, keys, scopes, wish, &Unfollowed) {
        Ok(taken) => Ok(taken),
        Err(refusal) => Err(untaken(refusal)),
    }
}

/// Every other assertion of the source stays.
fn stay<'a, D: Declared<'a>, E: Declared<'a>>(
    alloc: Global,
    changes: &LabelMap<'_>,
    old: &D,
    new: &E,
    chosen: &[bool],
    taken: &[bool],
) -> Result<(), Unlike>
    requires chosen { length chosen.now ≡ length (D.scope old.now).assertions }
    requires taken { length taken.now ≡ length (E.scope new.now).assertions }
    ensures stay { OnOk result (StayAll changes.now (others chosen.now (D.scope old.now).assertions)
        (others taken.now (E.scope new.now).assertions)) }
    ensures other { IfErr result (IsNotStaying changes.now (others chosen.now (D.scope old.now).assertions)
        (others taken.now (E.scope new.now).assertions)) }
{
    match first_not_staying(alloc, changes, old, new, chosen, taken)? {
        None => Ok(()),
        Some(number) => Err(Unlike::AnotherAssertion(number)),
    }
}

/// What is known of a source and of the edits in it.
#[derive(Clone, Copy)]
pub struct Edits<'e, 'x> {
    /// The labels that change, with their new ones.
    pub changes: &'e LabelMap<'x>,
    /// Of each assertion of the source: whether it is the library's, with its proof.
    pub own: &'e [bool],
    /// The labels of the library's assertions in the source then.
    pub then: &'e [&'x [u8]],
    /// Those of its axioms.
    pub axioms: &'e [&'x [u8]],
    /// The library behind the edits.
    pub edited: &'e PlainLibrary,
}

/// The library that was taken again, and all other assertions of the source with the edits, are compared.
fn compare<'o, D: Declared<'o>, E: Declared<'o>>(
    alloc: Global,
    keys: RandomState,
    old: &D,
    new: &E,
    taken: &Taken<'o>,
    edits: Edits<'_, '_>,
) -> Result<(), Unlike>
    requires own { length edits.own.now ≡ length (D.scope old.now).assertions }
    requires chosen { length taken.now.chosen.items ≡ length (E.scope new.now).assertions }
    ensures looked { IsLibraryOf (E.scope new.now) (These edits.entry.then edits.entry.axioms) taken.now → (out : List ℕ)
        → DeclaresText out (E.scope new.now) → OnOk result (IsLookedAt (D.scope old.now) out edits.entry.changes.now edits.entry.own.now
        (seen_words edits.entry.then.now) edits.entry.edited.now) }
    ensures unlike { IsLibraryOf (E.scope new.now) (These edits.entry.then edits.entry.axioms) taken.now
        → IfErr result (IsUnlikeOf (D.scope old.now) (E.scope new.now) (These edits.entry.then edits.entry.axioms)
        edits.entry.changes.now edits.entry.own.now edits.entry.edited.now) }
{
    is_edited(alloc, &taken.database, edits.edited)?;
    let own = own_of(alloc, keys, new, taken)?;
    stay(alloc, edits.changes, old, new, edits.own, own.as_slice())
}

/// Looks again at a source with edits, by what its text declares: the library is taken of it again, and it and all other assertions are
/// compared.
///
/// # Errors
///
/// Why it isn't as it should be; want of memory.
pub fn look_again<'o, D: Declared<'o>, E: Declared<'o>>(
    rt: &(impl Threads + Sync),
    alloc: Global,
    keys: RandomState,
    old: &D,
    new: &E,
    edits: Edits<'_, '_>,
) -> Result<(), Unlike>
    requires own { length edits.own.now ≡ length (D.scope old.now).assertions }
    requires whole { IsWhole (E.scope new.now) }
    ensures looked { (out : List ℕ) → DeclaresText out (E.scope new.now) → OnOk result (IsLookedAt (D.scope old.now) out
        edits.entry.changes.now edits.entry.own.now (seen_words edits.entry.then.now) edits.entry.edited.now) }
    ensures unlike { (out : List ℕ) → DeclaresText out (E.scope new.now) → IfErr result (IsUnlike (D.scope old.now) out
        (These edits.entry.then edits.entry.axioms) edits.entry.changes.now edits.entry.own.now edits.entry.edited.now) }
{
    let taken = take_again(rt, alloc, keys, new, edits.then, edits.axioms)?;
    compare(alloc, keys, old, new, &taken, edits)
}
