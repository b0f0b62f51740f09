//! The source with the edits of a history, before it is looked at again.

ghost use Rattle.std.specs.Prelude.{◌≡◌, ◌≢◌, ℕ, Bool, false, List, Some, IfOk, IfErr, IsTrue, length, map};
ghost use Rattle.source.specs.Scopes.{Assertion, is_in};
ghost use Rattle.source.specs.Sources.{DeclaresText};
ghost use Rattle.taking.specs.Reasons.{Choice};
ghost use Rattle.sourceediting.specs.Following.{all_commands, behind_all, opening};
ghost use Rattle.sourceediting.specs.Views.{seen_followed, seen_following};
ghost use Rattle.library.specs.declared.history.Entry.{Entry};
ghost use Rattle.library.specs.Library.{Listed};
ghost use Rattle.intake.specs.declared.taken.Taken.{Taken};
ghost use Rattle.sourceediting.specs.Reproved.{AreOtherProofs};
ghost use Rattle.sourceediting.specs.Written.{IsWrittenAnew};
ghost use Rattle.givetext.specs.Causes.{known_of, IsJustified};
ghost use Rattle.givetext.specs.Given.{edition};
ghost use Rattle.givetext.specs.Drafts.{IsDraft};
ghost use Rattle.givetext.specs.Parts.{IsStopped, TakesName};
ghost use Rattle.givetext.specs.declared.refusal.Refusal.TheVariants.{NoMemory};

use crate::refusal::Refusal;
use giving::LabelMap;
use intake::Taken;
use library::{Entry, History, PlainLibrary};
use mmsyntax::Label;
use scopes::Scopes;
use secondlook::{own_of, told_of};
use source::Declared;
use sourceediting::{Followed, Following, Planned, are_uncited, marked, opening_of, write_edits};
use std::alloc::{AllocError, Global};
use std::hash::RandomState;

/// A history that was done over a library.
#[derive(Drop)]
pub struct Replayed {
    /// What became of each number, from 1.
    pub entries: History,
    /// The library behind it.
    pub edited: PlainLibrary,
}

/// A library that was taken of a source, with a history that was done over it.
#[derive(Clone, Copy)]
pub struct EditedLibrary<'x, 'a> {
    /// The text of the source.
    pub source: &'x [u8],
    /// The library as it was taken.
    pub taken: &'x Taken<'a>,
    /// The history, with the library behind it.
    pub replayed: &'x Replayed,
}

/// Whether an assertion has a label in the source.
fn is_called(followed: &Followed<'_>, label: &[u8]) -> bool
    ensures { (seen_followed followed.entry.now).source ≡ Some label.now → IsTrue result }
{
    match followed.source {
        Some(source) => source == label,
        None => false,
    }
}

/// Whether a label isn't one of some.
fn is_absent(labels: &LabelMap<'_>, label: &[u8]) -> bool
    ensures { IsTrue result → is_in (map (λ c. c.0) labels.now) label.now ≡ false }
{
    labels.text_for(label).is_none()
}

/// Whether an assertion gets a label that it doesn't have in the source, and that is a name there, of something that keeps it.
fn takes_name<'a, D: Declared<'a>>(
    declared: &D,
    followed: &Followed<'_>,
    changes: &LabelMap<'_>,
    gone: &LabelMap<'_>,
) -> bool
    ensures { IsTrue result → TakesName (D.scope declared.now) (seen_followed followed.entry.now) changes.now gone.now }
{
    let then = followed.label_then();
    if is_called(followed, then) || !declared.has_name(then) || !is_absent(changes, then) {
        return false;
    }
    is_absent(gone, then)
}

/// No assertion gets a label that is a name of the source already.
fn are_free<'a, D: Declared<'a>>(
    alloc: Global,
    keys: RandomState,
    declared: &D,
    following: &Following<'_>,
    changes: &LabelMap<'_>,
) -> Result<(), Refusal>
    ensures { (taken : Taken) (entries : List Entry) (edited : Listed) (own : List Bool) (source : List ℕ) → IfErr result (IsJustified
        (known_of (D.scope declared.now) taken entries edited (seen_following following.now) changes.now own) source) }
{
    let gone = marked(alloc, keys, following.gone.as_slice())?;
    for followed in following.living.as_slice() {
        if takes_name(declared, followed, changes, &gone) {
            let label = followed.label_then();
            return Err(Refusal::NameTaken(Label::from_slice(alloc, label)?));
        }
    }
    Ok(())
}

/// What becomes of the assertions of a library that was taken of a source.
fn follow_edits<'x, 'a: 'x, D: Declared<'a>>(
    alloc: Global,
    declared: &D,
    taken: &'x Taken<'a>,
    entries: &'x [Entry],
) -> Result<Following<'x>, AllocError>
    requires { length taken.now.chosen.items ≡ length (D.scope declared.now).assertions }
    ensures { (choice : Choice) → map (λ (x : Assertion). is_in choice.chosen x.label) (D.scope declared.now).assertions
        ≡ taken.now.chosen.items
        → IfOk result (λ made. seen_following made
        ≡ behind_all (all_commands entries.now) (opening (D.scope declared.now) choice taken.now.database)) }
{
    let mut following = opening_of(alloc, declared, taken.chosen.as_slice(), &taken.database)?;
    following.follow(alloc, entries)?;
    Ok(following)
}

/// The source with the edits, before it is looked at again.
fn write_anew(
    alloc: Global,
    keys: RandomState,
    old: &Scopes<'_>,
    edits: &EditedLibrary<'_, '_>,
    following: &Following<'_>,
    changes: &LabelMap<'_>,
    own: &[bool],
) -> Result<Vec<u8>, Refusal>
    requires { DeclaresText edits.now.source.now old.now.stand.scope }
    ensures written { let run = edits.now.replayed.now in
        IfOk result (λ out. IsWrittenAnew (all_commands run.entries) (seen_following following.now).living
        (seen_following following.now).gone (AreOtherProofs edits.now.source.now old.now.stand.scope
        (edition edits.now.taken.now run.edited) (seen_following following.now).living)
        changes.now edits.now.source.now out.items) }
    ensures refused { let run = edits.now.replayed.now in
        IfErr result (IsJustified (known_of old.now.stand.scope edits.now.taken.now run.entries run.edited
        (seen_following following.now) changes.now own.now) edits.now.source.now) }
{
    let told = told_of(alloc, keys, edits.taken.axioms.as_slice())?;
    let living = following.living.as_slice();
    let gone = following.gone.as_slice();
    let planned = Planned {
        database: &edits.taken.database,
        names: edits.taken.names.as_slice(),
        edited: &edits.replayed.edited,
        living,
        gone,
        own,
        told: &told,
    };
    let entries = edits.replayed.entries.as_slice();
    Ok(write_edits(alloc, keys, old, edits.source, &planned, entries, changes)?)
}

/// The source with the edits of a history, before it is looked at again.
#[derive(Drop)]
pub struct Draft<'x> {
    /// Its text.
    pub text: Vec<u8>,
    /// What becomes of the assertions of the library.
    pub following: Following<'x>,
    /// The labels of the source that change, with their new ones.
    pub changes: LabelMap<'x>,
    /// Of each assertion of the source: whether it is the library's, with its proof.
    pub own: Vec<bool>,
}

/// The source with the edits of a history that was done over a library which was taken of it, before it is looked at again.
///
/// # Errors
///
/// The first cause that holds, in the order of [`Refusal`], of those that are known without a look at the text; want of memory.
pub fn draft_edits<'x, 'a: 'x>(
    alloc: Global,
    keys: RandomState,
    old: &Scopes<'a>,
    edits: &EditedLibrary<'x, 'a>,
) -> Result<Draft<'x>, Refusal>
    requires chosen { length edits.now.taken.now.chosen.items ≡ length old.now.stand.scope.assertions }
    requires declares { DeclaresText edits.now.source.now old.now.stand.scope }
    ensures drafted { let run = edits.now.replayed.now in
        (choice : Choice) → map (λ (x : Assertion). is_in choice.chosen x.label) old.now.stand.scope.assertions
        ≡ edits.now.taken.now.chosen.items
        → IfOk result (IsDraft edits.now.source.now old.now.stand.scope choice edits.now.taken.now run.entries run.edited) }
    ensures refused { let run = edits.now.replayed.now in
        (choice : Choice) → map (λ (x : Assertion). is_in choice.chosen x.label) old.now.stand.scope.assertions
        ≡ edits.now.taken.now.chosen.items
        → IfErr result (λ why. why ≢ NoMemory
        → IsStopped edits.now.source.now old.now.stand.scope choice edits.now.taken.now run.entries run.edited why) }
    ensures own { IfOk result (λ draft. length draft.own.items ≡ length old.now.stand.scope.assertions) }
{
    let following = follow_edits(alloc, old, edits.taken, edits.replayed.entries.as_slice())?;
    let changes = LabelMap::new(alloc, keys, following.changes(alloc)?)?;
    are_free(alloc, keys, old, &following, &changes)?;
    let own = own_of(alloc, keys, old, edits.taken)?;
    are_uncited(alloc, keys, old, own.as_slice(), following.gone.as_slice())?;
    let flags = own.as_slice();
    let text = write_anew(alloc, keys, old, edits, &following, &changes, flags)?;
    Ok(Draft {
        text,
        following,
        changes,
        own,
    })
}
