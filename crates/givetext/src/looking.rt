//! The second look at the source with the edits: what it declares, and whether that is as it should be.

ghost use Rattle.std.specs.Prelude.{◌≡◌, ◌≢◌, ℕ, List, IfOk, IfErr, OnOk, length, map};
ghost use Rattle.source.specs.Sources.{DeclaresText};
ghost use Rattle.taking.specs.Reasons.{Choice};
ghost use Rattle.library.specs.declared.history.Entry.{Entry};
ghost use Rattle.library.specs.Library.{Listed};
ghost use Rattle.intake.specs.declared.taken.Taken.{Taken};
ghost use Rattle.sourceediting.specs.Following.{label_then};
ghost use Rattle.sourceediting.specs.Views.{seen_following};
ghost use Rattle.secondlook.specs.Looked.{IsLookedAt};
ghost use Rattle.givetext.specs.Causes.{IsJustified, IsTextThen};
ghost use Rattle.givetext.specs.Drafts.{IsDraft, known_in};
ghost use Rattle.givetext.specs.Parts.{IsEdited, IsStopped};
ghost use Rattle.givetext.specs.declared.refusal.Refusal.TheVariants.{NoMemory};

use crate::again::{keep_comments, unprinted, unread};
use crate::drafting::{Draft, EditedLibrary};
use crate::refusal::Refusal;
use library::PlainLibrary;
use scopes::Scopes;
use secondlook::{Edits, look_again};
use source::Declared;
use source::laws::sources_are_whole;
use sourceediting::axioms_then;
use sourcereader::read_source;
use std::alloc::Global;
use std::hash::RandomState;
use std::thread::Threads;

/// What the source with the edits declares.
///
/// # Errors
///
/// That it can't be read, or that an assertion stands behind one that cites it; want of memory.
pub fn read_draft<'o, 'a, D: Declared<'a>>(
    alloc: Global,
    keys: RandomState,
    old: &D,
    draft: &'o Draft<'_>,
) -> Result<Scopes<'o>, Refusal>
    requires { length draft.now.own.items ≡ length (D.scope old.now).assertions }
    ensures declares { IfOk result (λ s. DeclaresText draft.now.text.items s.stand.scope) }
    ensures refused { (source : List ℕ) (choice : Choice) (taken : Taken) (entries : List Entry) (edited : Listed)
        → IsDraft source (D.scope old.now) choice taken entries edited draft.now
        → IfErr result (λ why. why ≢ NoMemory → IsStopped source (D.scope old.now) choice taken entries edited why) }
{
    let out = draft.text.as_slice();
    match read_source(alloc, Scopes::new(alloc, keys), out) {
        Ok(new) => Ok(new),
        Err(fault) => {
            let own = draft.own.as_slice();
            Err(unread(alloc, keys, old, out, &draft.changes, own, fault)?)
        }
    }
}

/// The library is taken again of what the source with the edits declares, and it and all other assertions are compared.
fn look_at<'o>(
    rt: &(impl Threads + Sync),
    alloc: Global,
    keys: RandomState,
    old: &Scopes<'_>,
    new: &Scopes<'o>,
    draft: &Draft<'_>,
    edited: &PlainLibrary,
) -> Result<(), Refusal>
    requires own { length draft.now.own.items ≡ length old.now.stand.scope.assertions }
    requires declares { DeclaresText draft.now.text.items new.now.stand.scope }
    ensures looked { OnOk result (IsLookedAt old.now.stand.scope draft.now.text.items draft.now.changes draft.now.own.items
        (map label_then (seen_following draft.now.following).living) edited.now) }
    ensures refused { (taken : Taken) (entries : List Entry) (source : List ℕ)
        → IsTextThen (known_in old.now.stand.scope taken entries edited.now draft.now) source draft.now.text.items
        → IfErr result (IsJustified (known_in old.now.stand.scope taken entries edited.now draft.now) source) }
{
    let following = &draft.following;
    let then = following.labels_then(alloc)?;
    let axioms = axioms_then(alloc, keys, edited, following.living.as_slice())?;
    let own = draft.own.as_slice();
    let edits = Edits {
        changes: &draft.changes,
        own,
        then: then.as_slice(),
        axioms: axioms.as_slice(),
        edited,
    };
    // For the proof: what is read is whole.
    sources_are_whole();
    match look_again(rt, alloc, keys, old, new, edits) {
        Ok(()) => Ok(()),
        Err(why) => Err(unprinted(alloc, old, own, why)?),
    }
}

/// Looks again at the source with the edits, by what it declares: the library is taken of it again, all other assertions stay, and so do
/// the comments.
///
/// # Errors
///
/// The first cause that holds, in the order of [`Refusal`], of those that a look at the text shows; want of memory.
pub fn look_at_draft<'o>(
    rt: &(impl Threads + Sync),
    alloc: Global,
    keys: RandomState,
    old: &Scopes<'_>,
    new: &Scopes<'o>,
    edits: &EditedLibrary<'_, '_>,
    draft: &Draft<'_>,
) -> Result<(), Refusal>
    requires own { length draft.now.own.items ≡ length old.now.stand.scope.assertions }
    requires declares { DeclaresText draft.now.text.items new.now.stand.scope }
    ensures edited { let run = edits.now.replayed.now in
        (choice : Choice) (taken : Taken)
        → IsDraft edits.now.source.now old.now.stand.scope choice taken run.entries run.edited draft.now
        → OnOk result
        (IsEdited edits.now.source.now old.now.stand.scope choice taken run.entries run.edited draft.now.text.items) }
    ensures refused { let run = edits.now.replayed.now in
        (choice : Choice) (taken : Taken)
        → IsDraft edits.now.source.now old.now.stand.scope choice taken run.entries run.edited draft.now
        → IfErr result (λ why. why ≢ NoMemory
        → IsStopped edits.now.source.now old.now.stand.scope choice taken run.entries run.edited why) }
{
    look_at(rt, alloc, keys, old, new, draft, &edits.replayed.edited)?;
    let (gone, text) = (draft.following.gone.as_slice(), draft.text.as_slice());
    keep_comments(alloc, keys, &draft.changes, gone, edits.source, text)
}
