//! The source with the edits of a run: it is written, looked at, dressed in what scripts give in their own words, and verified.

ghost use Rattle.std.specs.Prelude.{◌≡◌, IfOk, IfErr, List, OnOk, length, map};
ghost use Rattle.source.specs.Scopes.{Assertion, is_in};
ghost use Rattle.source.specs.Sources.{DeclaresText};
ghost use Rattle.source.specs.Views.{seen_pairs};
ghost use Rattle.taking.specs.Reasons.{Choice};
ghost use Rattle.intake.specs.declared.taken.Taken.{Taken as TakenOf};
ghost use Rattle.library.specs.declared.history.Entry.{Entry};
ghost use Rattle.library.specs.Library.{Listed};
ghost use Rattle.checking.specs.Checks.{Bytes};
ghost use Rattle.givetext.specs.Drafts.{IsDraft};
ghost use Rattle.givetext.specs.Parts.{IsEdited};
ghost use Rattle.editedsource.specs.Finished.{IsFinished};
ghost use Rattle.pasting.specs.Views.{seen_quotation};
ghost use Rattle.editscripts.specs.Refusals.{IsToldBy};
ghost use Rattle.editedsource.specs.Refusals.{IsStoppedLine, IsStoppedOrFaulty};

use crate::spoken::spoken_lines;
use crate::telling::ungiven;
use crate::verified::verify_dressed;
use dressing::{Given, dress};
use editscripts::Unedited;
use following::Follow;
use givetext::{Draft, EditedLibrary, draft_edits, look_at_draft, read_draft};
use mentions::{mention_lines, vanished_of};
use scopes::Scopes;
use source::Declared;
use source::laws::sources_are_whole;
use std::alloc::Global;
use std::hash::RandomState;
use std::thread::Threads;

/// What goes into a source.
#[derive(Clone, Copy)]
pub struct SourceEdit<'x, 'a> {
    /// The path of the source, as lines have it.
    pub path: &'x str,
    /// The library that was taken of it, with the history of a run over it.
    pub library: EditedLibrary<'x, 'a>,
    /// What the scripts give in their own words.
    pub given: Given<'x>,
}

/// The source with the edits of a history, before it is looked at.
fn draft_of<'x, 'a: 'x>(
    alloc: Global,
    keys: RandomState,
    old: &Scopes<'a>,
    edit: &SourceEdit<'x, 'a>,
) -> Result<Draft<'x>, Unedited>
    requires chosen { length edit.now.library.taken.now.chosen.items ≡ length old.now.stand.scope.assertions }
    requires declares { DeclaresText edit.now.library.source.now old.now.stand.scope }
    ensures drafted { let library = edit.now.library in let run = library.replayed.now in
        (choice : Choice) → map (λ (x : Assertion). is_in choice.chosen x.label) old.now.stand.scope.assertions
        ≡ library.taken.now.chosen.items
        → IfOk result (IsDraft library.source.now old.now.stand.scope choice library.taken.now run.entries run.edited) }
    ensures refused { let library = edit.now.library in let run = library.replayed.now in
        (choice : Choice) → map (λ (x : Assertion). is_in choice.chosen x.label) old.now.stand.scope.assertions
        ≡ library.taken.now.chosen.items
        → IfErr result (IsToldBy (IsStoppedLine edit.now.path.now library.source.now old.now.stand.scope choice library.taken.now
        run.entries run.edited)) }
    ensures own { IfOk result (λ draft. length draft.own.items ≡ length old.now.stand.scope.assertions) }
{
    match draft_edits(alloc, keys, old, &edit.library) {
        Ok(draft) => Ok(draft),
        Err(why) => Err(ungiven(alloc, edit.path, &why)?),
    }
}

/// What it declares.
fn read_new<'o, 'a, D: Declared<'a>>(
    alloc: Global,
    keys: RandomState,
    path: &str,
    old: &D,
    draft: &'o Draft<'_>,
) -> Result<Scopes<'o>, Unedited>
    requires { length draft.now.own.items ≡ length (D.scope old.now).assertions }
    ensures declares { IfOk result (λ s. DeclaresText draft.now.text.items s.stand.scope) }
    ensures refused { (source : Bytes) (choice : Choice) (taken : TakenOf) (entries : List Entry) (edited : Listed)
        → IsDraft source (D.scope old.now) choice taken entries edited draft.now
        → IfErr result (IsToldBy (IsStoppedLine path.now source (D.scope old.now) choice taken entries edited)) }
{
    match read_draft(alloc, keys, old, draft) {
        Ok(new) => Ok(new),
        Err(why) => Err(ungiven(alloc, path, &why)?),
    }
}

/// It is looked at again.
fn look_at<'o>(
    rt: &(impl Threads + Sync),
    alloc: Global,
    keys: RandomState,
    old: &Scopes<'_>,
    new: &Scopes<'o>,
    edit: &SourceEdit<'_, '_>,
    draft: &Draft<'_>,
) -> Result<(), Unedited>
    requires own { length draft.now.own.items ≡ length old.now.stand.scope.assertions }
    requires declares { DeclaresText draft.now.text.items new.now.stand.scope }
    ensures edited { let library = edit.now.library in let run = library.replayed.now in
        (choice : Choice) (taken : TakenOf)
        → IsDraft library.source.now old.now.stand.scope choice taken run.entries run.edited draft.now
        → OnOk result (IsEdited library.source.now old.now.stand.scope choice taken run.entries run.edited draft.now.text.items) }
    ensures refused { let library = edit.now.library in let run = library.replayed.now in
        (choice : Choice) (taken : TakenOf)
        → IsDraft library.source.now old.now.stand.scope choice taken run.entries run.edited draft.now
        → IfErr result (IsToldBy (IsStoppedLine edit.now.path.now library.source.now old.now.stand.scope choice taken
        run.entries run.edited)) }
{
    match look_at_draft(rt, alloc, keys, old, new, &edit.library, draft) {
        Ok(()) => Ok(()),
        Err(why) => Err(ungiven(alloc, edit.path, &why)?),
    }
}

/// The source with the edits of a run.
#[derive(Drop)]
pub struct Finished {
    /// Its text.
    pub out: Vec<u8>,
    /// A line for each place at which a comment of it speaks of an assertion that was deleted.
    pub spoken: Vec<String>,
    /// The lines that say which labels of the source that no assertion has any more its comments still mention.
    pub mentions: Vec<String>,
}

/// The source with the edits of a run, dressed in what scripts give, once it was looked at and verified.
pub fn finish<'x, 'a: 'x>(
    rt: &(impl Threads + Sync),
    alloc: Global,
    keys: RandomState,
    old: Scopes<'a>,
    edit: &SourceEdit<'x, 'a>,
    follow: &(impl Follow + Sync),
) -> Result<Finished, Unedited>
    requires chosen { length edit.now.library.taken.now.chosen.items ≡ length old.stand.scope.assertions }
    requires declares { DeclaresText edit.now.library.source.now old.stand.scope }
    ensures finished { let library = edit.now.library in let run = library.replayed.now in
        (choice : Choice) → map (λ (x : Assertion). is_in choice.chosen x.label) old.entry.stand.scope.assertions
        ≡ library.taken.now.chosen.items
        → IfOk result (IsFinished edit.now.path.now library.source.now old.entry.stand.scope choice library.taken.now
        run.entries run.edited (map seen_quotation edit.now.given.quotations.now) (seen_pairs edit.now.given.descriptions.now)) }
    ensures refused { let library = edit.now.library in let run = library.replayed.now in
        (choice : Choice) → map (λ (x : Assertion). is_in choice.chosen x.label) old.entry.stand.scope.assertions
        ≡ library.taken.now.chosen.items
        → IfErr result (IsToldBy (IsStoppedOrFaulty edit.now.path.now library.source.now old.entry.stand.scope choice library.taken.now
        run.entries run.edited (map seen_quotation edit.now.given.quotations.now) (seen_pairs edit.now.given.descriptions.now))) }
{
    let draft = draft_of(alloc, keys, &old, edit)?;
    let new = read_new(alloc, keys, edit.path, &old, &draft)?;
    // For the proof: what is read is whole.
    sources_are_whole();
    look_at(rt, alloc, keys, &old, &new, edit, &draft)?;
    let vanished = vanished_of(alloc, keys, &old, &draft.following)?;
    // Its tables are as large as those of the new text, which is verified without them.
    drop(old);
    let (path, edits) = (edit.path, draft.text.as_slice());
    let dressed = dress(alloc, keys, &new, edits, edit.given, &draft.following)?;
    verify_dressed(rt, alloc, keys, path, edits, new, dressed.as_ref(), follow)?;
    let Draft {
        text,
        following,
        ..
    } = draft;
    let out = dressed.unwrap_or(text);
    let spoken = spoken_lines(alloc, keys, path, &following, out.as_slice())?;
    let mentions = mention_lines(alloc, keys, vanished.as_slice(), out.as_slice())?;
    Ok(Finished {
        out,
        spoken,
        mentions,
    })
}
