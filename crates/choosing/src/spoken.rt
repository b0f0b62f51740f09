//! The assertions that words speak of, and those that the proofs need which are asked for.

ghost use Rattle.std.specs.Prelude.{◌≡◌, ◌||◌, ◌&&◌, [], Bool, List, length, filter, IfOk};
ghost use mathlib.Core.Bool.{not};
ghost use Rattle.mmtext.specs.Words.{Word};
ghost use Rattle.source.specs.Scopes.{Assertion, is_in};
ghost use Rattle.source.specs.Views.{seen_words};
ghost use Rattle.source.specs.Whole.{IsWhole};
ghost use Rattle.choosing.specs.Choices.{labels_of};
ghost use Rattle.choosing.specs.Marks.{AreMarked};
ghost use Rattle.choosing.specs.Spoken.{needs, wanted_labels, axiom_labels};

use crate::marks::{mark, mark_needed};
use prooftrees::Frames;
use source::Declared;
use std::alloc::{AllocError, Global};
use std::hash::RandomState;

/// The labels of assertions of a source that are taken, in its order.
#[derive(Drop)]
pub struct Labels<'a> {
    /// Those of all that are taken.
    pub labels: Vec<&'a [u8]>,
    /// Of them those of the ones that are taken as axioms.
    pub axioms: Vec<&'a [u8]>,
}

/// The assertions that have one of these words as label are marked too.
fn mark_spoken<'a, D: Declared<'a>>(declared: &D, words: &[&[u8]], marks: &mut [bool])
    requires whole { IsWhole (D.scope declared.now) }
    requires long { length marks.old ≡ length (D.scope declared.now).assertions }
    ensures { (test : Word → Bool) → AreMarked (D.scope declared.now).assertions test marks.old
        → AreMarked (D.scope declared.now).assertions (λ w. is_in (seen_words words.now) w || test w) marks.new }
{
    for word in words {
        mark(declared, *word, marks);
    }
}

/// The assertions that have one of these words as label.
fn spoken_of<'a, D: Declared<'a>>(
    alloc: Global,
    declared: &D,
    words: &[&[u8]],
) -> Result<Vec<bool>, AllocError>
    requires { IsWhole (D.scope declared.now) }
    ensures { IfOk result (λ marks. AreMarked (D.scope declared.now).assertions (is_in (seen_words words.now)) marks.items) }
{
    let mut marks = vec![in alloc; false; declared.assertions()]?;
    mark_spoken(declared, words, &mut marks);
    Ok(marks)
}

/// The assertions are marked too that the proofs of those need which are asked for.
fn mark_needs<'a, D: Declared<'a>>(
    alloc: Global,
    keys: RandomState,
    declared: &D,
    asked: &[bool],
    marks: &mut [bool],
) -> Result<(), AllocError>
    requires whole { IsWhole (D.scope declared.now) }
    requires as_many { length asked.now ≡ length (D.scope declared.now).assertions }
    requires long { length marks.old ≡ length (D.scope declared.now).assertions }
    ensures { IfOk result (λ _. (asks test : Word → Bool) → AreMarked (D.scope declared.now).assertions asks asked.now
        → AreMarked (D.scope declared.now).assertions test marks.old
        → AreMarked (D.scope declared.now).assertions
        (λ w. is_in (needs asks [] (D.scope declared.now).assertions) w || test w) marks.new) }
{
    let mut frames = Frames::new(alloc);
    for (place, is_asked) in asked.iter().enumerate() {
        if *is_asked {
            mark_needed(alloc, keys, declared, &mut frames, place, marks)?;
        }
    }
    Ok(())
}

/// The others of two lists of marks are taken out of the first.
fn unmark(marks: &mut [bool], others: &[bool])
    requires { length marks.old ≡ length others.now }
    ensures { (xs : List Assertion) (test asks : Word → Bool) → AreMarked xs test marks.old → AreMarked xs asks others.now
        → AreMarked xs (λ w. test w && not (asks w)) marks.new }
{
    for (place, is_other) in others.iter().enumerate() {
        if *is_other {
            marks[place] = false;
        }
    }
}

/// The labels of the assertions that are marked, in the order of the source.
fn labels_marked<'a, D: Declared<'a>>(
    alloc: Global,
    declared: &D,
    marks: &[bool],
) -> Result<Vec<&'a [u8]>, AllocError>
    ensures { IfOk result (λ ls. (test : Word → Bool) → AreMarked (D.scope declared.now).assertions test marks.now
        → seen_words ls.items ≡ labels_of (filter (λ x. test x.label) (D.scope declared.now).assertions)) }
{
    let mut labels = Vec::new(alloc);
    for (place, is_marked) in marks.iter().enumerate() {
        if *is_marked {
            if let Some(label) = declared.label(place) {
                labels.push(label)?;
            }
        }
    }
    Ok(labels)
}

/// The labels of the assertions that are marked in the first of two lists and not in the second.
fn labels_but<'a, D: Declared<'a>>(
    alloc: Global,
    declared: &D,
    mut marks: Vec<bool>,
    others: &[bool],
) -> Result<Vec<&'a [u8]>, AllocError>
    requires { length marks.items ≡ length others.now }
    ensures { IfOk result (λ ls. (test asks : Word → Bool) → AreMarked (D.scope declared.now).assertions test marks.items
        → AreMarked (D.scope declared.now).assertions asks others.now
        → seen_words ls.items
        ≡ labels_of (filter (λ x. test x.label && not (asks x.label)) (D.scope declared.now).assertions)) }
{
    unmark(&mut marks, others);
    let labels = labels_marked(alloc, declared, &marks)?;
    Ok(labels)
}

/// The assertions of a source that have one of these words as label are taken, and those that the proofs need which are asked for by their
/// labels; as axioms all but these. A proof that isn't asked for is not read.
///
/// # Errors
///
/// Want of memory.
pub fn wanted_of<'a, D: Declared<'a>>(
    alloc: Global,
    keys: RandomState,
    declared: &D,
    spoken: &[&[u8]],
    asked: &[&[u8]],
) -> Result<Labels<'a>, AllocError>
    requires whole { IsWhole (D.scope declared.now) }
    ensures labels { IfOk result (λ made. seen_words made.labels.items
        ≡ wanted_labels (D.scope declared.now) (seen_words spoken.now) (seen_words asked.now)) }
    ensures axioms { IfOk result (λ made. seen_words made.axioms.items
        ≡ axiom_labels (D.scope declared.now) (seen_words spoken.now) (seen_words asked.now)) }
{
    let proofs = spoken_of(alloc, declared, asked)?;
    let mut marks = spoken_of(alloc, declared, spoken)?;
    mark_needs(alloc, keys, declared, &proofs, &mut marks)?;
    let labels = labels_marked(alloc, declared, &marks)?;
    let axioms = labels_but(alloc, declared, marks, &proofs)?;
    Ok(Labels { labels, axioms })
}
