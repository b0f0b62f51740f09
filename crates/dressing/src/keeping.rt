//! Which labels `$e` have that are given labels.

ghost use Rattle.std.specs.Prelude.{◌≡◌, ◌<◌, ◌||◌, ◌++◌, ◌∷◌, [], if◌then◌else◌, IfOk, OnOk, Some, length, map, slice_get, take};
ghost use Rattle.std.specs.List.{flat_map, list_any};
ghost use Rattle.std.specs.Str.{bytes_eq};
ghost use mathlib.Core.Bool.{not};
ghost use Rattle.source.specs.Scopes.{Assertion, is_in};
ghost use Rattle.source.specs.Views.{seen_hypothesis, seen_pairs, seen_words};
ghost use Rattle.taking.specs.Listings.{premise_labels};
ghost use Rattle.pasting.specs.Views.{seen_given_labels};
ghost use Rattle.dressing.specs.Labels.{changes_between, changes_by, changes_from, is_free, labels_then, left_of, written_for};

use pasting::GivenLabels;
use sites::Indexed;
use source::{Declared, HypothesisWords};
use std::alloc::{AllocError, Global};
use std::hash::RandomState;

/// The label of a hypothesis, and whether it is a `$e`.
fn label_of<'a>(hypothesis: &HypothesisWords<'a>) -> (&'a [u8], bool)
    ensures { premise_labels (seen_hypothesis hypothesis.now ∷ []) ≡ (if result.1 then result.0.now ∷ [] else []) }
{
    match hypothesis {
        HypothesisWords::Typing(label, _, _) => (*label, false),
        HypothesisWords::Premise(label, _) => (*label, true),
    }
}

/// The labels of the `$e` of the assertion at a place.
fn premises_at<'a, D: Declared<'a>>(
    alloc: Global,
    declared: &D,
    place: usize,
) -> Result<Vec<&'a [u8]>, AllocError>
    requires { place < length (D.scope declared.now).assertions }
    ensures { (x : Assertion) → slice_get (D.scope declared.now).assertions place ≡ Some x
        → IfOk result (λ made. seen_words made.items ≡ premise_labels x.hypotheses) }
{
    let mut made = Vec::new(alloc);
    for hypothesis in declared.mandatory(alloc, place)? {
        let (label, is_premise) = label_of(hypothesis);
        if is_premise {
            made.push(label)?;
        }
    }
    Ok(made)
}

/// The labels that are written for the `$e` of the assertion with a label: none where there is no such assertion.
fn written_for<'a, D: Declared<'a>>(
    alloc: Global,
    declared: &D,
    label: &[u8],
) -> Result<Vec<&'a [u8]>, AllocError>
    ensures { IfOk result (λ made. seen_words made.items ≡ written_for (D.scope declared.now) label.now) }
{
    match declared.place_of(label) {
        None => Ok(Vec::new(alloc)),
        Some(place) => premises_at(alloc, declared, place),
    }
}

/// Whether a word is one of these.
fn is_among(words: &[&[u8]], word: &[u8]) -> bool
    ensures { result ≡ list_any (λ other. bytes_eq word.now other.now) words.now }
{
    words.iter().any(|other| word == *other)
}

/// The labels of which `$e` may have some: those that are written for them, and those that others ask for.
#[derive(Drop)]
struct Labels<'l, 'x, D> {
    /// The source.
    declared: &'l D,
    /// Those that are written for these `$e`.
    written: &'l [&'x [u8]],
    /// All that are asked for.
    wanted: &'l Indexed<'x>,
    /// How many of these others ask for before.
    before: usize,
}

impl<'l, 'x, 'a, D: Declared<'a>> Labels<'l, 'x, D> {
    /// Whether a label is one of those that are written.
    fn is_written(&self, label: &[u8]) -> bool
        ensures { result ≡ is_in (seen_words self.now.written.now) label.now }
    {
        is_among(self.written, label)
    }

    /// Whether nothing else has a label: one look-up.
    fn is_unused(&self, label: &[u8]) -> bool
        ensures { let s = D.scope self.now.declared.now in result
            ≡ (not (is_in s.symbols label.now || is_in s.labels label.now) || is_in (seen_words self.now.written.now) label.now) }
    {
        !self.declared.has_name(label) || self.is_written(label)
    }

    /// Whether others ask for a label before: one look-up.
    fn is_asked_for(&self, label: &[u8]) -> bool
        ensures { result ≡ is_in (take self.now.before self.now.wanted.now) label.now }
    {
        match self.wanted.place(label) {
            Some(place) => place < self.before,
            None => false,
        }
    }

    /// Whether a label is free.
    fn is_free(&self, label: &[u8]) -> bool
        ensures { let it = self.now in
            result ≡ is_free (D.scope it.declared.now) (seen_words it.written.now) (take it.before it.wanted.now) label.now }
    {
        self.is_unused(label) && !self.is_asked_for(label)
    }

    /// What is left of those that are written, where these labels are given.
    fn left_of(&self, alloc: Global, labels: &[&'x [u8]]) -> Result<Vec<&'x [u8]>, AllocError>
        ensures { let it = self.now in
            let free = is_free (D.scope it.declared.now) (seen_words it.written.now) (take it.before it.wanted.now) in
            IfOk result (λ made. seen_words made.items ≡ left_of free (seen_words it.written.now) (seen_words labels.now)) }
    {
        let mut made = Vec::new(alloc);
        for label in self.written {
            if !(self.is_free(label) && is_among(labels, label)) {
                made.push(*label)?;
            }
        }
        Ok(made)
    }

    /// The labels that the `$e` have in the end.
    fn labels_then(&self, alloc: Global, labels: &[&'x [u8]]) -> Result<Vec<&'x [u8]>, AllocError>
        ensures { let it = self.now in
            let free = is_free (D.scope it.declared.now) (seen_words it.written.now) (take it.before it.wanted.now) in
            IfOk result (λ made. seen_words made.items ≡ labels_then free (seen_words it.written.now) (seen_words labels.now)) }
    {
        let unused = self.left_of(alloc, labels)?;
        let left = unused.as_slice();
        let mut made = Vec::with_capacity(alloc, labels.len())?;
        let mut next = 0;
        for label in labels {
            if self.is_free(label) {
                made.push(*label)?;
            } else if next < left.len() {
                made.push(left[next])?;
                next += 1;
            }
        }
        Ok(made)
    }
}

/// Puts the changes from labels to others in their places.
fn put_changes<'x>(
    changes: &mut Vec<(&'x [u8], &'x [u8])>,
    olds: &[&'x [u8]],
    news: &[&'x [u8]],
) -> Result<(), AllocError>
    ensures { OnOk result (seen_pairs changes.new.items
        ≡ seen_pairs changes.old.items ++ changes_between (seen_words olds.now) (seen_words news.now)) }
{
    for (old, new) in olds.iter().zip(news) {
        if *old != *new {
            changes.push((*old, *new))?;
        }
    }
    Ok(())
}

/// Puts the changes to the labels that are given to the `$e` of one theorem, behind so many of all that are asked for.
fn put_given<'a, D: Declared<'a>>(
    alloc: Global,
    declared: &D,
    wanted: &Indexed<'a>,
    before: usize,
    given: GivenLabels<'a>,
    changes: &mut Vec<(&'a [u8], &'a [u8])>,
) -> Result<(), AllocError>
    ensures { OnOk result (seen_pairs changes.new.items
        ≡ seen_pairs changes.old.items ++ changes_by (D.scope declared.now) (take before wanted.now) (seen_given_labels given.entry)) }
{
    let written = written_for(alloc, declared, given.label)?;
    if written.len() != given.premises.len() {
        return Ok(());
    }
    let labels = Labels {
        declared,
        written: written.as_slice(),
        wanted,
        before,
    };
    let then = labels.labels_then(alloc, given.premises)?;
    put_changes(changes, written.as_slice(), then.as_slice())
}

/// All labels that are asked for, in order.
fn wanted_by<'a>(
    alloc: Global,
    keys: RandomState,
    given: &[GivenLabels<'a>],
) -> Result<Indexed<'a>, AllocError>
    ensures { IfOk result (λ made. made ≡ flat_map (λ g. g.premises) (map seen_given_labels given.now)) }
{
    let mut labels = Vec::new(alloc);
    for one in given {
        labels.extend_from_slice(one.premises)?;
    }
    Indexed::new(alloc, keys, labels)
}

/// From the labels that are written for `$e` to those that they have in the end, where they differ.
pub(crate) fn changes_of<'a, D: Declared<'a>>(
    alloc: Global,
    keys: RandomState,
    declared: &D,
    given: &[GivenLabels<'a>],
) -> Result<Vec<(&'a [u8], &'a [u8])>, AllocError>
    ensures { IfOk result (λ made. seen_pairs made.items ≡ changes_from (D.scope declared.now) [] (map seen_given_labels given.now)) }
{
    let wanted = wanted_by(alloc, keys, given)?;
    // For the proof: they are as many as a slice can have.
    let _words = wanted.words();
    let mut changes = Vec::new(alloc);
    let mut before = 0;
    for one in given {
        put_given(alloc, declared, &wanted, before, *one, &mut changes)?;
        before += one.premises.len();
    }
    Ok(changes)
}
