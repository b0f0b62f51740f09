//! The text of another proof of a theorem, in the form that the old one has in the source.

ghost use Rattle.std.specs.Prelude.{◌≡◌, ◌<◌, ℕ, Bool, List, [], length, option_and_then, option_map, slice_get, IfOk, IfSome, Some, IsTrue, IsFalse, if◌then◌else◌};
ghost use Rattle.std.specs.Prelude.{◌∷◌, ◌++◌, is_some};
ghost use Rattle.source.specs.Scopes.{Assertion as AssertionOf, Hypothesis as HypothesisOf, label_of};
ghost use Rattle.source.specs.Views.{seen_words, seen_hypothesis, seen_proof};
ghost use Rattle.taking.specs.Listings.{premise_labels};
ghost use Rattle.sourcewriting.specs.Counting.{Takes};
ghost use Rattle.sourcewriting.specs.Indentations.{IsIndentation};
ghost use Rattle.sourcewriting.specs.Forms.{is_compressed_form};
ghost use Rattle.sourcewriting.specs.Laid.{IsLaid, IsInForm};
ghost use Rattle.sourcewriting.specs.Leaving.{CanBePutWith};
ghost use Rattle.sourcewriting.specs.Lettered.{CanBeLettered};
ghost use Rattle.sourcewriting.specs.Lines.{IsInLines};
ghost use Rattle.sourcewriting.specs.Named.{AreNames};
ghost use Rattle.sourcewriting.specs.MarkedTexts.{IsMarkedText};
ghost use Rattle.sourcewriting.specs.Reading.{labels_in, IsMarkedLayout};
ghost use Rattle.sourcewriting.specs.Taking.{AreHypotheses, IsMarkedAs};

use crate::layout::Layout;
use crate::listing::{Names, put_nodes};
use crate::shared::Shared;
use crate::wording::{put_compressed, put_normal};
use mmsyntax::Proof;
use source::{Declared, HypothesisWords, ProofWords};
use std::alloc::{AllocError, Global};
use std::hash::RandomState;

/// The labels of the mandatory hypotheses of a theorem, and those of its `$e`, in order of appearance.
pub(crate) struct Hypotheses<'x> {
    /// Of both kinds, in order of appearance.
    pub mandatory: Vec<&'x [u8]>,
    /// Those of `$e`.
    pub premises: Vec<&'x [u8]>,
}

// Proved once: a derived drop is written out at each exit of a function that holds such a value.
impl<'x> Drop for Hypotheses<'x> {
    fn drop(self) {
        let Hypotheses {
            mandatory: _,
            premises: _,
        } = self;
    }
}

/// The label of a hypothesis, and whether it is a `$e`.
fn label_of<'a>(hypothesis: &HypothesisWords<'a>) -> (&'a [u8], bool)
    ensures label { result.0.now ≡ label_of (seen_hypothesis hypothesis.now) }
    ensures premise { premise_labels (seen_hypothesis hypothesis.now ∷ []) ≡ (if result.1 then result.0.now ∷ [] else []) }
{
    match hypothesis {
        HypothesisWords::Typing(label, _, _) => (*label, false),
        HypothesisWords::Premise(label, _) => (*label, true),
    }
}

impl<'x> Hypotheses<'x> {
    /// One more hypothesis, and whether it is a `$e`.
    fn push(&mut self, label: &'x [u8], is_premise: bool) -> Result<(), AllocError>
        ensures mandatory { IfOk result (λ _. seen_words self.new.mandatory.items ≡ seen_words self.old.mandatory.items ++ label.now ∷ []) }
        ensures premises { IfOk result (λ _. seen_words self.new.premises.items
            ≡ seen_words self.old.premises.items ++ (if is_premise then label.now ∷ [] else [])) }
    {
        self.mandatory.push(label)?;
        if is_premise {
            self.premises.push(label)?;
        }
        Ok(())
    }
}

/// The labels of the mandatory hypotheses of the assertion at a place.
fn hypotheses_of<'x, D: Declared<'x>>(
    alloc: Global,
    declared: &D,
    place: usize,
) -> Result<Hypotheses<'x>, AllocError>
    requires { place < length (D.scope declared.now).assertions }
    ensures { (a : AssertionOf) → slice_get (D.scope declared.now).assertions place ≡ Some a
        → IfOk result (AreHypotheses a.hypotheses) }
{
    let mut hypotheses = Hypotheses {
        mandatory: Vec::new(alloc),
        premises: Vec::new(alloc),
    };
    for hypothesis in declared.mandatory(alloc, place)? {
        let (label, is_premise) = label_of(hypothesis);
        hypotheses.push(label, is_premise)?;
    }
    Ok(hypotheses)
}

/// Whether a proof is compressed that is to have the form of another.
fn is_compressed_like(old: Option<&ProofWords<'_>>) -> bool
    ensures { result ≡ is_compressed_form (option_map (λ p. seen_proof p.now) old.entry) }
{
    !matches!(old, Some(ProofWords::Normal(_)))
}

/// Puts the words of a proof in one of its forms. Whether it is marked as it should be.
fn put_in_form(
    alloc: Global,
    layout: &mut Layout<'_>,
    is_compressed: bool,
    shared: &Shared<'_>,
    mandatory: &[&[u8]],
    root: usize,
) -> Result<bool, AllocError>
    ensures laid { (i : List ℕ) → IsLaid i layout.old [] → IfOk result (λ right. IsTrue right → IsInForm i is_compressed layout.new
        × (IsTrue is_compressed → IsMarkedLayout i layout.new (seen_words mandatory.now) shared.now.words.items)) }
    ensures fine { AreNames (labels_in shared.now.words.items)
        → (IsTrue is_compressed → CanBeLettered shared.now (seen_words mandatory.now) root)
        → IfOk result (λ right. IsTrue right × (layout.new.is_refused ≡ layout.old.is_refused)) }
{
    if is_compressed {
        put_compressed(alloc, layout, shared, mandatory, root)
    } else {
        put_normal(alloc, layout, shared, root)?;
        Ok(true)
    }
}

/// The text of a proof by its nodes, in one of its forms, of a theorem with these mandatory hypotheses. None where it names what is no
/// label, or is compressed and can't be marked as it should be: a label takes entries here and none there, or there are too many labels.
fn text_in_form(
    alloc: Global,
    is_compressed: bool,
    shared: &Shared<'_>,
    mandatory: &[&[u8]],
    indentation: &[u8],
    root: usize,
) -> Result<Option<Vec<u8>>, AllocError>
    requires { IsIndentation indentation.now }
    ensures laid_out { IfOk result (λ made. IfSome made (λ text. IsInLines indentation.now is_compressed text.items)) }
    ensures marked { IsTrue is_compressed → IfOk result (λ made. IfSome made (λ text.
        IsMarkedAs indentation.now (seen_words mandatory.now) shared.now.words.items text.items)) }
    ensures some { AreNames (labels_in shared.now.words.items)
        → (IsTrue is_compressed → CanBeLettered shared.now (seen_words mandatory.now) root)
        → IfOk result (λ made. IsTrue (is_some made)) }
{
    let mut layout = Layout::new(alloc, indentation);
    if put_in_form(alloc, &mut layout, is_compressed, shared, mandatory, root)? {
        layout.finish()
    } else {
        Ok(None)
    }
}

/// The text of a proof, by its steps in the library, in one of its forms, of a theorem with these hypotheses. None where they denote no
/// tree, or are over 16,384, or name what is no label, or a compressed proof isn't marked as it should be.
pub(crate) fn text_of<'p, 'a, D: Declared<'a>>(
    alloc: Global,
    keys: RandomState,
    declared: &D,
    names: &Names<'p>,
    is_compressed: bool,
    hypotheses: &Hypotheses<'p>,
    indentation: &[u8],
    steps: &Proof,
) -> Result<Option<Vec<u8>>, AllocError>
    requires { IsIndentation indentation.now }
    ensures laid_out { IfOk result (λ made. IfSome made (λ text. IsInLines indentation.now is_compressed text.items)) }
    ensures marked { (hs : List HypothesisOf) → AreHypotheses hs hypotheses.now → IsTrue is_compressed
        → IfOk result (λ made. IfSome made (λ text.
        IsMarkedText indentation.now (Takes (D.scope declared.now) names.now hs) hs text.items)) }
    ensures some { (hs : List HypothesisOf) → AreHypotheses hs hypotheses.now
        → CanBePutWith (D.scope declared.now) names.now is_compressed hs steps.now → IfOk result (λ made. IsTrue (is_some made)) }
{
    let premises = hypotheses.premises.as_slice();
    let mandatory = hypotheses.mandatory.as_slice();
    let mut shared = Shared::new(alloc, keys);
    match put_nodes(alloc, &mut shared, declared, names, premises, steps)? {
        Some(root) => text_in_form(alloc, is_compressed, &shared, mandatory, indentation, root),
        None => Ok(None),
    }
}

/// The text of a proof of the theorem at a place of the source, by its steps in the library, in the form that the old one has, with white
/// space for the `$.` behind it: laid out in lines that begin with this indentation. None where the steps denote no tree, or are over
/// 16,384, or name what is no label; of a compressed proof also where a label takes entries here and others there, or there are over
/// 268,402,692 hypotheses.
///
/// A compressed proof is read again: in it each subproof that takes entries is written once, and called by its number elsewhere.
///
/// # Errors
///
/// Want of memory.
pub fn proof_text<'x, D: Declared<'x>>(
    alloc: Global,
    keys: RandomState,
    declared: &D,
    names: &Names<'x>,
    place: usize,
    indentation: &[u8],
    steps: &Proof,
) -> Result<Option<Vec<u8>>, AllocError>
    requires place { place < length (D.scope declared.now).assertions }
    requires indentation { IsIndentation indentation.now }
    ensures laid_out { let old = option_and_then (λ a. a.proof) (slice_get (D.scope declared.now).assertions place) in
        IfOk result (λ made. IfSome made (λ text. IsInLines indentation.now (is_compressed_form old) text.items)) }
    ensures marked { (a : AssertionOf) → slice_get (D.scope declared.now).assertions place ≡ Some a → IsTrue (is_compressed_form a.proof)
        → IfOk result (λ made. IfSome made (λ text.
        IsMarkedText indentation.now (Takes (D.scope declared.now) names.now a.hypotheses) a.hypotheses text.items)) }
    ensures some { (a : AssertionOf) → slice_get (D.scope declared.now).assertions place ≡ Some a
        → CanBePutWith (D.scope declared.now) names.now (is_compressed_form a.proof) a.hypotheses steps.now
        → IfOk result (λ made. IsTrue (is_some made)) }
{
    let hypotheses = hypotheses_of(alloc, declared, place)?;
    let is_compressed = is_compressed_like(declared.proof(place));
    text_of(
        alloc,
        keys,
        declared,
        names,
        is_compressed,
        &hypotheses,
        indentation,
        steps,
    )
}
