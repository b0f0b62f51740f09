//! Marks on assertions, by their places.

ghost use Rattle.std.specs.Prelude.{◌≡◌, ◌≢◌, ◌<◌, ◌||◌, Bool, length, filter, map, slice_get, All, IfOk, IfErr, None, is_some};
ghost use Rattle.std.specs.Str.{bytes_eq};
ghost use Rattle.mmtext.specs.Words.{Word};
ghost use Rattle.mmsyntax.specs.Assertions.{Distinct};
ghost use Rattle.mmsyntax.specs.Tables.{place_of};
ghost use Rattle.source.specs.Scopes.{is_in};
ghost use Rattle.source.specs.Views.{seen_words};
ghost use Rattle.source.specs.Whole.{IsWhole};
ghost use Rattle.prooftrees.specs.Frames.{Holds};
ghost use Rattle.choosing.specs.Marks.{AreMarked, AreMarkedToo, unknown_among, IsUnknownAmong, is_named};
ghost use Rattle.choosing.specs.declared.wish.Unchosen.TheVariants.{NoMemory};

use crate::places::NoPlaces;
use crate::wish::Unchosen;
use mmsyntax::MOST_STEPS;
use prooftrees::{Frames, ProofForm, read_proof};
use source::Declared;
use std::alloc::{AllocError, Global};
use std::hash::RandomState;
use taking::Nodes;

/// How many are marked.
pub(crate) fn count_marked(marks: &[bool]) -> usize
    ensures { result ≡ length (filter (λ b. b) marks.now) }
{
    marks.iter().filter(|is_marked| **is_marked).count()
}

/// The assertion with a label is marked, if there is one, and this says whether there is.
pub(crate) fn mark<'a, D: Declared<'a>>(declared: &D, label: &[u8], marks: &mut [bool]) -> bool
    requires distinct { Distinct bytes_eq (map (λ x. x.label) (D.scope declared.now).assertions) }
    requires long { length marks.old ≡ length (D.scope declared.now).assertions }
    ensures there { result ≡ is_some (place_of (λ x. bytes_eq label.now x.label) (D.scope declared.now).assertions) }
    ensures marked { (test : Word → Bool) → AreMarked (D.scope declared.now).assertions test marks.old
        → AreMarked (D.scope declared.now).assertions (λ w. bytes_eq w label.now || test w) marks.new }
{
    match declared.place_of(label) {
        Some(place) => {
            marks[place] = true;
            true
        }
        None => false,
    }
}

/// The assertions with these labels.
///
/// # Errors
///
/// The first label that no assertion has, or want of memory.
pub(crate) fn marks_of<'a, 'w, D: Declared<'a>>(
    alloc: Global,
    declared: &D,
    labels: &'w [&'w [u8]],
) -> Result<Vec<bool>, Unchosen<'w>>
    requires { IsWhole (D.scope declared.now) }
    ensures marked { IfOk result (λ marks. AreMarked (D.scope declared.now).assertions (is_in (seen_words labels.now)) marks.items) }
    ensures known { IfOk result (λ _. unknown_among (D.scope declared.now) (seen_words labels.now) ≡ None) }
    ensures refused { IfErr result (λ why. why ≢ NoMemory → IsUnknownAmong (D.scope declared.now) (seen_words labels.now) why) }
{
    let mut marks = vec![in alloc; false; declared.assertions()]?;
    for label in labels {
        if !mark(declared, *label, &mut marks) {
            return Err(Unchosen::UnknownLabel(*label));
        }
    }
    Ok(marks)
}

/// The assertions that nodes name are marked too.
fn mark_named<'a, D: Declared<'a>>(
    declared: &D,
    labels: &[&[u8]],
    nodes: &Nodes,
    marks: &mut [bool],
)
    requires distinct { Distinct bytes_eq (map (λ x. x.label) (D.scope declared.now).assertions) }
    requires named { All (λ n. n.named < length labels.now) nodes.now }
    requires long { length marks.old ≡ length (D.scope declared.now).assertions }
    ensures { (test : Word → Bool) → AreMarked (D.scope declared.now).assertions test marks.old
        → AreMarked (D.scope declared.now).assertions (λ w. is_named (seen_words labels.now) nodes.now w || test w) marks.new }
{
    for node in 0..nodes.len() {
        mark(declared, labels[nodes.named(node)], marks);
    }
}

/// The assertions that the proof of the one at a place needs are marked too: none where it has no finished proof, or too long a one.
///
/// It costs as much as the proof is long. After an error nothing is said of the frames and of the marks.
pub(crate) fn mark_needed<'a, D: Declared<'a>>(
    alloc: Global,
    keys: RandomState,
    declared: &D,
    frames: &mut Frames,
    place: usize,
    marks: &mut [bool],
) -> Result<(), AllocError>
    requires whole { IsWhole (D.scope declared.now) }
    requires within { place < length (D.scope declared.now).assertions }
    requires frames { Holds (D.scope declared.now).assertions frames.old }
    requires long { length marks.old ≡ length (D.scope declared.now).assertions }
    ensures frames { IfOk result (λ _. Holds (D.scope declared.now).assertions frames.new) }
    ensures marked { IfOk result (λ _. (test : Word → Bool) → AreMarked (D.scope declared.now).assertions test marks.old
        → AreMarkedToo (D.scope declared.now).assertions place test marks.new (slice_get (D.scope declared.now).assertions place)) }
{
    let form = read_proof(alloc, keys, declared, frames, &NoPlaces, place)?;
    if let ProofForm::Tree(tree) = form {
        let nodes = &tree.proof.nodes;
        if nodes.size(tree.proof.root) <= MOST_STEPS {
            mark_named(declared, &tree.labels, nodes, marks);
        }
    }
    Ok(())
}
