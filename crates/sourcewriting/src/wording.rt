//! The words of a proof: normal, or compressed with each subproof once that stands there more than once.

ghost use Rattle.std.specs.Prelude.{◌≡◌, ◌≤◌, ◌<◌, ◌+◌, ◌^◌, ℕ, List, [], length, slice_get, Contains, Some, IfOk, IfSome, IsTrue, IsFalse};
ghost use Rattle.source.specs.Views.{seen_words};
ghost use Rattle.mmtext.specs.Words.{Word};
ghost use Rattle.sourcewriting.specs.Named.{IsName, AreNames};
ghost use Rattle.sourcewriting.specs.Laid.{IsLaid, IsNormal, HasLabels, has_closing};
ghost use Rattle.sourcewriting.specs.Lines.{parenthesized};
ghost use Rattle.sourcewriting.specs.Lettered.{AreNumbers, AreUntaken, CanBeLettered, counts_behind};
ghost use Rattle.sourcewriting.specs.Reading.{counts_of, labels_in, HaveOneMore, HaveMore, IsMarkedLayout};

use crate::layout::Layout;
use crate::lettering::letters_of;
use crate::reading::are_marked;
use crate::shared::{CountedLabel, Shared};
use mmsyntax::MOST_STEPS;
use std::alloc::{AllocError, Global};

/// A walk through the tree of so many steps takes a turn at each of them, and one more at each that is an argument.
const MOST_TURNS: usize = 2 * MOST_STEPS - 1;

/// How many arguments of a node were walked through.
#[derive(Clone, Copy)]
struct Turn {
    node: usize,
    argument: usize,
}

/// A node is walked through behind one of its arguments.
fn push_both(stack: &mut Vec<Turn>, turn: Turn, node: usize) -> Result<(), AllocError> {
    stack.push(Turn {
        node: turn.node,
        argument: turn.argument.saturating_add(1),
    })?;
    stack.push(Turn { node, argument: 0 })?;
    Ok(())
}

/// The label that a node names: none where there is no such node.
fn word_at<'x>(shared: &Shared<'x>, node: usize) -> Option<&'x [u8]>
    ensures { IfSome result (λ label. AreNames (labels_in shared.now.words.items) → IsName label.now) }
{
    match shared.words().get(shared.word(node)) {
        Some(word) => Some(word.label),
        None => None,
    }
}

/// A turn at a node of a normal proof: its next argument is walked through, or else it puts its label.
fn take_turn(
    layout: &mut Layout<'_>,
    stack: &mut Vec<Turn>,
    shared: &Shared<'_>,
    turn: Turn,
) -> Result<(), AllocError>
    ensures laid { (i : List ℕ) → IsNormal i layout.old → IfOk result (λ _. IsNormal i layout.new) }
    ensures fine { AreNames (labels_in shared.now.words.items)
        → IfOk result (λ _. layout.new.is_refused ≡ layout.old.is_refused) }
{
    match shared.arguments(turn.node).get(turn.argument) {
        Some(node) => push_both(stack, turn, *node)?,
        None => {
            if let Some(label) = word_at(shared, turn.node) {
                layout.put_label(label);
            }
        }
    }
    Ok(())
}

/// Puts the labels of a normal proof, of which there are at most 16,384.
pub(crate) fn put_normal(
    alloc: Global,
    layout: &mut Layout<'_>,
    shared: &Shared<'_>,
    root: usize,
) -> Result<(), AllocError>
    ensures laid { (i : List ℕ) → IsNormal i layout.old → IfOk result (λ _. IsNormal i layout.new) }
    ensures fine { AreNames (labels_in shared.now.words.items)
        → IfOk result (λ _. layout.new.is_refused ≡ layout.old.is_refused) }
{
    let mut stack = Vec::new(alloc);
    stack.push(Turn {
        node: root,
        argument: 0,
    })?;
    for _ in 0..MOST_TURNS {
        let Some(turn) = stack.pop() else {
            break;
        };
        take_turn(layout, &mut stack, shared, turn)?;
    }
    Ok(())
}

/// The place of a label among others. None where it isn't there.
fn place_in(labels: &[&[u8]], label: &[u8]) -> Option<usize>
    ensures { IfSome result (λ place. slice_get (seen_words labels.now) place ≡ Some label.now) }
{
    for (place, other) in labels.iter().enumerate() {
        if *other == label {
            return Some(place);
        }
    }
    None
}

/// The number of a label: that of the mandatory hypothesis, or that of the place in parentheses which it gets, behind the others.
fn number_of<'x>(
    mandatory: &[&[u8]],
    others: &mut Vec<CountedLabel<'x>>,
    word: CountedLabel<'x>,
) -> Result<usize, AllocError>
    ensures more { IfOk result (λ _. HaveOneMore others.old.items others.new.items word.entry.label.now word.entry.takes) }
    ensures few { IfOk result (λ _. length others.new.items ≤ length others.old.items + 1) }
    ensures numbered { length mandatory.now + length others.old.items < 2 ^ 64
        → (Contains (seen_words mandatory.now) word.entry.label.now → word.entry.takes ≡ 0)
        → IfOk result (λ number. slice_get (counts_behind (seen_words mandatory.now) others.new.items) number
        ≡ Some (word.entry.label.now, word.entry.takes)) }
{
    if let Some(place) = place_in(mandatory, word.label) {
        return Ok(place);
    }
    let number = mandatory.len().saturating_add(others.len());
    others.push(word)?;
    Ok(number)
}

/// The numbers of labels: those of the mandatory hypotheses have the first numbers, in their order, and the others the next, in the order
/// of their first use. The others are put behind those that there are.
fn numbers_of<'x>(
    alloc: Global,
    words: &[CountedLabel<'x>],
    mandatory: &[&[u8]],
    others: &mut Vec<CountedLabel<'x>>,
) -> Result<Vec<usize>, AllocError>
    ensures more { IfOk result (λ _. HaveMore words.now others.old.items others.new.items) }
    ensures few { IfOk result (λ _. length others.new.items ≤ length others.old.items + length words.now) }
    ensures numbered { length mandatory.now + length others.old.items + length words.now < 2 ^ 64
        → AreUntaken (seen_words mandatory.now) words.now → IfOk result (λ numbers.
        AreNumbers words.now (counts_behind (seen_words mandatory.now) others.new.items) numbers.items) }
{
    let mut numbers = Vec::with_capacity(alloc, words.len())?;
    for word in words {
        numbers.push(number_of(mandatory, others, *word)?)?;
    }
    Ok(numbers)
}

/// The labels that the numbers of a compressed proof count: those of the mandatory hypotheses, which take no entries, and others.
pub(crate) fn counted_labels<'x>(
    alloc: Global,
    mandatory: &[&'x [u8]],
    others: &[CountedLabel<'x>],
) -> Result<Vec<CountedLabel<'x>>, AllocError>
    ensures { IfOk result (λ made. counts_of made.items ≡ counts_behind (seen_words mandatory.now) others.now) }
{
    let mut counted = Vec::with_capacity(alloc, mandatory.len().saturating_add(others.len()))?;
    for label in mandatory {
        counted.push(CountedLabel { label, takes: 0 })?;
    }
    counted.extend_from_slice(others)?;
    Ok(counted)
}

/// Puts labels.
fn put_labels(layout: &mut Layout<'_>, labels: &[CountedLabel<'_>])
    ensures fine { AreNames (labels_in labels.now) → layout.new.is_refused ≡ layout.old.is_refused }
    ensures laid { (i : List ℕ) (front : List Word) → IsFalse (has_closing front)
        → HasLabels i layout.old front [] → HasLabels i layout.new front (labels_in labels.now) }
{
    for word in labels {
        layout.put_label(word.label);
    }
}

/// Puts labels in parentheses.
pub(crate) fn put_in_parentheses(layout: &mut Layout<'_>, labels: &[CountedLabel<'_>])
    ensures fine { AreNames (labels_in labels.now) → layout.new.is_refused ≡ layout.old.is_refused }
    ensures laid { (i : List ℕ) → IsLaid i layout.old [] → IsLaid i layout.new (parenthesized (labels_in labels.now)) }
{
    layout.put_word(b"(");
    put_labels(layout, labels);
    layout.put_word(b")");
}

/// Puts a compressed proof of a theorem with these mandatory hypotheses, and reads it again. Whether it is marked as it should be.
pub(crate) fn put_compressed<'x>(
    alloc: Global,
    layout: &mut Layout<'_>,
    shared: &Shared<'x>,
    mandatory: &[&'x [u8]],
    root: usize,
) -> Result<bool, AllocError>
    ensures laid { (i : List ℕ) → IsLaid i layout.old []
        → IfOk result (λ right. IsTrue right → IsMarkedLayout i layout.new (seen_words mandatory.now) shared.now.words.items) }
    ensures fine { AreNames (labels_in shared.now.words.items) → CanBeLettered shared.now (seen_words mandatory.now) root
        → IfOk result (λ right. IsTrue right × (layout.new.is_refused ≡ layout.old.is_refused)) }
{
    let mut others = Vec::new(alloc);
    let numbers = numbers_of(alloc, shared.words(), mandatory, &mut others)?;
    put_in_parentheses(layout, others.as_slice());
    let counted = counted_labels(alloc, mandatory, others.as_slice())?;
    let letters = letters_of(alloc, shared, numbers.as_slice(), counted.len(), root)?;
    layout.put_letters(letters.as_slice());
    are_marked(alloc, shared, counted.as_slice(), letters.as_slice())
}
