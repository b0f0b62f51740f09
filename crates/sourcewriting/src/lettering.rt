//! The letters of a compressed proof, with its marks.

ghost use Rattle.std.specs.Prelude.{◌≡◌, ◌<◌, ◌+◌, ◌^◌, ◌↔◌, ℕ, List, [], ◌∷◌, ◌++◌, length, slice_set, slice_get, true, false, IfOk, IsTrue, Some};
ghost use Rattle.source.specs.Letters.{codes_of};
ghost use Rattle.source.specs.declared.letters.Code.{Code as CodeOf};
ghost use Rattle.sourcewriting.specs.declared.shared.CountedLabel.{CountedLabel as CountedLabelOf};
ghost use Rattle.sourcewriting.specs.declared.shared.Shared.{Shared as SharedOf};
ghost use Rattle.sourcewriting.specs.declared.walking.Put.{Put as PutOf};
ghost use Rattle.sourcewriting.specs.Lettered.{AreCounted, AreNumbers, IsLettered};
ghost use Rattle.sourcewriting.specs.Nodes.{AreNodes};
ghost use Rattle.sourcewriting.specs.Readable.{Read, unread, LeadAll};
ghost use Rattle.sourcewriting.specs.Reading.{counts_of};
ghost use Rattle.sourcewriting.specs.Walked.{Walked, IsPut};

use crate::letters::put_number;
use crate::shared::Shared;
use crate::walking::{Put, puts_of};
use std::alloc::{AllocError, Global};

/// The letters of a compressed proof, and what they count: the mandatory hypotheses, the labels in parentheses, the marked subproofs.
#[derive(Drop)]
struct Letters<'n> {
    /// The number of each label, from 0.
    numbers: &'n [usize],
    /// How many numbers are those of labels.
    labels: usize,
    /// Of each node, whether it is put again.
    again: Vec<bool>,
    /// The number of each marked node, behind those of labels.
    marks: Vec<Option<usize>>,
    /// How many nodes are marked.
    marked: usize,
    text: Vec<u8>,
}

impl Letters<'_> {
    /// The number of the mark of a node: 0 where it has none.
    fn mark_of(&self, node: usize) -> usize
        ensures { (m : ℕ) → slice_get self.now.marks.items node ≡ Some (Some m) → result ≡ m }
    {
        match self.marks.get(node) {
            Some(Some(mark)) => *mark,
            _ => 0,
        }
    }

    /// The number of the label with a number among the labels: 0 where it has none.
    fn number_at(&self, word: usize) -> usize
        ensures { (k : ℕ) → slice_get self.now.numbers.now word ≡ Some k → result ≡ k }
    {
        match self.numbers.get(word) {
            Some(number) => *number,
            None => 0,
        }
    }

    /// A node that is marked stands there again.
    fn repeat(&mut self, node: usize) -> Result<(), AllocError>
        ensures same { IfOk result (λ _. self.new.again ≡ self.old.again) }
        ensures read { (s : SharedOf) (cs : List CountedLabelOf) (old new : Walked) → AreCounted s cs self.old → IsPut s node true old new
            → slice_get self.old.again.items node ≡ Some true → IsLettered s cs self.old old
            → IfOk result (λ _. IsLettered s cs self.new new × AreCounted s cs self.new) }
    {
        let mark = self.mark_of(node);
        put_number(&mut self.text, self.labels.saturating_add(mark))
    }

    /// Whether a node is put again.
    fn is_again(&self, node: usize) -> bool
        ensures { IsTrue result ↔ (slice_get self.now.again.items node ≡ Some true) }
    {
        node < self.again.len() && self.again[node]
    }

    /// The node that was put last is marked.
    fn mark(&mut self, node: usize) -> Result<(), AllocError>
        ensures { IfOk result (λ _. (self.new ≡ record self.old { text = self.new.text; marks = self.new.marks; marked = self.new.marked })
            × (self.new.text.items ≡ self.old.text.items ++ 90 ∷ [])
            × (self.new.marks.items ≡ slice_set self.old.marks.items node (Some self.old.marked))
            × (self.old.marked + 1 < 2 ^ 64 → self.new.marked ≡ self.old.marked + 1)) }
    {
        self.text.push(b'Z')?;
        if node < self.marks.len() {
            self.marks[node] = Some(self.marked);
        }
        self.marked = self.marked.saturating_add(1);
        Ok(())
    }

    /// A node ends: its label, and the mark of one that has arguments and stands there again.
    fn end(&mut self, shared: &Shared<'_>, node: usize) -> Result<(), AllocError>
        ensures same { IfOk result (λ _. self.new.again ≡ self.old.again) }
        ensures read { (cs : List CountedLabelOf) (old new : Walked) → AreNodes shared.now → AreCounted shared.now cs self.old
            → IsPut shared.now node false old new → IsLettered shared.now cs self.old old
            → IfOk result (λ _. IsLettered shared.now cs self.new new × AreCounted shared.now cs self.new) }
    {
        let number = self.number_at(shared.word(node));
        put_number(&mut self.text, number)?;
        if shared.arguments(node).is_empty() || !self.is_again(node) {
            return Ok(());
        }
        self.mark(node)
    }

    /// A node is put.
    fn put(&mut self, shared: &Shared<'_>, put: Put) -> Result<(), AllocError>
        ensures same { IfOk result (λ _. self.new.again ≡ self.old.again) }
        ensures read { (cs : List CountedLabelOf) (old new : Walked) → AreNodes shared.now → AreCounted shared.now cs self.old
            → IsPut shared.now put.node put.is_again old new
            → (IsTrue put.is_again → slice_get self.old.again.items put.node ≡ Some true) → IsLettered shared.now cs self.old old
            → IfOk result (λ _. IsLettered shared.now cs self.new new × AreCounted shared.now cs self.new) }
    {
        if put.is_again {
            self.repeat(put.node)
        } else {
            self.end(shared, put.node)
        }
    }
}

/// Of each of so many nodes, whether it is put again.
fn again_of(alloc: Global, puts: &[Put], nodes: usize) -> Result<Vec<bool>, AllocError>
    ensures { IfOk result (λ again. (k : ℕ) (p : PutOf) → slice_get puts.now k ≡ Some p → IsTrue p.is_again → p.node < nodes
        → slice_get again.items p.node ≡ Some true) }
{
    let mut again = vec![in alloc; false; nodes]?;
    for put in puts {
        if put.is_again && put.node < again.len() {
            again[put.node] = true;
        }
    }
    Ok(again)
}

/// The letters of a tree whose labels have these numbers, of which there are `labels`.
pub(crate) fn letters_of(
    alloc: Global,
    shared: &Shared<'_>,
    numbers: &[usize],
    labels: usize,
    root: usize,
) -> Result<Vec<u8>, AllocError>
    ensures { (cs : List CountedLabelOf) → AreNodes shared.now → root < length shared.now.nodes.items
        → AreNumbers shared.now.words.items (counts_of cs) numbers.now → labels ≡ length cs
        → length cs + length shared.now.nodes.items < 268435460
        → IfOk result (λ letters. (codes : List CodeOf) × (end : Read) × (codes_of letters.items ≡ Some codes)
        × LeadAll shared.now cs codes (unread (length shared.now.nodes.items)) end) }
{
    let puts = puts_of(alloc, shared, root)?;
    let puts = puts.as_slice();
    let mut letters = Letters {
        numbers,
        labels,
        again: again_of(alloc, puts, shared.len())?,
        marks: vec![in alloc; None; shared.len()]?,
        marked: 0,
        text: Vec::new(alloc),
    };
    for put in puts {
        letters.put(shared, *put)?;
    }
    let Letters { text, .. } = letters;
    Ok(text)
}
