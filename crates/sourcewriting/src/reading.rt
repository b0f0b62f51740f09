//! A compressed proof that was written is read again, as the nodes that its steps make: whether each subproof is written once.

ghost use Rattle.std.specs.Prelude.{◌≡◌, [], false, true, length, replicate, slice_get, slice_set, IfOk, IsTrue, List, Some};
ghost use Rattle.source.specs.Letters.{codes_of};
ghost use Rattle.source.specs.declared.letters.Code.{Code as CodeOf};
ghost use Rattle.sourcewriting.specs.Readable.{Read, seen_reader, unread, Cites, Repeats, Marks, Leads, LeadAll};
ghost use Rattle.sourcewriting.specs.Reading.{IsNoted, IsCited, IsRepeated, IsMarkPut, IsReadOn, AreMarkedLetters};

use crate::shared::{CountedLabel, Shared};
use source::{Code, read_letters};
use std::alloc::{AllocError, Global};

/// What is on the stack while a proof is read again, as nodes: the entries, and those that are marked.
#[derive(Drop)]
struct Reader {
    entries: Vec<usize>,
    marked: Vec<usize>,
    /// Of each node, whether a label was read that makes it of entries.
    written: Vec<bool>,
    /// Whether such a label was read last: a mark may stand right behind it.
    may_mark: bool,
}

impl Reader {
    /// Nothing is on the stack.
    fn new(alloc: Global, nodes: usize) -> Result<Reader, AllocError>
        ensures entries { IfOk result (λ made. made.entries.items ≡ []) }
        ensures marked { IfOk result (λ made. made.marked.items ≡ []) }
        ensures may_mark { IfOk result (λ made. made.may_mark ≡ false) }
        ensures written { IfOk result (λ made. made.written.items ≡ replicate nodes false) }
    {
        Ok(Reader {
            entries: Vec::new(alloc),
            marked: Vec::new(alloc),
            written: vec![in alloc; false; nodes]?,
            may_mark: false,
        })
    }

    /// A node is written: whether it wasn't before.
    fn note(&mut self, node: usize) -> bool
        ensures noted { IsTrue result → IsNoted node self.old self.new }
        ensures right { slice_get self.old.written.items node ≡ Some false
            → IsTrue result × (self.new.written.items ≡ slice_set self.old.written.items node true) }
    {
        if node >= self.written.len() || self.written[node] {
            return false;
        }
        self.written[node] = true;
        true
    }

    /// A label takes its entries: whether they are there, and there is such a node, which isn't written yet if it takes some.
    fn cite(
        &mut self,
        alloc: Global,
        shared: &Shared<'_>,
        cited: CountedLabel<'_>,
    ) -> Result<bool, AllocError>
        ensures cited { IfOk result (λ right. IsTrue right → IsCited shared.now cited.entry self.old self.new) }
        ensures right { (new : Read) → Cites shared.now cited.entry (seen_reader self.old) new
            → IfOk result (λ right. IsTrue right × (seen_reader self.new ≡ new)) }
    {
        let Some(first) = self.entries.len().checked_sub(cited.takes) else {
            return Ok(false);
        };
        let Some(node) = shared.find(alloc, cited.label, &self.entries[first..])? else {
            return Ok(false);
        };
        self.entries.truncate(first);
        self.entries.push(node)?;
        self.may_mark = cited.takes > 0;
        Ok(cited.takes == 0 || self.note(node))
    }

    /// A marked entry goes on again: whether it is there.
    fn repeat(&mut self, number: usize) -> Result<bool, AllocError>
        ensures repeated { IfOk result (λ right. IsTrue right → IsRepeated number self.old self.new) }
        ensures right { (new : Read) → Repeats number (seen_reader self.old) new
            → IfOk result (λ right. IsTrue right × (seen_reader self.new ≡ new)) }
    {
        let Some(node) = self.marked.get(number).copied() else {
            return Ok(false);
        };
        self.entries.push(node)?;
        self.may_mark = false;
        Ok(true)
    }

    /// The last entry is marked: whether it may be.
    fn mark(&mut self) -> Result<bool, AllocError>
        ensures put { IfOk result (λ right. IsTrue right → IsMarkPut self.old self.new) }
        ensures right { (new : Read) → Marks (seen_reader self.old) new
            → IfOk result (λ right. IsTrue right × (seen_reader self.new ≡ new)) }
    {
        let Some(node) = self.entries.last().copied() else {
            return Ok(false);
        };
        self.marked.push(node)?;
        let may = self.may_mark;
        self.may_mark = false;
        Ok(may)
    }

    /// What a code does: whether it may stand there.
    fn take(
        &mut self,
        alloc: Global,
        shared: &Shared<'_>,
        counted: &[CountedLabel<'_>],
        code: Code,
    ) -> Result<bool, AllocError>
        ensures read { IfOk result (λ right. IsTrue right → IsReadOn shared.now counted.now code self.old self.new) }
        ensures right { (new : Read) → Leads shared.now counted.now code (seen_reader self.old) new
            → IfOk result (λ right. IsTrue right × (seen_reader self.new ≡ new)) }
    {
        match code {
            Code::Number(number) => {
                let place = (number as usize).saturating_sub(1);
                if place < counted.len() {
                    self.cite(alloc, shared, counted[place])
                } else {
                    self.repeat(place - counted.len())
                }
            }
            Code::Mark => self.mark(),
            // No step of a proof that was written is left out.
            Code::Unknown => Ok(false),
        }
    }
}

/// Whether letters, whose numbers count these labels first, are those of a proof in which each subproof that takes entries is written once,
/// and each mark stands right behind the label that makes the subproof.
pub(crate) fn are_marked(
    alloc: Global,
    shared: &Shared<'_>,
    counted: &[CountedLabel<'_>],
    letters: &[u8],
) -> Result<bool, AllocError>
    ensures marked { IfOk result (λ right. IsTrue right → AreMarkedLetters counted.now letters.now) }
    ensures right { (said : List CodeOf) (end : Read) → codes_of letters.now ≡ Some said
        → LeadAll shared.now counted.now said (unread (length shared.now.nodes.items)) end → IfOk result IsTrue }
{
    let Some(codes) = read_letters(alloc, letters)? else {
        return Ok(false);
    };
    let mut reader = Reader::new(alloc, shared.len())?;
    for code in codes.as_slice() {
        if !reader.take(alloc, shared, counted, *code)? {
            return Ok(false);
        }
    }
    Ok(true)
}
