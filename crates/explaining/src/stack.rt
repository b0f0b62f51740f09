//! The expressions on the stack of a proof, and those that are marked.

ghost use Rattle.std.specs.Prelude.{◌≡◌, ◌<◌, ◌++◌, [], IfOk, OnOk, MatchOption, Ok, None, Some, length, map, slice_get, if◌then◌else◌};
ghost use Rattle.source.specs.Proofs as proofs;
ghost use Rattle.source.specs.Views.{seen_words};
ghost use Rattle.explaining.specs.Shown.{seen_stack};

use std::alloc::{AllocError, Global};

/// What is on the stack, the last behind the others, and what is marked, the first in front.
#[derive(Drop)]
pub(crate) struct Entries<'a> {
    pub(crate) entries: Vec<Vec<&'a [u8]>>,
    pub(crate) marked: Vec<Vec<&'a [u8]>>,
}

impl<'a> Entries<'a> {
    /// Nothing is there.
    pub(crate) fn new(alloc: Global) -> Entries<'a>
        ensures { seen_stack result ≡ proofs.empty }
    {
        Entries {
            entries: Vec::new(alloc),
            marked: Vec::new(alloc),
        }
    }

    /// An expression goes on. After an error nothing is said of the stack.
    pub(crate) fn push(&mut self, expression: Vec<&'a [u8]>) -> Result<(), AllocError>
        ensures { OnOk result (seen_stack self.new ≡ proofs.push (seen_stack self.old) (Ok (seen_words expression.entry.items))) }
    {
        self.entries.push(expression)?;
        Ok(())
    }

    /// The marked expression with a number, from 0, goes on again: whether it is there. After an error nothing is said of the stack.
    pub(crate) fn repeat(&mut self, alloc: Global, number: usize) -> Result<bool, AllocError>
        ensures { IfOk result (λ there. proofs.repeat (seen_stack self.old) (slice_get (seen_stack self.old).marked number)
            ≡ (if there then Some (seen_stack self.new) else None)) }
    {
        if number >= self.marked.len() {
            return Ok(false);
        }
        let copy = Vec::from_slice(alloc, self.marked[number].as_slice())?;
        self.push(copy)?;
        Ok(true)
    }

    /// The last expression is marked: whether there is one. After an error nothing is said of the stack.
    pub(crate) fn mark(&mut self, alloc: Global) -> Result<bool, AllocError>
        ensures { IfOk result (λ there. proofs.mark (seen_stack self.old).entries (seen_stack self.old).marked
            ≡ (if there then Some (seen_stack self.new) else None)) }
    {
        let count = self.entries.len();
        if count == 0 {
            return Ok(false);
        }
        let copy = Vec::from_slice(alloc, self.entries[count - 1].as_slice())?;
        self.marked.push(copy)?;
        Ok(true)
    }

    /// So many of the last expressions come off, if they are there, the first of them in front. After an error nothing is said of the
    /// stack.
    pub(crate) fn take(&mut self, many: usize) -> Result<Option<Vec<Vec<&'a [u8]>>>, AllocError>
        ensures { IfOk result (λ taken. MatchOption taken (length self.old.entries.items < many)
            (λ es. (self.old.entries.items ≡ self.new.entries.items ++ es.items) × (length es.items ≡ many)
            × (self.new.marked ≡ self.old.marked))) }
    {
        let count = self.entries.len();
        if count < many {
            return Ok(None);
        }
        Ok(Some(self.entries.split_off(count - many)?))
    }
}
