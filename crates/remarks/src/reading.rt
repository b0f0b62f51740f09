//! The call `read_remarks`.

ghost use Rattle.std.specs.Prelude.{◌≡◌, ◌++◌, [], IfOk, OnOk, if◌then◌else◌};
ghost use Rattle.source.specs.Views.{seen_words};
ghost use Rattle.items.specs.Divided.{IsDivided};
ghost use Rattle.items.specs.Items.{Item as Pieces, label_of};
ghost use Rattle.items.specs.Reading.{IsOfKind};
ghost use Rattle.remarks.specs.Remarks.{AreRemarks};

use crate::comments::{Remark, remark_of};
use items::{Item, Kind, read_item};
use std::alloc::{AllocError, Global};

/// The labels of the assertions of a source right in front of which stands a comment that discourages something, each list in the order of
/// the source.
#[derive(Debug, Drop)]
pub struct Remarks<'s> {
    /// Where another proof is discouraged.
    pub modification: Vec<&'s [u8]>,
    /// Where it is discouraged to cite the assertion in a proof that doesn't.
    pub usage: Vec<&'s [u8]>,
}

impl<'s> Remarks<'s> {
    /// Puts the label of an assertion into each list that the comment in front of the assertion asks for. Another item has no label.
    fn put(&mut self, front: Remark, item: Item<'s>) -> Result<(), AllocError>
        ensures modification { OnOk result ((x : Pieces) → IsOfKind item.entry.kind x → seen_words self.new.modification.items
            ≡ seen_words self.old.modification.items ++ (if front.modification then label_of x else [])) }
        ensures usage { OnOk result ((x : Pieces) → IsOfKind item.entry.kind x → seen_words self.new.usage.items
            ≡ seen_words self.old.usage.items ++ (if front.usage then label_of x else [])) }
    {
        let Kind::Assertion(label) = item.kind else {
            return Ok(());
        };
        if front.modification {
            self.modification.push(label)?;
        }
        if front.usage {
            self.usage.push(label)?;
        }
        Ok(())
    }
}

/// What the comments right in front of the assertions of a source discourage.
///
/// The text is gone through once, and the comments between its statements once more: this costs about as much as the text has bytes.
///
/// # Errors
///
/// Want of memory.
pub fn read_remarks<'s>(alloc: Global, text: &'s [u8]) -> Result<Remarks<'s>, AllocError>
    requires { IsDivided text.now }
    ensures { IfOk result (λ r. AreRemarks text.now (seen_words r.modification.items) (seen_words r.usage.items)) }
{
    let mut remarks = Remarks {
        modification: Vec::new(alloc),
        usage: Vec::new(alloc),
    };
    let mut front = Remark::nothing();
    let mut at = 0;
    while let Some(item) = read_item(text, at) {
        remarks.put(front, item)?;
        front = remark_of(text, at, item);
        at = item.end;
    }
    Ok(remarks)
}
