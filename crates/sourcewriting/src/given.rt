//! The text of a compressed proof with given words.

ghost use Rattle.std.specs.Prelude.{IfOk, IfSome, IsTrue, is_some};
ghost use Rattle.std.specs.List.{list_all};
ghost use Rattle.mmtext.specs.Text.{is_printable};
ghost use Rattle.source.specs.Views.{seen_words};
ghost use Rattle.sourcewriting.specs.Given.{IsGivenText};
ghost use Rattle.sourcewriting.specs.Indentations.{IsIndentation};
ghost use Rattle.sourcewriting.specs.Named.{AreNames};

use crate::layout::Layout;
use crate::wording::{counted_labels, put_in_parentheses};
use std::alloc::{AllocError, Global};

/// The text of a compressed proof with these labels in parentheses and these letters, laid out in lines that begin with this indentation,
/// with white space for the `$.` behind it. None where what is to be a label is none, or a letter isn't printable.
///
/// # Errors
///
/// Want of memory.
pub fn given_text(
    alloc: Global,
    indentation: &[u8],
    labels: &[&[u8]],
    letters: &[u8],
) -> Result<Option<Vec<u8>>, AllocError>
    requires { IsIndentation indentation.now }
    ensures given { IfOk result (λ made. IfSome made (λ text.
        IsGivenText indentation.now (seen_words labels.now) letters.now text.items)) }
    ensures some { AreNames (seen_words labels.now) → IsTrue (list_all is_printable letters.now)
        → IfOk result (λ made. IsTrue (is_some made)) }
{
    let labels = counted_labels(alloc, labels, &[])?;
    let mut layout = Layout::new(alloc, indentation);
    put_in_parentheses(&mut layout, labels.as_slice());
    layout.put_letters(letters);
    layout.finish()
}
