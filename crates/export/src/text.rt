//! The text of a library, in memory.

ghost use Rattle.std.specs.Prelude.{◌≡◌, ◌++◌, IfOk, OnOk};
ghost use Rattle.export.specs.Exported.{exported_text, Accepts};

use library::PlainLibrary;
use mmwriter::{put_assertion, put_prelude};
use std::alloc::{AllocError, Global};

/// Appends the exported text of a library: the lines of its prelude, then the line of each assertion in export order.
///
/// The text is accepted. It has no limit of length: a reader of texts has one, of 16,777,216 bytes. The only error is want of memory.
pub fn put_library(out: &mut Vec<u8>, library: &PlainLibrary) -> Result<(), AllocError>
    ensures text { OnOk result (out.new.items ≡ out.old.items ++ exported_text library.now) }
    ensures accepted { Accepts (exported_text library.now) }
{
    let entries = library.entries();
    let prelude = library.prelude();
    put_prelude(out, prelude)?;
    for entry in entries {
        put_assertion(out, prelude, &entry.assertion)?;
    }
    Ok(())
}

/// The exported text of a library, as `put_library` appends it. The only error is want of memory.
pub fn write_library(alloc: Global, library: &PlainLibrary) -> Result<Vec<u8>, AllocError>
    ensures text { IfOk result (λ v. v.items ≡ exported_text library.now) }
    ensures accepted { Accepts (exported_text library.now) }
{
    let mut text = Vec::new(alloc);
    put_library(&mut text, library)?;
    Ok(text)
}
