//! The text of a library, to a writer.

ghost use Rattle.std.specs.Prelude.{◌≡◌, ◌<◌, ℕ, take, length, OnOk, IfErr};
ghost use Rattle.std.specs.Io.KnownBytes.{Appends, Keeps};
ghost use Rattle.export.specs.Exported.{exported_text, Accepts};

use crate::error::ExportError;
use crate::text::write_library;
use library::PlainLibrary;
use std::alloc::Global;
use std::io::Write;

/// Writes bytes by as many calls of `write` as the writer needs, and stops at the first that fails or takes none. The error is how many
/// bytes the writer took.
fn write_bytes<W: Write>(writer: &mut W, bytes: &[u8]) -> Result<(), usize>
    ensures written { OnOk result (Appends (W.contents writer.old) (W.contents writer.new) bytes.now) }
    ensures part { IfErr result (λ n. n < length bytes.now) }
    ensures front { IfErr result (λ n. Appends (W.contents writer.old) (W.contents writer.new) (take n bytes.now)) }
{
    let mut written = 0;
    while written < bytes.len() {
        match writer.write(&bytes[written..]) {
            Ok(count) if count > 0 => written += count,
            _ => return Err(written),
        }
    }
    Ok(())
}

/// Exports a library: makes its whole text in memory, then writes it by as many calls of `write` as the writer needs. It does not flush
/// the writer.
///
/// # Errors
///
/// - `Write { written }`: a `write` failed, or took 0 bytes. The writer took the first `written` bytes of the text and no others, which is
///   never the whole text. Any error of a `write` ends the export, `Interrupted` too: so there are at most as many calls as the text has
///   bytes, however often a writer is interrupted.
/// - `NoMemory`: memory ran out before the text was made. Nothing was written.
///
/// The clauses say what the writer took, where its `contents` are known. That a `write` of this call stopped where the answer is `Write`
/// is tested and not proved: by the clauses of `std::io::Write` any call may fail, so a writer that fails at once differs in nothing from
/// one that is never asked.
pub fn export<W: Write>(
    alloc: Global,
    library: &PlainLibrary,
    writer: &mut W,
) -> Result<(), ExportError>
    // All of the text is written.
    ensures written { OnOk result (Appends (W.contents writer.old) (W.contents writer.new) (exported_text library.now)) }
    // Or a front of it, which is not all of it.
    ensures part { (n : ℕ) → result ≡ Err (ExportError.Write n) → n < length (exported_text library.now) }
    ensures front { (n : ℕ) → result ≡ Err (ExportError.Write n) →
        Appends (W.contents writer.old) (W.contents writer.new) (take n (exported_text library.now)) }
    // Or nothing.
    ensures memory { result ≡ Err ExportError.NoMemory → Keeps (W.contents writer.old) (W.contents writer.new) }
    ensures accepted { Accepts (exported_text library.now) }
{
    let text = write_library(alloc, library)?;
    write_bytes(writer, &text).map_err(|written| ExportError::Write { written })
}
