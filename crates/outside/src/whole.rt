//! Files, and the standard input, are read whole.

ghost use Rattle.std.specs.Prelude.{IfErr, ◌≡◌, IfOk, IfSome, take};
ghost use Rattle.outside.specs.Troubles.{IsAnsweredBy};

use crate::disk::Disk;
use crate::streams::Streams;
use crate::trouble::{Trouble, trouble_of};
use std::alloc::Global;

/// How many bytes are read of a text at most: one more than the longest text may have, which is that of a source (268,435,456 bytes). So
/// each text that is too long is seen to be, and no device without an end fills the memory.
pub const MOST_READ: u64 = 268_435_457;

/// All that the file at a path has, up to one byte more than any text may have.
///
/// # Errors
///
/// The system refuses it, or there is no memory for the text.
pub(crate) fn read_whole<D: Disk>(disk: &D, alloc: Global, path: &str) -> Result<Vec<u8>, Trouble>
    ensures whole { IfOk result (λ text. IfSome (D.holds disk.now path.now) (λ held. text.items ≡ take MOST_READ held)) }
    ensures refused { IfErr result (IsAnsweredBy (D.refuses path.now)) }
{
    let mut text = Vec::new(alloc);
    let mut file = match disk.open(path) {
        Ok(file) => file,
        Err(error) => return Err(trouble_of(&error)),
    };
    match disk.read_to(&mut file, MOST_READ, &mut text) {
        Ok(()) => Ok(text),
        Err(error) => Err(trouble_of(&error)),
    }
}

/// All that the standard input has, up to one byte more than any text may have.
///
/// # Errors
///
/// The system refuses it, or there is no memory for the text.
pub(crate) fn read_input<S: Streams>(streams: &S, alloc: Global) -> Result<Vec<u8>, Trouble>
    ensures whole { IfOk result (λ text. IfSome S.input (λ all. text.items ≡ take MOST_READ all)) }
    ensures refused { IfErr result (IsAnsweredBy S.input_refuses) }
{
    let mut text = Vec::new(alloc);
    match streams.read_input(MOST_READ, &mut text) {
        Ok(()) => Ok(text),
        Err(error) => Err(trouble_of(&error)),
    }
}
