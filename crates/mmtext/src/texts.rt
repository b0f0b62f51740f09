//! What all texts have in common: their bytes, and their end.

ghost use Rattle.std.specs.Prelude.{◌≡◌};
ghost use Rattle.mmtext.specs.declared.fault.Stop.TheVariants.{Fault};
ghost use Rattle.mmtext.specs.declared.fault.FaultKind.TheVariants.{Unfinished, NoMemory};
ghost use Rattle.mmtext.specs.Views.{fault_of_bytes};

use crate::fault::{FaultKind, Stop, TextFault};
use crate::token::first_bad_byte;

/// The fault of a text before its tokens, where it may have so many bytes: its length, then the first byte that may not stand in it.
pub fn text_fault(most_bytes: usize, text: &[u8]) -> Option<TextFault>
    ensures { result ≡ fault_of_bytes most_bytes text.now }
{
    if text.len() > most_bytes {
        return Some(TextFault {
            place: most_bytes,
            kind: FaultKind::TooLong,
        });
    }
    let place = first_bad_byte(text)?;
    Some(TextFault {
        place,
        kind: FaultKind::BadByte,
    })
}

/// The fault of a text of a length that may not end where it ends.
pub fn unfinished_at(length: usize) -> Stop
    ensures { result ≡ Fault (record { place = length; kind = Unfinished }) }
{
    Stop::Fault(TextFault {
        place: length,
        kind: FaultKind::Unfinished,
    })
}

/// Want of memory, as a fault of a text.
pub fn no_memory() -> TextFault
    ensures { result ≡ record { place = 0; kind = NoMemory } }
{
    TextFault {
        place: 0,
        kind: FaultKind::NoMemory,
    }
}
