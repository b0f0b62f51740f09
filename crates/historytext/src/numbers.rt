//! Numbers as words.

ghost use Rattle.std.specs.Prelude.{◌≡◌, ◌++◌, ◌∷◌, OnOk};
ghost use Rattle.std.specs.Fmt.{decimal};

use itoa::Buffer;
use mmwriter::put_word;
use std::alloc::AllocError;

/// Puts a space and the decimal digits of a number behind `out`.
pub(crate) fn put_number(out: &mut Vec<u8>, number: u64) -> Result<(), AllocError>
    ensures { OnOk result (out.new.items ≡ out.old.items ++ 32 ∷ decimal number) }
{
    let mut buffer = Buffer::new();
    put_word(out, buffer.format(number).as_bytes())
}
