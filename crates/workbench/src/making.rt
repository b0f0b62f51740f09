//! Large texts, from recipes: a body that gives up by size is seen by the rows over them.

use std::alloc::{AllocError, Global};
use std::io::Write;

/// What stands in front of the first such byte and behind it. All of a text stands in front where there is none.
pub(crate) fn cut(text: &[u8], end: u8) -> (&[u8], &[u8]) {
    for (place, byte) in text.iter().enumerate() {
        if *byte == end {
            return (&text[..place], &text[place + 1..]);
        }
    }
    (text, b"")
}

/// Puts a part, with this number in place of each `#`.
fn put_part(out: &mut Vec<u8>, part: &[u8], number: usize) -> Result<(), AllocError> {
    if !part.contains(&b'#') {
        return out.extend_from_slice(part);
    }
    for byte in part {
        match byte {
            b'#' => write!(out, "{number}").map_err(|_| AllocError)?,
            _ => out.push(*byte)?,
        }
    }
    Ok(())
}

/// The text of a recipe, in which `<COUNT PART>` stands for so many times the part, with the numbers from 0 on in place of each `#`, and
/// all else for itself.
pub(crate) fn made(alloc: Global, recipe: &[u8]) -> Result<Vec<u8>, AllocError> {
    let mut out = Vec::new(alloc);
    let mut rest = recipe;
    for _ in recipe {
        let (plain, behind) = cut(rest, b'<');
        let (often, behind) = cut(behind, b'>');
        let (count, part) = cut(often, b' ');
        let count = str::from_utf8(count).unwrap_or("");
        out.extend_from_slice(plain)?;
        for number in 0..count.parse().unwrap_or(0_usize) {
            put_part(&mut out, part, number)?;
        }
        rest = behind;
    }
    Ok(out)
}
