//! How a word reads.

ghost use Rattle.std.specs.Prelude.{◌≡◌, ◌++◌, OnOk};
ghost use Rattle.commentwords.specs.Views.{text_of};

use std::alloc::AllocError;

/// A word as it reads then: the bytes of these three, one behind the other.
#[derive(Clone, Copy)]
pub struct Reading<'w> {
    pub front: &'w [u8],
    pub middle: &'w [u8],
    pub back: &'w [u8],
}

impl<'w> Reading<'w> {
    /// A word that reads so.
    pub fn of(word: &'w [u8]) -> Reading<'w>
        ensures { text_of result ≡ word.now }
    {
        Reading {
            front: b"".as_slice(),
            middle: word,
            back: b"".as_slice(),
        }
    }

    /// Puts the word behind bytes.
    ///
    /// # Errors
    ///
    /// Want of memory.
    pub fn put(self, out: &mut Vec<u8>) -> Result<(), AllocError>
        ensures { OnOk result (out.new.items ≡ out.old.items ++ text_of self.entry) }
    {
        out.extend_from_slice(self.front)?;
        out.extend_from_slice(self.middle)?;
        out.extend_from_slice(self.back)?;
        Ok(())
    }
}
