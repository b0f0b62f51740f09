//! The words of a script that stand outside of its comments, with their places.

ghost use Rattle.std.specs.Prelude.{map};
ghost use Rattle.mmtext.specs.Views.{seen, IsReadAs};
ghost use Rattle.spreading.specs.Words.{word_language};

use mmsyntax::MOST_BYTES;
use mmtext::{Mark, Reader, Stop, TextFault, Token, read};
use std::alloc::Global;

/// The words that were read.
#[derive(Drop)]
struct WordReader<'a> {
    words: Vec<Token<'a>>,
}

impl<'a> Reader<'a> for WordReader<'a> {
    ghost use Rattle.std.specs.Prelude.{List, map};
    ghost use Rattle.mmtext.specs.Text.{Token as Word};
    ghost use Rattle.mmtext.specs.Views.{seen};
    ghost use Rattle.spreading.specs.Words.{word_language};

    type Said = Vec<Token<'a>>;

    ghost Place = { List Word };

    ghost Meaning = { List Word };

    ghost language = { λ _. word_language };

    ghost place = { λ r. map seen r.words.items };

    ghost IsReady = { λ _. Unit {0} };

    ghost meaning = { λ words. map seen words.items };

    fn most_bytes(&self) -> usize {
        MOST_BYTES
    }

    fn take_word(&mut self, _alloc: Global, _token: Token<'a>) -> Result<bool, Stop> {
        Ok(false)
    }

    fn take(&mut self, _alloc: Global, token: Token<'a>, _mark: Mark) -> Result<(), Stop> {
        self.words.push(token)?;
        Ok(())
    }

    fn finish(self) -> Option<Vec<Token<'a>>> {
        let WordReader { words } = self;
        Some(words)
    }
}

/// The words of a script outside of comments, in order.
///
/// # Errors
///
/// The text is longer than a script may be, has a byte that no script may have, or comments that aren't closed; want of memory.
pub fn words_in<'a>(alloc: Global, text: &'a [u8]) -> Result<Vec<Token<'a>>, TextFault>
    ensures { IsReadAs (λ words. map seen words.items) word_language text.now result }
{
    let reader = WordReader {
        words: Vec::new(alloc),
    };
    read(alloc, reader, text)
}
