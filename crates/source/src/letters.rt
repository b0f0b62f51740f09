//! The letters of a compressed proof.

ghost use Rattle.std.specs.Prelude.{◌≡◌, IfOk};
ghost use Rattle.source.specs.Letters.{turn_at, codes_of};

use mmsyntax::Sequence;
use std::alloc::{AllocError, Global};

/// What letters of a compressed proof say.
#[derive(Clone, Copy, Debug, PartialEq, Eq)]
pub enum Code {
    /// A hypothesis, a label or a marked subproof, by its number from 1.
    Number(u32),
    /// `Z`: the subproof that ends here is marked.
    Mark,
    /// `?`: a step that isn't there.
    Unknown,
}

/// What a letter does behind others.
#[derive(Clone, Copy, Debug, PartialEq, Eq)]
pub struct Turn {
    /// What ends with it: nothing where it stands in front of others.
    pub said: Option<Code>,
    /// What counts in front of the next letter: 0 where nothing stands there.
    pub front: u32,
}

/// What a letter does behind a front that counts as much (0: none): nothing where it may not stand there, or where no source has so many
/// hypotheses, labels and marks.
pub fn take_letter(front: u32, letter: u8) -> Option<Turn>
    ensures { result ≡ turn_at front letter }
{
    if front > 13_421_772 {
        return None;
    }
    match letter {
        b'A'..=b'T' => Some(Turn {
            said: Some(Code::Number(20 * front + u32::from(letter - 64))),
            front: 0,
        }),
        b'U'..=b'Y' => Some(Turn {
            said: None,
            front: 5 * front + u32::from(letter - 84),
        }),
        b'Z' if front == 0 => Some(Turn {
            said: Some(Code::Mark),
            front: 0,
        }),
        b'?' if front == 0 => Some(Turn {
            said: Some(Code::Unknown),
            front: 0,
        }),
        _ => None,
    }
}

/// What letters of a compressed proof say, if they may stand in one.
pub fn read_letters(alloc: Global, letters: &[u8]) -> Result<Option<Sequence<Code>>, AllocError>
    ensures { IfOk result (λ read. read ≡ codes_of letters.now) }
{
    let mut codes = Vec::new(alloc);
    let mut front = 0;
    for letter in letters {
        let Some(turn) = take_letter(front, *letter) else {
            return Ok(None);
        };
        if let Some(code) = turn.said {
            codes.push(code)?;
        }
        front = turn.front;
    }
    if front == 0 {
        Ok(Some(Sequence::from_vec(codes)))
    } else {
        Ok(None)
    }
}
