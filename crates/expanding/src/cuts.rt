//! The proof that a command brings.

ghost use Rattle.std.specs.Prelude.{◌≡◌, map, option_map};
ghost use Rattle.mmtext.specs.Views.{seen};
ghost use Rattle.expanding.specs.Cuts.{cut_of, brought};
ghost use Rattle.expanding.specs.Views.{seen_cut};

use mmtext::Token;
use spreading::first_place;

/// A command around the proof that it brings.
#[derive(Clone, Copy)]
pub struct Cut<'w, 'a> {
    /// The words up to the first `$=`, with it.
    pub front: &'w [Token<'a>],
    /// Those between it and the first `$.` behind it.
    pub proof: &'w [Token<'a>],
    /// Those from this `$.` on.
    pub back: &'w [Token<'a>],
}

/// The words of a command around its proof, if it brings one.
pub fn cut_of<'w, 'a>(part: &'w [Token<'a>]) -> Option<Cut<'w, 'a>>
    ensures { option_map seen_cut result ≡ cut_of (map seen part.now) }
{
    let begins = first_place(b"$=", part)?;
    let (front, rest) = part.split_at(begins + 1);
    let ends = first_place(b"$.", rest)?;
    let (proof, back) = rest.split_at(ends);
    Some(Cut { front, proof, back })
}

/// The words of the proof that a command brings: none where it brings none.
pub(crate) fn brought<'w, 'a>(part: &'w [Token<'a>]) -> &'w [Token<'a>]
    ensures { map seen result.now ≡ brought (map seen part.now) }
{
    let (none, _) = part.split_at(0);
    match cut_of(part) {
        None => none,
        Some(cut) => cut.proof,
    }
}
