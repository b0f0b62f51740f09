//! Whether a statement that is written anew is laid out in lines of at most 79 columns.

ghost use Rattle.std.specs.Prelude.{◌≡◌, ◌≤◌, IfSome, IsTrue, length};
ghost use Rattle.items.specs.Items.{Item as Pieces};
ghost use Rattle.items.specs.Layout.{column};
ghost use Rattle.items.specs.Reading.{Stands};
ghost use Rattle.arranging.specs.Lines.{is_in_lines};
ghost use Rattle.arranging.specs.LinesInside.{are_letters, part_behind, piece, IsPlaced, LaysWord};

use items::indent;
use mmtext::next_token;

/// A line has so many columns at most.
const COLUMNS: usize = 79;

/// Which words of a statement stand next.
#[derive(Clone, Copy)]
pub(crate) enum Part {
    /// Those up to `$=`.
    Statement,
    /// Those of a proof, up to `)`.
    Proof,
    /// Letters.
    Letters,
}

/// The column behind a word, which stands behind another column, or begins a line.
fn column(at: usize, space: &[u8], word: &[u8]) -> Option<usize>
    ensures { IfSome result (λ behind. behind ≡ column at (piece space.now word.now)) }
{
    match indent(space) {
        Some(spaces) => spaces.len().checked_add(word.len()),
        None => at.checked_add(1)?.checked_add(word.len()),
    }
}

/// The column behind a word, which stands behind another. None where it doesn't stand there as it may.
fn placed(at: usize, are_letters: bool, space: &[u8], word: &[u8]) -> Option<usize>
    ensures { IfSome result (IsPlaced at are_letters space.now word.now) }
{
    let begins_line = indent(space).is_some();
    let behind = column(at, space, word)?;
    if !begins_line && space != b" ".as_slice() {
        return None;
    }
    if behind > COLUMNS && (!begins_line || are_letters) {
        return None;
    }
    Some(behind)
}

impl Part {
    /// Whether letters stand next.
    fn are_letters(self) -> bool
        ensures { result ≡ are_letters self }
    {
        matches!(self, Part::Letters)
    }

    /// The part behind a word.
    fn behind(self, word: &[u8]) -> Part
        ensures { result ≡ part_behind self word.now }
    {
        match self {
            Part::Statement if word == b"$=".as_slice() => Part::Proof,
            Part::Proof if word == b")".as_slice() => Part::Letters,
            _ => self,
        }
    }
}

/// A place among the words of a statement.
#[derive(Clone, Copy)]
pub(crate) struct LinePlace {
    /// The column behind the last word, counted from 0.
    pub column: usize,
    /// Which words stand next.
    pub part: Part,
}

impl LinePlace {
    /// The place behind a word. None where it isn't laid out.
    fn take(self, space: &[u8], word: &[u8]) -> Option<LinePlace>
        ensures { IfSome result (LaysWord self space.now word.now) }
    {
        let column = placed(self.column, self.part.are_letters(), space, word)?;
        let part = self.part.behind(word);
        Some(LinePlace { column, part })
    }
}

/// Whether an item, from a place of a text up to another, is laid out in lines, the first of which begins with it.
pub(crate) fn is_in_lines(text: &[u8], from: usize, end: usize) -> bool
    requires order { from ≤ end }
    requires within { end ≤ length text.now }
    ensures { (x : Pieces) → Stands text.now from x end → IsTrue result → IsTrue (is_in_lines 79 x) }
{
    let mut place = LinePlace {
        column: COLUMNS,
        part: Part::Statement,
    };
    let mut at = from;
    while at < end {
        let Some(token) = next_token(text, at) else {
            return false;
        };
        let Some(behind) = place.take(&text[at..token.place], token.text) else {
            return false;
        };
        place = behind;
        at = token.place + token.text.len();
    }
    true
}
