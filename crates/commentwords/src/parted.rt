//! A word that speaks of a label, in its parts.

ghost use Rattle.std.specs.Prelude.{◌≡◌, ◌==◌, [], position, IfSome};
ghost use Rattle.std.specs.Option.{option_map};
ghost use Rattle.giving.specs.Staying.{changed};
ghost use Rattle.commentwords.specs.Words.{is_quote, unquoted};
ghost use Rattle.commentwords.specs.Views.{seen_parts, whole};

use giving::LabelMap;

/// A word that speaks of a label: its three parts make the word, one behind the other.
#[derive(Clone, Copy)]
pub struct Parted<'w> {
    /// What stands in front of the label.
    pub front: &'w [u8],
    /// The label.
    pub label: &'w [u8],
    /// What stands behind it.
    pub back: &'w [u8],
}

/// A label as it reads with changed labels.
pub fn changed<'w>(changes: &'w LabelMap<'_>, label: &'w [u8]) -> &'w [u8]
    ensures { result.now ≡ changed changes.now label.now }
{
    match changes.text_for(label) {
        Some(new) => new,
        None => label,
    }
}

/// Whether a byte is `'` or `"`.
fn is_quote(byte: u8) -> bool
    ensures { result ≡ is_quote byte }
{
    byte == b'\'' || byte == b'"'
}

/// Where a byte stands first.
fn first_place(mark: u8, bytes: &[u8]) -> Option<usize>
    ensures { result ≡ position (λ b. b == mark) bytes.now }
{
    bytes.iter().position(|byte| *byte == mark)
}

impl<'w> Parted<'w> {
    /// The parts of a word that is a label.
    pub(crate) fn label(word: &'w [u8]) -> Parted<'w>
        ensures parts { seen_parts result ≡ record { front = []; label = word.now; back = [] } }
        ensures whole { whole (seen_parts result) ≡ word.now }
    {
        Parted {
            front: b"".as_slice(),
            label: word,
            back: b"".as_slice(),
        }
    }

    /// The parts of a quoted word: it begins with `'` or `"`, and its label ends where the same mark stands once more. None where a word
    /// isn't so.
    pub(crate) fn unquoted(word: &'w [u8]) -> Option<Parted<'w>>
        ensures parts { option_map seen_parts result ≡ unquoted word.now }
        ensures whole { IfSome result (λ p. whole (seen_parts p) ≡ word.now) }
    {
        let [mark, rest @ ..] = word else {
            return None;
        };
        if !is_quote(*mark) {
            return None;
        }
        match first_place(*mark, rest) {
            None => None,
            Some(end) => Some(Parted {
                front: &word[..1],
                label: &rest[..end],
                back: &rest[end..],
            }),
        }
    }
}
