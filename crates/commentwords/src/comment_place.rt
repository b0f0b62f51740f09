//! Where the words of a comment stand (Metamath book, sections 4.4.1 and 4.4.2).

ghost use Rattle.std.specs.Prelude.{◌≡◌, IfSome};
ghost use Rattle.std.specs.Option.{option_map};
ghost use Rattle.commentwords.specs.Words.{at_first, leads_across, behind_described, behind_first, behind_word, parted, word_then};
ghost use Rattle.commentwords.specs.Views.{seen_parts, whole, text_of};

use crate::parted::{Parted, changed};
use crate::reading::Reading;
use giving::LabelMap;

/// Where the next word of a comment stands.
#[derive(Clone, Copy)]
pub enum CommentPlace {
    /// It is the first one.
    AtFirst,
    /// In a description: among symbols between backquotes or not, and right behind a `~` that counts or not.
    Described {
        among_symbols: bool,
        behind_tilde: bool,
    },
    /// In definitions for typesetting, which begin with `$t`: right behind `exthtmllabel` or not.
    Typeset {
        behind_exthtmllabel: bool,
    },
    /// In markup for verifiers, which begins with `$j`.
    MarkedUp,
}

/// Whether a word leads from words to symbols, or back. Each backquote in it does; so two together, which stand for one that is meant,
/// lead nowhere.
fn leads_across(word: &[u8]) -> bool
    ensures { result ≡ leads_across word.now }
{
    let mut across = false;
    for byte in word {
        if *byte == b'`' {
            across = !across;
        }
    }
    across
}

/// Behind a word of a description.
fn behind_described(among_symbols: bool, behind_tilde: bool, word: &[u8]) -> CommentPlace
    ensures { result ≡ behind_described among_symbols behind_tilde word.now }
{
    let across = leads_across(word);
    CommentPlace::Described {
        among_symbols: if across {
            !among_symbols
        } else {
            among_symbols
        },
        behind_tilde: !among_symbols && !behind_tilde && word == b"~".as_slice(),
    }
}

/// Behind the first word of a comment.
fn behind_first(word: &[u8]) -> CommentPlace
    ensures { result ≡ behind_first word.now }
{
    if word == b"$t".as_slice() {
        return CommentPlace::Typeset {
            behind_exthtmllabel: false,
        };
    }
    if word == b"$j".as_slice() {
        return CommentPlace::MarkedUp;
    }
    behind_described(false, false, word)
}

impl CommentPlace {
    /// Before any word of a comment.
    pub fn at_first() -> CommentPlace
        ensures { result ≡ at_first }
    {
        CommentPlace::AtFirst
    }

    /// Behind a word.
    pub fn behind(self, word: &[u8]) -> CommentPlace
        ensures { result ≡ behind_word self word.now }
    {
        match self {
            CommentPlace::AtFirst => behind_first(word),
            CommentPlace::Described {
                among_symbols,
                behind_tilde,
            } => behind_described(among_symbols, behind_tilde, word),
            CommentPlace::Typeset { .. } => CommentPlace::Typeset {
                behind_exthtmllabel: word == b"exthtmllabel".as_slice(),
            },
            CommentPlace::MarkedUp => CommentPlace::MarkedUp,
        }
    }

    /// The parts of a word that speaks of a label: they are the word, one behind the other. None where it speaks of none.
    pub fn parted<'w>(self, word: &'w [u8]) -> Option<Parted<'w>>
        ensures parts { option_map seen_parts result ≡ parted self word.now }
        ensures whole { IfSome result (λ p. whole (seen_parts p) ≡ word.now) }
    {
        match self {
            CommentPlace::Described {
                behind_tilde: true,
                ..
            } => Some(Parted::label(word)),
            CommentPlace::Typeset {
                behind_exthtmllabel: true,
            }
            | CommentPlace::MarkedUp => Parted::unquoted(word),
            _ => None,
        }
    }

    /// A word as it reads with changed labels.
    pub fn word_then<'w>(self, changes: &'w LabelMap<'_>, word: &'w [u8]) -> Reading<'w>
        ensures { text_of result ≡ word_then changes.now self word.now }
    {
        match self.parted(word) {
            None => Reading::of(word),
            Some(Parted { front, label, back }) => Reading {
                front,
                middle: changed(changes, label),
                back,
            },
        }
    }
}
