//! The statement in which a word of a source stands, by the words in front of it.

ghost use Rattle.std.specs.Prelude.{◌≡◌, IfOk, map};
ghost use Rattle.std.specs.Option.{option_map};
ghost use Rattle.std.specs.List.{after_first, list_any};
ghost use Rattle.mmtext.specs.Views.{seen};
ghost use Rattle.locating.specs.Fronts.{words_of, front_of, says, ends_statement, follows_label, label_in, part_of, part_of_proof, part_of_rest, part_at};

use mmtext::{FaultKind, Mark, Reader, Stop, Token, contains_dollar, read};
use std::alloc::{AllocError, Global};

/// Where in a statement a word stands.
#[derive(Clone, Copy, Debug, PartialEq, Eq)]
pub enum Part {
    /// In a comment.
    Comment,
    /// Where a statement begins.
    Start,
    /// Behind a label.
    Keyword,
    /// In a normal proof, or at its beginning.
    Steps,
    /// In the parentheses of a compressed proof.
    Labels,
    /// In its letters.
    Letters,
    /// Anywhere else.
    Other,
}

/// The most bytes that a source may have.
const MOST_BYTES: usize = 268_435_456;

/// The words that were read.
#[derive(Drop)]
struct Words<'a> {
    words: Vec<Token<'a>>,
}

impl<'a> Reader<'a> for Words<'a> {
    ghost use Rattle.std.specs.Prelude.{List, map};
    ghost use Rattle.mmtext.specs.Text.{Token as Word};
    ghost use Rattle.mmtext.specs.Views.{seen};
    ghost use Rattle.locating.specs.Fronts.{outside_comments};

    type Said = Vec<Token<'a>>;

    ghost Place = { List Word };

    ghost Meaning = { List Word };

    ghost language = { λ _. outside_comments };

    ghost place = { λ r. map seen r.words.items };

    ghost IsReady = { λ _. Unit {0} };

    ghost meaning = { λ words. map seen words.items };

    fn most_bytes(&self) -> usize {
        MOST_BYTES
    }

    fn take_word(&mut self, _alloc: Global, _token: Token<'a>) -> Result<bool, Stop> {
        Ok(false)
    }

    fn take(&mut self, _alloc: Global, token: Token<'a>, _mark: Mark) -> Result<(), Stop> {
        self.words.push(token)?;
        Ok(())
    }

    fn finish(self) -> Option<Vec<Token<'a>>> {
        let Words { words } = self;
        Some(words)
    }
}

/// The words of a text outside of comments, if each comment is closed and each byte may stand in a source.
///
/// # Errors
///
/// Want of memory.
pub(crate) fn words_of<'a>(
    alloc: Global,
    text: &'a [u8],
) -> Result<Option<Vec<Token<'a>>>, AllocError>
    ensures { IfOk result (λ words. option_map (λ ws. map seen ws.items) words ≡ words_of text.now) }
{
    let reader = Words {
        words: Vec::new(alloc),
    };
    match read(alloc, reader, text) {
        Ok(words) => Ok(Some(words)),
        Err(fault) => match fault.kind {
            FaultKind::NoMemory => Err(AllocError),
            _ => Ok(None),
        },
    }
}

/// Whether a word is this one.
pub(crate) fn says(word: &[u8], token: Token<'_>) -> bool
    ensures { result ≡ says word.now (seen token.entry) }
{
    token.text == word
}

/// Whether a statement begins behind a word.
fn ends_statement(token: Token<'_>) -> bool
    ensures { result ≡ ends_statement (seen token.entry) }
{
    says(b"$.", token) || says(b"${", token) || says(b"$}", token)
}

/// Of the words in front of a place, those of the statement there.
pub(crate) fn front_of<'t, 'a>(words: &'t [Token<'a>]) -> &'t [Token<'a>]
    ensures { map seen result.now ≡ front_of (map seen words.now) }
{
    match words.iter().rposition(|word| ends_statement(*word)) {
        Some(last) => &words[last + 1..],
        None => words,
    }
}

/// Whether a word stands behind a label.
pub(crate) fn follows_label(token: Token<'_>) -> bool
    ensures { result ≡ follows_label (seen token.entry) }
{
    says(b"$f", token) || says(b"$e", token) || says(b"$a", token) || says(b"$p", token)
}

/// The label of the statement that begins so.
pub(crate) fn label_in<'a>(front: &[Token<'a>]) -> Option<&'a [u8]>
    ensures { option_map (λ w. w.now) result ≡ label_in (map seen front.now) }
{
    let label = front.first()?;
    let keyword = front.get(1)?;
    if follows_label(*keyword) {
        Some(label.text)
    } else {
        None
    }
}

/// The words behind the first that is this one; none where none is.
pub(crate) fn behind_first<'t, 'a>(word: &[u8], words: &'t [Token<'a>]) -> &'t [Token<'a>]
    ensures { map seen result.now ≡ after_first (says word.now) (map seen words.now) }
{
    match words.iter().position(|token| says(word, *token)) {
        Some(place) => &words[place + 1..],
        None => &words[words.len()..],
    }
}

/// Whether some word is this one.
fn is_said(word: &[u8], words: &[Token<'_>]) -> bool
    ensures { result ≡ list_any (says word.now) (map seen words.now) }
{
    words.iter().any(|token| says(word, *token))
}

/// Where in a proof a word stands, behind these of it.
fn part_of_proof(words: &[Token<'_>]) -> Part
    ensures { result ≡ part_of_proof (map seen words.now) }
{
    match words.split_first() {
        Some((first, rest)) if says(b"(", *first) => {
            if is_said(b")", rest) {
                Part::Letters
            } else {
                Part::Labels
            }
        }
        _ => Part::Steps,
    }
}

/// Where in a statement that has no proof yet a word stands, behind these of it.
fn part_of_rest(words: &[Token<'_>]) -> Part
    ensures { result ≡ part_of_rest (map seen words.now) }
{
    match words.first() {
        None => Part::Start,
        Some(first) if words.len() == 1 && !contains_dollar(first.text) => Part::Keyword,
        Some(_) => Part::Other,
    }
}

/// Where in a statement a word stands, behind these of it.
fn part_of(words: &[Token<'_>]) -> Part
    ensures { result ≡ part_of (map seen words.now) }
{
    if is_said(b"$=", words) {
        part_of_proof(behind_first(b"$=", words))
    } else {
        part_of_rest(words)
    }
}

/// Where in a statement a word stands, behind the words of its text that stand in front of it, if no comment is open there.
pub(crate) fn part_at(front: Option<&[Token<'_>]>) -> Part
    ensures { result ≡ part_at (option_map (λ ws. map seen ws.now) front.entry) }
{
    match front {
        None => Part::Comment,
        Some(words) => part_of(front_of(words)),
    }
}
