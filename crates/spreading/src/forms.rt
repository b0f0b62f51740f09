//! Which words of a script belong to one command.

ghost use Rattle.std.specs.Prelude.{◌≡◌, ◌<◌, ◌≤◌, ◌≢◌, ◌∷◌, [], List, length, map, take, drop, position, codes};
ghost use Rattle.std.specs.Str.{bytes_eq};
ghost use Rattle.mmtext.specs.Text.{Token as Word};
ghost use Rattle.mmtext.specs.Views.{seen};
ghost use Rattle.spreading.specs.Words.{says};
ghost use Rattle.spreading.specs.Forms.{up_to, unit_length, is_beside, place_length, behind_word, begins_with, words_before_place, AreParts, Part};
ghost use Rattle.spreading.specs.Views.{front_words, place_words};

use mmtext::Token;

/// The place of the first word that is this one, from 0, if there is one.
pub fn first_place(last: &[u8], words: &[Token<'_>]) -> Option<usize>
    ensures { result ≡ position (λ t. bytes_eq t.text.now last.now) words.now }
{
    words.iter().position(|word| word.text == last)
}

/// How many words stand up to the first that is this one, with it: all where none is.
fn up_to(last: &[u8], words: &[Token<'_>]) -> usize
    ensures { result ≡ up_to last.now (map seen words.now) }
{
    match first_place(last, words) {
        Some(place) => place + 1,
        None => words.len(),
    }
}

/// How many words an assertion has that begins here.
fn unit_length(words: &[Token<'_>]) -> usize
    ensures { result ≡ unit_length (map seen words.now) }
{
    match words.first() {
        None => 0,
        Some(first) if first.text == b"${".as_slice() => up_to(b"$}", words),
        Some(_) => up_to(b"$.", words),
    }
}

/// Whether a word is `behind`.
pub fn is_behind(word: Token<'_>) -> bool
    ensures { result ≡ says (seen word.entry) (codes "behind") }
{
    word.text == b"behind".as_slice()
}

/// Whether a word is `behind` or `before`.
pub fn is_beside(word: Token<'_>) -> bool
    ensures { result ≡ is_beside (seen word.entry) }
{
    is_behind(word) || word.text == b"before".as_slice()
}

/// How many words say where something is put.
pub fn place_length(words: &[Token<'_>]) -> usize
    ensures { result ≡ place_length (map seen words.now) }
{
    match words.first() {
        None => 0,
        Some(first) if is_beside(*first) => 2,
        Some(_) => 1,
    }
}

/// The words behind so many; none where there are no more.
pub fn behind<'w, 'a>(words: &'w [Token<'a>], many: usize) -> &'w [Token<'a>]
    ensures { result.now ≡ drop many words.now }
{
    &words[many.min(words.len())..]
}

/// How many words a command has behind its own, if all are there; a word that is none has none.
fn behind_word(word: Token<'_>, words: &[Token<'_>]) -> usize
    ensures { result ≡ behind_word (seen word.entry) (map seen words.now) }
{
    let verb = word.text;
    if verb == b"add".as_slice() {
        let place = place_length(words);
        place + unit_length(behind(words, place))
    } else if verb == b"move".as_slice() {
        1 + place_length(behind(words, 1))
    } else if verb == b"reprove".as_slice() {
        up_to(b"$.", words)
    } else if verb == b"replace".as_slice() {
        3
    } else if verb == b"rename".as_slice() {
        2
    } else {
        usize::from(verb == b"delete".as_slice() || verb == b"show".as_slice())
    }
}

/// How many words the first part of words has, of which there is one.
pub fn part_length(words: &[Token<'_>]) -> usize
    ensures within { result ≤ length words.now }
    ensures part { (ps : List Part) → AreParts (drop result (map seen words.now)) ps → map seen words.now ≢ []
        → (result ≢ 0) × AreParts (map seen words.now) (take result (map seen words.now) ∷ ps) }
{
    match words.split_first() {
        None => 0,
        Some((first, rest)) => 1 + behind_word(*first, rest).min(rest.len()),
    }
}

/// Whether words begin with this one.
pub fn begins_with(words: &[Token<'_>], text: &[u8]) -> bool
    ensures { result ≡ begins_with text.now (map seen words.now) }
{
    match words.first() {
        None => false,
        Some(first) => first.text == text,
    }
}

/// How many words of a command stand in front of those that say where something is put, if it puts something.
fn words_before_place(part: &[Token<'_>]) -> Option<usize>
    ensures { result ≡ words_before_place (map seen part.now) }
{
    let verb = part.first()?.text;
    if verb == b"add".as_slice() {
        return Some(1);
    }
    if verb == b"move".as_slice() {
        return Some(2);
    }
    None
}

/// A part, cut in front of the words that say where something is put.
pub fn split_place<'w, 'a>(part: &'w [Token<'a>]) -> (&'w [Token<'a>], &'w [Token<'a>])
    ensures front { map seen result.0.now ≡ front_words (words_before_place (map seen part.now)) (map seen part.now) }
    ensures place { map seen result.1.now ≡ place_words (words_before_place (map seen part.now)) (map seen part.now) }
{
    match words_before_place(part) {
        None => part.split_at(part.len()),
        Some(before) => part.split_at(before.min(part.len())),
    }
}
