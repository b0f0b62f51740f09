//! How lines are read.

use crate::written::Written;
use tlwords::Mode;

/// What a line asks of a pass.
#[derive(Clone, Copy)]
pub struct Step<'l> {
    /// The letter of the verb.
    pub letter: u8,
    /// What stands behind the verb.
    pub words: &'l str,
    /// The numbers that this is; those in front of the first word that is none.
    pub numbers: &'l [u64],
}

/// Whether a line says something to the reader alone.
pub fn is_comment(line: &[u8]) -> bool {
    line.is_empty() || line.starts_with(b"#")
}

/// Reads the numbers between the spaces of a text behind others; false where a word is none.
pub fn read_numbers(out: &mut Written, numbers: &mut Vec<u64>, text: &str) -> bool {
    for word in text.split_ascii_whitespace() {
        let Ok(number) = word.parse::<u64>() else {
            return false;
        };
        if numbers.push(number).is_err() {
            out.is_short = true;
        }
    }
    true
}

/// The place of the pass that a letter names, from 0; any place is named by its number too. No pass has the place of another name.
pub fn place_of(name: &str) -> usize {
    match name.as_bytes() {
        [letter @ b'A'..=b'Z'] => (*letter - b'A') as usize,
        _ => name.parse::<usize>().unwrap_or(usize::MAX),
    }
}

/// The letter that stands for a verb: its first one, and `e` for `leaves`. A blank where there is no verb.
pub fn letter_of(verb: &str) -> u8 {
    if verb == "leaves" {
        return b'e';
    }
    *verb.as_bytes().first().unwrap_or(&b' ')
}

/// How a run is to begin, by a word.
pub fn mode_of(word: &str) -> Option<Mode> {
    match word {
        "writing" => Some(Mode::Writing),
        "reading" => Some(Mode::Reading),
        _ => None,
    }
}

/// What stands in front of the first blank of a line, and behind it.
pub fn cut(line: &str) -> (&str, &str) {
    line.split_once(' ').unwrap_or((line, ""))
}

/// The number of the word at a place, from 0. No memory has the size of another word.
pub fn count_at(line: &str, place: usize) -> usize {
    let word = line.split(' ').nth(place).unwrap_or("");
    word.parse::<usize>().unwrap_or(usize::MAX)
}
