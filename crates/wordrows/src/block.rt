//! The lines from one opening of words to the next.

ghost use Rattle.std.specs.Prelude.{◌≡◌, ◌≤◌, true, All, IfOk, IfSome, IsTrue, length};
ghost use Rattle.tlwords.specs.Callers.{SitsAt, AreOfOneOpening};
ghost use Rattle.wordrows.specs.Seats.{is_named, IsNameIn, StandsAt};

use crate::acting::{answer_line, take_stand};
use crate::line::{count_at, is_comment, place_of, read_numbers};
use crate::print::{CANNOT, put_closed};
use crate::seat::{Anything, Resting, Stand};
use crate::written::Written;
use std::alloc::{AllocError, Global};
use tlwords::{Pass, Words, close};

/// One more than the greatest length that a word can tell: 2^25.
const LENGTHS: u64 = 33_554_432;

/// The text of a line.
fn text_of(line: &[u8]) -> &str {
    str::from_utf8(line).unwrap_or("no text")
}

/// Answers lines that can't be done, since no words are open.
fn refuse_lines(out: &mut Written, lines: &[Vec<u8>]) {
    for line in lines {
        out.put(line.as_slice());
        if !is_comment(line.as_slice()) {
            out.put(b": ");
            out.put(CANNOT);
        }
        out.put(b"\n");
    }
}

/// Answers the lines between the opening and the close.
fn answer_lines<'w>(
    alloc: Global,
    out: &mut Written,
    words: &'w Words<Anything>,
    named: bool,
    stands: &mut Vec<Stand<'w>>,
    numbers: &mut Vec<u64>,
    lines: &[Vec<u8>],
)
    requires named { is_named words.now ≡ named }
    requires stands { All (StandsAt words.now) stands.old.items }
    ensures { All (StandsAt words.now) stands.new.items }
{
    for line in lines {
        out.put(line.as_slice());
        if !is_comment(line.as_slice()) {
            out.put(b": ");
            let text = text_of(line.as_slice());
            if !answer_line(alloc, out, words, named, stands, numbers, text) {
                out.put(CANNOT);
            }
        }
        out.put(b"\n");
    }
}

/// The passes at their places, the last of them first.
fn seat_all<'w>(
    alloc: Global,
    words: &'w Words<Anything>,
    mut passes: Vec<Pass<Anything>>,
) -> Result<Vec<Stand<'w>>, AllocError>
    requires { All (AreOfOneOpening words.now) passes.items }
    ensures { IfOk result (λ stands. All (StandsAt words.now) stands.items) }
{
    let mut stands = Vec::new(alloc);
    while let Some(pass) = passes.pop() {
        stands.push(Stand::AtRest(Resting {
            pass,
            ranges: Vec::new(alloc),
        }))?;
    }
    Ok(stands)
}

/// The pass at a place, if one is there at rest; nothing is there then.
fn take_pass(
    words: &Words<Anything>,
    stands: &mut Vec<Stand<'_>>,
    place: usize,
) -> Option<Pass<Anything>>
    requires { All (StandsAt words.now) stands.old.items }
    ensures stands { All (StandsAt words.now) stands.new.items }
    ensures pass { IfSome result (SitsAt words.now) }
{
    match take_stand(words, stands, place) {
        Stand::AtRest(rest) => {
            let Resting { pass, ranges: _ } = rest;
            Some(pass)
        }
        _ => None,
    }
}

/// Takes the passes of these names; false where one of them isn't there at rest.
fn take_passes(
    words: &Words<Anything>,
    stands: &mut Vec<Stand<'_>>,
    passes: &mut Vec<Pass<Anything>>,
    names: &str,
) -> Result<bool, AllocError>
    requires stands { All (StandsAt words.now) stands.old.items }
    requires passes { All (SitsAt words.now) passes.old.items }
    ensures { IfOk result (λ _. All (SitsAt words.now) passes.new.items) }
{
    for name in names.split_ascii_whitespace() {
        let Some(pass) = take_pass(words, stands, place_of(name)) else {
            return Ok(false);
        };
        passes.push(pass)?;
    }
    Ok(true)
}

/// Ends the words with these passes, if all were taken.
fn close_words(
    alloc: Global,
    out: &mut Written,
    words: Words<Anything>,
    passes: Vec<Pass<Anything>>,
    taken: Result<bool, AllocError>,
)
    requires { IfOk taken (λ _. All (SitsAt words) passes.items) }
{
    match taken {
        Ok(true) => match close(alloc, words, passes) {
            Ok(closed) => put_closed(out, &closed),
            Err(_) => out.is_short = true,
        },
        Ok(false) => out.put(CANNOT),
        Err(_) => out.is_short = true,
    }
}

/// Answers the lines behind an opening up to the line that closes the words, and that one.
fn play(
    alloc: Global,
    out: &mut Written,
    words: Words<Anything>,
    named: bool,
    passes: Vec<Pass<Anything>>,
    lines: &[Vec<u8>],
    closing: &[u8],
)
    requires named { is_named words ≡ named }
    requires passes { All (AreOfOneOpening words) passes.items }
{
    let Ok(mut stands) = seat_all(alloc, &words, passes) else {
        out.is_short = true;
        return;
    };
    let mut numbers = Vec::new(alloc);
    answer_lines(alloc, out, &words, named, &mut stands, &mut numbers, lines);
    if let Some(names) = text_of(closing).strip_prefix("close") {
        let mut passes = Vec::new(alloc);
        let taken = take_passes(&words, &mut stands, &mut passes, names);
        drop(stands);
        out.put(closing);
        out.put(b": ");
        close_words(alloc, out, words, passes, taken);
        out.put(b"\n");
    }
}

/// Whether a word is 0, or names a range of a store of so many words.
fn is_name(word: u64, words: usize) -> bool
    ensures { IsTrue result → IsNameIn words word }
{
    let (start, len) = (word / LENGTHS, word % LENGTHS);
    word == 0 || len != 0 && start + len <= words as u64
}

/// Whether each of these words is 0, or names a range of a store of so many words.
fn are_names(values: &[u64], words: usize) -> bool
    ensures { IsTrue result → All (IsNameIn words) values.now }
{
    for value in values {
        if !is_name(*value, words) {
            return false;
        }
    }
    true
}

/// Whether the cells may have these values.
fn fits(named: bool, values: &[u64], store: &[u64]) -> bool
    ensures { IsTrue result → named ≡ true → All (IsNameIn (length store.now)) values.now }
{
    !named || are_names(values, store.len())
}

/// The first line that begins with `close`, or an empty one; and the lines in front of it and behind it.
fn cut_at_close(lines: &[Vec<u8>]) -> (&[Vec<u8>], &[u8], &[Vec<u8>]) {
    let at = lines
        .iter()
        .position(|line| line.starts_with(b"close"))
        .unwrap_or(lines.len());
    let (before, behind) = lines.split_at(at);
    match behind.split_first() {
        Some((closing, behind)) => (before, closing.as_slice(), behind),
        None => (before, b"", behind),
    }
}

/// Opens words by a line, whose values are these, and answers the lines behind.
fn open_words(
    alloc: Global,
    out: &mut Written,
    line: &str,
    named: bool,
    values: Vec<u64>,
    store: Vec<u64>,
    lines: &[Vec<u8>],
)
    requires { named ≡ true → All (IsNameIn (length store.items)) values.items }
{
    let (room, passes) = (count_at(line, 2), count_at(line, 4));
    match Words::<Anything>::open(alloc, &named, values, store, room, passes) {
        Ok((words, passes)) => {
            let (before, closing, behind) = cut_at_close(lines);
            out.put(b"opened\n");
            play(alloc, out, words, named, passes, before, closing);
            refuse_lines(out, behind);
        }
        Err(fault) => {
            out.show(format_args!("refused {fault}\n"));
            refuse_lines(out, lines);
        }
    }
}

/// Does what a line asks for that opens words, and answers the lines behind it; false where it can't.
fn answer_block(alloc: Global, out: &mut Written, line: &str, lines: &[Vec<u8>]) -> bool {
    let mut values = Vec::new(alloc);
    let mut store = Vec::new(alloc);
    let (front, lists) = line.split_once(" values").unwrap_or((line, ""));
    let (listed, stored) = lists.split_once(" store").unwrap_or(("no list", ""));
    if !read_numbers(out, &mut values, listed) || !read_numbers(out, &mut store, stored) {
        return false;
    }
    let named = front.ends_with(" named");
    if !fits(named, values.as_slice(), store.as_slice()) || !named && !front.ends_with(" plain") {
        return false;
    }
    open_words(alloc, out, front, named, values, store, lines);
    true
}

/// How many lines stand before the next that opens words.
fn block_length(lines: &[Vec<u8>]) -> usize
    ensures { result ≤ length lines.now }
{
    lines
        .iter()
        .position(|line| line.starts_with(b"open "))
        .unwrap_or(lines.len())
}

/// Answers the lines of a table.
fn answer_all(alloc: Global, out: &mut Written, lines: &[Vec<u8>]) {
    let (head, mut rest) = lines.split_at(block_length(lines));
    refuse_lines(out, head);
    // Each opening is a line at least.
    for _ in 0..lines.len() {
        let Some((line, behind)) = rest.split_first() else {
            break;
        };
        let (block, next) = behind.split_at(block_length(behind));
        out.put(line.as_slice());
        out.put(b": ");
        if !answer_block(alloc, out, text_of(line.as_slice()), block) {
            out.put(CANNOT);
            out.put(b"\n");
            refuse_lines(out, block);
        }
        rest = next;
    }
}

/// What the lines of a table are answered, in order.
///
/// # Errors
///
/// Want of memory.
pub fn answer_table(alloc: Global, lines: &[Vec<u8>]) -> Result<Vec<u8>, AllocError> {
    let mut out = Written::new(alloc);
    answer_all(alloc, &mut out, lines);
    if out.is_short {
        return Err(AllocError);
    }
    Ok(out.bytes)
}
