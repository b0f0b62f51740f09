//! Reading a history, token by token.

ghost use Rattle.std.specs.Prelude.{◌≡◌, All, IfOk};
ghost use Rattle.mmtext.specs.Views.{seen, Gives};
ghost use Rattle.mmtext.specs.Laws.{IsRead};
ghost use Rattle.mmsyntax.specs.Tables.{Tables};
ghost use Rattle.historytext.specs.Grammar.{SpellsHistory};
ghost use Rattle.historytext.specs.Layout.{EntryFitsText};
ghost use Rattle.historytext.specs.Places.{entry_row, in_place, whole, history_language};
ghost use Rattle.historytext.specs.Views.{seen_place, seen_at};

use crate::entry_rows::read_in_entry;
use crate::place::{EntryPlace, HistoryReader, Place, ReplyPlace};
use crate::reply_rows::read_count;
use library::{Entry, History};
use mmsyntax::{MOST_BYTES, Prelude, Sequence};
use mmtext::{FaultKind, Mark, Reader, Stop, TextFault, Token, fault_at, read};
use scripts::take_in_command;
use statementreader::Recent;
use std::alloc::Global;
use std::mem;

/// With so many entries left: `void` or `done`.
fn read_at_entry<'a>(
    entries: &mut Vec<Entry>,
    left: u64,
    token: Token<'a>,
) -> Result<Place<'a>, Stop>
    ensures { (t : Tables) → Gives (seen_at t entries.new.items) result (entry_row entries.old.items left (seen token.entry)) }
{
    if left == 0 {
        return Err(fault_at(token, FaultKind::BadToken));
    }
    if token.text == b"void".as_slice() {
        entries.push(Entry::Void)?;
        return Ok(Place::AtEntry(left - 1));
    }
    if token.text == b"done".as_slice() {
        return Ok(Place::InEntry(left - 1, EntryPlace::AtBegin));
    }
    Err(fault_at(token, FaultKind::BadToken))
}

/// Where a token leads that stands in no comment and opens none. An entry that it ends is put behind the others.
fn next_place<'a>(
    alloc: Global,
    prelude: &Prelude,
    entries: &mut Vec<Entry>,
    place: Place<'a>,
    token: Token<'a>,
) -> Result<Place<'a>, Stop>
    ensures { Gives (seen_at prelude.now entries.new.items) result
        (in_place prelude.now entries.old.items (seen_place prelude.now place.entry) (seen token.entry)) }
{
    match place {
        Place::AtHistory if token.text == b"history".as_slice() => Ok(Place::AtCount),
        Place::AtHistory => Err(fault_at(token, FaultKind::BadToken)),
        Place::AtCount => Ok(Place::AtEntry(read_count(token)?)),
        Place::AtEntry(left) => read_at_entry(entries, left, token),
        Place::InEntry(left, place) => {
            read_in_entry(alloc, prelude, entries, left, place, token)
        }
    }
}

/// Goes from a place to where a token leads.
fn advance<'a>(
    alloc: Global,
    prelude: &Prelude,
    entries: &mut Vec<Entry>,
    place: &mut Place<'a>,
    token: Token<'a>,
) -> Result<(), Stop>
    ensures { Gives (λ _. seen_at prelude.now entries.new.items place.new) result
        (in_place prelude.now entries.old.items (seen_place prelude.now place.old) (seen token.entry)) }
{
    let here = mem::replace(place, Place::AtHistory);
    let next = next_place(alloc, prelude, entries, here, token)?;
    drop(mem::replace(place, next));
    Ok(())
}

/// The history of the entries that were read, where it may end at a place: no entry is left.
fn ended_at(entries: Vec<Entry>, place: &Place<'_>) -> Option<History>
    ensures { (t : Tables) → result ≡ whole entries.items (seen_place t place.now) }
{
    match place {
        Place::AtEntry(0) => Some(Sequence::from_vec(entries)),
        _ => None,
    }
}

impl<'a> Reader<'a> for HistoryReader<'a> {
    ghost use Rattle.std.specs.Prelude.{List};
    ghost use Rattle.library.specs.declared.history.Entry.{Entry};
    ghost use Rattle.statementreader.specs.Recalls.{RecallsTrue};
    ghost use Rattle.historytext.specs.Places.{Progress, history_language};
    ghost use Rattle.historytext.specs.Views.{seen_progress};

    type Said = History;

    ghost Place = { Progress };

    ghost Meaning = { List Entry };

    ghost language = { λ r. history_language r.prelude.now };

    ghost place = { seen_progress };

    ghost IsReady = { λ r. RecallsTrue r.prelude.now r.recent };

    ghost meaning = { λ history. history };

    fn most_bytes(&self) -> usize {
        MOST_BYTES
    }

    fn take_word(&mut self, alloc: Global, token: Token<'a>) -> Result<bool, Stop> {
        match &mut self.place {
            Place::InEntry(_, EntryPlace::Within(_, place)) => {
                take_in_command(alloc, self.prelude, &mut self.recent, place, token)
            }
            Place::InEntry(_, EntryPlace::Answering(_, _, ReplyPlace::InShown(_, _, reader))) => {
                reader.take_word(alloc, self.prelude, &mut self.recent, token)
            }
            _ => Ok(false),
        }
    }

    fn take(&mut self, alloc: Global, token: Token<'a>, _mark: Mark) -> Result<(), Stop> {
        advance(
            alloc,
            self.prelude,
            &mut self.entries,
            &mut self.place,
            token,
        )
    }

    fn finish(self) -> Option<History> {
        let HistoryReader {
            prelude: _,
            recent,
            entries,
            place,
        } = self;
        drop(recent);
        let ended = ended_at(entries, &place);
        drop(place);
        ended
    }
}

/// The history that a text spells over a prelude: `history`, the number of entries, and so many entries. Comments may stand between any two
/// words.
///
/// An entry is `void`, or `done` with a transaction as in a script and one reply for each of its commands. A reply is `done`; `shown` with
/// a rank, the number of citers and one `$a` or `$p`, alone or in its block; or `listed` with the number of lines and so many lines. A line
/// is a rank, a label, `a` or `p`, and the number of citers. Numbers of entries, lines and citers are up to 18,446,744,073,709,551,615, and
/// ranks up to 4,294,967,295, in decimal digits without leading zero. Memory is taken for what was read, and not for what a number
/// announces.
///
/// # Errors
///
/// The first fault of the text: `TooLong` at 16,777,216 if it has more bytes than that; else `BadByte` at the first byte that is neither
/// printable ASCII nor white space, also in a comment; else the fault of the first token that may not stand at its place; else `Unfinished`
/// at the length of a text that ends before its last entry does, or in a comment. `NoMemory`, with place 0, if memory ran out.
///
/// A token that may not stand at its place is `BadToken`, also behind the last entry, and besides:
///
/// - `OutOfProfile` for `$[` and `$]` outside of comments;
/// - `TooLong` for a number that is higher;
/// - in a command the faults of `read_script`, and in an assertion those of `read_assertion`.
pub fn read_history(alloc: Global, prelude: &Prelude, text: &[u8]) -> Result<History, TextFault>
    // What is read is spelled so, and what is spelled so is read, unless memory runs out; a fault is the text's, or want of memory.
    ensures read { IsRead (history_language prelude.now) (SpellsHistory prelude.now) text.now result }
    // Its commands and replies are within the limits of the prelude.
    ensures fits { IfOk result (λ history. All (EntryFitsText prelude.now) history) }
{
    // Some text declares a prelude, so what is read over it fits.
    // For the proof: some text declares the prelude.
    let _floats = prelude.floats();
    let reader = HistoryReader {
        prelude,
        recent: Recent::for_text(alloc, text.len()),
        entries: Vec::new(alloc),
        place: Place::AtHistory,
    };
    read(alloc, reader, text)
}
