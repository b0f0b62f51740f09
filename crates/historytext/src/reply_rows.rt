//! Reading a reply: one function for each kind of word in it.

ghost use Rattle.std.specs.Prelude.{◌≡◌, ◌++◌, ◌∷◌, []};
ghost use Rattle.mmtext.specs.Text.{Token as SeenToken};
ghost use Rattle.mmtext.specs.Views.{seen, Gives};
ghost use Rattle.mmsyntax.specs.Tables.{Tables};
ghost use Rattle.mmsyntax.specs.Faults.{row};
ghost use Rattle.statementreader.specs.UnitReadings.{position_of};
ghost use Rattle.historytext.specs.Places.{at_citers, at_kind, at_label, at_line, in_reply, lines_left, reply_word, shown_row};
ghost use Rattle.historytext.specs.Views.{answer, count_at, kind_at, seen_answered, seen_reply_place};

use crate::place::{Answered, ReplyPlace};
use library::{Line, Reply};
use mmsyntax::{Kind, Label, Prelude, Sequence};
use mmtext::{FaultKind, Stop, Token, fault_at};
use scripts::{count, is_numeral, read_label, read_rank};
use statementreader::{UnitProgress, UnitReader};
use std::alloc::Global;

/// A number of entries, lines or citers: a numeral, up to 18,446,744,073,709,551,615.
pub(crate) fn read_count(token: Token<'_>) -> Result<u64, Stop>
    ensures { Gives (λ n. n) result (count_at (seen token.entry)) }
{
    if !is_numeral(token.text) {
        return Err(fault_at(token, FaultKind::BadToken));
    }
    match count(token.text) {
        Some(number) => Ok(number),
        None => Err(fault_at(token, FaultKind::TooLong)),
    }
}

/// The kind in a line: `a` or `p`.
fn read_kind(token: Token<'_>) -> Result<Kind, Stop>
    ensures { Gives (λ k. k) result (kind_at (seen token.entry)) }
{
    if token.text == b"a".as_slice() {
        Ok(Kind::Axiom)
    } else if token.text == b"p".as_slice() {
        Ok(Kind::Theorem)
    } else {
        Err(fault_at(token, FaultKind::BadToken))
    }
}

/// Behind whole lines, with so many left.
fn lines_left<'a>(left: u64, lines: Vec<Line>) -> Answered<'a>
    ensures { (t : Tables) → seen_answered t result ≡ lines_left left lines.items }
{
    if left == 0 {
        let lines = Sequence::from_vec(lines);
        return Answered::Whole(Reply::Listed(lines));
    }
    Answered::Going(ReplyPlace::AtLine(left - 1, lines))
}

/// One more line behind the others, with so many left.
fn go_on_listing<'a>(left: u64, mut lines: Vec<Line>, line: Line) -> Result<Answered<'a>, Stop>
    ensures { (t : Tables) (token : SeenToken) → Gives (seen_answered t) result
        (answer token (lines_left left (lines.items ++ line ∷ []))) }
{
    lines.push(line)?;
    Ok(lines_left(left, lines))
}

/// A token of the assertion that is shown.
fn read_in_shown<'a>(
    alloc: Global,
    prelude: &Prelude,
    rank: u32,
    citers: u64,
    reader: UnitReader<'a>,
    token: Token<'a>,
) -> Result<Answered<'a>, Stop>
    ensures { Gives (seen_answered prelude.now) result
        (answer (seen token.entry) (shown_row rank citers (row (position_of prelude.now reader.entry) (seen token.entry)))) }
{
    match reader.read(alloc, prelude, token)? {
        UnitProgress::Within(reader) => {
            Ok(Answered::Going(ReplyPlace::InShown(rank, citers, reader)))
        }
        UnitProgress::Whole(assertion) => {
            Ok(Answered::Whole(Reply::Shown {
                rank,
                citers,
                assertion,
            }))
        }
    }
}

/// The word of a reply.
pub(crate) fn read_reply_word<'a>(token: Token<'a>) -> Result<Answered<'a>, Stop>
    ensures { (t : Tables) → Gives (seen_answered t) result (answer (seen token.entry) (reply_word token.entry.text.now)) }
{
    let word = token.text;
    if word == b"done".as_slice() {
        Ok(Answered::Whole(Reply::Done))
    } else if word == b"shown".as_slice() {
        Ok(Answered::Going(ReplyPlace::AtShownRank))
    } else if word == b"listed".as_slice() {
        Ok(Answered::Going(ReplyPlace::AtLines))
    } else {
        Err(fault_at(token, FaultKind::BadToken))
    }
}

/// At the rank of a line, with so many others left, behind whole lines.
fn read_line_rank<'a>(left: u64, lines: Vec<Line>, token: Token<'a>) -> Result<Answered<'a>, Stop>
    ensures { (t : Tables) → Gives (seen_answered t) result
        (answer (seen token.entry) (in_reply t (at_line left lines.items) (seen token.entry))) }
{
    match read_rank(token) {
        Ok(rank) => Ok(Answered::Going(ReplyPlace::AtLabel(left, lines, rank))),
        Err(stop) => Err(stop),
    }
}

/// At its label.
fn read_line_label<'a>(
    alloc: Global,
    left: u64,
    lines: Vec<Line>,
    rank: u32,
    token: Token<'a>,
) -> Result<Answered<'a>, Stop>
    ensures { (t : Tables) → Gives (seen_answered t) result
        (answer (seen token.entry) (in_reply t (at_label left lines.items rank) (seen token.entry))) }
{
    match read_label(alloc, token) {
        Ok(label) => Ok(Answered::Going(ReplyPlace::AtKind(left, lines, rank, label))),
        Err(stop) => Err(stop),
    }
}

/// At its kind.
fn read_line_kind<'a>(
    left: u64,
    lines: Vec<Line>,
    rank: u32,
    label: Label,
    token: Token<'a>,
) -> Result<Answered<'a>, Stop>
    ensures { (t : Tables) → Gives (seen_answered t) result
        (answer (seen token.entry) (in_reply t (at_kind left lines.items rank label) (seen token.entry))) }
{
    match read_kind(token) {
        Ok(kind) => Ok(Answered::Going(ReplyPlace::AtCiters(left, lines, rank, label, kind))),
        Err(stop) => Err(stop),
    }
}

/// At its number of citers.
fn read_line_citers<'a>(
    left: u64,
    lines: Vec<Line>,
    rank: u32,
    label: Label,
    kind: Kind,
    token: Token<'a>,
) -> Result<Answered<'a>, Stop>
    ensures { (t : Tables) → Gives (seen_answered t) result
        (answer (seen token.entry) (in_reply t (at_citers left lines.items rank label kind) (seen token.entry))) }
{
    let citers = read_count(token)?;
    let line = Line {
        rank,
        label,
        kind,
        citers,
    };
    go_on_listing(left, lines, line)
}

/// Where a token leads that stands in a reply.
pub(crate) fn read_in_reply<'a>(
    alloc: Global,
    prelude: &Prelude,
    place: ReplyPlace<'a>,
    token: Token<'a>,
) -> Result<Answered<'a>, Stop>
    ensures { Gives (seen_answered prelude.now) result
        (answer (seen token.entry) (in_reply prelude.now (seen_reply_place prelude.now place.entry) (seen token.entry))) }
{
    let next = match place {
        ReplyPlace::AtShownRank => {
            let rank = read_rank(token)?;
            ReplyPlace::AtShownCiters(rank)
        }
        ReplyPlace::AtShownCiters(rank) => {
            let citers = read_count(token)?;
            ReplyPlace::InShown(rank, citers, UnitReader::new(alloc, prelude.keys()))
        }
        ReplyPlace::InShown(rank, citers, reader) => {
            return read_in_shown(alloc, prelude, rank, citers, reader, token);
        }
        ReplyPlace::AtLines => {
            let left = read_count(token)?;
            return Ok(lines_left(left, Vec::new(alloc)));
        }
        ReplyPlace::AtLine(left, lines) => return read_line_rank(left, lines, token),
        ReplyPlace::AtLabel(left, lines, rank) => {
            return read_line_label(alloc, left, lines, rank, token);
        }
        ReplyPlace::AtKind(left, lines, rank, label) => {
            return read_line_kind(left, lines, rank, label, token);
        }
        ReplyPlace::AtCiters(left, lines, rank, label, kind) => {
            return read_line_citers(left, lines, rank, label, kind, token);
        }
    };
    Ok(Answered::Going(next))
}
