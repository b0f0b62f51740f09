//! Places in a history.

use library::{Command, Entry, Line, Reply};
use mmsyntax::{Kind, Label, Prelude};
use scripts::CommandPlace;
use statementreader::{Recent, UnitReader};

/// What was read of the reply in which a token stands.
#[derive(Drop)]
pub(crate) enum ReplyPlace<'a> {
    /// Behind `shown`.
    AtShownRank,
    /// Behind `shown` and a rank.
    AtShownCiters(u32),
    /// Behind `shown`, a rank and the number of citers, in the assertion.
    InShown(u32, u64, UnitReader<'a>),
    /// Behind `listed`.
    AtLines,
    /// At the rank of a line, with so many others left, behind whole lines.
    AtLine(u64, Vec<Line>),
    /// At its label, behind its rank.
    AtLabel(u64, Vec<Line>, u32),
    /// At its kind, behind its rank and label.
    AtKind(u64, Vec<Line>, u32, Label),
    /// At its number of citers.
    AtCiters(u64, Vec<Line>, u32, Label, Kind),
}

/// Where a token of a reply leads.
#[derive(Drop)]
pub(crate) enum Answered<'a> {
    /// To a place in the reply.
    Going(ReplyPlace<'a>),
    /// Behind the reply.
    Whole(Reply),
}

/// What was read of the entry in which a token stands.
#[derive(Drop)]
pub(crate) enum EntryPlace<'a> {
    /// Behind `done`.
    AtBegin,
    /// Behind `begin` and whole commands.
    AtCommand(Vec<Command>),
    /// In a command behind those.
    Within(Vec<Command>, CommandPlace<'a>),
    /// Behind `commit` and whole replies to these commands.
    AtReply(Vec<Command>, Vec<Reply>),
    /// In a reply behind those.
    Answering(Vec<Command>, Vec<Reply>, ReplyPlace<'a>),
}

/// What was read of a history.
#[derive(Drop)]
pub(crate) enum Place<'a> {
    /// Nothing.
    AtHistory,
    /// Behind `history`.
    AtCount,
    /// With so many entries left.
    AtEntry(u64),
    /// In an entry, with so many others left.
    InEntry(u64, EntryPlace<'a>),
}

/// How far a history was read, outside of comments.
#[derive(Drop)]
pub(crate) struct HistoryReader<'a> {
    pub prelude: &'a Prelude,
    /// What is known of words, by the prelude.
    pub recent: Recent<'a>,
    /// The entries that are whole, in order.
    pub entries: Vec<Entry>,
    /// The place behind them.
    pub place: Place<'a>,
}
