//! Places in a script.

use library::{Command, Transaction};
use mmsyntax::{Label, Prelude, Proof};
use statementreader::{Recent, UnitReader};
use std::alloc::Global;

/// Which command it is, as its word says.
#[derive(Clone, Copy)]
pub enum Verb {
    /// `add`: a rank and an assertion.
    Add,
    /// `reprove`: a label, and another proof of it.
    Reprove,
    /// `replace`: a label, the old label that is cited there, and the new one.
    Replace,
    /// `rename`: the old label and the new one.
    Rename,
    /// `move`: a label and the new rank.
    Move,
    /// `delete`: a label.
    Delete,
    /// `show`: a label.
    Show,
    /// `list`: nothing.
    List,
}

/// The labels that were read of a command, in order. With a third one each command is whole.
#[derive(Drop)]
pub enum Labels {
    /// None yet.
    NoLabel,
    /// The first.
    One(Label),
    /// The first two.
    Two(Label, Label),
}

/// What was read of the command in which a token stands.
#[derive(Drop)]
pub enum CommandPlace<'a> {
    /// Its word, and labels.
    Behind(Verb, Labels),
    /// `add`, a rank, and the front of the assertion: on the heap, since a place moves with each token.
    InUnit(u32, Box<UnitReader<'a>, Global>),
    /// `reprove`, a label, `$=` and steps.
    InProof(Label, Proof),
}

/// What was read of the transaction in which a token stands.
#[derive(Drop)]
pub(super) enum Place<'a> {
    /// Between transactions.
    Outermost,
    /// Behind `begin` and whole commands.
    AtCommand(Vec<Command>),
    /// In a command behind those.
    Within(Vec<Command>, CommandPlace<'a>),
}

/// Where a token of a command leads.
#[derive(Drop)]
pub enum Led<'a> {
    /// To a place in the command.
    Inside(CommandPlace<'a>),
    /// Behind the command.
    Whole(Command),
}

/// How far a script was read, outside of comments.
#[derive(Drop)]
pub(super) struct ScriptReader<'a> {
    pub prelude: &'a Prelude,
    /// What is known of words, by the prelude.
    pub recent: Recent<'a>,
    /// The transactions that were committed, in order.
    pub script: Vec<Transaction>,
    /// The place behind them.
    pub place: Place<'a>,
}
