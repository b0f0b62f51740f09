//! What stands at each place: a pass at rest, its run, or nothing.

ghost use Rattle.std.specs.Prelude.{◌≡◌};

use tlwords::{Law, Mode, Pass, Range, Run};

/// Any transaction is lawful. The setting says whether each cell holds 0 or a word that names a range.
pub struct Anything;

impl Law for Anything {
    type Setting = bool;

    type Note = u64;

    ghost terms = { record { lawful = λ _ _ _ _ _. Unit {0}; opens = λ _ _ _. Unit {0}; ranged = λ named _. named } };
}

/// A pass at rest.
#[derive(Drop)]
pub struct Resting {
    /// The pass.
    pub pass: Pass<Anything>,
    /// The ranges of the store that it knows of.
    pub ranges: Vec<Range>,
}

/// A run, with what was asked of it.
pub struct Playing<'w> {
    /// The run.
    pub run: Run<'w, Anything>,
    /// What it may do.
    pub mode: Mode,
    /// The cells that it has read, where it may write.
    pub read: Vec<usize>,
    /// The ranges of the store that its pass knows of.
    pub ranges: Vec<Range>,
}

impl Drop for Playing<'_> {
    fn drop(self) {
        let Playing {
            run,
            mode: _,
            read: _,
            ranges: _,
        } = self;
        let _ = run.leave();
    }
}

impl<'w> Playing<'w> {
    /// The run, and the ranges that its pass knows of.
    pub fn into_parts(self) -> (Run<'w, Anything>, Vec<Range>)
        ensures run { result.0 ≡ self.entry.run }
        ensures ranges { result.1 ≡ self.entry.ranges }
    {
        let Playing {
            run,
            mode: _,
            read: _,
            ranges,
        } = self;
        (run, ranges)
    }
}

/// What stands at a place.
#[derive(Drop)]
pub enum Stand<'w> {
    /// A pass at rest.
    AtRest(Resting),
    /// A run of it.
    Running(Playing<'w>),
    /// Nothing.
    Gone,
}
