//! How many transactions of a run were done, and how many were not.

ghost use Rattle.std.specs.Prelude.{◌≡◌, ◌∷◌, ◌++◌, [], List};
ghost use Rattle.transaction.specs.declared.outcome.Outcome.{Outcome as OutcomeOf};
ghost use Rattle.transaction.specs.Closings.{lists_of};
ghost use Rattle.edittext.specs.Counts.{all_of, counted};

use transaction::Outcome;

/// How many transactions of a run were done, and how many were not: where there are more than `usize::MAX` of a kind, that is told.
#[derive(Clone, Copy, Debug)]
pub struct Counts {
    /// How many were committed: they are entries of the history.
    pub committed: usize,
    /// How many only read.
    pub read: usize,
    /// How many were not done.
    pub undone: usize,
}

impl Counts {
    /// With one transaction more.
    fn with(self, outcome: &Outcome) -> Counts
        ensures { (before : List OutcomeOf) → self ≡ counted before → result ≡ counted (before ++ outcome.now ∷ []) }
    {
        match outcome {
            Outcome::Committed { .. } => Counts {
                committed: self.committed.saturating_add(1),
                ..self
            },
            Outcome::Read { .. } => Counts {
                read: self.read.saturating_add(1),
                ..self
            },
            _ => Counts {
                undone: self.undone.saturating_add(1),
                ..self
            },
        }
    }
}

/// With those of a script.
fn count_script(mut counts: Counts, outcomes: &[Outcome]) -> Counts
    ensures { (before : List OutcomeOf) → counts ≡ counted before → result ≡ counted (before ++ outcomes.now) }
{
    for outcome in outcomes {
        counts = counts.with(outcome);
    }
    counts
}

/// Those of the transactions of scripts.
pub(crate) fn counts_of(rows: &[Vec<Outcome>]) -> Counts
    ensures { result ≡ counted (all_of (lists_of rows.now)) }
{
    let mut counts = Counts {
        committed: 0,
        read: 0,
        undone: 0,
    };
    for row in rows {
        counts = count_script(counts, row.as_slice());
    }
    counts
}
