//! The assertion being proved, made ready for look-ups of its restricted pairs.

ghost use Rattle.std.specs.Prelude.{◌≡◌, ◌<◌, IfSome, length, slice_index_or};
ghost use Rattle.derivation.specs.Lookups.{IsPlaceOfPair};

use mmsyntax::{Assertion, Prelude};
use std::marker::Model;

/// How many pairs are looked at before all are.
const FEW: usize = 16;

/// The assertion being proved. It is told once whether its pairs ascend, as those of each assertion that fits a prelude do. Contracts
/// see the assertion.
#[derive(Drop)]
pub(crate) struct Thesis<'a> {
    assertion: &'a Assertion,
    ascends: bool,
}

impl<'a> Model for Thesis<'a> {
    ghost use Rattle.std.specs.Prelude.{◌≡◌, true};
    ghost use Rattle.mmsyntax.specs.declared.statement.Assertion.{Assertion};
    ghost use Rattle.derivation.specs.Lookups.{ArePairsSorted};

    ghost Value = { Assertion };

    ghost view = { λ t. t.assertion.now };

    ghost invariant = { λ t. t.ascends ≡ true → ArePairsSorted t.assertion.now.pairs };
}

/// What the steps of a proof are taken for: an assertion, over a prelude.
#[derive(Clone, Copy)]
pub(crate) struct Proving<'s, 'a> {
    pub(crate) prelude: &'s Prelude,
    pub(crate) thesis: &'s Thesis<'a>,
}

/// The place of a pair among the few from a place on, if it is found there.
fn place_near(pairs: &[(u32, u32)], pair: (u32, u32), near: usize) -> Option<usize>
    ensures { IfSome result (λ i. (i < length pairs.now) × (slice_index_or pairs.now i pair ≡ pair)) }
{
    let end = near.saturating_add(FEW).min(pairs.len());
    if near > end {
        return None;
    }
    let few = &pairs[near..end];
    match few.binary_search(&pair) {
        Ok(i) => Some(near + i),
        Err(_) => None,
    }
}

impl<'a> Thesis<'a> {
    /// The assertion, whose pairs are gone through once.
    pub(crate) fn new(assertion: &'a Assertion) -> Thesis<'a>
        ensures { result ≡ assertion.now }
    {
        Thesis {
            assertion,
            ascends: assertion.pairs.as_slice().is_sorted(),
        }
    }

    pub(crate) fn assertion(&self) -> &'a Assertion
        ensures { result.now ≡ self.now }
    {
        self.assertion
    }

    /// The place of a pair, if the assertion restricts it: among the few that stand next from a place on, else by halving where the
    /// pairs ascend.
    pub(crate) fn place_of(&self, pair: (u32, u32), near: usize) -> Option<usize>
        ensures { IsPlaceOfPair self.now.pairs pair result }
    {
        let pairs = self.assertion.pairs.as_slice();
        if let Some(place) = place_near(pairs, pair, near) {
            return Some(place);
        }
        if self.ascends {
            pairs.binary_search(&pair).ok()
        } else {
            pairs.iter().position(|other| *other == pair)
        }
    }
}
