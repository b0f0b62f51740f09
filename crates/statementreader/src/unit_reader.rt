//! Reading a single assertion over a prelude token by token, for languages that have assertions in them.

ghost use Rattle.std.specs.Prelude.{◌≡◌};
ghost use Rattle.mmsyntax.specs.Tables.{Tables};
ghost use Rattle.mmsyntax.specs.Faults.{row};
ghost use Rattle.mmtext.specs.Views.{seen};
ghost use Rattle.statementreader.specs.Views.{seen_place, seen_position, IsUnitPlace};
ghost use Rattle.statementreader.specs.UnitReadings.{nothing_read, position_of, GoesOn};
ghost use Rattle.statementreader.specs.UnitViews.{IsProgress, Progresses, TakesInUnit};
ghost use Rattle.statementreader.specs.Recalls.{RecallsTrue};

use crate::place::{MarkedToken, Place, Scope, UnitPlace};
use crate::recent::Recent;
use crate::unit_rows::next_unit_place;
use crate::units::is_behind_unit;
use crate::words::take_unit_word;
use mmsyntax::{Assertion, Prelude};
use mmtext::{Stop, Token, mark_word};
use mmunits::Units;
use std::alloc::Global;
use std::hash::RandomState;
use std::marker::Model;

/// How far an assertion was read, alone or in its block. Contracts see what is known of it, and the place.
pub struct UnitReader<'a> {
    units: Units,
    place: UnitPlace<'a>,
}

// Proved here once: a derived drop is proved again in each crate that drops such a value.
impl<'a> Drop for UnitReader<'a> {
    fn drop(self) {
        let UnitReader { units, place } = self;
        drop(units);
        drop(place);
    }
}

impl<'a> Model for UnitReader<'a> {
    ghost use Rattle.statementreader.specs.Views.{seen_unit_place};
    ghost use Rattle.statementreader.specs.UnitReadings.{UnitReading, GoesOn};

    ghost Value = { UnitReading };

    ghost view = { λ r. record { units = r.units; place = seen_unit_place r.place } };

    ghost invariant = { λ r. GoesOn (record { units = r.units; place = seen_unit_place r.place }) };
}

/// What was read behind a token of an assertion.
#[derive(Drop)]
pub enum UnitProgress<'a> {
    /// The assertion goes on.
    Within(UnitReader<'a>),
    /// The token was its last.
    Whole(Assertion),
}

/// What was read at a place.
fn progress<'a>(units: Units, place: Place<'a>) -> UnitProgress<'a>
    requires unit { IsUnitPlace place }
    requires goes_on { GoesOn (record { units = units; place = seen_place place }) }
    ensures { (t : Tables) → IsProgress t result (seen_position t units place.entry) }
{
    if is_behind_unit(&units, &place) {
        drop(place);
        return match units.into_first() {
            Some(assertion) => UnitProgress::Whole(assertion),
            None => unreachable!(),
        };
    }
    match place {
        Place::Prelude(_) => unreachable!(),
        Place::Unit(place) => UnitProgress::Within(UnitReader { units, place }),
    }
}

impl<'a> UnitReader<'a> {
    /// Before the first token. `keys` make the hashes of the maps that reading needs.
    pub fn new(alloc: Global, keys: RandomState) -> Self
        ensures { result ≡ nothing_read }
    {
        UnitReader {
            units: Units::new(alloc, keys, true),
            place: UnitPlace::AtStart(Scope::Outside),
        }
    }

    /// What was read behind one more token, which stands outside of comments. All tokens of an assertion are read over one prelude.
    ///
    /// # Errors
    ///
    /// The fault that [`read_assertion`](crate::read_assertion) has at the token, or want of memory.
    pub fn read(
        self,
        alloc: Global,
        prelude: &Prelude,
        token: Token<'a>,
    ) -> Result<UnitProgress<'a>, Stop>
        ensures { Progresses prelude.now result (row (position_of prelude.now self.entry) (seen token.entry)) }
    {
        let UnitReader { mut units, place } = self;
        let marked = MarkedToken {
            token,
            mark: mark_word(token.text),
        };
        match next_unit_place(alloc, prelude.symbols(), &mut units, place, marked) {
            Ok(place) => Ok(progress(units, place)),
            Err(stop) => {
                drop(units);
                Err(stop)
            }
        }
    }

    /// Takes a word without `$`, which stands outside of comments, if that is a symbol of an expression or a step of a proof: those grow
    /// where they lie. Whether it did. What was looked up lately is of the same prelude.
    ///
    /// # Errors
    ///
    /// As [`UnitReader::read`].
    pub fn take_word(
        &mut self,
        alloc: Global,
        prelude: &Prelude,
        recent: &mut Recent<'a>,
        token: Token<'a>,
    ) -> Result<bool, Stop>
        requires { RecallsTrue prelude.now recent.old }
        ensures knows { RecallsTrue prelude.now recent.new }
        ensures taken { TakesInUnit prelude.now self.old (seen token.entry) self.new result }
    {
        take_unit_word(alloc, prelude.symbols(), recent, &mut self.place, token)
    }
}
