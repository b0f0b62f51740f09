//! Reading a single assertion over a prelude, alone or in its block.

ghost use Rattle.std.specs.Prelude.{◌≡◌, is_some, IfOk, OnOk};
ghost use Rattle.mmsyntax.specs.declared.statement.Assertion.{Assertion};
ghost use Rattle.mmtext.specs.Text.{mark_of};
ghost use Rattle.mmsyntax.specs.Tables.{Tables};
ghost use Rattle.mmtext.specs.Laws.{IsRead};
ghost use Rattle.mmsyntax.specs.Faults.{unit_at, unit_row, unit_language, first_of};
ghost use Rattle.mmsyntax.specs.Grammar.{SpellsUnit};
ghost use Rattle.mmtext.specs.Views.{seen, Gives};
ghost use Rattle.statementreader.specs.Standing.{SuitsPlace};
ghost use Rattle.statementreader.specs.Readers.{IsReadyUnit};
ghost use Rattle.mmunits.specs.Views.{known_of};
ghost use Rattle.statementreader.specs.Views.{seen_place, seen_position, IsUnitPlace, Leads};

use crate::place::{MarkedToken, Place, Scope, UnitPlace, is_outermost};
use crate::unit_rows::next_unit_place;
use mmsyntax::{Assertion, MOST_BYTES, Prelude, SymbolTable};
use mmtext::{FaultKind, Mark, Reader, Stop, TextFault, Token, fault_at, read};
use mmunits::Units;
use std::alloc::Global;
use std::hash::RandomState;
use std::mem;

/// How far an assertion was read over the symbols of a prelude, outside of comments.
#[derive(Drop)]
struct AssertionReader<'a> {
    symbols: &'a SymbolTable,
    units: Units,
    place: Place<'a>,
}

/// Whether a place is behind the unit.
pub(crate) fn is_behind_unit(units: &Units, place: &Place<'_>) -> bool
    ensures { (t : Tables) → result ≡ is_some (unit_at (known_of t units.now) (seen_place place.now)) }
{
    is_outermost(place) && units.count() > 0
}

/// Where a token leads that stands outside of comments: nowhere behind the unit.
fn place_by_row<'a>(
    alloc: Global,
    symbols: &SymbolTable,
    units: &mut Units,
    place: Place<'a>,
    marked: MarkedToken<'a>,
) -> Result<Place<'a>, Stop>
    requires stands { SuitsPlace (known_of symbols.now units.old) (seen_place place) }
    requires unit { IsUnitPlace place }
    requires mark { marked.mark ≡ mark_of marked.token.text.now }
    ensures { Leads symbols.now units.new result (unit_row (seen_position symbols.now units.old place.entry) (seen marked.entry.token)) }
{
    if is_behind_unit(units, &place) {
        drop(place);
        return Err(fault_at(marked.token, FaultKind::BadToken));
    }
    match place {
        Place::Prelude(_) => unreachable!(),
        Place::Unit(place) => next_unit_place(alloc, symbols, units, place, marked),
    }
}

/// The same; and what is true of a reader at a place is true of it behind the token too.
fn next_place<'a>(
    alloc: Global,
    symbols: &SymbolTable,
    units: &mut Units,
    place: Place<'a>,
    marked: MarkedToken<'a>,
) -> Result<Place<'a>, Stop>
    requires ready { IsReadyUnit place units.old }
    requires mark { marked.mark ≡ mark_of marked.token.text.now }
    ensures leads { Leads symbols.now units.new result
        (unit_row (seen_position symbols.now units.old place.entry) (seen marked.entry.token)) }
    ensures ready { IfOk result (λ p. IsReadyUnit p units.new) }
{
    place_by_row(alloc, symbols, units, place, marked)
}

/// Goes from a place to where a token leads.
fn advance<'a>(
    alloc: Global,
    symbols: &SymbolTable,
    units: &mut Units,
    place: &mut Place<'a>,
    marked: MarkedToken<'a>,
) -> Result<(), Stop>
    requires ready { IsReadyUnit place.old units.old }
    requires mark { marked.mark ≡ mark_of marked.token.text.now }
    ensures leads { Gives (λ _. seen_position symbols.now units.new place.new) result
        (unit_row (seen_position symbols.now units.old place.old) (seen marked.entry.token)) }
    ensures ready { OnOk result (IsReadyUnit place.new units.new) }
{
    let here = mem::replace(place, Place::Unit(UnitPlace::AtClose));
    let next = next_place(alloc, symbols, units, here, marked)?;
    drop(mem::replace(place, next));
    Ok(())
}

/// The assertion that was read, if there is one.
fn into_said(reader: AssertionReader<'_>) -> Option<Assertion>
    ensures { result ≡ first_of reader.entry.units.assertions }
{
    let AssertionReader {
        symbols: _,
        units,
        place,
    } = reader;
    drop(place);
    units.into_first()
}

impl<'a> Reader<'a> for AssertionReader<'a> {
    ghost use Rattle.mmsyntax.specs.declared.statement.Assertion.{Assertion};
    ghost use Rattle.mmsyntax.specs.Faults.{Position, unit_language};
    ghost use Rattle.statementreader.specs.Readers.{assertion_place, IsReadyUnit};

    type Said = Assertion;

    ghost Place = { Position };

    ghost Meaning = { Assertion };

    ghost language = { λ r. unit_language r.symbols.now };

    ghost place = { assertion_place };

    ghost IsReady = { λ r. IsReadyUnit r.place r.units };

    ghost meaning = { λ assertion. assertion };

    fn most_bytes(&self) -> usize {
        MOST_BYTES
    }

    fn take_word(&mut self, _alloc: Global, _token: Token<'a>) -> Result<bool, Stop> {
        Ok(false)
    }

    fn take(&mut self, alloc: Global, token: Token<'a>, mark: Mark) -> Result<(), Stop> {
        advance(
            alloc,
            self.symbols,
            &mut self.units,
            &mut self.place,
            MarkedToken { token, mark },
        )
    }

    fn finish(self) -> Option<Assertion> {
        let is_whole = is_outermost(&self.place);
        let said = into_said(self);
        if is_whole {
            return said;
        }
        drop(said);
        None
    }
}

/// The assertion that a text spells over a prelude: one `$a` or `$p`, alone or in its block.
///
/// As `read_database` of `mmreader` reads it behind the prelude. The prelude is neither changed nor kept; `keys` make the
/// hashes of the maps that reading needs.
///
/// # Errors
///
/// Those of `read_database`, where `$c`, `$v` and `$f` are `OutOfProfile` as behind an assertion, and `RepeatedLabel` and `LabelClashes`
/// look at the prelude and at the labels of the text alone. Besides: `BadToken` at the first token behind the assertion or its block,
/// other than those of comments; `Unfinished` at the length of a text that ends before them.
pub fn read_assertion(
    alloc: Global,
    keys: RandomState,
    prelude: &Prelude,
    text: &[u8],
) -> Result<Assertion, TextFault>
    // What is read is spelled so, and what is spelled so is read, unless memory runs out; a fault is the text's, or want of memory.
    ensures { IsRead (unit_language prelude.now) (SpellsUnit prelude.now) text.now result }
{
    let reader = AssertionReader {
        symbols: prelude.symbols(),
        units: Units::new(alloc, keys, true),
        place: Place::Unit(UnitPlace::AtStart(Scope::Outside)),
    };
    read(alloc, reader, text)
}
