//! Reading a database, token by token.

ghost use Rattle.std.specs.Prelude.{◌≡◌, IfOk, OnOk};
ghost use Rattle.mmtext.specs.Laws.{IsRead};
ghost use Rattle.mmtext.specs.Text.{mark_of};
ghost use Rattle.mmsyntax.specs.Faults.{row, database_language};
ghost use Rattle.mmsyntax.specs.Grammar.{Spells};
ghost use Rattle.mmtext.specs.Views.{seen, Gives};
ghost use Rattle.statementreader.specs.Recalls.{RecallsTrue};
ghost use Rattle.statementreader.specs.Standing.{SuitsPlace};
ghost use Rattle.mmunits.specs.Views.{known_of};
ghost use Rattle.statementreader.specs.Views.{seen_place, seen_position, IsUnitPlace, Leads};

use mmsyntax::{Assertion, Database, MOST_BYTES, Prelude, Sequence, SymbolTable};
use mmtext::{Mark, Reader, Stop, TextFault, Token, read};
use mmunits::Units;
use statementreader::{
    MarkedToken, Place, Recent, Scope, UnitPlace, is_outermost, next_prelude_place,
    next_unit_place, take_word,
};
use std::alloc::Global;
use std::hash::RandomState;
use std::mem;

/// How far a database was read, outside of comments.
#[derive(Drop)]
struct DatabaseReader<'a> {
    symbols: SymbolTable,
    units: Units,
    /// What is known of words, by the symbols.
    recent: Recent<'a>,
    place: Place<'a>,
}

/// Where a token leads that stands outside of comments; and what stands at a place stands behind the token too.
fn next_place<'a>(
    alloc: Global,
    symbols: &mut SymbolTable,
    units: &mut Units,
    place: Place<'a>,
    marked: MarkedToken<'a>,
) -> Result<Place<'a>, Stop>
    requires stands { SuitsPlace (known_of symbols.old units.old) (seen_place place) }
    requires mark { marked.mark ≡ mark_of marked.token.text.now }
    ensures leads { Leads symbols.new units.new result
        (row (seen_position symbols.old units.old place.entry) (seen marked.entry.token)) }
    ensures stands { IfOk result (λ p. SuitsPlace (known_of symbols.new units.new) (seen_place p)) }
    ensures kept { IsUnitPlace place.entry → symbols.new ≡ symbols.old }
{
    match place {
        Place::Prelude(place) => next_prelude_place(alloc, symbols, units, place, marked),
        Place::Unit(place) => next_unit_place(alloc, symbols, units, place, marked),
    }
}

/// Goes from a place to where a token leads. Words are kept only while the symbols stay.
fn advance<'a>(
    alloc: Global,
    symbols: &mut SymbolTable,
    units: &mut Units,
    recent: &mut Recent<'a>,
    place: &mut Place<'a>,
    marked: MarkedToken<'a>,
) -> Result<(), Stop>
    requires stands { SuitsPlace (known_of symbols.old units.old) (seen_place place.old) }
    requires knows { RecallsTrue symbols.old recent.old }
    requires mark { marked.mark ≡ mark_of marked.token.text.now }
    ensures leads { Gives (λ _. seen_position symbols.new units.new place.new) result
        (row (seen_position symbols.old units.old place.old) (seen marked.entry.token)) }
    ensures stands { OnOk result (SuitsPlace (known_of symbols.new units.new) (seen_place place.new)) }
    ensures knows { OnOk result (RecallsTrue symbols.new recent.new) }
{
    recent.keep_at(place);
    let here = mem::replace(place, Place::Unit(UnitPlace::AtClose));
    let next = next_place(alloc, symbols, units, here, marked)?;
    drop(mem::replace(place, next));
    Ok(())
}

impl<'a> Reader<'a> for DatabaseReader<'a> {
    ghost use Rattle.mmsyntax.specs.Tables.{Contents};
    ghost use Rattle.mmsyntax.specs.Faults.{Position, database_language};
    ghost use Rattle.mmreader.specs.Readers.{database_place, IsReadyDatabase, contents_of};

    type Said = (SymbolTable, Vec<Assertion>);

    ghost Place = { Position };

    ghost Meaning = { Contents };

    ghost language = { λ _. database_language };

    ghost place = { database_place };

    ghost IsReady = { IsReadyDatabase };

    ghost meaning = { λ said. contents_of said.0 said.1.items };

    fn most_bytes(&self) -> usize {
        MOST_BYTES
    }

    fn take_word(&mut self, alloc: Global, token: Token<'a>) -> Result<bool, Stop> {
        take_word(
            alloc,
            &self.symbols,
            &mut self.recent,
            &mut self.place,
            token,
        )
    }

    fn take(&mut self, alloc: Global, token: Token<'a>, mark: Mark) -> Result<(), Stop> {
        advance(
            alloc,
            &mut self.symbols,
            &mut self.units,
            &mut self.recent,
            &mut self.place,
            MarkedToken { token, mark },
        )
    }

    fn finish(self) -> Option<(SymbolTable, Vec<Assertion>)> {
        let is_whole = is_outermost(&self.place);
        let DatabaseReader {
            symbols,
            units,
            recent,
            place,
        } = self;
        drop(recent);
        drop(place);
        let said = (symbols, units.into_assertions());
        if is_whole {
            return Some(said);
        }
        drop(said);
        None
    }
}

/// The database that a text spells.
///
/// Hypotheses are kept by their places, and their labels are forgotten; so are comments. A step that cites an assertion keeps its label,
/// which no reader looks up. `keys` make the hashes of the maps inside.
///
/// # Errors
///
/// The first fault of the text, from the front. Its length comes first, then its bytes, then each token; where a token breaks more than
/// one rule, the first below counts. Limits: 16,777,216 bytes; 65,535 constants, variables, `$f`, symbols of an expression and
/// different pairs of a block; 1,000 `$e` of a block; 4,096 assertions; 16,384 steps; 255 bytes of a symbol or label, 260 of the label
/// of a `$e`.
///
/// - `TooLong` at 16,777,216: the text has more bytes than that.
/// - `BadByte`: a byte that is neither printable ASCII nor white space, also in a comment.
/// - `BadToken`: in a comment a token other than `$)` that has `$(` or `$)` in it; outside of comments `$)`.
/// - `OutOfProfile`: `$[` or `$]` outside of comments.
/// - At the start of a statement, outermost: `OutOfProfile` for `$d`, and for `$c` or `$v` behind an assertion; `BadToken` for
///   what isn't `$c`, `$v`, `${` or letters, digits, `-`, `_` and `.`. In a block: `OutOfProfile` for `$c`, `$v`, `${`, and behind its
///   assertion for `$d` or a label; `BadToken` for what isn't `$d` or a label, and behind its assertion for what isn't `$}`.
/// - Behind a label: `OutOfProfile` for `$f` in a block or behind an assertion, and for `$e` outermost; `BadToken` for what isn't `$f`,
///   `$e`, `$a` or `$p`.
/// - At the label, once its keyword has passed: `BadLabel` if it is too long, or for `$f` has a `.`; `RepeatedLabel` if an earlier label,
///   of a `$e` too, or a symbol is equal; for `$a` and `$p` `LabelClashes` where it is `L.k` for the label L of an earlier assertion, or an
///   earlier one has the label `L.k` for it, with k from 1 to 1,000; `TooLong` where no more `$f`, `$e` or assertions may stand.
/// - In `$c` and `$v`: `BadToken` for a token with `$`, also a `$.` with no symbol before it; `TooLong` for a long symbol; `OutOfProfile`
///   for one as `a.1`, which a hypothesis may have as label; `RepeatedLabel` where an earlier symbol or label is equal; `TooLong` where
///   no more may stand.
/// - In `$f`: `UnknownSymbol` where the type isn't a constant or the variable isn't one; `RepeatedLabel` where the variable has a `$f`;
///   `BadToken` for what isn't `$.` behind them.
/// - In `$d`: `BadToken` for a token with `$`, also a `$.` behind fewer than two variables; `UnknownSymbol` for what isn't a variable;
///   `NoTypeFor` for one without `$f`; `BadToken` for one that stands twice; `TooLong` for too many pairs.
/// - In `$e`, `$a` and `$p`: `BadToken` for a token with `$`, also an end with no symbol before it; `UnknownSymbol` where the first symbol
///   isn't a constant or a later one isn't declared; `NoTypeFor` for a variable without `$f`; `TooLong` for too many symbols.
/// - In a proof: `OutOfProfile` for `?` and `(`; `BadToken` for a token with `$`, also a `$.` with no step before it, and for what isn't
///   a label; `TooLong` for too many steps; unless it is that of a `$f` or of a `$e` of the block, `BadLabel` for a label that is too
///   long, and `LabelClashes` for `L.k` in the proof of L, with k from 1 to 1,000.
/// - `Unfinished` at the length of the text: it ends in a statement, in a block or in a comment.
/// - `NoMemory`: memory ran out; its place is 0, whatever was read.
pub fn read_database(alloc: Global, keys: RandomState, text: &[u8]) -> Result<Database, TextFault>
    // What is read is spelled so, and what is spelled so is read, unless memory runs out; a fault is the text's, or want of memory.
    ensures { IsRead database_language Spells text.now result }
{
    let reader = DatabaseReader {
        symbols: SymbolTable::new(alloc, keys),
        units: Units::new(alloc, keys, false),
        recent: Recent::new(alloc),
        place: Place::Unit(UnitPlace::AtStart(Scope::Outside)),
    };
    match read(alloc, reader, text) {
        Ok((symbols, assertions)) => Ok(Database::new(
            Prelude::new(symbols),
            Sequence::from_vec(assertions),
        )),
        Err(fault) => Err(fault),
    }
}
