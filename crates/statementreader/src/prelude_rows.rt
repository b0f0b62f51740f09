//! Reading `$c`, `$v` and `$f`: one function for each place in them.

ghost use Rattle.std.specs.Prelude.{◌≡◌, None, Some};
ghost use Rattle.mmsyntax.specs.Tables.{meaning};
ghost use Rattle.mmsyntax.specs.Rows.{type_of, variable_of};
ghost use Rattle.mmsyntax.specs.Faults.{constant_row, variable_row, type_row, float_variable_row, float_end_row, in_place};
ghost use Rattle.mmtext.specs.Views.{seen};
ghost use Rattle.statementreader.specs.Standing.{IsFree, SuitsPlace};
ghost use Rattle.mmunits.specs.Views.{known_of};
ghost use Rattle.statementreader.specs.Views.{seen_prelude_place, Leads};
ghost use Rattle.mmsyntax.specs.declared.symbols.Name.TheVariants.{Variable};

use crate::labels::symbol_fault;
use crate::place::{MarkedToken, OpenFloat, Place, PreludePlace, Scope, UnitPlace};
use mmsyntax::{Name, SymbolTable};
use mmtext::{FaultKind, Mark, Stop, Token, contains_dollar, fault_at};
use mmunits::Units;
use std::alloc::Global;

/// A symbol in `$c`, or the `$.` behind one.
fn constant<'a>(
    alloc: Global,
    symbols: &mut SymbolTable,
    units: &Units,
    some: bool,
    marked: MarkedToken<'a>,
) -> Result<Place<'a>, Stop>
    ensures { Leads symbols.new units.now result
        (constant_row (known_of symbols.old units.now) some (seen marked.entry.token) marked.entry.mark) }
{
    if some && marked.mark == Mark::End {
        return Ok(Place::Unit(UnitPlace::AtStart(Scope::Outside)));
    }
    let count = symbols.constants().len();
    if let Some(kind) = symbol_fault(symbols, units, count, marked.token.text) {
        return Err(fault_at(marked.token, kind));
    }
    symbols.add_constant(alloc, marked.token.text)?;
    Ok(Place::Prelude(PreludePlace::InConstants(true)))
}

/// A symbol in `$v`, or the `$.` behind one.
fn variable<'a>(
    alloc: Global,
    symbols: &mut SymbolTable,
    units: &Units,
    some: bool,
    marked: MarkedToken<'a>,
) -> Result<Place<'a>, Stop>
    ensures { Leads symbols.new units.now result
        (variable_row (known_of symbols.old units.now) some (seen marked.entry.token) marked.entry.mark) }
{
    if some && marked.mark == Mark::End {
        return Ok(Place::Unit(UnitPlace::AtStart(Scope::Outside)));
    }
    let count = symbols.variables().len();
    if let Some(kind) = symbol_fault(symbols, units, count, marked.token.text) {
        return Err(fault_at(marked.token, kind));
    }
    symbols.add_variable(alloc, marked.token.text)?;
    Ok(Place::Prelude(PreludePlace::InVariables(true)))
}

/// The type of a `$f`.
#[tactic(auto, unfolding(mmsyntax::specs::Rows::type_of))]
fn float_type<'a>(
    symbols: &SymbolTable,
    units: &Units,
    label: &'a [u8],
    token: Token<'a>,
) -> Result<Place<'a>, Stop>
    ensures { Leads symbols.now units.now result (type_row (known_of symbols.now units.now) label.entry.now (seen token.entry)) }
{
    if contains_dollar(token.text) {
        return Err(fault_at(token, FaultKind::UnknownSymbol));
    }
    match symbols.look_up(token.text) {
        Some(Name::Constant(i)) => Ok(Place::Prelude(PreludePlace::FloatVariable(label, i))),
        _ => Err(fault_at(token, FaultKind::UnknownSymbol)),
    }
}

/// The variable of a `$f`.
#[tactic(auto, unfolding(mmsyntax::specs::Rows::variable_of))]
fn float_variable<'a>(
    symbols: &SymbolTable,
    units: &Units,
    label: &'a [u8],
    type_code: u32,
    token: Token<'a>,
) -> Result<Place<'a>, Stop>
    ensures { Leads symbols.now units.now result
        (float_variable_row (known_of symbols.now units.now) label.entry.now type_code (seen token.entry)) }
{
    if contains_dollar(token.text) {
        return Err(fault_at(token, FaultKind::UnknownSymbol));
    }
    match symbols.look_up(token.text) {
        Some(Name::Variable(i, None)) => {
            let float = OpenFloat {
                label,
                type_code,
                word: token.text,
                variable: i,
            };
            Ok(Place::Prelude(PreludePlace::FloatEnd(float)))
        }
        Some(Name::Variable(_, Some(_))) => Err(fault_at(token, FaultKind::RepeatedLabel)),
        _ => Err(fault_at(token, FaultKind::UnknownSymbol)),
    }
}

/// The end of a `$f`.
fn float_end<'a>(
    alloc: Global,
    symbols: &mut SymbolTable,
    units: &Units,
    float: OpenFloat<'a>,
    marked: MarkedToken<'a>,
) -> Result<Place<'a>, Stop>
    requires free { IsFree (known_of symbols.old units.now) float.label.now }
    requires variable { meaning symbols.old float.word.now ≡ Some (Variable float.variable None) }
    ensures { Leads symbols.new units.now result
        (float_end_row (known_of symbols.old units.now) float.entry.label.now float.entry.type_code float.entry.variable
        (seen marked.entry.token) marked.entry.mark) }
{
    if marked.mark != Mark::End {
        return Err(fault_at(marked.token, FaultKind::BadToken));
    }
    symbols.add_float(
        alloc,
        float.label,
        float.type_code,
        float.word,
        float.variable,
    )?;
    Ok(Place::Unit(UnitPlace::AtStart(Scope::Outside)))
}

/// Where a token leads that stands in a `$c`, `$v` or `$f`.
pub fn next_prelude_place<'a>(
    alloc: Global,
    symbols: &mut SymbolTable,
    units: &Units,
    place: PreludePlace<'a>,
    marked: MarkedToken<'a>,
) -> Result<Place<'a>, Stop>
    requires { SuitsPlace (known_of symbols.old units.now) (seen_prelude_place place) }
    ensures { Leads symbols.new units.now result
        (in_place (known_of symbols.old units.now) (seen_prelude_place place.entry) (seen marked.entry.token) marked.entry.mark) }
{
    match place {
        PreludePlace::InConstants(some) => constant(alloc, symbols, units, some, marked),
        PreludePlace::InVariables(some) => variable(alloc, symbols, units, some, marked),
        PreludePlace::FloatType(label) => float_type(symbols, units, label, marked.token),
        PreludePlace::FloatVariable(label, i) => {
            float_variable(symbols, units, label, i, marked.token)
        }
        PreludePlace::FloatEnd(float) => float_end(alloc, symbols, units, float, marked),
    }
}
