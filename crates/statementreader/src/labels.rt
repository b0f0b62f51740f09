//! The tests of labels and symbols, in order.

ghost use Rattle.std.specs.Prelude.{◌≡◌, ◌==◌};
ghost use Rattle.mmsyntax.specs.Rows.{first_fault, symbol_tests, float_label_tests, assertion_label_tests};
ghost use Rattle.mmsyntax.specs.Rows.{symbol_named, unless_full, symbol_of};
ghost use Rattle.mmsyntax.specs.SymbolWords.{NamesFew};
ghost use Rattle.mmsyntax.specs.Blocks.{hypothesis_label_tests};
ghost use Rattle.mmunits.specs.Views.{known_of};

use mmsyntax::{
    MOST_ASSERTIONS, MOST_DECLARED, MOST_HYPOTHESES, MOST_NAME_BYTES, MOST_SYMBOLS, Name, Symbol,
    SymbolTable, SymbolWord,
};
use mmtext::{FaultKind, contains_dollar, contains_dot, names_hypothesis};
use mmunits::{Block, Units, has_name};

/// The most bytes of the label of a `$e`: in canonical layout it has a dot and a number behind that of its assertion.
const MOST_HYPOTHESIS_LABEL_BYTES: usize = 260;

/// The fault of a symbol in `$c` or `$v`, where `count` are declared.
pub(crate) fn symbol_fault(
    symbols: &SymbolTable,
    units: &Units,
    count: usize,
    word: &[u8],
) -> Option<FaultKind>
    ensures { result ≡ first_fault (symbol_tests (known_of symbols.now units.now) count word.now) }
{
    if contains_dollar(word) {
        return Some(FaultKind::BadToken);
    }
    if word.len() > MOST_NAME_BYTES {
        return Some(FaultKind::TooLong);
    }
    if names_hypothesis(word) {
        return Some(FaultKind::OutOfProfile);
    }
    if has_name(symbols, units, word) {
        return Some(FaultKind::RepeatedLabel);
    }
    if count >= MOST_DECLARED {
        return Some(FaultKind::TooLong);
    }
    None
}

/// The fault of the label of a `$f`.
pub(crate) fn float_label_fault(
    symbols: &SymbolTable,
    units: &Units,
    word: &[u8],
) -> Option<FaultKind>
    ensures { result ≡ first_fault (float_label_tests (known_of symbols.now units.now) word.now) }
{
    if contains_dot(word) || word.len() > MOST_NAME_BYTES {
        return Some(FaultKind::BadLabel);
    }
    if has_name(symbols, units, word) {
        return Some(FaultKind::RepeatedLabel);
    }
    if symbols.floats().len() >= MOST_DECLARED {
        return Some(FaultKind::TooLong);
    }
    None
}

/// The fault of the label of a `$a` or `$p`.
pub(crate) fn assertion_label_fault(
    symbols: &SymbolTable,
    units: &Units,
    word: &[u8],
) -> Option<FaultKind>
    ensures { result ≡ first_fault (assertion_label_tests (known_of symbols.now units.now) word.now) }
{
    if word.len() > MOST_NAME_BYTES {
        return Some(FaultKind::BadLabel);
    }
    if has_name(symbols, units, word) {
        return Some(FaultKind::RepeatedLabel);
    }
    if units.has_clash(word) {
        return Some(FaultKind::LabelClashes);
    }
    if units.count() >= MOST_ASSERTIONS {
        return Some(FaultKind::TooLong);
    }
    None
}

/// The fault of the label of a `$e` in a block.
pub(crate) fn hypothesis_label_fault(
    symbols: &SymbolTable,
    units: &Units,
    block: &Block<'_>,
    word: &[u8],
) -> Option<FaultKind>
    ensures { result ≡ first_fault (hypothesis_label_tests (known_of symbols.now units.now) block.now word.now) }
{
    if word.len() > MOST_HYPOTHESIS_LABEL_BYTES {
        return Some(FaultKind::BadLabel);
    }
    if has_name(symbols, units, word) {
        return Some(FaultKind::RepeatedLabel);
    }
    if block.hypotheses() >= MOST_HYPOTHESES {
        return Some(FaultKind::TooLong);
    }
    None
}

/// The symbol that a word without `$` is by what it names, behind `count` symbols of an expression, or why it is none.
pub(crate) fn symbol_named(name: Option<Name>, count: usize) -> Result<SymbolWord, FaultKind>
    requires { NamesFew name }
    ensures { result ≡ unless_full count (symbol_named (count == 0) name) }
{
    let symbol = match name {
        Some(Name::Constant(i)) => Symbol::Const(i),
        Some(Name::Variable(_, Some(j))) if count > 0 => Symbol::Var(j),
        Some(Name::Variable(_, None)) if count > 0 => return Err(FaultKind::NoTypeFor),
        _ => return Err(FaultKind::UnknownSymbol),
    };
    if count >= MOST_SYMBOLS {
        return Err(FaultKind::TooLong);
    }
    Ok(SymbolWord::new(symbol))
}

/// The symbol that a word is behind `count` symbols of an expression, or why it is none.
#[tactic(auto, unfolding(mmsyntax::specs::Rows::symbol_of))]
pub(crate) fn symbol_at(
    symbols: &SymbolTable,
    count: usize,
    word: &[u8],
) -> Result<SymbolWord, FaultKind>
    ensures { result ≡ symbol_of symbols.now count word.now }
{
    if contains_dollar(word) {
        return Err(FaultKind::BadToken);
    }
    symbol_named(symbols.look_up(word), count)
}
