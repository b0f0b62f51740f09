//! The prelude of a draft: each constant, variable and `$f` is declared behind those before it.

ghost use Rattle.std.specs.Prelude.{◌≡◌, ◌≢◌, ◌↔◌, ◌<◌, ◌≤◌, ◌++◌, ◌∷◌, [], length, IsTrue, OnOk, IfOk, IfErr};
ghost use Rattle.mmsyntax.specs.Layout.{IsSoundPrelude};
ghost use Rattle.mmsyntax.specs.Preludes.{AreSound};
ghost use Rattle.drafts.specs.Drafts.{tables_of};
ghost use Rattle.drafts.specs.News.{IsNewSymbol, IsFreeVariable, IsNewFloat};
ghost use Rattle.drafts.specs.declared.refusal.Refusal.TheVariants.{NoMemory};
ghost use Rattle.mmsyntax.specs.declared.limits.TheConstants.{MOST_DECLARED};

use crate::draft::Draft;
use crate::refusal::Refusal;
use crate::words::{is_label_word, is_symbol_word};
use mmsyntax::{Float, Label, Name, Prelude, SymbolTable};
use std::alloc::Global;
use std::hash::RandomState;

/// The prelude of a draft, if some text declares it.
pub(crate) fn declare_prelude(
    alloc: Global,
    keys: RandomState,
    draft: &Draft,
) -> Result<Prelude, Refusal>
    requires constants { length draft.now.constants ≤ MOST_DECLARED }
    requires variables { length draft.now.variables ≤ MOST_DECLARED }
    requires floats { length draft.now.floats ≤ MOST_DECLARED }
    ensures made { IfOk result (λ prelude. prelude ≡ tables_of draft.now) }
    ensures sound { IfOk result (λ prelude. IsSoundPrelude prelude) }
    ensures refused { IfErr result (λ why. why ≢ NoMemory → IsSoundPrelude (tables_of draft.now) → ⊥) }
{
    let mut symbols = SymbolTable::new(alloc, keys);
    declare_constants(alloc, &mut symbols, draft)?;
    declare_variables(alloc, &mut symbols, draft)?;
    declare_floats(alloc, &mut symbols, draft)?;
    Ok(Prelude::new(symbols))
}

/// Puts the constants of a draft into an empty table.
fn declare_constants(alloc: Global, symbols: &mut SymbolTable, draft: &Draft) -> Result<(), Refusal>
    requires few { length draft.now.constants ≤ MOST_DECLARED }
    requires empty { symbols.old ≡ record { constants = []; variables = []; floats = [] } }
    ensures made { OnOk result (symbols.new ≡ record { constants = draft.now.constants; variables = []; floats = [] }) }
    ensures sound { OnOk result (AreSound symbols.new) }
    ensures refused { IfErr result (λ why. why ≢ NoMemory → IsSoundPrelude (tables_of draft.now) → ⊥) }
{
    for name in draft.constants.as_slice() {
        declare_constant(alloc, symbols, name.as_slice())?;
    }
    Ok(())
}

/// Puts the variables of a draft behind its constants.
fn declare_variables(alloc: Global, symbols: &mut SymbolTable, draft: &Draft) -> Result<(), Refusal>
    requires few { length draft.now.variables ≤ MOST_DECLARED }
    requires constants { symbols.old ≡ record { constants = draft.now.constants; variables = []; floats = [] } }
    requires sound { AreSound symbols.old }
    ensures made { OnOk result
        (symbols.new ≡ record { constants = draft.now.constants; variables = draft.now.variables; floats = [] }) }
    ensures sound { OnOk result (AreSound symbols.new) }
    ensures refused { IfErr result (λ why. why ≢ NoMemory → IsSoundPrelude (tables_of draft.now) → ⊥) }
{
    for name in draft.variables.as_slice() {
        declare_variable(alloc, symbols, name.as_slice())?;
    }
    Ok(())
}

/// Puts the `$f` of a draft behind its constants and its variables.
fn declare_floats(alloc: Global, symbols: &mut SymbolTable, draft: &Draft) -> Result<(), Refusal>
    requires few { length draft.now.floats ≤ MOST_DECLARED }
    requires symbols { symbols.old ≡ record { constants = draft.now.constants; variables = draft.now.variables; floats = [] } }
    requires sound { AreSound symbols.old }
    ensures made { OnOk result (symbols.new ≡ tables_of draft.now) }
    ensures sound { OnOk result (AreSound symbols.new) }
    ensures refused { IfErr result (λ why. why ≢ NoMemory → IsSoundPrelude (tables_of draft.now) → ⊥) }
{
    let variables = draft.variables.as_slice();
    for float in draft.floats.as_slice() {
        declare_float(alloc, symbols, variables, float)?;
    }
    Ok(())
}

/// One more constant, if it is new.
fn declare_constant(alloc: Global, symbols: &mut SymbolTable, name: &[u8]) -> Result<(), Refusal>
    requires room { length symbols.old.constants < MOST_DECLARED }
    ensures made { OnOk result (symbols.new ≡ record symbols.old { constants = symbols.old.constants ++ name.now ∷ [] }) }
    ensures lawful { OnOk result (IsNewSymbol symbols.old name.now) }
    ensures refused { IfErr result (λ why. why ≢ NoMemory → IsNewSymbol symbols.old name.now → ⊥) }
{
    if !is_new_symbol(symbols, name) {
        return Err(Refusal::Unlawful);
    }
    symbols.add_constant(alloc, name)?;
    Ok(())
}

/// One more variable, if it is new.
fn declare_variable(alloc: Global, symbols: &mut SymbolTable, name: &[u8]) -> Result<(), Refusal>
    requires room { length symbols.old.variables < MOST_DECLARED }
    ensures made { OnOk result (symbols.new ≡ record symbols.old { variables = symbols.old.variables ++ name.now ∷ [] }) }
    ensures lawful { OnOk result (IsNewSymbol symbols.old name.now) }
    ensures refused { IfErr result (λ why. why ≢ NoMemory → IsNewSymbol symbols.old name.now → ⊥) }
{
    if !is_new_symbol(symbols, name) {
        return Err(Refusal::Unlawful);
    }
    symbols.add_variable(alloc, name)?;
    Ok(())
}

/// One more `$f`, if it is new. The names are those of all variables of the table.
fn declare_float(
    alloc: Global,
    symbols: &mut SymbolTable,
    variables: &[Label],
    float: &Float,
) -> Result<(), Refusal>
    requires room { length symbols.old.floats < MOST_DECLARED }
    requires variables { variables.now ≡ symbols.old.variables }
    ensures made { OnOk result (symbols.new ≡ record symbols.old { floats = symbols.old.floats ++ float.now ∷ [] }) }
    ensures lawful { OnOk result (IsNewFloat symbols.old float.now) }
    ensures refused { IfErr result (λ why. why ≢ NoMemory → IsNewFloat symbols.old float.now → ⊥) }
{
    if !is_new_float(symbols, float) {
        return Err(Refusal::Unlawful);
    }
    let word = variables[float.variable as usize].as_slice();
    symbols.add_float(
        alloc,
        float.label.as_slice(),
        float.type_code,
        word,
        float.variable,
    )?;
    Ok(())
}

/// Whether a word may be declared as a constant or a variable.
fn is_new_symbol(symbols: &SymbolTable, word: &[u8]) -> bool
    ensures { IsTrue result ↔ IsNewSymbol symbols.now word.now }
{
    is_symbol_word(word) && symbols.look_up(word).is_none()
}

/// Whether a `$f` may be declared: its label is new, its type is declared, and its variable too, which has no `$f` yet.
fn is_new_float(symbols: &SymbolTable, float: &Float) -> bool
    ensures { IsTrue result ↔ IsNewFloat symbols.now float.now }
{
    let label = float.label.as_slice();
    is_label_word(label)
        && symbols.look_up(label).is_none()
        && (float.type_code as usize) < symbols.constants().len()
        && is_free_variable(symbols, float.variable)
}

/// Whether a variable stands at a place, and has no `$f`.
fn is_free_variable(symbols: &SymbolTable, place: u32) -> bool
    ensures { IsTrue result ↔ IsFreeVariable symbols.now place }
{
    match symbols.variables().get(place as usize) {
        Some(name) => symbols.look_up(name.as_slice()) == Some(Name::Variable(place, None)),
        None => false,
    }
}
