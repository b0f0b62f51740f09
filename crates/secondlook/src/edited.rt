//! Whether a library that was taken again is the edited one.

ghost use Rattle.std.specs.Prelude.{◌≡◌, ◌↔◌, ◌&&◌, ℕ, Some, All, IfOk, IfErr, IsTrue, MatchOption, OnOk};
ghost use Rattle.std.specs.Str.{bytes_eq};
ghost use Rattle.mmtext.specs.Words.{Word};
ghost use Rattle.mmsyntax.specs.Tables.{meaning};
ghost use Rattle.mmsyntax.specs.declared.statement.Float.{Float as FloatOf};
ghost use Rattle.secondlook.specs.Again.{IsFloatNamed, IsFloatLabelled, IsFloatOf, database_lines, edited_lines};
ghost use Rattle.secondlook.specs.Compared.{IsOther};

use crate::unlike::Unlike;
use library::PlainLibrary;
use mmsyntax::{Database, Float, Name, Prelude};
use mmwriter::put_assertion;
use std::alloc::{AllocError, Global};

/// The lines of a library's assertions.
fn edited_lines(alloc: Global, edited: &PlainLibrary) -> Result<Vec<u8>, AllocError>
    ensures { IfOk result (λ out. out.items ≡ edited_lines edited.now) }
{
    let mut lines = Vec::new(alloc);
    let entries = edited.entries();
    for entry in entries {
        put_assertion(&mut lines, edited.prelude(), &entry.assertion)?;
    }
    Ok(lines)
}

/// The lines of a database's assertions.
fn database_lines(alloc: Global, database: &Database) -> Result<Vec<u8>, AllocError>
    ensures { IfOk result (λ out. out.items ≡ database_lines database.now) }
{
    let mut lines = Vec::new(alloc);
    let assertions = database.assertions();
    for assertion in assertions {
        put_assertion(&mut lines, database.prelude(), assertion)?;
    }
    Ok(lines)
}

/// The names of the type and of the variable of a `$f`.
fn names_of<'p>(prelude: &'p Prelude, float: &Float) -> Option<(&'p [u8], &'p [u8])>
    ensures { MatchOption result ((constant variable : Word) → IsFloatNamed prelude.now float.now.label constant variable float.now → ⊥)
        (λ n. IsFloatNamed prelude.now float.now.label n.0.now n.1.now float.now) }
{
    let Some(constant) = prelude.constants().get(float.type_code as usize) else {
        return None;
    };
    let Some(variable) = prelude.variables().get(float.variable as usize) else {
        return None;
    };
    Some((constant.as_slice(), variable.as_slice()))
}

/// The place of the `$f` with a label. None where that names none.
fn float_place(prelude: &Prelude, label: &[u8]) -> Option<usize>
    ensures { MatchOption result ((k : ℕ) → meaning prelude.now label.now ≡ Some (Name.Label k) → ⊥)
        (λ k. meaning prelude.now label.now ≡ Some (Name.Label k)) }
{
    match prelude.look_up(label) {
        Some(Name::Label(place)) => Some(place as usize),
        Some(Name::Constant(_)) => None,
        Some(Name::Variable(_, _)) => None,
        None => None,
    }
}

/// The `$f` of a prelude with a label.
fn float_labelled<'p>(prelude: &'p Prelude, label: &[u8]) -> Option<&'p Float>
    ensures { MatchOption result ((f : FloatOf) → IsFloatLabelled prelude.now label.now f → ⊥)
        (λ f. IsFloatLabelled prelude.now label.now f.now) }
{
    let Some(place) = float_place(prelude, label) else {
        return None;
    };
    prelude.floats().get(place)
}

/// Whether the names of a type and of a variable are two others.
fn are_names(constant: &[u8], variable: &[u8], other: &[u8], another: &[u8]) -> bool
    ensures { result ≡ (bytes_eq constant.now other.now && bytes_eq variable.now another.now) }
{
    constant == other && variable == another
}

/// A `$f` of one prelude is that of the other with its label: its type and its variable have the same names.
fn is_float_of(prelude: &Prelude, other: &Prelude, float: &Float) -> bool
    ensures { IsTrue result ↔ IsFloatOf prelude.now other.now float.now }
{
    let Some(found) = float_labelled(other, float.label.as_slice()) else {
        return false;
    };
    let Some((constant, variable)) = names_of(prelude, float) else {
        return false;
    };
    let Some((type_there, variable_there)) = names_of(other, found) else {
        return false;
    };
    are_names(constant, variable, type_there, variable_there)
}

/// Each `$f` of one prelude is one of the other.
fn are_floats_of(prelude: &Prelude, other: &Prelude) -> bool
    ensures { IsTrue result ↔ All (IsFloatOf prelude.now other.now) prelude.now.floats }
{
    for float in prelude.floats() {
        if !is_float_of(prelude, other, float) {
            return false;
        }
    }
    true
}

/// The library that was taken again is the edited one: its assertions read so, over `$f` of its prelude.
pub(crate) fn is_edited(
    alloc: Global,
    database: &Database,
    edited: &PlainLibrary,
) -> Result<(), Unlike>
    ensures floats { OnOk result (All (IsFloatOf database.now.prelude edited.now.setting.prelude) database.now.prelude.floats) }
    ensures same { OnOk result (database_lines database.now ≡ edited_lines edited.now) }
    ensures other { IfErr result (IsOther database.now edited.now) }
{
    let lines = database_lines(alloc, database)?;
    let wanted = edited_lines(alloc, edited)?;
    if lines.as_slice() != wanted.as_slice() {
        return Err(Unlike::AnotherLibrary);
    }
    if !are_floats_of(database.prelude(), edited.prelude()) {
        return Err(Unlike::AnotherPrelude);
    }
    Ok(())
}
