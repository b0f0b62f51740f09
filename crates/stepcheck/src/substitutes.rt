//! The substitution of a citation: each mandatory `$f` with its expression, less its type. No list of them is built.

ghost use Rattle.std.specs.Prelude.{◌≡◌, ◌↔◌, ◌∷◌, ◌++◌, ◌+◌, [], ◌≤◌, ◌<◌, ℕ, IsTrue, IfOk, OnOk, IfErr, length, map, drop, true};
ghost use Rattle.std.specs.List.Sorted.{IsNonDecreasing};
ghost use Rattle.mmframes.specs.Substitution.{subst};
ghost use Rattle.mmframes.specs.Places.{IsFirstPlace};
ghost use Rattle.derivation.specs.Moves.{IsTooLongOrNoMemory};
ghost use Rattle.stepcheck.specs.Conclusions.{concluded};
ghost use Rattle.mmsyntax.specs.declared.limits.TheConstants.{MOST_SYMBOLS};

use crate::stack::Args;
use derivation::ProofFaultKind;
use mmsyntax::{Expr, MOST_SYMBOLS, Symbol, SymbolWord};
use std::alloc::AllocError;
use std::marker::Model;
use std::slice;

/// How many numbers are gone through rather than halved.
const FEW: usize = 8;

/// The place of the first of the numbers that is n: by halving where they ascend.
fn first_place(numbers: &[u32], ascend: bool, n: u32) -> Option<usize>
    requires { ascend ≡ true → IsNonDecreasing numbers.now }
    ensures { IsFirstPlace numbers.now n result }
{
    if !ascend {
        return numbers.iter().position(|number| *number == n);
    }
    let place = numbers.partition_point(|number| *number < n);
    if place < numbers.len() && numbers[place] == n {
        Some(place)
    } else {
        None
    }
}

/// An expression without its type.
fn without_type(typed: &[SymbolWord]) -> &[SymbolWord]
    ensures { result.now ≡ drop 1 typed.now }
{
    if typed.is_empty() {
        return typed;
    }
    &typed[1..]
}

/// The substitution of a citation. It is told once whether there are many `$f` that ascend, as those of each frame of `frame_of` do.
/// Contracts see the variables with their substitutes.
#[derive(Drop)]
pub(crate) struct Substitution<'a> {
    floats: &'a [u32],
    args: &'a Args<'a>,
    ascends: bool,
}

impl<'a> Model for Substitution<'a> {
    ghost use Rattle.std.specs.Prelude.{◌≡◌, ◌≤◌, ℕ, List, true, length};
    ghost use Rattle.std.specs.List.Sorted.{IsNonDecreasing};
    ghost use Rattle.mmsyntax.specs.declared.statement.Symbol.{Symbol};
    ghost use Rattle.derivation.specs.Derivation.{substitution};

    ghost Value = { List (ℕ × List Symbol) };

    ghost view = { λ s. substitution s.floats.now s.args.now };

    ghost invariant = { λ s. (length s.floats.now ≤ length s.args.now) × (s.ascends ≡ true → IsNonDecreasing s.floats.now) };
}

impl<'a> Substitution<'a> {
    ghost use Rattle.std.specs.Prelude.{◌≡◌, ◌≤◌, ◌<◌, ℕ, List, length, slice_index_or};
    ghost use Rattle.mmsyntax.specs.declared.statement.Symbol.{Symbol};
    ghost use Rattle.derivation.specs.Derivation.{substitution};
    ghost use Rattle.mmframes.specs.Places.{IsPlaceOf};

    /// The substitution of an expression for each `$f`. The `$f` are gone through once, where there are more than a few.
    pub(crate) fn new(floats: &'a [u32], args: &'a Args<'a>) -> Substitution<'a>
        requires { length floats.now ≤ length args.now }
        ensures { result ≡ substitution floats.now args.now }
    {
        Substitution {
            floats,
            args,
            ascends: floats.len() > FEW && floats.is_sorted(),
        }
    }

    /// How many variables have a substitute.
    pub(crate) fn len(&self) -> usize
        ensures { result ≡ length self.now }
    {
        self.floats.len()
    }

    /// The place of a variable, if it has a substitute.
    pub(crate) fn place_of(&self, variable: u32) -> Option<usize>
        ensures { IsPlaceOf self.now variable result }
    {
        first_place(self.floats, self.ascends, variable)
    }

    /// The substitute at a place.
    pub(crate) fn at(&self, place: usize) -> &'a [SymbolWord]
        requires { place < length self.now }
        ensures { (d : ℕ × List Symbol) → result.now ≡ (slice_index_or self.now place d).1 }
    {
        let args = self.args;
        without_type(args.at(place))
    }
}

/// An expression after substitution.
#[derive(Clone, Copy)]
pub(crate) enum Conclusion<'a> {
    /// As it stands, where nothing is substituted: it isn't copied.
    Unchanged(&'a [SymbolWord]),
    /// What was put together.
    Made,
}

/// What the substitution makes of one symbol.
fn piece<'s>(substitution: &'s Substitution, symbol: &'s SymbolWord) -> &'s [SymbolWord]
    ensures { result.now ≡ subst substitution.now (symbol.now ∷ []) }
{
    match symbol.symbol() {
        Symbol::Const(_) => slice::from_ref(symbol),
        Symbol::Var(j) => match substitution.place_of(j) {
            Some(place) => substitution.at(place),
            None => slice::from_ref(symbol),
        },
    }
}

/// Whether an expression after substitution is the target.
fn is_substituted(
    substitution: &Substitution,
    symbols: &[SymbolWord],
    target: &[SymbolWord],
) -> bool
    ensures { IsTrue result ↔ (subst substitution.now symbols.now ≡ target.now) }
{
    let mut rest = target;
    for symbol in symbols {
        match rest.strip_prefix(piece(&*substitution, symbol)) {
            None => return false,
            Some(later) => rest = later,
        }
    }
    rest.is_empty()
}

/// Whether each hypothesis after substitution is its target.
pub(crate) fn are_substituted(substitution: &Substitution, hyps: &[Expr], targets: &Args) -> bool
    requires { length hyps.now ≡ length targets.now }
    ensures { IsTrue result ↔ (map (subst substitution.now) hyps.now ≡ targets.now) }
{
    for (i, hyp) in hyps.iter().enumerate() {
        if !is_substituted(substitution, hyp.as_slice(), targets.at(i)) {
            return false;
        }
    }
    true
}

/// Adds a symbol, if the expression keeps to 65,535 symbols.
fn add_one(made: &mut Vec<SymbolWord>, symbol: SymbolWord) -> Result<(), ProofFaultKind>
    requires { length made.old.items ≤ MOST_SYMBOLS }
    ensures value { OnOk result ((made.new.items ≡ made.old.items ++ symbol ∷ []) × (length made.new.items ≤ MOST_SYMBOLS)) }
    ensures kinds { IfErr result (λ kind. IsTooLongOrNoMemory kind (MOST_SYMBOLS < length made.old.items + 1)) }
{
    if made.len() == MOST_SYMBOLS {
        return Err(ProofFaultKind::TooLong);
    }
    made.push(symbol).map_err(AllocError::from)?;
    Ok(())
}

/// Adds symbols, if the expression keeps to 65,535 symbols.
fn add_all(made: &mut Vec<SymbolWord>, symbols: &[SymbolWord]) -> Result<(), ProofFaultKind>
    requires { length made.old.items ≤ MOST_SYMBOLS }
    ensures value { OnOk result ((made.new.items ≡ made.old.items ++ symbols.now) × (length made.new.items ≤ MOST_SYMBOLS)) }
    ensures kinds { IfErr result (λ kind. IsTooLongOrNoMemory kind (MOST_SYMBOLS < length made.old.items + length symbols.now)) }
{
    if symbols.len() > MOST_SYMBOLS - made.len() {
        return Err(ProofFaultKind::TooLong);
    }
    made.extend_from_slice(symbols)?;
    Ok(())
}

/// Adds what the substitution makes of one symbol, if the expression keeps to 65,535 symbols.
fn add_piece(
    substitution: &Substitution,
    symbol: &SymbolWord,
    made: &mut Vec<SymbolWord>,
) -> Result<(), ProofFaultKind>
    requires { length made.old.items ≤ MOST_SYMBOLS }
    ensures value { OnOk result ((made.new.items ≡ made.old.items ++ subst substitution.now (symbol.now ∷ []))
        × (length made.new.items ≤ MOST_SYMBOLS)) }
    ensures kinds { IfErr result (λ kind. IsTooLongOrNoMemory kind
        (MOST_SYMBOLS < length made.old.items + length (subst substitution.now (symbol.now ∷ [])))) }
{
    match symbol.symbol() {
        Symbol::Const(_) => add_one(made, *symbol),
        Symbol::Var(_) => add_all(made, piece(substitution, symbol)),
    }
}

/// Makes the expression after substitution, of at most 65,535 symbols.
fn make(
    substitution: &Substitution,
    symbols: &[SymbolWord],
    made: &mut Vec<SymbolWord>,
) -> Result<(), ProofFaultKind>
    ensures value { OnOk result ((made.new.items ≡ subst substitution.now symbols.now) × (length made.new.items ≤ MOST_SYMBOLS)) }
    ensures kinds { IfErr result (λ kind. IsTooLongOrNoMemory kind (MOST_SYMBOLS < length (subst substitution.now symbols.now))) }
{
    made.clear();
    for symbol in symbols {
        add_piece(substitution, symbol, made)?;
    }
    Ok(())
}

/// The expression after substitution, of at most 65,535 symbols: put together in `made`, but where nothing is substituted.
pub(crate) fn conclude<'a>(
    substitution: &Substitution,
    symbols: &'a [SymbolWord],
    made: &mut Vec<SymbolWord>,
) -> Result<Conclusion<'a>, ProofFaultKind>
    ensures value { IfOk result (λ e. (concluded e made.new.items ≡ subst substitution.now symbols.now)
        × (length (concluded e made.new.items) ≤ MOST_SYMBOLS)) }
    ensures kinds { IfErr result (λ kind. IsTooLongOrNoMemory kind (MOST_SYMBOLS < length (subst substitution.now symbols.now))) }
{
    if substitution.len() > 0 {
        make(substitution, symbols, made)?;
        return Ok(Conclusion::Made);
    }
    if symbols.len() > MOST_SYMBOLS {
        return Err(ProofFaultKind::TooLong);
    }
    Ok(Conclusion::Unchanged(symbols))
}
