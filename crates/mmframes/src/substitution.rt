//! Substitution: each variable of an expression replaced at once.

ghost use Rattle.std.specs.Prelude.{◌≡◌, ◌<◌, ◌≤◌, ◌∷◌, [], ◌==◌, if◌then◌else◌, ℕ, None, Some, MatchOption, IfOk};
ghost use Rattle.std.specs.Prelude.{IfErr, OnOk, length, map};
ghost use Rattle.std.specs.Option.{option_or};
ghost use Rattle.std.specs.Ordering.{nat_cmp};
ghost use Rattle.std.specs.BTreeMap.{get};
ghost use Rattle.mmframes.specs.Places.{IsFirstPlace};
ghost use Rattle.mmframes.specs.Substitution.{replacement, subst};
ghost use Rattle.mmsyntax.specs.declared.limits.TheConstants.{MOST_SYMBOLS};

use mmsyntax::{Expr, MOST_SYMBOLS, Sequence, Symbol, SymbolWord};
use std::alloc::{AllocError, Global};
use std::collections::BTreeMap;
use std::error::Error;
use std::{fmt, slice};

/// Why an expression isn't made, in the order of their numbers from 1.
#[derive(Clone, Copy, Debug, PartialEq, Eq)]
pub enum SubstituteError {
    /// It would have more than 65,535 symbols.
    TooLong,
    /// Memory ran out.
    NoMemory,
}

impl SubstituteError {
    ghost use Rattle.std.specs.Prelude.{◌≡◌};
    ghost use Rattle.mmframes.specs.SubstituteErrors.{number_of, name_of};

    /// The number of the error, 1 or 2.
    pub fn number(self) -> u32
        ensures { result ≡ number_of self }
    {
        match self {
            SubstituteError::TooLong => 1,
            SubstituteError::NoMemory => 2,
        }
    }

    /// The name of the error, as messages print it.
    pub fn name(self) -> &'static str
        ensures { result.now ≡ name_of self }
    {
        match self {
            SubstituteError::TooLong => "TooLong",
            SubstituteError::NoMemory => "NoMemory",
        }
    }
}

/// The number and the name of the error, as in `1 TooLong`.
impl fmt::Display for SubstituteError {
    ghost use Rattle.std.specs.Prelude.{Some};
    ghost use Rattle.mmframes.specs.SubstituteErrors.{printed_error};

    ghost output = { λ error. Some (printed_error error) };

    fn fmt<W: fmt::Write>(&self, f: &mut fmt::Formatter<W>) -> fmt::Result {
        let number = self.number();
        let name = self.name();
        write!(f, "{number} {name}")
    }
}

impl Error for SubstituteError {}

impl From<AllocError> for SubstituteError {
    ghost use Rattle.std.specs.Prelude.{◌≡◌};
    ghost use Rattle.mmframes.specs.declared.substitution.SubstituteError.TheVariants.{NoMemory};

    ghost from_gives = { λ _ error. error ≡ NoMemory };

    fn from(_e: AllocError) -> SubstituteError {
        SubstituteError::NoMemory
    }
}

/// Notes the place of a variable, if it has none yet.
fn note_place(
    places: &mut BTreeMap<u32, usize>,
    variable: u32,
    place: usize,
) -> Result<(), AllocError>
    ensures { OnOk result ((v : ℕ) → get nat_cmp places.new v
        ≡ option_or (get nat_cmp places.old v) (if variable == v then Some place else None)) }
{
    if places.contains_key(&variable) {
        return Ok(());
    }
    places.insert(variable, place)?;
    Ok(())
}

/// The place of the first pair of each variable.
fn places_of(alloc: Global, pairs: &[(u32, Expr)]) -> Result<BTreeMap<u32, usize>, AllocError>
    ensures { IfOk result (λ places. (v : ℕ) → IsFirstPlace (map (λ p. p.0) pairs.now) v (get nat_cmp places v)) }
{
    let mut places = BTreeMap::new(alloc);
    for (i, pair) in pairs.iter().enumerate() {
        note_place(&mut places, pair.0, i)?;
    }
    Ok(places)
}

/// The expression of the variable's first pair, if it has one.
fn substitute_of<'a>(
    pairs: &'a [(u32, Expr)],
    places: &BTreeMap<u32, usize>,
    variable: u32,
) -> Option<&'a [SymbolWord]>
    requires { (v : ℕ) → IsFirstPlace (map (λ p. p.0) pairs.now) v (get nat_cmp places.now v) }
    ensures { MatchOption result
        (replacement pairs.now variable ≡ Symbol.Var variable ∷ [])
        (λ found. replacement pairs.now variable ≡ found.now) }
{
    match places.get(&variable) {
        Some(place) => Some(pairs[*place].1.as_slice()),
        None => None,
    }
}

/// What stands for one symbol.
fn piece<'a>(
    pairs: &'a [(u32, Expr)],
    places: &BTreeMap<u32, usize>,
    symbol: &'a SymbolWord,
) -> &'a [SymbolWord]
    requires { (v : ℕ) → IsFirstPlace (map (λ p. p.0) pairs.now) v (get nat_cmp places.now v) }
    ensures { result.now ≡ subst pairs.now (symbol.now ∷ []) }
{
    match symbol.symbol() {
        Symbol::Const(_) => slice::from_ref(symbol),
        Symbol::Var(j) => match substitute_of(pairs, places, j) {
            Some(found) => found,
            None => slice::from_ref(symbol),
        },
    }
}

/// The expression in which each variable is replaced at once by the expression of its first pair. A variable without a pair stays.
///
/// `TooLong` where it would have more than 65,535 symbols; nothing is kept then. The pairs are gone through once, and then the time is
/// that of writing the symbols down, with one look-up in a map for each variable.
pub fn substitute(
    alloc: Global,
    pairs: &[(u32, Expr)],
    symbols: &[SymbolWord],
) -> Result<Expr, SubstituteError>
    ensures value { IfOk result (λ made. made ≡ subst pairs.now symbols.now) }
    ensures short { IfOk result (λ made. length made ≤ MOST_SYMBOLS) }
    ensures too_long { IfErr result (λ error. error ≡ SubstituteError.TooLong → MOST_SYMBOLS < length (subst pairs.now symbols.now)) }
{
    let places = places_of(alloc, pairs)?;
    let mut made = Vec::new(alloc);
    for symbol in symbols {
        let next = piece(pairs, &places, symbol);
        if next.len() > MOST_SYMBOLS - made.len() {
            return Err(SubstituteError::TooLong);
        }
        made.extend_from_slice(next)?;
    }
    Ok(Sequence::from_vec(made))
}
