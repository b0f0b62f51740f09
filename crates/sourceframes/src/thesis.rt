//! What the pairs of a citation are asked of: the variables of the theorem whose proof it stands in, and its pairs.

ghost use Rattle.std.specs.Prelude.{◌≡◌, ◌<◌, IfOk, OnOk, Some, length, map, slice_get};
ghost use Rattle.std.specs.Option.{option_map};
ghost use Rattle.std.specs.List.{filter_map};
ghost use Rattle.source.specs.Scopes.{Assertion};
ghost use Rattle.source.specs.Views.{seen_hypotheses, seen_pairs};
ghost use Rattle.sourceframes.specs.Names.{words_of, IsSound, Keeps, Lasts};
ghost use Rattle.sourceframes.specs.Frames.{variable_of, names_of};
ghost use Rattle.sourceframes.specs.Theses.{IsThesisOf, is_variable_of, numbers_apart};

use crate::marks::Marked;
use crate::pairs::Pairs;
use crate::table::Table;
use crate::variables::variable_of;
use source::{Declared, HypothesisWords};
use std::alloc::{AllocError, Global};

/// The variables that have an active `$f` at a theorem, and its active pairs, by the numbers of symbols.
#[derive(Drop)]
pub struct Thesis {
    floats: Marked,
    pairs: Pairs,
}

impl Thesis {
    /// Whether a symbol is one of the variables.
    pub fn is_variable(&self, number: u32) -> bool
        ensures { result ≡ is_variable_of self.now number }
    {
        self.floats.contains(number)
    }

    /// Whether two variables differ and are one of the pairs, in either order.
    pub fn are_apart(&self, first: u32, second: u32) -> bool
        ensures { result ≡ numbers_apart self.now first second }
    {
        first != second && self.pairs.has(first, second)
    }
}

/// The numbers of the variables of `$f`. After an error nothing is said of the table.
fn floats_of<'a>(
    alloc: Global,
    table: &mut Table<'a>,
    active: Vec<&HypothesisWords<'a>>,
) -> Result<Vec<u32>, AllocError>
    requires { IsSound table.old }
    ensures keeps { OnOk result (Keeps table.old table.new) }
    ensures made { IfOk result (λ ns. Lasts (words_of table.new)
        (λ name. map name ns.items ≡ filter_map variable_of (seen_hypotheses active.entry.items))) }
{
    let mut floats = Vec::with_capacity(alloc, active.len())?;
    for hypothesis in active {
        if let Some(variable) = variable_of(hypothesis) {
            floats.push(table.number_at(floats.len(), variable)?)?;
        }
    }
    Ok(floats)
}

/// The numbers of the two variables of a pair. After an error nothing is said of the table.
fn numbers_of<'a>(
    table: &mut Table<'a>,
    pair: (&'a [u8], &'a [u8]),
) -> Result<(u32, u32), AllocError>
    requires { IsSound table.old }
    ensures keeps { OnOk result (Keeps table.old table.new) }
    ensures made { IfOk result (λ p. Lasts (words_of table.new) (λ name. names_of name p ≡ (pair.entry.0.now, pair.entry.1.now))) }
{
    let first = table.number(pair.0)?;
    let second = table.number(pair.1)?;
    Ok((first, second))
}

/// The numbers of pairs. After an error nothing is said of the table.
fn numbered<'a>(
    alloc: Global,
    table: &mut Table<'a>,
    pairs: Vec<(&'a [u8], &'a [u8])>,
) -> Result<Vec<(u32, u32)>, AllocError>
    requires { IsSound table.old }
    ensures keeps { OnOk result (Keeps table.old table.new) }
    ensures made { IfOk result (λ ps. Lasts (words_of table.new) (λ name. map (names_of name) ps.items ≡ seen_pairs pairs.entry.items)) }
{
    let mut numbered = Vec::with_capacity(alloc, pairs.len())?;
    for pair in pairs {
        numbered.push(numbers_of(table, pair)?)?;
    }
    Ok(numbered)
}

/// The variables and the pairs of the theorem at a place, where these are its active hypotheses. After an error nothing is said of the
/// table.
pub fn thesis_of<'a, D: Declared<'a>>(
    alloc: Global,
    table: &mut Table<'a>,
    declared: &D,
    place: usize,
    active: Vec<&HypothesisWords<'a>>,
) -> Result<Thesis, AllocError>
    requires sound { IsSound table.old }
    requires within { place < length (D.scope declared.now).assertions }
    requires active { option_map (λ a. a.active) (slice_get (D.scope declared.now).assertions place)
        ≡ Some (seen_hypotheses active.items) }
    ensures keeps { OnOk result (Keeps table.old table.new) }
    ensures made { IfOk result (λ t. (x : Assertion) → slice_get (D.scope declared.now).assertions place ≡ Some x
        → Lasts (words_of table.new) (λ name. IsThesisOf name t x)) }
{
    let floats = floats_of(alloc, table, active)?;
    let pairs = numbered(alloc, table, declared.pairs(alloc, place)?)?;
    let floats = Marked::new(alloc, table.keys(), floats, table.count())?;
    let pairs = Pairs::new(alloc, table.keys(), pairs)?;
    Ok(Thesis { floats, pairs })
}
