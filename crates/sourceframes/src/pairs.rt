//! Pairs of numbers, each of which is found by a look-up where they are many.

ghost use Rattle.std.specs.Prelude.{◌≡◌, ◌||◌, ℕ, IfOk, OnOk, List};
ghost use Rattle.std.specs.List.{list_any};
ghost use Rattle.sourceframes.specs.Pairs.{ordered, is_pair_of_numbers, finds, AreFound};

use std::alloc::{AllocError, Global};
use std::collections::HashSet;
use std::marker::Model;
use wordkeys::WordKeys;

/// The most pairs that are gone through one by one: half of them are compared until one is found, which takes as long as a look-up, and no
/// set is made before.
const FEW: usize = 32;

/// Pairs of numbers. Contracts see them as a list.
#[derive(Drop)]
pub(crate) struct Pairs {
    listed: Vec<(u32, u32)>,
    /// Each of them with the lower number first, where they are many.
    found: Option<HashSet<(u32, u32), WordKeys>>,
}

impl Model for Pairs {
    ghost use Rattle.std.specs.Prelude.{List, ℕ, IfSome};
    ghost use Rattle.sourceframes.specs.Pairs.{AreFound};

    ghost Value = { List (ℕ × ℕ) };

    ghost view = { λ p. p.listed.items };

    ghost invariant = { λ p. IfSome p.found (AreFound p.listed.items) };
}

/// Whether two numbers are those of a pair, in either order.
fn is_pair_of(first: u32, second: u32, pair: &(u32, u32)) -> bool
    ensures { result ≡ is_pair_of_numbers first second pair.now }
{
    (pair.0 == first && pair.1 == second) || (pair.1 == first && pair.0 == second)
}

/// Two numbers, the lower first.
fn ordered(first: u32, second: u32) -> (u32, u32)
    ensures { result ≡ ordered first second }
{
    if second < first {
        (second, first)
    } else {
        (first, second)
    }
}

/// Adds a pair.
fn add(found: &mut HashSet<(u32, u32), WordKeys>, pair: (u32, u32)) -> Result<(), AllocError>
    ensures { OnOk result ((u v : ℕ) → finds found.new u v ≡ (finds found.old u v || is_pair_of_numbers u v pair)) }
{
    found.insert(ordered(pair.0, pair.1))?;
    Ok(())
}

/// Pairs, each with the lower number first.
fn found_of(
    alloc: Global,
    keys: WordKeys,
    pairs: &[(u32, u32)],
) -> Result<HashSet<(u32, u32), WordKeys>, AllocError>
    ensures { IfOk result (AreFound pairs.now) }
{
    let mut found = HashSet::with_hasher(alloc, keys);
    for pair in pairs {
        add(&mut found, *pair)?;
    }
    Ok(found)
}

impl Pairs {
    /// These pairs.
    ///
    /// # Errors
    ///
    /// Want of memory.
    pub(crate) fn new(
        alloc: Global,
        keys: WordKeys,
        listed: Vec<(u32, u32)>,
    ) -> Result<Pairs, AllocError>
        ensures { IfOk result (λ made. made ≡ listed.items) }
    {
        if listed.len() <= FEW {
            return Ok(Pairs {
                listed,
                found: None,
            });
        }
        let found = found_of(alloc, keys, listed.as_slice())?;
        Ok(Pairs {
            listed,
            found: Some(found),
        })
    }

    /// Whether two numbers are those of one of the pairs, in either order.
    pub(crate) fn has(&self, first: u32, second: u32) -> bool
        ensures { result ≡ list_any (is_pair_of_numbers first second) self.now }
    {
        match &self.found {
            Some(found) => found.contains(&ordered(first, second)),
            None => self
                .listed
                .iter()
                .any(|pair| is_pair_of(first, second, pair)),
        }
    }
}
