//! What an assertion says in the library: its hypotheses, its statement and its pairs.

ghost use Rattle.std.specs.Prelude.{◌≡◌, ◌≢◌, Some, None, filter_map, IfOk, OnOk};
ghost use Rattle.source.specs.Views.{seen_pairs, seen_words};
ghost use Rattle.taking.specs.Says.{each, premises, ascending, pair_at};
ghost use Rattle.sites.specs.Given.{given_hypotheses};
ghost use Rattle.sites.specs.Actives.{float_at};
ghost use Rattle.gathering.specs.Pairs.{with_one};
ghost use Rattle.gathering.specs.Placed.{symbols_by};

use mmsyntax::{Expr, Sequence};
use mmunits::Block;
use sites::Active;
use source::HypothesisWords;
use std::alloc::{AllocError, Global};
use std::hash::RandomState;
use taking::{SymbolPlaces, expression};

/// The symbols of each `$e`: nothing where a word has none.
fn premises<P: SymbolPlaces>(
    alloc: Global,
    places: &P,
    hypotheses: &[HypothesisWords<'_>],
) -> Result<Option<Sequence<Expr>>, AllocError>
    ensures { IfOk result (λ made. made ≡ each (each (P.placed places.now)) (premises (given_hypotheses hypotheses.now))) }
{
    let mut made = Vec::new(alloc);
    for hypothesis in hypotheses {
        if let HypothesisWords::Premise(_, words) = hypothesis {
            let Some(symbols) = expression(alloc, places, words.as_slice())? else {
                return Ok(None);
            };
            made.push(symbols)?;
        }
    }
    Ok(Some(Sequence::from_vec(made)))
}

/// The same by the places of an assertion, where all words have one.
pub(crate) fn placed_premises(
    alloc: Global,
    places: &Active<'_, '_>,
    hypotheses: &[HypothesisWords<'_>],
) -> Result<Sequence<Expr>, AllocError>
    requires { each (each (symbols_by places.now)) (premises (given_hypotheses hypotheses.now)) ≢ None }
    ensures { IfOk result (λ made. Some made ≡ each (each (symbols_by places.now)) (premises (given_hypotheses hypotheses.now))) }
{
    match premises(alloc, places, hypotheses)? {
        Some(made) => Ok(made),
        None => unreachable!(),
    }
}

/// The symbols of words that all have one.
pub(crate) fn placed_expression(
    alloc: Global,
    places: &Active<'_, '_>,
    words: &[&[u8]],
) -> Result<Expr, AllocError>
    requires { each (symbols_by places.now) (seen_words words.now) ≢ None }
    ensures { IfOk result (λ made. Some made ≡ each (symbols_by places.now) (seen_words words.now)) }
{
    match expression(alloc, places, words)? {
        Some(made) => Ok(made),
        None => unreachable!(),
    }
}

/// The pairs of `$f`, ascending, each once: from the last to the first, as each is put in front of those behind it.
pub(crate) fn restrictions(
    alloc: Global,
    keys: RandomState,
    places: &Active<'_, '_>,
    pairs: &[(&[u8], &[u8])],
) -> Result<Sequence<(u32, u32)>, AllocError>
    ensures { IfOk result (λ made. made ≡ ascending (filter_map (λ p. pair_at (float_at places.now p.0) (float_at places.now p.1))
        (seen_pairs pairs.now))) }
{
    let mut block = Block::new(alloc, keys)?;
    for place in (0..pairs.len()).rev() {
        let (one, other) = pairs[place];
        put_pair(&mut block, places.variable(one), places.variable(other))?;
    }
    let (made, _) = block.into_parts(alloc)?;
    Ok(Sequence::from_vec(made))
}

/// A pair is put in its place, if both have one.
fn put_pair(block: &mut Block<'_>, one: Option<u32>, other: Option<u32>) -> Result<(), AllocError>
    ensures { OnOk result (block.new ≡ record block.old { pairs = with_one (pair_at one other) block.old.pairs }) }
{
    match (one, other) {
        (Some(one), Some(other)) => block.add_pairs(other, &[one]),
        _ => Ok(()),
    }
}
