//! Lists that are kept by their last items: each item is noted with the number of the one before it.

ghost use Rattle.std.specs.Prelude.{◌≡◌, ◌<◌, ◌++◌, ◌∷◌, List, [], IfOk, Option, Some, map, ℕ};
ghost use Rattle.std.specs.Borrow.{Bor};
ghost use Rattle.std.specs.Option.{option_map_or};
ghost use Rattle.source.specs.declared.contents.HypothesisWords.{HypothesisWords as Words};
ghost use Rattle.source.specs.Views.{seen_hypothesis, seen_hypotheses, seen_words};
ghost use Rattle.scopes.specs.Paths.{path, earlier, count_to};
ghost use Rattle.scopes.specs.Views.{linked, set_apart, seen_aparts};

use crate::tables::{Apart, Link};
use source::HypothesisWords;
use std::alloc::{AllocError, Global};

/// The number that is noted for the one before an item, if it is below the item's.
fn earlier(number: usize, before: Option<usize>) -> Option<usize>
    ensures { result ≡ earlier number before }
{
    match before {
        Some(before) if before < number => Some(before),
        _ => None,
    }
}

/// The hypothesis of a number, and the number of the one before it.
pub(crate) fn hypothesis_at<'t, 'a>(
    links: &'t [Link<'a>],
    number: Option<usize>,
) -> Option<(&'t HypothesisWords<'a>, Option<usize>)>
    ensures path { path (map linked links.now) number
        ≡ option_map_or (λ p. path (map linked links.now) p.1 ++ seen_hypothesis p.0.now ∷ []) result [] }
    ensures falls { (h : Bor Words) (before : Option ℕ) → result ≡ Some (h, before) → count_to before < count_to number }
{
    let number = number?;
    let link = links.get(number)?;
    Some((&link.hypothesis, earlier(number, link.before)))
}

/// The hypotheses up to the one of a number, in order of appearance.
pub(crate) fn hypotheses_to<'t, 'a>(
    links: &'t [Link<'a>],
    alloc: Global,
    last: Option<usize>,
) -> Result<Vec<&'t HypothesisWords<'a>>, AllocError>
    ensures { IfOk result (λ hs. seen_hypotheses hs.items ≡ path (map linked links.now) last) }
{
    let mut hypotheses = Vec::new(alloc);
    let mut number = last;
    while let Some((hypothesis, before)) = hypothesis_at(links, number) {
        hypotheses.push(hypothesis)?;
        number = before;
    }
    hypotheses.reverse();
    Ok(hypotheses)
}

/// The variables of the `$d` of a number, and the number of the one before it.
fn apart_at<'t, 'a>(
    aparts: &'t [Apart<'a>],
    number: Option<usize>,
) -> Option<(&'t [&'a [u8]], Option<usize>)>
    ensures path { path (map set_apart aparts.now) number
        ≡ option_map_or (λ p. path (map set_apart aparts.now) p.1 ++ seen_words p.0.now ∷ []) result [] }
    ensures falls { (vs : Bor (List (Bor (List ℕ)))) (before : Option ℕ) → result ≡ Some (vs, before) → count_to before < count_to number }
{
    let number = number?;
    let apart = aparts.get(number)?;
    Some((apart.variables.as_slice(), earlier(number, apart.before)))
}

/// The variables of each `$d` up to the one of a number, in order of appearance.
pub(crate) fn aparts_to<'t, 'a>(
    aparts: &'t [Apart<'a>],
    alloc: Global,
    last: Option<usize>,
) -> Result<Vec<&'t [&'a [u8]]>, AllocError>
    ensures { IfOk result (λ vs. seen_aparts vs.items ≡ path (map set_apart aparts.now) last) }
{
    let mut variables = Vec::new(alloc);
    let mut number = last;
    while let Some((others, before)) = apart_at(aparts, number) {
        variables.push(others)?;
        number = before;
    }
    variables.reverse();
    Ok(variables)
}
