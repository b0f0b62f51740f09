//! The mandatory hypotheses of an assertion, by the numbers that were noted when it was declared.

ghost use Rattle.std.specs.Prelude.{◌≡◌, ◌<◌, IfOk, Some, length, map, slice_get};
ghost use Rattle.std.specs.List.{AllByRecursion};
ghost use Rattle.std.specs.Option.{option_map};
ghost use Rattle.source.specs.Views.{seen_hypotheses};
ghost use Rattle.scopes.specs.Views.{kept_of, scope_of, linked, hypotheses_at};
ghost use Rattle.scopes.specs.Sound.{IsSoundTables};

use crate::shown::asserted_there;
use crate::tables::{Link, Tables};
use source::HypothesisWords;
use std::alloc::{AllocError, Global};

/// The hypotheses of these numbers.
fn hypotheses_at<'t, 'a>(
    alloc: Global,
    links: &'t [Link<'a>],
    numbers: &[usize],
) -> Result<Vec<&'t HypothesisWords<'a>>, AllocError>
    requires { AllByRecursion (λ i. i < length (map linked links.now)) numbers.now }
    ensures { IfOk result (λ hs. seen_hypotheses hs.items ≡ hypotheses_at (map linked links.now) numbers.now) }
{
    let mut hypotheses = Vec::with_capacity(alloc, numbers.len())?;
    for number in numbers {
        hypotheses.push(&links[*number].hypothesis)?;
    }
    Ok(hypotheses)
}

/// The mandatory hypotheses of the assertion at a place. It costs as many as they are.
pub(crate) fn mandatory<'t, 'a>(
    tables: &'t Tables<'a>,
    alloc: Global,
    place: usize,
) -> Result<Vec<&'t HypothesisWords<'a>>, AllocError>
    requires sound { IsSoundTables tables.now }
    requires within { place < length (scope_of (kept_of tables.now)).assertions }
    ensures { IfOk result (λ hs. option_map (λ a. a.hypotheses) (slice_get (scope_of (kept_of tables.now)).assertions place)
        ≡ Some (seen_hypotheses hs.items)) }
{
    let asserted = asserted_there(tables, place);
    hypotheses_at(
        alloc,
        tables.links.as_slice(),
        asserted.mandatory_links.as_slice(),
    )
}
