//! The hypotheses that are active at an assertion, copied: their words stay slices of the text.

ghost use Rattle.std.specs.Prelude.{◌≡◌, ◌<◌, length, slice_get, IfOk, Some};
ghost use Rattle.std.specs.Option.{option_map};
ghost use Rattle.source.specs.Views.{seen_hypothesis, seen_hypotheses};
ghost use Rattle.sites.specs.Given.{given_hypotheses};

use source::{Declared, HypothesisWords};
use std::alloc::{AllocError, Global};

/// An equal hypothesis.
fn copy_of<'a>(
    alloc: Global,
    hypothesis: &HypothesisWords<'a>,
) -> Result<HypothesisWords<'a>, AllocError>
    ensures { IfOk result (λ made. seen_hypothesis made ≡ seen_hypothesis hypothesis.now) }
{
    match hypothesis {
        HypothesisWords::Typing(label, kind, variable) => {
            Ok(HypothesisWords::Typing(label, kind, variable))
        }
        HypothesisWords::Premise(label, words) => {
            let words = Vec::from_slice(alloc, words.as_slice())?;
            Ok(HypothesisWords::Premise(label, words))
        }
    }
}

/// Equal hypotheses.
fn copies_of<'a>(
    alloc: Global,
    hypotheses: Vec<&HypothesisWords<'a>>,
) -> Result<Vec<HypothesisWords<'a>>, AllocError>
    ensures { IfOk result (λ made. given_hypotheses made.items ≡ seen_hypotheses hypotheses.entry.items) }
{
    let mut made = Vec::with_capacity(alloc, hypotheses.len())?;
    for hypothesis in hypotheses {
        made.push(copy_of(alloc, hypothesis)?)?;
    }
    Ok(made)
}

/// The hypotheses that are active at the assertion at a place, in order of appearance.
pub fn active_at<'a, D: Declared<'a>>(
    alloc: Global,
    declared: &D,
    place: usize,
) -> Result<Vec<HypothesisWords<'a>>, AllocError>
    requires { place < length (D.scope declared.now).assertions }
    ensures { IfOk result (λ hs. option_map (λ a. a.active) (slice_get (D.scope declared.now).assertions place)
        ≡ Some (given_hypotheses hs.items)) }
{
    copies_of(alloc, declared.active(alloc, place)?)
}
