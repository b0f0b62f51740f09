//! The hypotheses of what `add` brings, as the source might have them.

ghost use Rattle.std.specs.Prelude.{◌≡◌, ◌++◌, [], IfOk, OnOk, filter, map, slice_index_or};
ghost use Rattle.std.specs.List.{list_any};
ghost use Rattle.std.specs.Str.{bytes_eq};
ghost use Rattle.source.specs.Scopes.{is_mandatory, mandatory, stands_in};
ghost use Rattle.source.specs.Views.{seen_hypothesis, seen_hypotheses, seen_words};
ghost use Rattle.pasting.specs.Additions.{floats_of};
ghost use Rattle.pasting.specs.Places.{places_of};
ghost use Rattle.pasting.specs.Views.{AreFloats};

use mmsyntax::{Database, Label};
use sites::Sites;
use source::HypothesisWords;
use std::alloc::{AllocError, Global};

/// The name at a place: nothing where there is none.
fn name_at(names: &[Label], place: u32) -> &[u8]
    ensures { result.now ≡ slice_index_or names.now place [] }
{
    match names.get(place as usize) {
        Some(name) => name.as_slice(),
        None => &[],
    }
}

/// The `$f` of the library, each with the label that it has in the source.
pub(crate) fn floats_of<'p, 'a: 'p>(
    alloc: Global,
    sites: &Sites<'a>,
    database: &'p Database,
) -> Result<Vec<HypothesisWords<'p>>, AllocError>
    ensures { IfOk result (λ made. map seen_hypothesis made.items
        ≡ floats_of (places_of sites.now.floats sites.now.labels database.now) database.now.prelude) }
{
    let prelude = database.prelude();
    let (labels, floats) = (sites.floats(), prelude.floats());
    let count = labels.len().min(floats.len());
    let mut made = Vec::with_capacity(alloc, count)?;
    for place in 0..count {
        let (type_code, variable) = (floats[place].type_code, floats[place].variable);
        let type_code = name_at(prelude.constants(), type_code);
        let variable = name_at(prelude.variables(), variable);
        made.push(HypothesisWords::Typing(labels[place], type_code, variable))?;
    }
    Ok(made)
}

/// Hypotheses, and others behind them.
pub(crate) fn all_of<'t, 'x>(
    alloc: Global,
    floats: &'t [HypothesisWords<'x>],
    premises: &'t [HypothesisWords<'x>],
) -> Result<Vec<&'t HypothesisWords<'x>>, AllocError>
    ensures { IfOk result (λ made. seen_hypotheses made.items ≡ map seen_hypothesis floats.now ++ map seen_hypothesis premises.now) }
{
    let mut made = Vec::with_capacity(alloc, floats.len())?;
    for hypothesis in floats {
        made.push(hypothesis)?;
    }
    for hypothesis in premises {
        made.push(hypothesis)?;
    }
    Ok(made)
}

/// Whether a word is one of these.
fn is_among(words: &[&[u8]], word: &[u8]) -> bool
    ensures { result ≡ list_any (λ other. bytes_eq word.now other.now) words.now }
{
    words.iter().any(|other| word == *other)
}

/// Whether a variable stands in a `$e`.
fn stands_in(variable: &[u8], hypothesis: &HypothesisWords<'_>) -> bool
    ensures { result ≡ stands_in variable.now (seen_hypothesis hypothesis.now) }
{
    match hypothesis {
        HypothesisWords::Typing(..) => false,
        HypothesisWords::Premise(_, symbols) => is_among(symbols.as_slice(), variable),
    }
}

/// Whether a variable stands in one of these `$e`.
fn stands_in_one(variable: &[u8], premises: &[HypothesisWords<'_>]) -> bool
    ensures { result ≡ list_any (λ premise. stands_in variable.now (seen_hypothesis premise)) premises.now }
{
    premises.iter().any(|premise| stands_in(variable, premise))
}

/// Whether a hypothesis is mandatory: a `$e`, or the `$f` of a variable that stands in the statement or in one of the `$e`.
fn is_mandatory(
    premises: &[HypothesisWords<'_>],
    statement: &[&[u8]],
    hypothesis: &HypothesisWords<'_>,
) -> bool
    ensures { result ≡ is_mandatory (map seen_hypothesis premises.now) (seen_words statement.now) (seen_hypothesis hypothesis.now) }
{
    match hypothesis {
        HypothesisWords::Typing(_, _, variable) => {
            is_among(statement, variable) || stands_in_one(variable, premises)
        }
        HypothesisWords::Premise(..) => true,
    }
}

/// Puts the mandatory ones of hypotheses behind others.
fn keep_mandatory<'t, 'x>(
    made: &mut Vec<&'t HypothesisWords<'x>>,
    premises: &[HypothesisWords<'x>],
    statement: &[&[u8]],
    hypotheses: &'t [HypothesisWords<'x>],
) -> Result<(), AllocError>
    ensures { OnOk result (seen_hypotheses made.new.items ≡ seen_hypotheses made.old.items
        ++ filter (is_mandatory (map seen_hypothesis premises.now) (seen_words statement.now)) (map seen_hypothesis hypotheses.now)) }
{
    for hypothesis in hypotheses {
        if is_mandatory(premises, statement, hypothesis) {
            made.push(hypothesis)?;
        }
    }
    Ok(())
}

/// The mandatory hypotheses of a statement behind `$f` and `$e`, in their order. It costs as much as there are pairs of a `$f` and a
/// symbol.
pub(crate) fn mandatory_of<'t, 'x>(
    alloc: Global,
    floats: &'t [HypothesisWords<'x>],
    premises: &'t [HypothesisWords<'x>],
    statement: &[&[u8]],
) -> Result<Vec<&'t HypothesisWords<'x>>, AllocError>
    ensures { IfOk result (λ made. AreFloats (map seen_hypothesis floats.now) → seen_hypotheses made.items
        ≡ mandatory (map seen_hypothesis floats.now ++ map seen_hypothesis premises.now) (seen_words statement.now)) }
{
    let mut made = Vec::new(alloc);
    keep_mandatory(&mut made, premises, statement, floats)?;
    keep_mandatory(&mut made, premises, statement, premises)?;
    Ok(made)
}
