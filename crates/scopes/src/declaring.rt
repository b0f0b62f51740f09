//! What is put into the tables.

ghost use Rattle.std.specs.Prelude.{◌≡◌, ◌++◌, ◌∷◌, [], length, cond, ℕ, Option, None, Some, IfOk, OnOk, true};
ghost use Rattle.std.specs.Option.{option_map};
ghost use Rattle.std.specs.Str.{bytes_eq};
ghost use Rattle.mmtext.specs.Words.{Word};
ghost use Rattle.source.specs.Statements.{float, hypothesis, distinct, asserted, proved};
ghost use Rattle.source.specs.Counts.{mandatory_marks};
ghost use Rattle.source.specs.Scopes.{declared, label_of, with_assertion};
ghost use Rattle.source.specs.Tests.{is_lawful, a_constant, a_variable};
ghost use Rattle.source.specs.Views.{seen_words, seen_proof, seen_hypothesis};
ghost use Rattle.scopes.specs.declared.tables.Name.TheVariants as name;
ghost use Rattle.scopes.specs.Views.{kept_of, scope_of, stand_of, marks_of, marked_links};
ghost use Rattle.scopes.specs.Sound.{IsSoundTables, looks_up, float_place, last_link};
ghost use Rattle.scopes.specs.Effects.{with_link};

use crate::tables::{Active, Apart, Asserted, Link, Name, Tables};
use source::{HypothesisWords, ProofWords};
use std::alloc::{AllocError, Global};

/// One more constant.
pub(crate) fn add_constant<'a>(tables: &mut Tables<'a>, word: &'a [u8]) -> Result<(), AllocError>
    requires sound { IsSoundTables tables.old }
    requires lawful { is_lawful (scope_of (kept_of tables.old)) (a_constant word.now) ≡ true }
    ensures sound { OnOk result (IsSoundTables tables.new) }
    ensures stand { OnOk result (stand_of (kept_of tables.new) ≡ declared (stand_of (kept_of tables.old)) (a_constant word.entry.now)) }
{
    tables.names.insert(word, Name::Constant)?;
    tables.constants.push(word)?;
    tables.symbols.push(word)?;
    Ok(())
}

/// The place of the `$f` that was noted last for a variable.
fn noted_float(tables: &Tables<'_>, word: &[u8]) -> Option<usize>
    ensures { result ≡ float_place (looks_up tables.now.names word.now) }
{
    match tables.names.get(&word) {
        Some(Name::Variable(_, float)) => *float,
        _ => None,
    }
}

/// One more variable.
pub(crate) fn add_variable<'a>(tables: &mut Tables<'a>, word: &'a [u8]) -> Result<(), AllocError>
    requires sound { IsSoundTables tables.old }
    requires lawful { is_lawful (scope_of (kept_of tables.old)) (a_variable word.now) ≡ true }
    ensures sound { OnOk result (IsSoundTables tables.new) }
    ensures stand { OnOk result (stand_of (kept_of tables.new) ≡ declared (stand_of (kept_of tables.old)) (a_variable word.entry.now)) }
{
    let name = Name::Variable(tables.variables.len(), noted_float(tables, word));
    tables.names.insert(word, name)?;
    tables.variables.push(word)?;
    tables.symbols.push(word)?;
    Ok(())
}

/// The number of the last active hypothesis.
fn last_active(active: &[Active]) -> Option<usize>
    ensures { result ≡ last_link active.now }
{
    match active.last() {
        None => None,
        Some(active) => Some(active.link),
    }
}

/// One more hypothesis, and its label. The place of a `$f` is not noted yet for its variable.
fn add_hypothesis<'a>(
    tables: &mut Tables<'a>,
    label: &'a [u8],
    hypothesis: HypothesisWords<'a>,
) -> Result<(), AllocError>
    requires { label_of (seen_hypothesis hypothesis) ≡ label.now }
    ensures kept { OnOk result (kept_of tables.new ≡ with_link (kept_of tables.old) (seen_hypothesis hypothesis.entry)) }
    ensures names { OnOk result ((w : Word) → looks_up tables.new.names w
        ≡ cond (bytes_eq label.entry.now w) (Some (name.Hypothesis (length tables.old.active.items))) (looks_up tables.old.names w)) }
{
    let before = last_active(tables.active.as_slice());
    let link = tables.links.len();
    let place = tables.active.len();
    // What is owned goes first, so that no later way out drops it.
    tables.links.push(Link { before, hypothesis })?;
    tables.names.insert(label, Name::Hypothesis(place))?;
    tables.labels.push(label)?;
    tables.active.push(Active {
        link,
        is_mandatory: false,
    })?;
    Ok(())
}

/// One more `$e`.
pub(crate) fn add_premise<'a>(
    tables: &mut Tables<'a>,
    label: &'a [u8],
    expression: Vec<&'a [u8]>,
) -> Result<(), AllocError>
    requires sound { IsSoundTables tables.old }
    requires lawful { is_lawful (scope_of (kept_of tables.old)) (hypothesis label.now (seen_words expression.items)) ≡ true }
    ensures sound { OnOk result (IsSoundTables tables.new) }
    ensures stand { OnOk result (stand_of (kept_of tables.new)
        ≡ declared (stand_of (kept_of tables.old)) (hypothesis label.entry.now (seen_words expression.entry.items))) }
{
    let words = HypothesisWords::Premise(label, expression);
    add_hypothesis(tables, label, words)?;
    Ok(())
}

/// The place that was noted for a variable.
fn noted_place(tables: &Tables<'_>, word: &[u8]) -> usize
    ensures { (i : ℕ) (f : Option ℕ) → looks_up tables.now.names word.now ≡ Some (name.Variable i f) → result ≡ i }
{
    match tables.names.get(&word) {
        Some(Name::Variable(place, _)) => *place,
        _ => 0,
    }
}

/// One more `$f`.
pub(crate) fn add_float<'a>(
    tables: &mut Tables<'a>,
    label: &'a [u8],
    type_code: &'a [u8],
    variable: &'a [u8],
) -> Result<(), AllocError>
    requires sound { IsSoundTables tables.old }
    requires lawful { is_lawful (scope_of (kept_of tables.old)) (float label.now type_code.now variable.now) ≡ true }
    ensures sound { OnOk result (IsSoundTables tables.new) }
    ensures stand { OnOk result (stand_of (kept_of tables.new)
        ≡ declared (stand_of (kept_of tables.old)) (float label.entry.now type_code.entry.now variable.entry.now)) }
{
    let place = tables.active.len();
    let name = Name::Variable(noted_place(tables, variable), Some(place));
    let words = HypothesisWords::Typing(label, type_code, variable);
    add_hypothesis(tables, label, words)?;
    tables.names.insert(variable, name)?;
    Ok(())
}

/// One more `$d`.
pub(crate) fn add_distinct<'a>(
    tables: &mut Tables<'a>,
    variables: Vec<&'a [u8]>,
) -> Result<(), AllocError>
    requires { IsSoundTables tables.old }
    ensures sound { OnOk result (IsSoundTables tables.new) }
    ensures stand { OnOk result (stand_of (kept_of tables.new)
        ≡ declared (stand_of (kept_of tables.old)) (distinct (seen_words variables.entry.items))) }
{
    let last = tables.aparts.len();
    let before = tables.last_apart;
    tables.aparts.push(Apart { before, variables })?;
    tables.last_apart = Some(last);
    Ok(())
}

/// The numbers of the hypotheses that are marked.
fn marked_links(alloc: Global, active: &[Active]) -> Result<Vec<usize>, AllocError>
    ensures { IfOk result (λ made. made.items ≡ marked_links active.now) }
{
    let mut links = Vec::new(alloc);
    for hypothesis in active {
        if hypothesis.is_mandatory {
            links.push(hypothesis.link)?;
        }
    }
    Ok(links)
}

/// One more assertion, for whose symbols the mandatory hypotheses are marked.
pub(crate) fn add_asserted<'a>(
    alloc: Global,
    tables: &mut Tables<'a>,
    label: &'a [u8],
    statement: Vec<&'a [u8]>,
    proof: Option<ProofWords<'a>>,
) -> Result<(), AllocError>
    requires sound { IsSoundTables tables.old }
    requires lawful { is_lawful (scope_of (kept_of tables.old)) (asserted label.now (seen_words statement.items)) ≡ true }
    requires marks { marks_of (kept_of tables.old) ≡ mandatory_marks (scope_of (kept_of tables.old)) (seen_words statement.items) }
    ensures sound { OnOk result (IsSoundTables tables.new) }
    ensures stand { OnOk result (stand_of (kept_of tables.new) ≡ record (stand_of (kept_of tables.old)) {
      scope =
          with_assertion (scope_of (kept_of tables.old)) label.entry.now (seen_words statement.entry.items)
          (option_map seen_proof proof.entry);
    }) }
{
    let mandatory_links = marked_links(alloc, tables.active.as_slice())?;
    let hypotheses = last_active(tables.active.as_slice());
    let apart = tables.last_apart;
    let place = tables.assertions.len();
    // What is owned goes first, so that no later way out drops it.
    tables.assertions.push(Asserted {
        label,
        statement,
        proof,
        hypotheses,
        apart,
        mandatory_links,
    })?;
    tables.names.insert(label, Name::Assertion(place))?;
    tables.labels.push(label)?;
    Ok(())
}
