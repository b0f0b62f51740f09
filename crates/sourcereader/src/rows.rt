//! Reading a statement outside of proofs: one function for each place in it.

ghost use Rattle.std.specs.Prelude.{◌≡◌, IfOk, Ok};
ghost use Rattle.mmtext.specs.Views.{seen, Gives};
ghost use Rattle.mmsyntax.specs.Rows.{first_fault};
ghost use Rattle.mmtext.specs.declared.mark.Mark.TheVariants.{Closing};
ghost use Rattle.source.specs.Counts.{mandatory_marks};
ghost use Rattle.source.specs.Tests.{type_tests, float_tests, distinct_tests, symbol_tests};
ghost use Rattle.source.specs.Faults.{at_start, after_label, in_constants, in_variables, in_distinct, float_variable, float_end};
ghost use Rattle.source.specs.Faults.{in_hypothesis, in_axiom, in_theorem, tested, start_row, keyword_row, constant_row, variable_row};
ghost use Rattle.source.specs.Faults.{distinct_row, hypothesis_row, axiom_row, theorem_row, in_place};
ghost use Rattle.source.specs.Views.{seen_words};
ghost use Rattle.sourcereader.specs.Standing.{HasPassed, IsCounted};
ghost use Rattle.sourcereader.specs.Takings.{one_more};
ghost use Rattle.sourcereader.specs.Views.{standing_at, Leads};

use crate::place::{NormalProof, OpenFloat, OpenProof, Place, ProofPlace, Theorem};
use mmtext::{FaultKind, Mark, Stop, Token, fault_at, is_label_token};
use source::{Entries, Standing};
use std::alloc::Global;

/// The start of a statement.
pub(crate) fn start<'a, S: Standing<'a>>(
    alloc: Global,
    standing: &mut S,
    token: Token<'a>,
    mark: Mark,
) -> Result<Place<'a>, Stop>
    ensures leads { Leads (S.stand standing.new) result (start_row (standing_at (S.stand standing.old) at_start) (seen token.entry) mark) }
    ensures counted { IfOk result (λ p. IsCounted (S.stand standing.new).scope (S.marks standing.new) p) }
{
    match mark {
        Mark::Constants if standing.is_outermost() => Ok(Place::InConstants(false)),
        Mark::Variables => Ok(Place::InVariables(false)),
        Mark::Disjoint => Ok(Place::InDistinct(Vec::new(alloc))),
        Mark::Opening => {
            standing.open_block(alloc)?;
            Ok(Place::AtStart)
        }
        Mark::Closing => close(standing, token),
        Mark::Plain if is_label_token(token.text) => Ok(Place::AfterLabel(token)),
        _ => Err(fault_at(token, FaultKind::BadToken)),
    }
}

/// The end of a block.
fn close<'a, S: Standing<'a>>(standing: &mut S, token: Token<'a>) -> Result<Place<'a>, Stop>
    ensures leads { Leads (S.stand standing.new) result
        (start_row (standing_at (S.stand standing.old) at_start) (seen token.entry) Closing) }
    ensures counted { IfOk result (λ p. IsCounted (S.stand standing.new).scope (S.marks standing.new) p) }
{
    if !standing.close_block() {
        return Err(fault_at(token, FaultKind::BadToken));
    }
    Ok(Place::AtStart)
}

/// Behind a label. The expression of an assertion begins there.
pub(crate) fn keyword<'a, S: Standing<'a>>(
    alloc: Global,
    standing: &mut S,
    label: Token<'a>,
    token: Token<'a>,
    mark: Mark,
) -> Result<Place<'a>, Stop>
    ensures leads { Leads (S.stand standing.new) result
        (keyword_row (standing_at (S.stand standing.old) (after_label (seen label.entry))) (seen label.entry) (seen token.entry) mark) }
    ensures counted { IfOk result (λ p. IsCounted (S.stand standing.new).scope (S.marks standing.new) p) }
{
    let word = label.text;
    let place = match mark {
        Mark::Floating => Place::FloatType(word),
        Mark::Essential => Place::InHypothesis(word, Vec::new(alloc)),
        Mark::Axiom => {
            standing.begin();
            Place::InAxiom(word, Vec::new(alloc))
        }
        Mark::Provable => {
            standing.begin();
            Place::InTheorem(word, Vec::new(alloc))
        }
        _ => return Err(fault_at(token, FaultKind::BadToken)),
    };
    match standing.label_fault(word) {
        Some(kind) => Err(fault_at(label, kind)),
        None => Ok(place),
    }
}

/// A symbol in `$c`, or the `$.` behind one.
pub(crate) fn constant<'a, S: Standing<'a>>(
    alloc: Global,
    standing: &mut S,
    some: bool,
    token: Token<'a>,
    mark: Mark,
) -> Result<Place<'a>, Stop>
    requires { HasPassed (S.stand standing.old).scope (in_constants some) }
    ensures leads { Leads (S.stand standing.new) result
        (constant_row (standing_at (S.stand standing.old) (in_constants some)) some (seen token.entry) mark) }
    ensures counted { IfOk result (λ p. IsCounted (S.stand standing.new).scope (S.marks standing.new) p) }
{
    if some && mark == Mark::End {
        return Ok(Place::AtStart);
    }
    if let Some(kind) = standing.constant_fault(token.text) {
        return Err(fault_at(token, kind));
    }
    standing.declare_constant(alloc, token.text)?;
    Ok(Place::InConstants(true))
}

/// A symbol in `$v`, or the `$.` behind one.
pub(crate) fn variable<'a, S: Standing<'a>>(
    alloc: Global,
    standing: &mut S,
    some: bool,
    token: Token<'a>,
    mark: Mark,
) -> Result<Place<'a>, Stop>
    ensures leads { Leads (S.stand standing.new) result
        (variable_row (standing_at (S.stand standing.old) (in_variables some)) some (seen token.entry) mark) }
    ensures counted { IfOk result (λ p. IsCounted (S.stand standing.new).scope (S.marks standing.new) p) }
{
    if some && mark == Mark::End {
        return Ok(Place::AtStart);
    }
    if let Some(kind) = standing.variable_fault(token.text) {
        return Err(fault_at(token, kind));
    }
    standing.declare_variable(alloc, token.text)?;
    Ok(Place::InVariables(true))
}

/// The variables of a `$d` with one more.
fn with_restricted<'a, S: Standing<'a>>(
    standing: &S,
    mut variables: Vec<&'a [u8]>,
    token: Token<'a>,
) -> Result<Vec<&'a [u8]>, Stop>
    ensures { let vs = seen_words variables.entry.items in Gives (λ ws. seen_words ws.items) result
        (one_more (seen token.entry) vs (first_fault (distinct_tests (S.stand standing.now).scope vs token.entry.text.now))) }
{
    if let Some(kind) = standing.distinct_fault(&variables, token.text) {
        return Err(fault_at(token, kind));
    }
    variables.push(token.text)?;
    Ok(variables)
}

/// A variable of a `$d`, or the `$.` behind two.
pub(crate) fn distinct<'a, S: Standing<'a>>(
    alloc: Global,
    standing: &mut S,
    variables: Vec<&'a [u8]>,
    token: Token<'a>,
    mark: Mark,
) -> Result<Place<'a>, Stop>
    requires { HasPassed (S.stand standing.old).scope (in_distinct (seen_words variables.items)) }
    ensures leads { let vs = seen_words variables.entry.items in Leads (S.stand standing.new) result
        (distinct_row (standing_at (S.stand standing.old) (in_distinct vs)) vs (seen token.entry) mark) }
    ensures counted { IfOk result (λ p. IsCounted (S.stand standing.new).scope (S.marks standing.new) p) }
{
    if mark == Mark::End && variables.len() > 1 {
        standing.declare_distinct(alloc, variables)?;
        return Ok(Place::AtStart);
    }
    let variables = with_restricted(standing, variables, token)?;
    Ok(Place::InDistinct(variables))
}

/// The type of a `$f`.
pub(crate) fn type_code<'a, S: Standing<'a>>(
    standing: &S,
    label: &'a [u8],
    token: Token<'a>,
) -> Result<Place<'a>, Stop>
    ensures leads { let s = S.stand standing.now in let w = token.entry.text.now in Leads s result
        (tested (seen token.entry) (type_tests s.scope w) (Ok (standing_at s (float_variable label.entry.now w)))) }
    ensures counted { IfOk result (λ p. IsCounted (S.stand standing.now).scope (S.marks standing.now) p) }
{
    match standing.type_fault(token.text) {
        Some(kind) => Err(fault_at(token, kind)),
        None => Ok(Place::FloatVariable(label, token.text)),
    }
}

/// The variable of a `$f`.
pub(crate) fn typed_variable<'a, S: Standing<'a>>(
    standing: &S,
    label: &'a [u8],
    type_code: &'a [u8],
    token: Token<'a>,
) -> Result<Place<'a>, Stop>
    ensures leads { let s = S.stand standing.now in let w = token.entry.text.now in Leads s result
        (tested (seen token.entry) (float_tests s.scope w) (Ok (standing_at s (float_end label.entry.now type_code.entry.now w)))) }
    ensures counted { IfOk result (λ p. IsCounted (S.stand standing.now).scope (S.marks standing.now) p) }
{
    match standing.float_fault(token.text) {
        Some(kind) => Err(fault_at(token, kind)),
        None => {
            let float = OpenFloat {
                label,
                type_code,
                variable: token.text,
            };
            Ok(Place::FloatEnd(float))
        }
    }
}

/// The end of a `$f`.
pub(crate) fn float_end<'a, S: Standing<'a>>(
    alloc: Global,
    standing: &mut S,
    float: OpenFloat<'a>,
    token: Token<'a>,
    mark: Mark,
) -> Result<Place<'a>, Stop>
    requires { HasPassed (S.stand standing.old).scope (float_end float.label.now float.type_code.now float.variable.now) }
    ensures leads { let f = float.entry in let place = float_end f.label.now f.type_code.now f.variable.now in
        Leads (S.stand standing.new) result
        (in_place (standing_at (S.stand standing.old) place) place (seen token.entry) mark) }
    ensures counted { IfOk result (λ p. IsCounted (S.stand standing.new).scope (S.marks standing.new) p) }
{
    if mark != Mark::End {
        return Err(fault_at(token, FaultKind::BadToken));
    }
    standing.declare_float(alloc, float.label, float.type_code, float.variable)?;
    Ok(Place::AtStart)
}

/// An expression with one more symbol. What that makes mandatory is marked too.
fn with_symbol<'a, S: Standing<'a>>(
    standing: &mut S,
    mut expression: Vec<&'a [u8]>,
    token: Token<'a>,
) -> Result<Vec<&'a [u8]>, Stop>
    ensures reads { let e = seen_words expression.entry.items in Gives (λ ws. seen_words ws.items) result
        (one_more (seen token.entry) e (first_fault (symbol_tests (S.stand standing.old).scope e token.entry.text.now))) }
    ensures marks { S.marks standing.old ≡ mandatory_marks (S.stand standing.old).scope (seen_words expression.entry.items)
        → IfOk result (λ ws. S.marks standing.new ≡ mandatory_marks (S.stand standing.new).scope (seen_words ws.items)) }
    ensures same { S.stand standing.new ≡ S.stand standing.old }
{
    if let Some(kind) = standing.symbol_fault(&expression, token.text) {
        return Err(fault_at(token, kind));
    }
    expression.push(token.text)?;
    Ok(expression)
}

/// A symbol of a `$e`, or the `$.` behind one.
pub(crate) fn hypothesis<'a, S: Standing<'a>>(
    alloc: Global,
    standing: &mut S,
    label: &'a [u8],
    expression: Vec<&'a [u8]>,
    token: Token<'a>,
    mark: Mark,
) -> Result<Place<'a>, Stop>
    requires { HasPassed (S.stand standing.old).scope (in_hypothesis label.now (seen_words expression.items)) }
    ensures leads { let e = seen_words expression.entry.items in Leads (S.stand standing.new) result
        (hypothesis_row (standing_at (S.stand standing.old) (in_hypothesis label.entry.now e)) label.entry.now e (seen token.entry) mark) }
    ensures counted { IfOk result (λ p. IsCounted (S.stand standing.new).scope (S.marks standing.new) p) }
{
    if mark == Mark::End && !expression.is_empty() {
        standing.declare_hypothesis(alloc, label, expression)?;
        return Ok(Place::AtStart);
    }
    let expression = with_symbol(standing, expression, token)?;
    Ok(Place::InHypothesis(label, expression))
}

/// A symbol of a `$a`, or the `$.` behind one.
pub(crate) fn axiom<'a, S: Standing<'a>>(
    alloc: Global,
    standing: &mut S,
    label: &'a [u8],
    expression: Vec<&'a [u8]>,
    token: Token<'a>,
    mark: Mark,
) -> Result<Place<'a>, Stop>
    requires stands { HasPassed (S.stand standing.old).scope (in_axiom label.now (seen_words expression.items)) }
    requires marks { S.marks standing.old ≡ mandatory_marks (S.stand standing.old).scope (seen_words expression.items) }
    ensures leads { let e = seen_words expression.entry.items in Leads (S.stand standing.new) result
        (axiom_row (standing_at (S.stand standing.old) (in_axiom label.entry.now e)) label.entry.now e (seen token.entry) mark) }
    ensures counted { IfOk result (λ p. IsCounted (S.stand standing.new).scope (S.marks standing.new) p) }
{
    if mark == Mark::End && !expression.is_empty() {
        standing.declare_axiom(alloc, label, expression)?;
        return Ok(Place::AtStart);
    }
    let expression = with_symbol(standing, expression, token)?;
    Ok(Place::InAxiom(label, expression))
}

/// A symbol of a `$p`, or the `$=` behind one.
pub(crate) fn theorem<'a, S: Standing<'a>>(
    alloc: Global,
    standing: &mut S,
    label: &'a [u8],
    expression: Vec<&'a [u8]>,
    token: Token<'a>,
    mark: Mark,
) -> Result<Place<'a>, Stop>
    requires { S.marks standing.old ≡ mandatory_marks (S.stand standing.old).scope (seen_words expression.items) }
    ensures leads { let e = seen_words expression.entry.items in Leads (S.stand standing.new) result
        (theorem_row (standing_at (S.stand standing.old) (in_theorem label.entry.now e)) label.entry.now e (seen token.entry) mark) }
    ensures counted { IfOk result (λ p. IsCounted (S.stand standing.new).scope (S.marks standing.new) p) }
{
    if mark == Mark::Proof && !expression.is_empty() {
        let normal = NormalProof {
            steps: Vec::new(alloc),
            entries: Entries::new(),
        };
        let place = ProofPlace::InSteps(normal);
        let theorem = Theorem { label, expression };
        return Ok(Place::InProof(OpenProof { theorem, place }));
    }
    let expression = with_symbol(standing, expression, token)?;
    Ok(Place::InTheorem(label, expression))
}
