//! Reading assertions and blocks: one function for each place in them.

ghost use Rattle.std.specs.Prelude.{◌≡◌, ◌<◌, [], length, IfOk};
ghost use Rattle.mmsyntax.specs.Rows.{symbol_of, with_hypothesis_label, with_assertion};
ghost use Rattle.mmsyntax.specs.Blocks.{with_distinct, distinct_of, with_hypothesis, assertion_of, theorem_of};
ghost use Rattle.mmsyntax.specs.Faults.{outermost_row, block_row, close_row, keyword_row, distinct_row, hypothesis_row, axiom_row};
ghost use Rattle.mmsyntax.specs.Faults.{theorem_row, proof_row, next_step, behind, block_of, in_place, inside};
ghost use Rattle.mmsyntax.specs.Faults.{at, at_start};
ghost use Rattle.mmtext.specs.Views.{seen, Gives};
ghost use Rattle.mmtext.specs.declared.mark.Mark.TheVariants.{Floating, Essential};
ghost use Rattle.statementreader.specs.Standing.{SuitsPlace};
ghost use Rattle.statementreader.specs.Takings.{pushed};
ghost use Rattle.mmunits.specs.Views.{known_of};
ghost use Rattle.statementreader.specs.Views.{seen_scope, seen_behind, seen_unit_place, Leads};
ghost use Rattle.mmsyntax.specs.declared.limits.TheConstants.{MOST_HYPOTHESES};

use crate::labels::{assertion_label_fault, float_label_fault, hypothesis_label_fault, symbol_at};
use crate::place::{
    Behind, MarkedToken, OpenAssertion, OpenHypothesis, Place, PreludePlace, Scope, Theorem,
    UnitPlace,
};
use crate::steps::{StepPlace, push_named, restrict, step_at};
use mmsyntax::{Assertion, Kind, Label, Proof, Sequence, SymbolTable, SymbolWord};
use mmtext::{FaultKind, Mark, Stop, Token, fault_at, is_label_token};
use mmunits::{Block, Units};
use std::alloc::{AllocError, Global};

/// Start of a statement, outermost.
fn outermost<'a>(
    alloc: Global,
    symbols: &SymbolTable,
    units: &Units,
    marked: MarkedToken<'a>,
) -> Result<Place<'a>, Stop>
    ensures { Leads symbols.now units.now result
        (outermost_row (known_of symbols.now units.now) (seen marked.entry.token) marked.entry.mark) }
{
    match marked.mark {
        Mark::Constants if !units.is_prelude_closed() => {
            Ok(Place::Prelude(PreludePlace::InConstants(false)))
        }
        Mark::Variables if !units.is_prelude_closed() => {
            Ok(Place::Prelude(PreludePlace::InVariables(false)))
        }
        Mark::Opening => {
            let block = Block::new(alloc, units.keys())?;
            Ok(Place::Unit(UnitPlace::AtStart(Scope::Inside(block))))
        }
        Mark::Constants | Mark::Variables | Mark::Disjoint => {
            Err(fault_at(marked.token, FaultKind::OutOfProfile))
        }
        Mark::Plain if is_label_token(marked.token.text) => {
            Ok(Place::Unit(UnitPlace::AfterLabel(Scope::Outside, marked.token)))
        }
        _ => Err(fault_at(marked.token, FaultKind::BadToken)),
    }
}

/// Start of a statement in a block, before its assertion.
fn in_block<'a>(
    alloc: Global,
    symbols: &SymbolTable,
    units: &Units,
    block: Block<'a>,
    marked: MarkedToken<'a>,
) -> Result<Place<'a>, Stop>
    ensures { Leads symbols.now units.now result
        (block_row (known_of symbols.now units.now) block.entry (seen marked.entry.token) marked.entry.mark) }
{
    match marked.mark {
        Mark::Disjoint => Ok(Place::Unit(UnitPlace::InDistinct(block, Vec::new(alloc)))),
        Mark::Constants | Mark::Variables | Mark::Opening => {
            Err(fault_at(marked.token, FaultKind::OutOfProfile))
        }
        Mark::Plain if is_label_token(marked.token.text) => {
            Ok(Place::Unit(UnitPlace::AfterLabel(Scope::Inside(block), marked.token)))
        }
        _ => Err(fault_at(marked.token, FaultKind::BadToken)),
    }
}

/// Start of a statement.
fn at_start<'a>(
    alloc: Global,
    symbols: &SymbolTable,
    units: &Units,
    scope: Scope<'a>,
    marked: MarkedToken<'a>,
) -> Result<Place<'a>, Stop>
    ensures { Leads symbols.now units.now result
        (in_place (known_of symbols.now units.now) (at_start (seen_scope scope.entry)) (seen marked.entry.token) marked.entry.mark) }
{
    match scope {
        Scope::Outside => outermost(alloc, symbols, units, marked),
        Scope::Inside(block) => in_block(alloc, symbols, units, block, marked),
    }
}

/// In a block, behind its assertion.
fn at_close<'a>(
    symbols: &SymbolTable,
    units: &Units,
    marked: MarkedToken<'a>,
) -> Result<Place<'a>, Stop>
    ensures { Leads symbols.now units.now result (close_row (known_of symbols.now units.now) (seen marked.entry.token) marked.entry.mark) }
{
    match marked.mark {
        Mark::Closing => Ok(Place::Unit(UnitPlace::AtStart(Scope::Outside))),
        Mark::Constants | Mark::Variables | Mark::Opening | Mark::Disjoint => {
            Err(fault_at(marked.token, FaultKind::OutOfProfile))
        }
        Mark::Plain if is_label_token(marked.token.text) => Err(fault_at(
            marked.token,
            FaultKind::OutOfProfile,
        )),
        _ => Err(fault_at(marked.token, FaultKind::BadToken)),
    }
}

/// Behind a label and `$f`: outermost, before the first assertion.
fn float_keyword<'a>(
    symbols: &SymbolTable,
    units: &Units,
    scope: Scope<'a>,
    label: Token<'a>,
    token: Token<'a>,
) -> Result<Place<'a>, Stop>
    ensures { Leads symbols.now units.now result
        (keyword_row (known_of symbols.now units.now) (seen_scope scope.entry) (seen label.entry) (seen token.entry) Floating) }
{
    let Scope::Outside = scope else {
        return Err(fault_at(token, FaultKind::OutOfProfile));
    };
    if units.is_prelude_closed() {
        return Err(fault_at(token, FaultKind::OutOfProfile));
    }
    match float_label_fault(symbols, units, label.text) {
        Some(kind) => Err(fault_at(label, kind)),
        None => Ok(Place::Prelude(PreludePlace::FloatType(label.text))),
    }
}

/// Behind a label and `$e`: in a block.
fn hypothesis_keyword<'a>(
    alloc: Global,
    symbols: &SymbolTable,
    units: &Units,
    scope: Scope<'a>,
    label: Token<'a>,
    token: Token<'a>,
) -> Result<Place<'a>, Stop>
    ensures { Leads symbols.now units.now result
        (keyword_row (known_of symbols.now units.now) (seen_scope scope.entry) (seen label.entry) (seen token.entry) Essential) }
{
    let Scope::Inside(block) = scope else {
        return Err(fault_at(token, FaultKind::OutOfProfile));
    };
    match hypothesis_label_fault(symbols, units, &block, label.text) {
        Some(kind) => Err(fault_at(label, kind)),
        None => {
            let begun = OpenHypothesis {
                block,
                label: label.text,
                expression: Vec::new(alloc),
            };
            Ok(Place::Unit(UnitPlace::InHypothesis(begun)))
        }
    }
}

/// A `$a` or `$p` before its expression.
fn open_assertion<'a>(alloc: Global, scope: Scope<'a>, label: &'a [u8]) -> OpenAssertion<'a>
    ensures scope { result.scope ≡ scope.entry }
    ensures label { result.label.now ≡ label.entry.now }
    ensures empty { result.expression.items ≡ [] }
{
    OpenAssertion {
        scope,
        label,
        expression: Vec::new(alloc),
    }
}

/// Behind a label.
fn keyword<'a>(
    alloc: Global,
    symbols: &SymbolTable,
    units: &Units,
    scope: Scope<'a>,
    label: Token<'a>,
    marked: MarkedToken<'a>,
) -> Result<Place<'a>, Stop>
    ensures { Leads symbols.now units.now result
        (keyword_row (known_of symbols.now units.now) (seen_scope scope.entry) (seen label.entry)
        (seen marked.entry.token) marked.entry.mark) }
{
    match marked.mark {
        Mark::Floating => float_keyword(symbols, units, scope, label, marked.token),
        Mark::Essential => hypothesis_keyword(alloc, symbols, units, scope, label, marked.token),
        Mark::Axiom => {
            match assertion_label_fault(symbols, units, label.text) {
                Some(kind) => Err(fault_at(label, kind)),
                None => {
                    let begun = open_assertion(alloc, scope, label.text);
                    Ok(Place::Unit(UnitPlace::InAxiom(begun)))
                }
            }
        }
        Mark::Provable => {
            match assertion_label_fault(symbols, units, label.text) {
                Some(kind) => Err(fault_at(label, kind)),
                None => {
                    let begun = open_assertion(alloc, scope, label.text);
                    Ok(Place::Unit(UnitPlace::InTheorem(begun)))
                }
            }
        }
        _ => Err(fault_at(marked.token, FaultKind::BadToken)),
    }
}

/// A variable of a `$d`, or the `$.` behind two.
fn distinct<'a>(
    symbols: &SymbolTable,
    units: &Units,
    mut block: Block<'a>,
    mut variables: Vec<u32>,
    marked: MarkedToken<'a>,
) -> Result<Place<'a>, Stop>
    ensures { Leads symbols.now units.now result
        (distinct_row (known_of symbols.now units.now) block.entry variables.items (seen marked.entry.token) marked.entry.mark) }
{
    if marked.mark == Mark::End && variables.len() > 1 {
        return Ok(Place::Unit(UnitPlace::AtStart(Scope::Inside(block))));
    }
    match restrict(symbols, &mut block, &variables, marked.token.text)? {
        Ok(j) => {
            variables.push(j)?;
            Ok(Place::Unit(UnitPlace::InDistinct(block, variables)))
        }
        Err(kind) => Err(fault_at(marked.token, kind)),
    }
}

/// An expression with one more symbol.
fn with_symbol(
    symbols: &SymbolTable,
    mut expression: Vec<SymbolWord>,
    token: Token<'_>,
) -> Result<Vec<SymbolWord>, Stop>
    ensures { Gives (λ e. e.items) result
        (pushed (seen token.entry) expression.items (symbol_of symbols.now (length expression.items) token.entry.text.now)) }
{
    match symbol_at(symbols, expression.len(), token.text) {
        Ok(symbol) => {
            expression.push(symbol)?;
            Ok(expression)
        }
        Err(kind) => Err(fault_at(token, kind)),
    }
}

/// Behind a `$e`.
fn end_hypothesis<'a>(
    alloc: Global,
    symbols: &SymbolTable,
    units: &mut Units,
    hypothesis: OpenHypothesis<'a>,
) -> Result<Place<'a>, Stop>
    requires { length hypothesis.block.hyps < MOST_HYPOTHESES }
    ensures { let h = hypothesis.entry in Leads symbols.now units.new result
        (at (with_hypothesis_label (known_of symbols.now units.old) h.label.now)
        (at_start (inside (with_hypothesis h.block h.label.now h.expression.items)))) }
{
    let OpenHypothesis {
        mut block,
        label,
        expression,
    } = hypothesis;
    units.add_hypothesis_label(alloc, label)?;
    block.add_hypothesis(alloc, label, Sequence::from_vec(expression))?;
    Ok(Place::Unit(UnitPlace::AtStart(Scope::Inside(block))))
}

/// A symbol of a `$e`, or the `$.` behind one.
fn hypothesis<'a>(
    alloc: Global,
    symbols: &SymbolTable,
    units: &mut Units,
    mut hypothesis: OpenHypothesis<'a>,
    marked: MarkedToken<'a>,
) -> Result<Place<'a>, Stop>
    requires { length hypothesis.block.hyps < MOST_HYPOTHESES }
    ensures { let h = hypothesis.entry in Leads symbols.now units.new result
        (hypothesis_row (known_of symbols.now units.old) h.block h.label.now h.expression.items
        (seen marked.entry.token) marked.entry.mark) }
{
    if marked.mark == Mark::End && !hypothesis.expression.is_empty() {
        return end_hypothesis(alloc, symbols, units, hypothesis);
    }
    hypothesis.expression = with_symbol(symbols, hypothesis.expression, marked.token)?;
    Ok(Place::Unit(UnitPlace::InHypothesis(hypothesis)))
}

/// Where a text goes on behind the assertion of a scope.
fn behind(scope: &Scope<'_>) -> Behind
    ensures { seen_behind result ≡ behind (seen_scope scope.now) }
{
    match scope {
        Scope::Outside => Behind::Statement,
        Scope::Inside(_) => Behind::BlockEnd,
    }
}

/// An assertion behind its end.
fn whole_assertion(
    alloc: Global,
    assertion: OpenAssertion<'_>,
    kind: Kind,
    steps: Proof,
) -> Result<Assertion, AllocError>
    ensures { let a = assertion.entry in
        IfOk result (λ w. w ≡ assertion_of (block_of (seen_scope a.scope)) a.label.now kind a.expression.items steps) }
{
    let OpenAssertion {
        scope,
        label,
        expression,
    } = assertion;
    let (pairs, hyps) = match scope {
        Scope::Outside => (Vec::new(alloc), Vec::new(alloc)),
        Scope::Inside(block) => block.into_parts(alloc)?,
    };
    Ok(Assertion {
        label: Label::from_slice(alloc, label)?,
        kind,
        pairs: Sequence::from_vec(pairs),
        hyps: Sequence::from_vec(hyps),
        statement: Sequence::from_vec(expression),
        proof: steps,
    })
}

/// Behind a `$a` or `$p`.
fn end_assertion<'a>(
    alloc: Global,
    symbols: &SymbolTable,
    units: &mut Units,
    assertion: OpenAssertion<'a>,
    kind: Kind,
    steps: Proof,
) -> Result<Place<'a>, Stop>
    ensures { let a = assertion.entry in Leads symbols.now units.new result
        (at (with_assertion (known_of symbols.now units.old)
        (assertion_of (block_of (seen_scope a.scope)) a.label.now kind a.expression.items steps)) (behind (seen_scope a.scope))) }
{
    let next = behind(&assertion.scope);
    let whole = whole_assertion(alloc, assertion, kind, steps)?;
    units.add_assertion(alloc, whole)?;
    Ok(next.place())
}

/// A symbol of a `$a`, or the `$.` behind one.
fn axiom_symbol<'a>(
    alloc: Global,
    symbols: &SymbolTable,
    units: &mut Units,
    mut assertion: OpenAssertion<'a>,
    marked: MarkedToken<'a>,
) -> Result<Place<'a>, Stop>
    ensures { let a = assertion.entry in Leads symbols.now units.new result
        (axiom_row (known_of symbols.now units.old) (seen_scope a.scope) a.label.now a.expression.items
        (seen marked.entry.token) marked.entry.mark) }
{
    if marked.mark == Mark::End && !assertion.expression.is_empty() {
        let steps = Proof::new(alloc);
        return end_assertion(alloc, symbols, units, assertion, Kind::Axiom, steps);
    }
    assertion.expression = with_symbol(symbols, assertion.expression, marked.token)?;
    Ok(Place::Unit(UnitPlace::InAxiom(assertion)))
}

/// A symbol of a `$p`, or the `$=` behind one.
fn theorem_symbol<'a>(
    alloc: Global,
    symbols: &SymbolTable,
    units: &Units,
    mut assertion: OpenAssertion<'a>,
    marked: MarkedToken<'a>,
) -> Result<Place<'a>, Stop>
    ensures { let a = assertion.entry in Leads symbols.now units.now result
        (theorem_row (known_of symbols.now units.now) (seen_scope a.scope) a.label.now a.expression.items
        (seen marked.entry.token) marked.entry.mark) }
{
    if marked.mark == Mark::Proof && !assertion.expression.is_empty() {
        let begun = Theorem {
            assertion,
            steps: Box::new(alloc, Proof::new(alloc))?,
        };
        return Ok(Place::Unit(UnitPlace::InProof(begun)));
    }
    assertion.expression = with_symbol(symbols, assertion.expression, marked.token)?;
    Ok(Place::Unit(UnitPlace::InTheorem(assertion)))
}

/// Behind a `$p` with its proof.
fn end_theorem<'a>(
    alloc: Global,
    symbols: &SymbolTable,
    units: &mut Units,
    theorem: Theorem<'a>,
) -> Result<Place<'a>, Stop>
    ensures { let a = theorem.entry.assertion in Leads symbols.now units.new result
        (at (with_assertion (known_of symbols.now units.old)
        (theorem_of (block_of (seen_scope a.scope)) a.label.now a.expression.items theorem.entry.steps.value))
        (behind (seen_scope a.scope))) }
{
    let Theorem { assertion, steps } = theorem;
    let steps = Box::into_inner(steps);
    end_assertion(alloc, symbols, units, assertion, Kind::Theorem, steps)
}

/// A step of a proof.
fn next_step<'a>(
    alloc: Global,
    symbols: &SymbolTable,
    units: &Units,
    mut theorem: Theorem<'a>,
    token: Token<'a>,
) -> Result<Place<'a>, Stop>
    ensures { let a = theorem.entry.assertion in Leads symbols.now units.now result
        (next_step (known_of symbols.now units.now) (seen_scope a.scope) a.label.now a.expression.items theorem.entry.steps.value
        (seen token.entry)) }
{
    let step = StepPlace {
        label: theorem.assertion.label,
        count: theorem.steps.len(),
    };
    match step_at(symbols, step, &theorem.assertion.scope, token.text) {
        Ok(named) => {
            push_named(alloc, &mut theorem.steps, named, token.text)?;
            Ok(Place::Unit(UnitPlace::InProof(theorem)))
        }
        Err(kind) => Err(fault_at(token, kind)),
    }
}

/// A step of a proof, or the `$.` behind one.
fn proof_step<'a>(
    alloc: Global,
    symbols: &SymbolTable,
    units: &mut Units,
    theorem: Theorem<'a>,
    marked: MarkedToken<'a>,
) -> Result<Place<'a>, Stop>
    ensures { let a = theorem.entry.assertion in Leads symbols.now units.new result
        (proof_row (known_of symbols.now units.old) (seen_scope a.scope) a.label.now a.expression.items theorem.entry.steps.value
        (seen marked.entry.token) marked.entry.mark) }
{
    if marked.mark == Mark::End && !theorem.steps.is_empty() {
        return end_theorem(alloc, symbols, units, theorem);
    }
    next_step(alloc, symbols, units, theorem, marked.token)
}

/// Where a token leads that stands in no `$c`, `$v` or `$f`.
pub fn next_unit_place<'a>(
    alloc: Global,
    symbols: &SymbolTable,
    units: &mut Units,
    place: UnitPlace<'a>,
    marked: MarkedToken<'a>,
) -> Result<Place<'a>, Stop>
    requires { SuitsPlace (known_of symbols.now units.old) (seen_unit_place place) }
    ensures { Leads symbols.now units.new result
        (in_place (known_of symbols.now units.old) (seen_unit_place place.entry) (seen marked.entry.token) marked.entry.mark) }
{
    match place {
        UnitPlace::AtStart(scope) => at_start(alloc, symbols, units, scope, marked),
        UnitPlace::AtClose => at_close(symbols, units, marked),
        UnitPlace::AfterLabel(scope, label) => {
            keyword(alloc, symbols, units, scope, label, marked)
        }
        UnitPlace::InDistinct(block, variables) => {
            distinct(symbols, units, block, variables, marked)
        }
        UnitPlace::InHypothesis(begun) => hypothesis(alloc, symbols, units, begun, marked),
        UnitPlace::InAxiom(begun) => axiom_symbol(alloc, symbols, units, begun, marked),
        UnitPlace::InTheorem(begun) => theorem_symbol(alloc, symbols, units, begun, marked),
        UnitPlace::InProof(theorem) => proof_step(alloc, symbols, units, theorem, marked),
    }
}
