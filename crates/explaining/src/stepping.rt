//! The steps of a proof, one after the other.

ghost use Rattle.std.specs.Prelude.{◌≡◌, ◌<◌, ◌≤◌, ◌+◌, ◌-◌, ◌^◌, ◌∷◌, [], ℕ, List, IfOk, None, Some, Ok, false, filter, find, length, map, slice_get, take};
ghost use Rattle.std.specs.List.{list_any};
ghost use Rattle.std.specs.Str.{bytes_eq};
ghost use Rattle.mmtext.specs.Words.{Word};
ghost use Rattle.source.specs.Scopes.{Assertion, label_of};
ghost use Rattle.source.specs.Letters.{is_absent};
ghost use Rattle.source.specs.Proofs.{Step, marks, names, numbered, step_of};
ghost use Rattle.source.specs.Views.{seen_words, seen_hypothesis};
ghost use Rattle.verifying.specs.Citations.{said_by};
ghost use Rattle.verifying.specs.Faults.{is_counted};
ghost use Rattle.explaining.specs.Shown.{bare, seen_assertion, seen_stack, IsSaid, Turns, Reached, Tells};

use crate::assertion::{AssertionWords, assertion_at, earlier_place, mandatory_at};
use crate::citing::{Conclusion, conclude};
use crate::filling::filled_with;
use crate::finding::{Explained, Finding};
use crate::fitting::same_expression;
use crate::stack::Entries;
use source::{Code, Declared, HypothesisWords};
use std::alloc::{AllocError, Global};

/// What a step does.
#[derive(Drop)]
pub(crate) enum Turn<'a> {
    /// It puts an expression, or marks one.
    Passes,
    /// What it names or takes isn't there.
    Absent,
    /// A test of it fails.
    Fails(Finding<'a>),
}

/// What comes of steps.
#[derive(Drop)]
pub(crate) enum Outcome<'a> {
    /// What one of them names or takes isn't there, or they don't leave one expression.
    Absent,
    /// They derive the statement.
    Derives,
    /// They have this fault.
    Fails(Explained<'a>),
}

/// A theorem, and the labels that the numbers of its proof count.
#[derive(Drop)]
pub(crate) struct Listed<'x, 'a> {
    pub(crate) theorem: &'x AssertionWords<'a>,
    pub(crate) labels: &'x [&'a [u8]],
}

/// Whether a hypothesis has a label.
fn has_label(hypothesis: &HypothesisWords<'_>, label: &[u8]) -> bool
    ensures { result ≡ bytes_eq label.now (label_of (seen_hypothesis hypothesis.now)) }
{
    match hypothesis {
        HypothesisWords::Typing(own, _, _) => label == *own,
        HypothesisWords::Premise(own, _) => label == *own,
    }
}

/// What a hypothesis says.
fn said_by<'a>(alloc: Global, hypothesis: &HypothesisWords<'a>) -> Result<Vec<&'a [u8]>, AllocError>
    ensures { IfOk result (λ said. seen_words said.items ≡ said_by (seen_hypothesis hypothesis.now)) }
{
    match hypothesis {
        HypothesisWords::Typing(_, type_code, variable) => {
            Vec::from_slice(alloc, [*type_code, *variable].as_slice())
        }
        HypothesisWords::Premise(_, words) => Vec::from_slice(alloc, words.as_slice()),
    }
}

/// What the first of some hypotheses says that has a label.
fn said_under<'a>(
    alloc: Global,
    active: &[HypothesisWords<'a>],
    label: &[u8],
) -> Result<Option<Vec<&'a [u8]>>, AllocError>
    ensures { IfOk result (IsSaid (map seen_hypothesis active.now) label.now) }
{
    for hypothesis in active {
        if has_label(hypothesis, label) {
            return Ok(Some(said_by(alloc, hypothesis)?));
        }
    }
    Ok(None)
}

/// A citation. After an error nothing is said of the stack.
fn cite<'a>(
    alloc: Global,
    theorem: &AssertionWords<'a>,
    cited: &AssertionWords<'a>,
    hypotheses: Vec<HypothesisWords<'a>>,
    stack: &mut Entries<'a>,
) -> Result<Turn<'a>, AllocError>
    ensures { let x = seen_assertion theorem.now in IfOk result (λ turn. (earlier : List Assertion) (label : Word) (c : Assertion)
        → bare c ≡ seen_assertion cited.now → c.hypotheses ≡ map seen_hypothesis hypotheses.entry.items
        → find (λ h. bytes_eq label (label_of h)) x.active ≡ None → find (λ a. bytes_eq label a.label) earlier ≡ Some c
        → Turns earlier x (names label) (seen_stack stack.old) (seen_stack stack.new) turn) }
{
    let Some(expressions) = stack.take(hypotheses.len())? else {
        return Ok(Turn::Absent);
    };
    let filled = filled_with(alloc, hypotheses, expressions)?;
    match conclude(alloc, theorem, cited, filled.as_slice())? {
        Conclusion::Fails(finding) => Ok(Turn::Fails(finding)),
        Conclusion::Made(expression) => {
            stack.push(expression)?;
            Ok(Turn::Passes)
        }
    }
}

/// A label in the proof of the assertion at a place that names an earlier assertion, or nothing. After an error nothing is said of the
/// stack.
fn take_citation<'a, D: Declared<'a>>(
    alloc: Global,
    declared: &D,
    place: usize,
    theorem: &AssertionWords<'a>,
    label: &'a [u8],
    stack: &mut Entries<'a>,
) -> Result<Turn<'a>, AllocError>
    requires { find (λ h. bytes_eq label.now (label_of h)) (seen_assertion theorem.now).active ≡ None }
    ensures { let x = seen_assertion theorem.now in let earlier = take place (D.scope declared.now).assertions in
        IfOk result (Turns earlier x (names label.entry.now) (seen_stack stack.old) (seen_stack stack.new)) }
{
    let Some(found) = earlier_place(declared, place, label) else {
        return Ok(Turn::Absent);
    };
    let cited = assertion_at(alloc, declared, found)?;
    let hypotheses = mandatory_at(alloc, declared, found)?;
    cite(alloc, theorem, &cited, hypotheses, stack)
}

/// A label in the proof of the assertion at a place. After an error nothing is said of the stack.
fn take_label<'a, D: Declared<'a>>(
    alloc: Global,
    declared: &D,
    place: usize,
    theorem: &AssertionWords<'a>,
    label: &'a [u8],
    stack: &mut Entries<'a>,
) -> Result<Turn<'a>, AllocError>
    ensures { let x = seen_assertion theorem.now in let earlier = take place (D.scope declared.now).assertions in
        IfOk result (Turns earlier x (names label.entry.now) (seen_stack stack.old) (seen_stack stack.new)) }
{
    match said_under(alloc, theorem.active.as_slice(), label)? {
        None => take_citation(alloc, declared, place, theorem, label, stack),
        Some(said) => {
            stack.push(said)?;
            Ok(Turn::Passes)
        }
    }
}

/// A number from 0: of a label, or behind the labels of a marked subproof. After an error nothing is said of the stack.
fn take_number<'a, D: Declared<'a>>(
    alloc: Global,
    declared: &D,
    place: usize,
    listed: &Listed<'_, 'a>,
    number: usize,
    stack: &mut Entries<'a>,
) -> Result<Turn<'a>, AllocError>
    ensures { let x = seen_assertion listed.now.theorem.now in let earlier = take place (D.scope declared.now).assertions in
        IfOk result (Turns earlier x (numbered (seen_words listed.now.labels.now) number) (seen_stack stack.old) (seen_stack stack.new)) }
{
    let labels = listed.labels;
    if number < labels.len() {
        let theorem = listed.theorem;
        return take_label(alloc, declared, place, theorem, labels[number], stack);
    }
    if stack.repeat(alloc, number - labels.len())? {
        Ok(Turn::Passes)
    } else {
        Ok(Turn::Absent)
    }
}

/// A mark. After an error nothing is said of the stack.
fn take_mark<'a>(alloc: Global, stack: &mut Entries<'a>) -> Result<Turn<'a>, AllocError>
    ensures { IfOk result (λ turn. (earlier : List Assertion) (x : Assertion)
        → Turns earlier x marks (seen_stack stack.old) (seen_stack stack.new) turn) }
{
    if stack.mark(alloc)? {
        Ok(Turn::Passes)
    } else {
        Ok(Turn::Absent)
    }
}

/// A step, if it is there: none of a finished proof is missing. After an error nothing is said of the stack.
fn take_code<'a, D: Declared<'a>>(
    alloc: Global,
    declared: &D,
    place: usize,
    listed: &Listed<'_, 'a>,
    code: Code,
    stack: &mut Entries<'a>,
) -> Result<Turn<'a>, AllocError>
    ensures { let x = seen_assertion listed.now.theorem.now in let earlier = take place (D.scope declared.now).assertions in
        is_absent code ≡ false
        → IfOk result (Turns earlier x (step_of (seen_words listed.now.labels.now) code) (seen_stack stack.old) (seen_stack stack.new)) }
{
    match code {
        Code::Number(number) => {
            let number = number.saturating_sub(1) as usize;
            take_number(alloc, declared, place, listed, number, stack)
        }
        Code::Mark => take_mark(alloc, stack),
        Code::Unknown => Ok(Turn::Absent),
    }
}

/// The number of a step behind so many that are counted: a mark isn't.
fn count(before: usize, code: Code) -> usize
    requires { before < 2 ^ 64 - 1 }
    ensures counted { (labels : List Word) → result ≡ before + length (filter is_counted (step_of labels code ∷ [])) }
    ensures few { result ≤ before + 1 }
{
    match code {
        Code::Number(_) => before + 1,
        Code::Mark => before,
        Code::Unknown => before + 1,
    }
}

/// What comes of all steps, which leave this stack, of which so many are counted.
fn end<'a>(
    alloc: Global,
    theorem: &AssertionWords<'a>,
    stack: &mut Entries<'a>,
    step: usize,
) -> Result<Outcome<'a>, AllocError>
    ensures { let x = seen_assertion theorem.now in IfOk result (λ outcome. (earlier : List Assertion) (steps : List Step)
        → Reached earlier x steps (seen_stack stack.old) step → Tells earlier x steps outcome) }
{
    if stack.entries.len() != 1 {
        return Ok(Outcome::Absent);
    }
    let Some(found) = stack.entries.pop() else {
        unreachable!()
    };
    if same_expression(found.as_slice(), theorem.statement.as_slice()) {
        return Ok(Outcome::Derives);
    }
    let wanted = Vec::from_slice(alloc, theorem.statement.as_slice())?;
    let finding = Finding::StatementDiffers { wanted, found };
    Ok(Outcome::Fails(Explained { step, finding }))
}

/// Takes the steps of a finished proof of the assertion at a place.
///
/// # Errors
///
/// Want of memory.
pub(crate) fn take_codes<'a, D: Declared<'a>>(
    alloc: Global,
    declared: &D,
    place: usize,
    listed: &Listed<'_, 'a>,
    codes: &[Code],
) -> Result<Outcome<'a>, AllocError>
    ensures { let x = seen_assertion listed.now.theorem.now in let earlier = take place (D.scope declared.now).assertions in
        list_any is_absent codes.now ≡ false → IfOk result (Tells earlier x (map (step_of (seen_words listed.now.labels.now)) codes.now)) }
{
    let mut stack = Entries::new(alloc);
    let mut step = 0;
    for code in codes {
        step = count(step, *code);
        match take_code(alloc, declared, place, listed, *code, &mut stack)? {
            Turn::Passes => {}
            Turn::Absent => return Ok(Outcome::Absent),
            Turn::Fails(finding) => return Ok(Outcome::Fails(Explained { step, finding })),
        }
    }
    end(alloc, listed.theorem, &mut stack, step)
}
