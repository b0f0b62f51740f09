//! Reading a proof: one function for each place in it.

ghost use Rattle.std.specs.Prelude.{◌≡◌, List, [], ◌∷◌, ◌++◌, None, Some, true, IfOk, OnOk};
ghost use Rattle.std.specs.Result.{result_err};
ghost use Rattle.mmtext.specs.Views.{seen, Gives};
ghost use Rattle.mmtext.specs.Words.{Word};
ghost use Rattle.mmsyntax.specs.Rows.{first_fault};
ghost use Rattle.source.specs.Tests.{cited_tests, step_tests, letter_tests, is_whole};
ghost use Rattle.source.specs.Faults.{at_start, in_steps, in_labels, in_letters, ends_proof};
ghost use Rattle.source.specs.Faults.{proof_row, labels_row, letters_row};
ghost use Rattle.source.specs.Views.{seen_words, seen_proof};
ghost use Rattle.source.specs.Counts.{CountsSteps, CountsLetters, mandatory_marks, citation_of};
ghost use Rattle.source.specs.Scopes.{Scope};
ghost use Rattle.sourcereader.specs.Standing.{HasPassed, IsCounted, IsCountedProof, IsNumbered, is_stated};
ghost use Rattle.sourcereader.specs.Takings.{one_more};
ghost use Rattle.sourcereader.specs.Views.{standing_at, seen_place, Leads};
ghost use Rattle.sourcereader.specs.declared.place.ProofPlace.TheVariants.{InSteps, InLabels, InLetters};

use crate::place::{CompressedProof, NormalProof, Numbered, OpenProof, Place, ProofPlace, Theorem};
use mmtext::{FaultKind, Mark, Stop, Token, fault_at};
use source::{Citation, Entries, ProofWords, Standing};
use std::alloc::{AllocError, Global};

/// The fault of one more step of a normal proof, which is counted behind others.
fn step_fault<'a, S: Standing<'a>>(
    standing: &S,
    entries: &mut Entries,
    word: &'a [u8],
) -> Result<Option<FaultKind>, AllocError>
    ensures { IfOk result (λ fault. let s = (S.stand standing.now).scope in (ws : List Word) → CountsSteps s ws entries.old
        → (fault ≡ first_fault (step_tests s ws word.entry.now))
        × (fault ≡ None → CountsSteps s (ws ++ word.entry.now ∷ []) entries.new)) }
{
    if word == b"?".as_slice() {
        entries.take_unknown()?;
        return Ok(None);
    }
    let citation = match standing.named(word) {
        Ok(citation) => citation,
        Err(kind) => return Ok(Some(kind)),
    };
    if entries.take(citation)? {
        Ok(None)
    } else {
        Ok(Some(FaultKind::BadToken))
    }
}

/// The end of a `$p`, whose proof denotes a tree or doesn't.
fn end<'a, S: Standing<'a>>(
    alloc: Global,
    standing: &mut S,
    theorem: Theorem<'a>,
    proof: ProofWords<'a>,
    whole: bool,
    token: Token<'a>,
) -> Result<Place<'a>, Stop>
    requires stated { is_stated (S.stand standing.old).scope theorem.label.now (seen_words theorem.expression.items) ≡ true }
    requires whole { whole ≡ is_whole (S.stand standing.old).scope (seen_words theorem.expression.items) (seen_proof proof) }
    requires marks { S.marks standing.old ≡ mandatory_marks (S.stand standing.old).scope (seen_words theorem.expression.items) }
    ensures leads { Leads (S.stand standing.new) result (ends_proof (standing_at (S.stand standing.old) at_start) theorem.entry.label.now
        (seen_words theorem.entry.expression.items) (seen_proof proof.entry) (seen token.entry)) }
    ensures counted { IfOk result (λ p. IsCounted (S.stand standing.new).scope (S.marks standing.new) p) }
{
    if !whole {
        return Err(fault_at(token, FaultKind::BadToken));
    }
    standing.declare_theorem(alloc, theorem.label, theorem.expression, proof)?;
    Ok(Place::AtStart)
}

/// Puts a step of a normal proof behind others.
pub(crate) fn put_step<'a, S: Standing<'a>>(
    standing: &S,
    normal: &mut NormalProof<'a>,
    token: Token<'a>,
) -> Result<(), Stop>
    requires { CountsSteps (S.stand standing.now).scope (seen_words normal.old.steps.items) normal.old.entries }
    ensures puts { let ws = seen_words normal.old.steps.items in Gives (λ _. seen_words normal.new.steps.items) result
        (one_more (seen token.entry) ws (first_fault (step_tests (S.stand standing.now).scope ws token.entry.text.now))) }
    ensures counted { OnOk result (CountsSteps (S.stand standing.now).scope (seen_words normal.new.steps.items) normal.new.entries) }
{
    if let Some(kind) = step_fault(standing, &mut normal.entries, token.text)? {
        return Err(fault_at(token, kind));
    }
    normal.steps.push(token.text)?;
    Ok(())
}

/// Behind `$=`: the `(` of a compressed proof.
fn open<'a, S: Standing<'a>>(alloc: Global, standing: &S, theorem: Theorem<'a>) -> Place<'a>
    requires { S.marks standing.now ≡ mandatory_marks (S.stand standing.now).scope (seen_words theorem.expression.items) }
    ensures place { seen_place result ≡ in_labels theorem.entry.label.now (seen_words theorem.entry.expression.items) [] }
    ensures counted { IsCounted (S.stand standing.now).scope (S.marks standing.now) result }
{
    let hypotheses = standing.mandatory_count();
    let numbered = Numbered {
        hypotheses,
        labels: Vec::new(alloc),
        citations: Vec::new(alloc),
    };
    let place = ProofPlace::InLabels(numbered);
    Place::InProof(OpenProof { theorem, place })
}

/// Behind `$=` and steps.
pub(crate) fn steps<'a, S: Standing<'a>>(
    alloc: Global,
    standing: &mut S,
    theorem: Theorem<'a>,
    mut normal: NormalProof<'a>,
    token: Token<'a>,
    mark: Mark,
) -> Result<Place<'a>, Stop>
    requires stated { is_stated (S.stand standing.old).scope theorem.label.now (seen_words theorem.expression.items) ≡ true }
    requires counts { IsCountedProof (S.stand standing.old).scope (S.marks standing.old) (seen_words theorem.expression.items)
        (InSteps normal) }
    ensures leads { let e = seen_words theorem.entry.expression.items in let ws = seen_words normal.entry.steps.items in
        Leads (S.stand standing.new) result (proof_row (standing_at (S.stand standing.old) (in_steps theorem.entry.label.now e ws))
        theorem.entry.label.now e ws (seen token.entry) mark) }
    ensures counted { IfOk result (λ p. IsCounted (S.stand standing.new).scope (S.marks standing.new) p) }
{
    if normal.steps.is_empty() && token.text == b"(".as_slice() {
        return Ok(open(alloc, standing, theorem));
    }
    if mark == Mark::End && !normal.steps.is_empty() {
        let whole = normal.entries.is_whole();
        let proof = ProofWords::Normal(normal.steps);
        return end(alloc, standing, theorem, proof, whole, token);
    }
    put_step(standing, &mut normal, token)?;
    let place = ProofPlace::InSteps(normal);
    Ok(Place::InProof(OpenProof { theorem, place }))
}

/// What a label in parentheses names, or its fault, in the proof of an expression for which mandatory hypotheses are marked.
fn cited<'a, S: Standing<'a>>(
    standing: &S,
    _expression: &[&'a [u8]],
    word: &'a [u8],
) -> Result<Citation, FaultKind>
    requires { S.marks standing.now ≡ mandatory_marks (S.stand standing.now).scope (seen_words _expression.now) }
    ensures fault { result_err result ≡ first_fault (cited_tests (S.stand standing.now).scope (seen_words _expression.now) word.now) }
    ensures names { let s = (S.stand standing.now).scope in
        IfOk result (λ c. citation_of s.assertions s.hypotheses word.entry.now ≡ Some c) }
{
    standing.cited(word)
}

/// Puts a label in parentheses behind others, in the proof of a theorem.
pub(crate) fn put_label<'a, S: Standing<'a>>(
    standing: &S,
    theorem: &Theorem<'a>,
    numbered: &mut Numbered<'a>,
    token: Token<'a>,
) -> Result<(), Stop>
    requires { IsCountedProof (S.stand standing.now).scope (S.marks standing.now) (seen_words theorem.now.expression.items)
        (InLabels numbered.old) }
    ensures puts { Gives (λ _. seen_words numbered.new.labels.items) result (one_more (seen token.entry)
        (seen_words numbered.old.labels.items) (first_fault (cited_tests (S.stand standing.now).scope
        (seen_words theorem.now.expression.items) token.entry.text.now))) }
    ensures counted { OnOk result (IsCountedProof (S.stand standing.now).scope (S.marks standing.now)
        (seen_words theorem.now.expression.items) (InLabels numbered.new)) }
{
    let citation = match cited(standing, &theorem.expression, token.text) {
        Ok(citation) => citation,
        Err(kind) => return Err(fault_at(token, kind)),
    };
    numbered.labels.push(token.text)?;
    numbered.citations.push(citation)?;
    Ok(())
}

/// Behind `(` and labels.
pub(crate) fn labels<'a, S: Standing<'a>>(
    alloc: Global,
    standing: &S,
    theorem: Theorem<'a>,
    mut numbered: Numbered<'a>,
    token: Token<'a>,
) -> Result<Place<'a>, Stop>
    requires { IsCountedProof (S.stand standing.now).scope (S.marks standing.now) (seen_words theorem.expression.items)
        (InLabels numbered) }
    ensures leads { let e = seen_words theorem.entry.expression.items in let ws = seen_words numbered.entry.labels.items in
        Leads (S.stand standing.now) result (labels_row (standing_at (S.stand standing.now) (in_labels theorem.entry.label.now e ws))
        theorem.entry.label.now e ws (seen token.entry)) }
    ensures counted { IfOk result (λ p. IsCounted (S.stand standing.now).scope (S.marks standing.now) p) }
{
    if token.text == b")".as_slice() {
        let compressed = CompressedProof {
            numbered,
            letters: Vec::new(alloc),
            entries: Entries::new(),
        };
        let place = ProofPlace::InLetters(compressed);
        return Ok(Place::InProof(OpenProof { theorem, place }));
    }
    put_label(standing, &theorem, &mut numbered, token)?;
    let place = ProofPlace::InLabels(numbered);
    Ok(Place::InProof(OpenProof { theorem, place }))
}

/// Puts a word of letters behind others.
pub(crate) fn put_letters<'a>(
    compressed: &mut CompressedProof<'a>,
    token: Token<'a>,
) -> Result<(), Stop>
    ensures same { compressed.new.numbered ≡ compressed.old.numbered }
    ensures puts { (s : Scope) (e : List Word) → let n = compressed.old.numbered in IsNumbered s e n
        → CountsLetters s e (seen_words n.labels.items) (seen_words compressed.old.letters.items) compressed.old.entries
        → Gives (λ _. seen_words compressed.new.letters.items) result (one_more (seen token.entry) (seen_words compressed.old.letters.items)
        (first_fault (letter_tests s e (seen_words n.labels.items) (seen_words compressed.old.letters.items) token.entry.text.now))) }
    ensures counted { (s : Scope) (e : List Word) → let n = compressed.old.numbered in IsNumbered s e n
        → CountsLetters s e (seen_words n.labels.items) (seen_words compressed.old.letters.items) compressed.old.entries
        → OnOk result
        (CountsLetters s e (seen_words n.labels.items) (seen_words compressed.new.letters.items) compressed.new.entries) }
{
    let numbered = &compressed.numbered;
    if !compressed
        .entries
        .take_letters(numbered.hypotheses, &numbered.citations, token.text)?
    {
        return Err(fault_at(token, FaultKind::BadToken));
    }
    compressed.letters.push(token.text)?;
    Ok(())
}

/// Behind `)` and words of letters.
pub(crate) fn letters<'a, S: Standing<'a>>(
    alloc: Global,
    standing: &mut S,
    theorem: Theorem<'a>,
    mut compressed: CompressedProof<'a>,
    token: Token<'a>,
    mark: Mark,
) -> Result<Place<'a>, Stop>
    requires stated { is_stated (S.stand standing.old).scope theorem.label.now (seen_words theorem.expression.items) ≡ true }
    requires counts { IsCountedProof (S.stand standing.old).scope (S.marks standing.old) (seen_words theorem.expression.items)
        (InLetters compressed) }
    ensures leads { let e = seen_words theorem.entry.expression.items in let ws = seen_words compressed.entry.numbered.labels.items in
        let ls = seen_words compressed.entry.letters.items in Leads (S.stand standing.new) result
        (letters_row (standing_at (S.stand standing.old) (in_letters theorem.entry.label.now e ws ls)) theorem.entry.label.now e ws ls
        (seen token.entry) mark) }
    ensures counted { IfOk result (λ p. IsCounted (S.stand standing.new).scope (S.marks standing.new) p) }
{
    if mark == Mark::End && !compressed.letters.is_empty() {
        let CompressedProof {
            numbered,
            letters,
            entries,
        } = compressed;
        let whole = entries.is_whole();
        let proof = ProofWords::Compressed(numbered.labels, letters);
        return end(alloc, standing, theorem, proof, whole, token);
    }
    put_letters(&mut compressed, token)?;
    let place = ProofPlace::InLetters(compressed);
    Ok(Place::InProof(OpenProof { theorem, place }))
}
