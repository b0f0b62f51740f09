//! What the steps of a proof take, counted while its words are read.

ghost use Rattle.std.specs.Prelude.{◌≡◌, ℕ, suc, ◌-◌, nat_le, true, false, ◌&&◌, List, [], ◌∷◌, ◌++◌, length};
ghost use Rattle.std.specs.Prelude.{None, Some, MatchResult, IfOk, if◌then◌else◌};
ghost use Rattle.mmtext.specs.Words.{Word};
ghost use Rattle.mmtext.specs.declared.fault.FaultKind.TheVariants.{BadToken};
ghost use Rattle.mmsyntax.specs.Rows.{first_fault};
ghost use Rattle.source.specs.Statements.{normal, compressed};
ghost use Rattle.source.specs.Scopes.{Scope, Hypothesis, Assertion, mandatory, is_unknown};
ghost use Rattle.source.specs.Proofs.{names, step_of, marks, labels_go_on, letters_go_on};
ghost use Rattle.source.specs.Tests.{letter_tests, is_letter, is_whole};
ghost use Rattle.source.specs.Counts.{CountsSteps, CountsLetters, LettersAreCounted, HaveCitations, CountNumbers, citation_of, IsStep, IsFull};

use super::letters::{Code, take_letter};
use std::alloc::AllocError;

/// What a label in a proof names.
#[derive(Clone, Copy, Debug, PartialEq, Eq)]
pub enum Citation {
    /// An active hypothesis: it takes no entry, and what it puts isn't marked.
    Hypothesis,
    /// An earlier assertion with so many mandatory hypotheses: it takes an entry for each of them.
    Assertion(usize),
}

/// How many entries the steps of a proof left on the stack so far. A step that isn't there, `?`, leaves one too.
///
/// Where a call says `false`, the proof is faulty there, and nothing is said of what is counted from then on. A call fails where a count
/// would not fit a `usize`: no text is as long.
#[derive(Debug)]
pub struct Entries {
    /// On the stack.
    entries: usize,
    /// Marked by `Z`.
    marked: usize,
    /// Of the number that is cut by the end of what was read: 0 where none is.
    front: u32,
    /// Whether a `Z` may stand next: behind the label of an assertion, or another `Z`.
    is_markable: bool,
}

// Proved here once: a derived drop is proved again in each crate that drops such a value.
impl Drop for Entries {
    fn drop(self) {
        let Entries {
            entries: _,
            marked: _,
            front: _,
            is_markable: _,
        } = self;
    }
}

impl Entries {
    /// Before any word.
    pub fn new() -> Entries
        ensures steps { (s : Scope) → CountsSteps s [] result }
        ensures letters { (s : Scope) (e labels : List Word) → CountsLetters s e labels [] result }
    {
        Entries {
            entries: 0,
            marked: 0,
            front: 0,
            is_markable: false,
        }
    }

    /// One more step of a normal proof, `?`: one more entry.
    pub fn take_unknown(&mut self) -> Result<(), AllocError>
        ensures { MatchResult result (λ _. (s : Scope) (ws : List Word) (w : Word) → CountsSteps s ws self.old → is_unknown w ≡ true
            → CountsSteps s (ws ++ w ∷ []) self.new)
            (λ _. IsFull self.new) }
    {
        self.put(0, false)?;
        Ok(())
    }

    /// One more step of a normal proof, a label that names so: whether the entries that it takes are there.
    pub fn take(&mut self, citation: Citation) -> Result<bool, AllocError>
        ensures { MatchResult result (λ goes. (s : Scope) (ws : List Word) (w : Word) → CountsSteps s ws self.old → is_unknown w ≡ false
            → citation_of s.assertions s.hypotheses w ≡ Some citation
            → (goes ≡ labels_go_on s.assertions s.hypotheses (ws ++ w ∷ [])) × (goes ≡ true → CountsSteps s (ws ++ w ∷ []) self.new))
            (λ _. IsFull self.new) }
    {
        self.put_citation(citation)
    }

    /// One more word of letters, whose numbers count so many mandatory hypotheses, then labels that name so, then marked subproofs: whether
    /// its bytes are letters or `?`, what the numbers say is there, and each `Z` stands behind the number of an assertion or another `Z`.
    pub fn take_letters(
        &mut self,
        hypotheses: usize,
        citations: &[Citation],
        word: &[u8],
    ) -> Result<bool, AllocError>
        ensures { MatchResult result (λ goes. (s : Scope) (e labels ls : List Word) → CountsLetters s e labels ls self.old
            → hypotheses ≡ length (mandatory s.hypotheses e)
            → HaveCitations s.assertions s.hypotheses labels citations.now
            → (first_fault (letter_tests s e labels ls word.now) ≡ (if goes then None else Some BadToken))
            × (goes ≡ true → CountsLetters s e labels (ls ++ word.now ∷ []) self.new))
            (λ _. IsFull self.new) }
    {
        for byte in word {
            if !self.take_byte(hypotheses, citations, *byte)? {
                return Ok(false);
            }
        }
        Ok(true)
    }

    /// Whether the proof whose words these were denotes a tree: it leaves one entry, and cuts no number.
    pub fn is_whole(&self) -> bool
        ensures steps { (s : Scope) (e ws : List Word) → CountsSteps s ws self.now → result ≡ is_whole s e (normal ws) }
        ensures letters { (s : Scope) (e labels ls : List Word) → CountsLetters s e labels ls self.now
            → result ≡ is_whole s e (compressed labels ls) }
    {
        self.entries == 1 && self.front == 0
    }

    /// One more byte of letters.
    fn take_byte(
        &mut self,
        hypotheses: usize,
        citations: &[Citation],
        byte: u8,
    ) -> Result<bool, AllocError>
        ensures { MatchResult result (λ goes. (earlier : List Assertion) (active : List Hypothesis) (labels : List Word) (letters : List ℕ)
            → LettersAreCounted earlier active labels letters self.old → CountNumbers earlier active labels hypotheses citations.now
            → (goes ≡ (is_letter byte && letters_go_on earlier active labels (letters ++ byte ∷ [])))
            × (goes ≡ true → LettersAreCounted earlier active labels (letters ++ byte ∷ []) self.new))
            (λ _. IsFull self.new) }
    {
        let Some(turn) = take_letter(self.front, byte) else {
            return Ok(false);
        };
        self.front = turn.front;
        match turn.said {
            Some(code) => self.take_code(hypotheses, citations, code),
            None => Ok(true),
        }
    }

    /// One more code.
    fn take_code(
        &mut self,
        hypotheses: usize,
        citations: &[Citation],
        code: Code,
    ) -> Result<bool, AllocError>
        ensures { MatchResult result (λ goes. (earlier : List Assertion) (active : List Hypothesis) (labels : List Word)
            → CountNumbers earlier active labels hypotheses citations.now
            → IsStep earlier active (step_of labels code) self.old self.new goes)
            (λ _. IsFull self.new) }
    {
        match code {
            Code::Number(number) => self.take_number(hypotheses, citations, number),
            Code::Mark => self.mark(),
            Code::Unknown => self.put(0, false),
        }
    }

    /// A number, of a hypothesis, a label or a marked subproof.
    fn take_number(
        &mut self,
        hypotheses: usize,
        citations: &[Citation],
        number: u32,
    ) -> Result<bool, AllocError>
        ensures { MatchResult result (λ goes. (earlier : List Assertion) (active : List Hypothesis) (labels : List Word)
            → CountNumbers earlier active labels hypotheses citations.now
            → IsStep earlier active (step_of labels (Code.Number number)) self.old self.new goes)
            (λ _. IsFull self.new) }
    {
        let index = number.saturating_sub(1) as usize;
        if index < hypotheses {
            return self.put_citation(Citation::Hypothesis);
        }
        let index = index - hypotheses;
        if index < citations.len() {
            return self.put_citation(citations[index]);
        }
        if index - citations.len() < self.marked {
            return self.put(0, false);
        }
        Ok(false)
    }

    /// A label that names so.
    fn put_citation(&mut self, citation: Citation) -> Result<bool, AllocError>
        ensures { MatchResult result (λ goes. (earlier : List Assertion) (active : List Hypothesis) (w : Word)
            → citation_of earlier active w ≡ Some citation → IsStep earlier active (names w) self.old self.new goes)
            (λ _. IsFull self.new) }
    {
        match citation {
            Citation::Hypothesis => self.put(0, false),
            Citation::Assertion(hypotheses) => self.put(hypotheses, true),
        }
    }

    /// One more entry in place of so many, which may be marked or may not: whether they are there. Else nothing is changed.
    fn put(&mut self, arity: usize, is_markable: bool) -> Result<bool, AllocError>
        ensures { MatchResult result (λ goes. (goes ≡ nat_le arity self.old.entries)
            × (self.new ≡ (if goes then record self.old { entries = suc (self.old.entries - arity); is_markable = is_markable }
            else self.old)))
            (λ _. IsFull self.new) }
    {
        if self.entries < arity {
            return Ok(false);
        }
        match (self.entries - arity).checked_add(1) {
            Some(entries) => {
                self.entries = entries;
                self.is_markable = is_markable;
                Ok(true)
            }
            None => Err(AllocError),
        }
    }

    /// The last entry is marked: whether there is one, which may be. Else nothing is changed.
    fn mark(&mut self) -> Result<bool, AllocError>
        ensures { MatchResult result (λ goes. (earlier : List Assertion) (active : List Hypothesis)
            → IsStep earlier active marks self.old self.new goes)
            (λ _. IsFull self.new) }
    {
        if self.entries == 0 || !self.is_markable {
            return Ok(false);
        }
        match self.marked.checked_add(1) {
            Some(marked) => {
                self.marked = marked;
                Ok(true)
            }
            None => Err(AllocError),
        }
    }
}
