//! What stands at a place of a source, as its reader asks for it and changes it.

ghost use Rattle.std.specs.Prelude.{◌≡◌, Bool, List, [], ◌∷◌, ◌++◌, length, None, Some, true, false, IfOk, if◌then◌else◌};
ghost use Rattle.std.specs.Result.{result_err};
ghost use Rattle.mmtext.specs.Words.{Word};
ghost use Rattle.mmsyntax.specs.Rows.{first_fault};
ghost use Rattle.source.specs.Statements.{float, hypothesis, distinct, asserted, proved};
ghost use Rattle.source.specs.Scopes.{Stand, mandatory, declared, opened, closed};
ghost use Rattle.source.specs.Tests.{label_tests, constant_tests, variable_tests, type_tests, float_tests, distinct_tests, symbol_tests, named_tests, cited_tests, a_constant, a_variable, is_lawful};
ghost use Rattle.source.specs.Counts.{mandatory_marks, citation_of};
ghost use Rattle.source.specs.Views.{seen_words, seen_proof};

use crate::entries::Citation;
use mmtext::FaultKind;
use std::alloc::{AllocError, Global};

/// The words of a proof.
#[derive(Debug, Drop)]
pub enum ProofWords<'a> {
    /// Labels and `?`.
    Normal(Vec<&'a [u8]>),
    /// The labels in parentheses, and the words of letters behind them.
    Compressed(Vec<&'a [u8]>, Vec<&'a [u8]>),
}

/// What stands at a place of a source: what is active there, and what was declared before. Its words are slices of the text.
///
/// Whoever declares something has asked for the faults of its words before: the statement is lawful there. The words of an assertion are
/// told one by one, so that none of them has to be looked up again once it ends. After an error nothing is said of what stands.
pub trait Standing<'a>: Drop {
    // what stands, with what stood before each open block
    ghost stand: { Self → Stand };

    // of each active hypothesis: whether it is mandatory for the symbols of the assertion so far
    ghost marks: { Self → List Bool };

    /// Whether no block is open.
    fn is_outermost(&self) -> bool
        ensures { result ≡ (stand self.now).scope.outermost };

    /// The fault of a label that is to be declared, once its keyword has passed.
    fn label_fault(&self, word: &'a [u8]) -> Option<FaultKind>
        ensures { result ≡ first_fault (label_tests (stand self.now).scope word.now) };

    /// The fault of a symbol in a `$c`.
    fn constant_fault(&self, word: &'a [u8]) -> Option<FaultKind>
        ensures { result ≡ first_fault (constant_tests (stand self.now).scope word.now) };

    /// The fault of a symbol in a `$v`.
    fn variable_fault(&self, word: &'a [u8]) -> Option<FaultKind>
        ensures { result ≡ first_fault (variable_tests (stand self.now).scope word.now) };

    /// The fault of the type of a `$f`, and of the first symbol of an expression.
    fn type_fault(&self, word: &'a [u8]) -> Option<FaultKind>
        ensures { result ≡ first_fault (type_tests (stand self.now).scope word.now) };

    /// The fault of the variable of a `$f`.
    fn float_fault(&self, word: &'a [u8]) -> Option<FaultKind>
        ensures { result ≡ first_fault (float_tests (stand self.now).scope word.now) };

    /// The fault of a variable of a `$d` behind others.
    fn distinct_fault(&self, others: &[&'a [u8]], word: &'a [u8]) -> Option<FaultKind>
        ensures { result ≡ first_fault (distinct_tests (stand self.now).scope (seen_words others.now) word.now) };

    /// The expression of an assertion begins: what is mandatory for none of its symbols is marked.
    fn begin(&mut self)
        ensures marks { marks self.new ≡ mandatory_marks (stand self.old).scope [] }
        ensures same { stand self.new ≡ stand self.old };

    /// The fault of a symbol of an expression behind others. What it makes mandatory is marked too.
    fn symbol_fault(&mut self, others: &[&'a [u8]], word: &'a [u8]) -> Option<FaultKind>
        ensures fault { result ≡ first_fault (symbol_tests (stand self.old).scope (seen_words others.now) word.now) }
        ensures marks { marks self.old ≡ mandatory_marks (stand self.old).scope (seen_words others.now)
            → marks self.new ≡ mandatory_marks (stand self.old).scope (seen_words others.now ++ word.now ∷ []) }
        ensures same { stand self.new ≡ stand self.old };

    /// How many mandatory hypotheses the expression has for which they are marked.
    fn mandatory_count(&self) -> usize
        ensures { (e : List Word) → marks self.now ≡ mandatory_marks (stand self.now).scope e
            → result ≡ length (mandatory (stand self.now).scope.hypotheses e) };

    /// What a label in a proof names.
    ///
    /// # Errors
    ///
    /// Its fault.
    fn named(&self, word: &'a [u8]) -> Result<Citation, FaultKind>
        ensures fault { result_err result ≡ first_fault (named_tests (stand self.now).scope word.now) }
        ensures names { IfOk result (λ c.
            citation_of (stand self.now).scope.assertions (stand self.now).scope.hypotheses word.entry.now ≡ Some c) };

    /// What a label in parentheses names, in the proof of the expression for which mandatory hypotheses are marked.
    ///
    /// # Errors
    ///
    /// Its fault.
    fn cited(&self, word: &'a [u8]) -> Result<Citation, FaultKind>
        ensures fault { (e : List Word) → marks self.now ≡ mandatory_marks (stand self.now).scope e
            → result_err result ≡ first_fault (cited_tests (stand self.now).scope e word.now) }
        ensures names { IfOk result (λ c.
            citation_of (stand self.now).scope.assertions (stand self.now).scope.hypotheses word.entry.now ≡ Some c) };

    /// One more constant.
    fn declare_constant(&mut self, alloc: Global, word: &'a [u8]) -> Result<(), AllocError>
        requires { is_lawful (stand self.old).scope (a_constant word.now) ≡ true }
        ensures { IfOk result (λ _. stand self.new ≡ declared (stand self.old) (a_constant word.entry.now)) };

    /// One more variable.
    fn declare_variable(&mut self, alloc: Global, word: &'a [u8]) -> Result<(), AllocError>
        requires { is_lawful (stand self.old).scope (a_variable word.now) ≡ true }
        ensures { IfOk result (λ _. stand self.new ≡ declared (stand self.old) (a_variable word.entry.now)) };

    /// One more `$f`.
    fn declare_float(
        &mut self,
        alloc: Global,
        label: &'a [u8],
        type_code: &'a [u8],
        variable: &'a [u8],
    ) -> Result<(), AllocError>
        requires { is_lawful (stand self.old).scope (float label.now type_code.now variable.now) ≡ true }
        ensures { IfOk result (λ _. stand self.new ≡ declared (stand self.old)
            (float label.entry.now type_code.entry.now variable.entry.now)) };

    /// One more `$e`.
    fn declare_hypothesis(
        &mut self,
        alloc: Global,
        label: &'a [u8],
        expression: Vec<&'a [u8]>,
    ) -> Result<(), AllocError>
        requires { is_lawful (stand self.old).scope (hypothesis label.now (seen_words expression.items)) ≡ true }
        ensures { IfOk result (λ _. stand self.new
            ≡ declared (stand self.old) (hypothesis label.entry.now (seen_words expression.entry.items))) };

    /// One more `$d`.
    fn declare_distinct(
        &mut self,
        alloc: Global,
        variables: Vec<&'a [u8]>,
    ) -> Result<(), AllocError>
        requires { is_lawful (stand self.old).scope (distinct (seen_words variables.items)) ≡ true }
        ensures { IfOk result (λ _. stand self.new ≡ declared (stand self.old) (distinct (seen_words variables.entry.items))) };

    /// One more `$a`, for whose symbols the mandatory hypotheses are marked.
    fn declare_axiom(
        &mut self,
        alloc: Global,
        label: &'a [u8],
        expression: Vec<&'a [u8]>,
    ) -> Result<(), AllocError>
        requires lawful { is_lawful (stand self.old).scope (asserted label.now (seen_words expression.items)) ≡ true }
        requires marks { marks self.old ≡ mandatory_marks (stand self.old).scope (seen_words expression.items) }
        ensures { IfOk result (λ _. stand self.new
            ≡ declared (stand self.old) (asserted label.entry.now (seen_words expression.entry.items))) };

    /// One more `$p`, for whose symbols the mandatory hypotheses are marked.
    fn declare_theorem(
        &mut self,
        alloc: Global,
        label: &'a [u8],
        expression: Vec<&'a [u8]>,
        proof: ProofWords<'a>,
    ) -> Result<(), AllocError>
        requires lawful { is_lawful (stand self.old).scope (asserted label.now (seen_words expression.items)) ≡ true }
        requires marks { marks self.old ≡ mandatory_marks (stand self.old).scope (seen_words expression.items) }
        ensures { IfOk result (λ _. stand self.new ≡ declared (stand self.old)
            (proved label.entry.now (seen_words expression.entry.items) (seen_proof proof.entry))) };

    /// A block is opened.
    fn open_block(&mut self, alloc: Global) -> Result<(), AllocError>
        ensures { IfOk result (λ _. stand self.new ≡ opened (stand self.old)) };

    /// The block that is open is closed: whether there is one. Else nothing is changed.
    fn close_block(&mut self) -> bool
        ensures closed { closed (stand self.old) ≡ (if result then Some (stand self.new) else None) }
        ensures same { result ≡ false → stand self.new ≡ stand self.old };
}
