//! Examples of sources that verify or fail, and laws of what verifies: functions without a body, whose contracts say them.

ghost use Rattle.verifying.specs.Laws.{TreesAreDerived, FinishedAreDerived, HypothesesArePut, CitationsArePut, PartsVerify, DerivesOrFails, VerifiesOrFails};
ghost use Rattle.verifying.specs.Examples.{TwoLinesVerify, TestsFail, PairsAreAsked, LettersVerify, EntriesAreCounted, LocalsAreTheirOwn};

/// A proof derives what its tree derives.
pub fn trees_are_derived()
    ensures { TreesAreDerived }
{}

/// A finished proof that denotes a tree, as those of each source do, derives an expression or fails a test.
pub fn finished_are_derived()
    ensures { FinishedAreDerived }
{}

/// The label of an active hypothesis puts what it says on the stack.
pub fn hypotheses_are_put()
    ensures { HypothesesArePut }
{}

/// The label of an earlier assertion takes one entry for each of its mandatory hypotheses, and puts what its citation gives.
pub fn citations_are_put()
    ensures { CitationsArePut }
{}

/// What verifies in two parts verifies whole: the first assertions, and those behind them.
pub fn parts_verify()
    ensures { PartsVerify }
{}

/// A theorem whose finished proof denotes a tree derives its statement or has a fault, and not both.
pub fn derives_or_fails()
    ensures { DerivesOrFails }
{}

/// A source verifies or has a first fault, and not both.
pub fn verifies_or_fails()
    ensures { VerifiesOrFails }
{}

/// The least source with a theorem.
pub fn two_lines_verify()
    ensures { TwoLinesVerify }
{}

/// A type, a `$e` and a statement that differ.
pub fn tests_fail()
    ensures { TestsFail }
{}

/// Pairs of dummies, and pairs that are missing.
pub fn pairs_are_asked()
    ensures { PairsAreAsked }
{}

/// Marked subproofs.
pub fn letters_verify()
    ensures { LettersVerify }
{}

/// What the text has as its own fault.
pub fn entries_are_counted()
    ensures { EntriesAreCounted }
{}

/// Variables of the cited assertion with the names of others.
pub fn locals_are_their_own()
    ensures { LocalsAreTheirOwn }
{}
