//! Laws of the definitions: each function does nothing, and its contract is the law.

ghost use Rattle.checking.specs.Laws.{AcceptedTextsCheck};
ghost use Rattle.jobs.specs.Laws.{FaultLabelsAreShown, AcceptedTextsHaveNoFault, RunsHaveNoFaultAgain};

/// The line of a faulty proof has the label of its theorem as it stands in the database: a label is text.
pub fn fault_labels_are_shown()
    ensures { FaultLabelsAreShown }
{}

/// An accepted text of at most 16,777,216 bytes, as each export of a run or a replay of that length is, is the text of a database: it has
/// no fault, and each of its proofs checks. So a check of it has no fault.
pub fn accepted_texts_check()
    ensures checked { AcceptedTextsCheck }
    ensures faultless { AcceptedTextsHaveNoFault }
{}

/// The history that a run gave, whose text has at most 16,777,216 bytes, is replayed over the same database without a fault.
pub fn runs_are_replayed()
    ensures { RunsHaveNoFaultAgain }
{}
