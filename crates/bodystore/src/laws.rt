//! Laws of bodies and of stages: each function does nothing, and its contract is the law.

ghost use Rattle.bodystore.specs.Laws.{StatementBodiesAreOne, ProofBodiesAreOne, StatementBodiesHaveWords, ProofBodiesHaveWords};
ghost use Rattle.bodystore.specs.Laws.{FittingAreSmall, StagedGoOn, NothingIsStaged, NotingKeepsStaged, FoundIsStaged};

/// A statement body is of one statement whose places are below 2^32.
pub fn statement_bodies_are_one()
    ensures { StatementBodiesAreOne }
{}

/// A proof body is of one list of steps.
pub fn proof_bodies_are_one()
    ensures { ProofBodiesAreOne }
{}

/// A statement body has words, and so has the body of a proof that has steps.
pub fn bodies_have_words()
    ensures statements { StatementBodiesHaveWords }
    ensures proofs { ProofBodiesHaveWords }
{}

/// What fits a prelude that some text declares has places below 2^32.
pub fn fitting_are_small()
    ensures { FittingAreSmall }
{}

/// Staged ranges go on to be among the ranges where there are more; at first there are none; to note one more of the ranges
/// keeps it; and what is found is one of the ranges.
pub fn staged_are_ranges()
    ensures go_on { StagedGoOn }
    ensures nothing { NothingIsStaged }
    ensures noting { NotingKeepsStaged }
    ensures found { FoundIsStaged }
{}
