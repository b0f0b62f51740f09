//! How long listings and fresh names are: functions without a body, whose contracts are laws.

ghost use Rattle.taking.specs.Fresh.{CandidatesFit};
ghost use Rattle.taking.specs.Lengths.{ListingsAreAsLong, ProofsAreAsLong, TakenAreShort};

/// A listing has as many steps as the size of its tree says, where each label stands over as many trees as it takes.
pub fn listings_are_as_long()
    ensures { ListingsAreAsLong }
{}

/// So the listing of a proof has as many steps as the size of the tree that the proof denotes.
pub fn proofs_are_as_long()
    ensures { ProofsAreAsLong }
{}

/// So what is taken with its proof has at most 16,384 steps.
pub fn taken_are_short()
    ensures { TakenAreShort }
{}

/// No candidate for a fresh name is longer than 255 bytes, however long the word is.
pub fn candidates_fit()
    ensures { CandidatesFit }
{}
