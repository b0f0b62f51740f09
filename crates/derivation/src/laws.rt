//! Laws of proofs and their trees: functions without a body, whose contracts are the laws.

ghost use Rattle.derivation.specs.Laws.{AlikeStandsFor, FaultExcludesProof, FaultIsOne, RelabelledDerives, RelabelledProves};
ghost use Rattle.derivation.specs.Laws.{FirstFaultExcludesCheck, FirstFaultIsOne};
ghost use Rattle.derivation.specs.Laws.{OutcomeByCited, OutcomeIsGrown, OutcomeIsOne, RenamedProves, ReplacedDerives, TreeIsOne};

/// A proof has at most one fault, and none where its steps are the listing of a tree that derives the statement.
pub fn faults()
    ensures one { FaultIsOne }
    ensures excludes { FaultExcludesProof }
{}

/// A database has at most one first fault, and none where each of its proofs checks.
pub fn first_faults()
    ensures one { FirstFaultIsOne }
    ensures excludes { FirstFaultExcludesCheck }
{}

/// Steps are the listing of at most one tree that derives something, and it derives one expression.
pub fn trees()
    ensures { TreeIsOne }
{}

/// Steps come to one outcome: the tree of which they are the listing, where it derives the statement, or their fault. It is that of a
/// forest that grows step by step, and depends on no more of what may be cited than the labels that the steps cite.
pub fn outcomes()
    ensures one { OutcomeIsOne }
    ensures grown { OutcomeIsGrown }
    ensures cited { OutcomeByCited }
{}

/// A tree whose labels were changed derives the same, where each frame that it cites has one that stands for it.
pub fn relabelling()
    ensures changed { RelabelledDerives }
    ensures replaced { ReplacedDerives }
    ensures alike { AlikeStandsFor }
    ensures steps { RelabelledProves }
    ensures renamed { RenamedProves }
{}
