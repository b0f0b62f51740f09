//! Examples of sources, and laws of what texts declare, against their faults: functions without a body, whose contracts say them.

ghost use Rattle.source.specs.Proofs.{MadeAlike, SizesAreMade};
ghost use Rattle.source.specs.Examples.{ScopesAreSpelled, ScopesAreRead, FaultsAreFound, ScopesDeclare, DummyPairIsKept, ClosedIsRefused, LettersCount, LettersFail, MarkDenotes, LabelsDenote, BrokenDenoteNone};
ghost use Rattle.source.specs.Examples.{MarksStandThere, MarksStandNowhereElse, UnknownStepsAreThere, UnknownStepsAreOne};
ghost use Rattle.source.specs.Laws.{SourceIsOne, SourceHasNoFault, FaultyIsNoSource, SourceOrFault, SourcesAreSaid};
ghost use Rattle.source.specs.Whole.{SourcesAreWhole};

/// The words of a text.
pub fn text_has_words()
    ensures { ScopesAreSpelled }
{}

/// A local `$f`, a `$d` of a dummy variable in an inner block, and what is active behind both.
pub fn scopes_declare()
    ensures { ScopesDeclare }
{}

/// A pair that no frame has.
pub fn dummy_pairs_are_kept()
    ensures { DummyPairIsKept }
{}

/// What a closed block declared.
pub fn closed_is_refused()
    ensures { ClosedIsRefused }
{}

/// Numbers of letters.
pub fn letters_count()
    ensures { LettersCount }
{}

/// Letters that are none.
pub fn letters_fail()
    ensures { LettersFail }
{}

/// A compressed proof with a mark.
pub fn marks_denote()
    ensures { MarkDenotes }
{}

/// The same proof by labels.
pub fn labels_denote()
    ensures { LabelsDenote }
{}

/// What denotes no tree.
pub fn broken_denote_none()
    ensures { BrokenDenoteNone }
{}

/// Where marks stand.
pub fn marks_stand_there()
    ensures { MarksStandThere }
{}

/// Where they don't.
pub fn marks_stand_nowhere_else()
    ensures { MarksStandNowhereElse }
{}

/// Proofs with steps that aren't there.
pub fn unknown_steps_are_there()
    ensures { UnknownStepsAreThere }
{}

/// A step that isn't there is one entry, and no more.
pub fn unknown_steps_are_one()
    ensures { UnknownStepsAreOne }
{}

/// The table of tests reads the text.
pub fn scopes_are_read()
    ensures { ScopesAreRead }
{}

/// The table of tests finds faults.
pub fn faults_are_found()
    ensures { FaultsAreFound }
{}

/// What stands for trees on a stack makes what stands for the tree: numbers of shared nodes, sizes, or no more than that an entry is there.
pub fn made_alike<A, B>()
    ensures { MadeAlike A B }
{}

/// How many steps list the tree of a proof is made without the tree.
pub fn sizes_are_made()
    ensures { SizesAreMade }
{}

/// A text declares at most one source.
pub fn one_source()
    ensures { SourceIsOne }
{}

/// A text of at most 268,435,456 bytes that declares a source has no fault, so a reader does not refuse it.
pub fn no_fault_of_a_source()
    ensures { SourceHasNoFault }
{}

/// A text with a fault declares no source, unless it is longer than 268,435,456 bytes, and that is its fault.
pub fn no_source_of_a_fault()
    ensures { FaultyIsNoSource }
{}

/// Every text declares a source or has a fault.
pub fn source_or_fault()
    ensures { SourceOrFault }
{}

/// What a text declares by the grammar of sources is what the table of faults says.
pub fn sources_are_said()
    ensures { SourcesAreSaid }
{}

/// What is so of each source: the mandatory hypotheses of an assertion are those of its frame; what a statement, a hypothesis or a finished
/// proof names is declared; each proof denotes a tree; a label is that of one assertion or of one hypothesis.
pub fn sources_are_whole()
    ensures { SourcesAreWhole }
{}
