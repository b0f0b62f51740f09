//! Laws of the definitions: each function does nothing, and its contract is the law.

ghost use Rattle.library.specs.Laws.{OpeningsVerify, EditsVerify, TransactionsVerify};
ghost use Rattle.library.specs.Laws.{LibrariesAreSpelled, ShownLibrariesCheck, LibrariesAreShown, ExportOrderIsOne};
ghost use Rattle.library.specs.Laws.{FrontsVerify, GrowthIsReflexive, GrowthIsTransitive, SettledFrontsStay};
ghost use Rattle.library.specs.Laws.{ReadsLeave, RepliesFit, LegalRepliesFit, AgreementStays, CommitsAreLegal};

/// The opening library of every database whose proofs check over the earlier assertions verifies, with any number of slots that has room
/// for it: its ranks rise by 100 from 100 on, and its labels are lawful and differ, since some text declares them.
pub fn openings_verify()
    ensures { OpeningsVerify }
{}

/// A library that verifies still does so after a command that is not refused, and after every transaction: after all
/// commands of one that succeeds, and unchanged by one that is refused. Each command is within the limits of the prelude.
pub fn transactions_verify()
    ensures edits { EditsVerify }
    ensures transactions { TransactionsVerify }
{}

/// A library that verifies, in whatever order, is spelled as a database: some text declares its prelude and its
/// assertions in that order. So its exported text is read again.
pub fn libraries_are_spelled()
    ensures { LibrariesAreSpelled }
{}

/// A library that verifies is shown, in export order, as a database each of whose proofs checks over the earlier assertions: so its
/// exported text is accepted.
pub fn shown_libraries_check()
    ensures { ShownLibrariesCheck }
{}

/// What a library is listed as, is its export order; and a library whose labels differ has one: no two assertions tie by rank and
/// label.
pub fn export_order_is_one()
    ensures shown { LibrariesAreShown }
    ensures one { ExportOrderIsOne }
{}

/// From an opening library that verifies, the library after each front of each history verifies, whether the history is
/// legal or not, where the commands of its done entries are within the limits of the prelude.
pub fn fronts_verify()
    ensures { FrontsVerify }
{}

/// A history that grows keeps its settled entries, through any number of steps; so the library after a front of which no
/// entry is open stays the same for ever.
pub fn settled_fronts_stay()
    ensures reflexive { GrowthIsReflexive }
    ensures transitive { GrowthIsTransitive }
    ensures stay { SettledFrontsStay }
{}

/// A transaction none of whose commands is an edit leaves the library as it was.
pub fn reads_leave_the_library()
    ensures { ReadsLeave }
{}

/// The replies of a transaction on a library that verifies are within the limits of the prelude, where its commands are; so are those of
/// each done entry of a history that is legal from such a library.
pub fn replies_are_within_limits()
    ensures replies { RepliesFit }
    ensures histories { LegalRepliesFit }
{}

/// What is told of a transaction and agrees with a history, whose entries below its place are settled, agrees with every later one. And a
/// committed transaction that agrees with a legal history has the replies of the definition of transactions.
pub fn agreement_stays()
    ensures stays { AgreementStays }
    ensures legal { CommitsAreLegal }
{}
