//! Laws of what is taken, and examples: functions without a body, whose contracts say them.

ghost use Rattle.agreement.specs.Laws.{ProofsAgree, LibrariesAgree, WhatVerifiesChecks, FaultsAreTooLong, LabelsOfTextsDiffer};
ghost use Rattle.agreement.specs.Examples.{TwoAgree, EqualLabelsDisagree};

/// A theorem that is taken with its proof proves its statement in the library just where the proof derives it in the source, by
/// citations that make short expressions.
pub fn proofs_agree()
    ensures { ProofsAgree }
{}

/// Each proof of a library checks just where each proof that was taken derives its statement in the source, by citations that make
/// short expressions.
pub fn libraries_agree()
    ensures { LibrariesAgree }
{}

/// What is taken of a source that verifies checks, where the citations of what is taken make short expressions.
pub fn what_verifies_checks()
    ensures { WhatVerifiesChecks }
{}

/// Of what is taken of a source that verifies, a proof that doesn't check has too long an expression, and no other fault.
pub fn faults_are_too_long()
    ensures { FaultsAreTooLong }
{}

/// The labels of a library that a text declares differ.
pub fn labels_of_texts_differ()
    ensures { LabelsOfTextsDiffer }
{}

/// A theorem whose proof checks as it verifies, with its arguments in another order.
pub fn two_agree()
    ensures { TwoAgree }
{}

/// Two labels that were changed to one: the proof verifies, and doesn't check.
pub fn equal_labels_disagree()
    ensures { EqualLabelsDisagree }
{}
