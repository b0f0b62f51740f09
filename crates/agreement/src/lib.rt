//! What a proof derives in a source, and what the listing of it derives in the library that is taken: laws that the one holds where the
//! other does.
#![tactic(auto)]

mod laws;

pub use laws::{
    equal_labels_disagree, faults_are_too_long, labels_of_texts_differ, libraries_agree,
    proofs_agree, two_agree, what_verifies_checks,
};
