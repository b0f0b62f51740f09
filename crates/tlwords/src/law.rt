//! What a memory is asked to keep.
#![tactic(auto)]

ghost use Rattle.tlwords.specs.Terms.{Terms};

/// What a transaction has to keep, of which opening, and which cells hold words that name ranges of the store. The memory asks it of each
/// commit and hands it on to each pass.
///
/// No value of such a type is made: it is named as a type argument.
pub trait Law {
    /// What all transactions share. The memory keeps it for contracts alone.
    type Setting;

    /// What a transaction says of itself.
    type Note;

    /// Which transactions are lawful, of which opening values, and which cells hold 0 or a word that names a range.
    ghost terms: { Terms Self.Setting Self.Note };
}
