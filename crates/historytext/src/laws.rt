//! Laws of the texts: each function does nothing, and its contract is the law.

ghost use Rattle.historytext.specs.Laws.{TextsSpell, LegalHistoriesFit, LegalHistoriesAreSpelled};
ghost use Rattle.historytext.specs.Laws.{HistoryIsOne, HistoryFaultIsOne, HistoryHasNoFault, FaultyIsNoHistory, HistoryOrFault, HistoriesAreSaid};

/// The canonical text of a history that some text spells is spelled by it.
pub fn texts_spell()
    ensures { TextsSpell }
{}

/// Each entry of a history that is legal from a library that verifies has commands and replies that can be written, where its commands are
/// within the limits of the prelude.
pub fn legal_histories_fit()
    ensures { LegalHistoriesFit }
{}

/// Every such history is spelled by its canonical text, where its entries are at most as many as a count may say, which is
/// 18,446,744,073,709,551,615: so it is read again, where the text has at most 16,777,216 bytes.
pub fn legal_histories_are_spelled()
    ensures { LegalHistoriesAreSpelled }
{}

/// Over a prelude a text spells at most one history, and has at most one fault. One of at most 16,777,216 bytes has either a history or a
/// fault, and not both; a longer one may spell a history, and its one fault is its length.
pub fn one_history_or_fault()
    ensures history { HistoryIsOne }
    ensures fault { HistoryFaultIsOne }
    ensures faultless { HistoryHasNoFault }
    ensures faulty { FaultyIsNoHistory }
    ensures either { HistoryOrFault }
    ensures said { HistoriesAreSaid }
{}
