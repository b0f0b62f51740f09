//! Laws of the definitions: each function does nothing, and its contract is the law.

ghost use Rattle.lawful.specs.Laws.{ShownIsKept, LawfulIsKept, RunsAreLawful, LooksAreLawful};
ghost use Rattle.lawful.specs.Laws.{HistoriesGrow, SessionsStand, OtherCallsAgree, RunsSuit};
ghost use Rattle.lawful.specs.Laws.{ClosedHistoriesStand, ClosedWordsShow, OneAssertionIsShown};

/// Cells that show a library show it too where further ranges of the store are finished, whatever stands in cells behind the library's own.
pub fn shown_is_kept()
    ensures { ShownIsKept }
{}

/// A lawful transaction stays lawful where further ranges of the store are finished.
pub fn lawful_is_kept()
    ensures { LawfulIsKept }
{}

/// A run of commands on cells that ends with their replies, or is refused, is lawful: so a session may commit it. `Origin` is what such
/// runs begin with.
pub fn runs_are_lawful<Origin>()
    ensures { RunsAreLawful Origin }
{}

/// A run that keeps nothing aside and looked at the whole library, as its note has it in export order, is lawful: so a session may tell
/// what it saw. `Origin` is what such runs begin with.
pub fn looks_are_lawful<Origin>()
    ensures { LooksAreLawful Origin }
{}

/// Where more is seen of the words, the history of commands and replies is a later one: what was settled stays.
pub fn histories_grow()
    ensures { HistoriesGrow }
{}

/// What a pass has seen of words that hold a library is a history of that library: each transaction's replies are those of the definition,
/// from the library at the opening; the library after each front verifies, and the cells show it there. The calls of the pass agree with
/// it, and so do those of others that it has learnt of.
pub fn sessions_stand()
    ensures stand { SessionsStand }
    ensures others { OtherCallsAgree }
{}

/// What a run has read is what the cells hold at its place, where they show a library that verifies: whatever other runs do meanwhile.
pub fn runs_suit()
    ensures { RunsSuit }
{}

/// The words at the end have one history of the library, which the calls of all sessions agree with; and where no lock is held, the cells
/// show the library after it.
pub fn closed_words_show()
    ensures stand { ClosedHistoriesStand }
    ensures show { ClosedWordsShow }
{}

/// The words of a library of one assertion, in two slots, show it.
pub fn one_assertion_is_shown()
    ensures { OneAssertionIsShown }
{}
