//! Laws of openings: each function does nothing, and its contract is the law.

ghost use Rattle.openings.specs.Laws.{OpenedCellsOpenWell, UnreadIsUnlawful};

/// Words may be opened with what a database's plain cells hold: their values show its library, and in range cells they name ranges of the
/// store.
pub fn opened_cells_open_well()
    ensures { OpenedCellsOpenWell }
{}

/// A transaction that read nothing can't have shown an assertion: it isn't lawful, whatever it replied.
pub fn unread_is_unlawful()
    ensures { UnreadIsUnlawful }
{}
