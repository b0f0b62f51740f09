//! Laws of footprints: each function does nothing, and its contract is the law.

ghost use Rattle.contention.specs.Laws.{ConflictsMeet, ApartIsNoCause, LocksMeet, ApartLocksNone};

/// Where the version that a conflict found is that of a transaction that another session committed, that one may write the conflict's cell,
/// over the library before it, and the one that met the conflict may read it, over the library at its place.
pub fn conflicts_meet()
    ensures { ConflictsMeet }
{}

/// Where one transaction may write nothing that another may read, whichever fronts of the history they stand at, no conflict of the
/// other has found a version of the one.
pub fn apart_is_no_cause()
    ensures { ApartIsNoCause }
{}

/// Where a session locked the cell of another's conflict, whatever came of its transaction, that transaction may write the cell, over the
/// library at the place of one of its runs, and the one that met the conflict may read it, over the library at its place.
pub fn locks_meet()
    ensures { LocksMeet }
{}

/// Where one transaction may write nothing that another may read, whichever fronts of the history they stand at, it has never locked the
/// cell of a conflict of the other, in none of its runs, whether it committed or not. So a lock that the conflict found held wasn't held by
/// it.
pub fn apart_locks_none()
    ensures { ApartLocksNone }
{}
