//! What two transactions of a library may be to each other: laws of their footprints, the cells that each may read and write. A
//! conflict names a cell that the one may read, and the version that it found there is of a transaction that may write that cell; and so is
//! each lock that a transaction takes, whatever comes of it. So where their footprints are apart, the version that a conflict of the one
//! found isn't the other's, and the other never held the lock of the conflict's cell. Laws alone, no running code.
#![tactic(auto)]

mod laws;

pub use laws::{apart_is_no_cause, apart_locks_none, conflicts_meet, locks_meet};
