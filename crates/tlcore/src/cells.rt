//! The two words of a cell.

/// The words of a cell: its versioned lock word and its value word.
///
/// The lock word is twice the version, and one more where the cell is locked. The version is the number of the last run that
/// wrote the cell, or 0.
#[derive(Clone, Copy)]
pub struct Cell {
    /// The versioned lock word.
    pub lock: u64,
    /// The value word.
    pub value: u64,
}
