//! A part of a text that is pointed at.

/// Some bytes of a text on one line.
#[derive(Clone, Copy, Debug, PartialEq, Eq)]
pub struct Spot {
    /// The first of them, counted from 0, or the text's length.
    pub place: usize,
    /// How many they are.
    pub length: usize,
}
