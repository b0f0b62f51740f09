//! What is put into a source.

/// Why something is put in where it is.
#[derive(Clone, Copy)]
pub enum Why<'t> {
    /// Behind an assertion of the library that keeps its place: so many items of the source stand in front of that.
    Behind(usize),
    /// Behind the declaration of a name: so many items stand in front of that. What mentions the name is put in at the same place, and so
    /// many come in front of it.
    Declared(usize, &'t [u8], usize),
    /// In front of the first of the library's that keeps its place: so many items stand in front of that.
    First(usize),
    /// In front of a block which an assertion leaves: so many items stand in front of the block, and up to its end.
    Block(usize, usize),
    /// None of the library's keeps its place.
    Alone,
}

/// What is put into a source at a place: a text, then items of the source, as they read then, and a text behind them.
#[derive(Clone, Copy)]
pub struct Coming<'t> {
    /// Its label in the source: none of one that is added.
    pub source: Option<&'t [u8]>,
    /// So many items of the source stand in front of the place.
    pub place: usize,
    /// Why it is put in there.
    pub why: Why<'t>,
    /// The text in front of its items.
    pub front: &'t [u8],
    /// So many items of the source stand in front of those that go along.
    pub first: usize,
    /// So many stand up to the last of them.
    pub end: usize,
    /// The text behind them.
    pub back: &'t [u8],
}

/// What stands next in a source then.
#[derive(Clone, Copy)]
pub enum Placed<'t> {
    /// The next item of the source.
    Stays,
    /// No item: the next of the source leaves its place.
    Goes,
    /// What is put in.
    Comes(Coming<'t>),
}
