//! What can't be in a script that speaks of a source.

use mmtext::Token;

/// What can't be in a script, with the word that says so.
#[derive(Clone, Copy, Debug)]
pub enum Misfit<'a> {
    /// The label is that of no assertion of the source.
    Unknown(Token<'a>),
    /// The number says where something is put, and a source has no ranks.
    Numbered(Token<'a>),
    /// The `*` is that of a `replace *` beside another command in its transaction.
    NotAlone(Token<'a>),
}
