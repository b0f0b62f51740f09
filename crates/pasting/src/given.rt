//! What the words of a proof say.

use mmsyntax::Proof;
use mmtext::{FaultKind, Token};

/// What words say as the proof of a theorem of the source.
#[derive(Drop)]
pub(crate) enum Given<'w> {
    /// This proof of the library.
    Steps(Proof),
    /// A proof that names what isn't taken.
    Untaken,
    /// No proof: the word at which that is told, and what is wrong.
    Faulty(Token<'w>, FaultKind),
}
