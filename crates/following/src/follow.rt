//! Who follows the work on a source.

/// Is told how far the work on a source is: a library is taken of it, or its proofs are checked. Whatever it does, the answer is the same.
pub trait Follow {
    /// A source is about to be read.
    fn begin_reading(&self) {}

    /// The source was read, and so many of its assertions are about to be taken or checked, of which none was.
    fn begin_assertions(&self, _assertions: usize) {}

    /// One more of these assertions was taken or checked, on whichever thread. It is told at most once for each of them.
    fn pass_assertion(&self) {}

    /// No more of the source is looked at: all was, or there was none to be, or there is a refusal.
    fn end(&self) {}
}

/// Is told, and does nothing.
pub struct Unfollowed;

impl Follow for Unfollowed {}
