//! Who is told how far a run is.

use workers::{Gate, Open};

/// Is told how far a run is: of its begin and its end, and between them, as a gate, of each script and each transaction. Whatever it does,
/// the job answers the same.
pub trait Watch: Gate {
    /// So many scripts, with so many transactions in all, are about to be run, and none of them was begun.
    fn begin(&self, scripts: usize, transactions: usize);

    /// The run that was begun is at its end, or has failed. No worker is at work.
    fn end(&self);
}

impl Watch for Open {
    fn begin(&self, _scripts: usize, _transactions: usize) {}

    fn end(&self) {}
}
