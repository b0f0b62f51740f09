//! What is told of each script as it is run.

/// Is told of each script before its first transaction and after its last, on the thread of its worker. `pass` is added to these two for
/// who follows the transactions too; a gate that doesn't leaves it out.
pub trait Gate {
    /// The script with this index, from 0, is claimed, and none of its transactions was submitted. It may keep the worker waiting.
    fn enter(&self, script: usize);

    /// The last transaction of the script with this index, from 0, has its outcome.
    fn leave(&self, script: usize);

    /// Added: a transaction of the script with this index, from 0, has its outcome. It is told once for each of them, in order. By
    /// itself it does nothing.
    fn pass(&self, _script: usize) {}
}

/// Lets every script pass.
pub struct Open;

impl Gate for Open {
    fn enter(&self, _script: usize) {}

    fn leave(&self, _script: usize) {}
}
