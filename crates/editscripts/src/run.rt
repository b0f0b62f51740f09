//! Scripts that were run: as their keeper gave them, and what became of their transactions.

use expanding::Laid;
use library::Script;
use transaction::Outcome;

/// Scripts that were run, in their order, with what became of their transactions.
#[derive(Clone, Copy)]
pub struct RunScripts<'r> {
    /// The paths of the source and of the scripts, as lines have them.
    pub paths: &'r [&'r str],
    /// The texts of the scripts as they were given.
    pub texts: &'r [Vec<u8>],
    /// The texts that were read in their stead, which know where their transactions begin in those.
    pub laid: &'r [Laid],
    /// The scripts that were run.
    pub scripts: &'r [Script],
    /// What became of the transactions of each.
    pub rows: &'r [Vec<Outcome>],
}
