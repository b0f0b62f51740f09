//! What a command is done with.

use std::alloc::Global;

/// What a command is done with, besides the world and the keys.
#[derive(Drop)]
pub struct Means<'r, R, V> {
    /// What starts threads, where the command has any.
    pub rt: &'r R,
    /// What allocates.
    pub alloc: Global,
    /// Who is told how far the work is.
    pub watch: &'r V,
}
