//! Flags of the assertions of a source: which are chosen, and what else is known of them.

/// Flags of the assertions of a source: three lists with one flag for each, in their order.
#[derive(Clone, Copy)]
pub struct Flags<'f> {
    /// Whether it is chosen.
    pub chosen: &'f [bool],
    /// Whether it stands in front of the choice, so that a theorem is taken as an axiom.
    pub front: &'f [bool],
    /// Whether its proof has too long an expression for a library.
    pub long: &'f [bool],
}
