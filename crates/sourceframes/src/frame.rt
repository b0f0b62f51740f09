//! What a citation of an assertion asks for and gives, with symbols as numbers and variables as places of arguments.

/// A symbol of an assertion that is cited.
#[derive(Clone, Copy, Debug)]
pub enum Piece {
    /// A symbol that stands for itself, by its number.
    Itself(u32),
    /// A variable: what stands for it is the argument at this place, from 0, without its type. It is small, as most of a frame is pieces.
    Argument(u32),
}

/// What is asked of an argument.
#[derive(Debug, Drop)]
pub enum Demand {
    /// Of that of a `$f`: it begins with the symbol of this number.
    Typed(u32),
    /// Of that of a `$e`: it is this expression after substitution.
    Equal(Vec<Piece>),
}

/// An assertion as it is cited: one argument for each mandatory hypothesis, in order of appearance.
#[derive(Debug)]
pub struct Frame {
    /// What is asked of its arguments, in order.
    pub demands: Vec<Demand>,
    /// What it says.
    pub statement: Vec<Piece>,
    /// The variables of its mandatory pairs.
    pub pairs: Vec<(Piece, Piece)>,
}

// Proved here once: a derived drop is proved again in each crate that drops such a value.
impl Drop for Frame {
    fn drop(self) {
        let Frame {
            demands: _,
            statement: _,
            pairs: _,
        } = self;
    }
}
