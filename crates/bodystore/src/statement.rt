//! All of an assertion but its label and its proof.

ghost use Rattle.std.specs.Prelude.{◌≡◌};

use mmsyntax::{Assertion, Expr, Kind, Label, Proof, Sequence};

/// All of an assertion but its label and its proof: what one statement body stands for.
#[derive(Debug, Drop)]
pub struct Statement {
    pub kind: Kind,
    /// The pairs that `$d` restricts, as places of `$f`: the lower first, ascending, each once.
    pub pairs: Sequence<(u32, u32)>,
    /// The `$e`, in order.
    pub hyps: Sequence<Expr>,
    /// The symbols behind `$a` or `$p`.
    pub statement: Expr,
}

impl Statement {
    /// The assertion with this statement, a label and a proof. It takes no memory.
    pub fn into_assertion(self, label: Label, proof: Proof) -> Assertion
        ensures { result
            ≡ record { label = label; kind = self.kind; pairs = self.pairs; hyps = self.hyps; statement = self.statement; proof = proof } }
    {
        Assertion {
            label,
            kind: self.kind,
            pairs: self.pairs,
            hyps: self.hyps,
            statement: self.statement,
            proof,
        }
    }
}
