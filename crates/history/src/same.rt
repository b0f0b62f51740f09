//! Whether replies are equal, field by field.

ghost use Rattle.std.specs.Prelude.{◌≡◌, ◌↔◌, IsTrue};

use library::{Line, Reply};
use mmsyntax::{Assertion, Expr};

fn same_expression(a: &Expr, b: &Expr) -> bool
    ensures { IsTrue result ↔ (a.now ≡ b.now) }
{
    a.as_slice() == b.as_slice()
}

fn same_expressions(a: &[Expr], b: &[Expr]) -> bool
    ensures { IsTrue result ↔ (a.now ≡ b.now) }
{
    a.len() == b.len() && a.iter().zip(b).all(|(x, y)| same_expression(x, y))
}

fn same_pairs(a: &[(u32, u32)], b: &[(u32, u32)]) -> bool
    ensures { IsTrue result ↔ (a.now ≡ b.now) }
{
    a == b
}

fn same_assertion(a: &Assertion, b: &Assertion) -> bool
    ensures { IsTrue result ↔ (a.now ≡ b.now) }
{
    a.label == b.label
        && a.kind == b.kind
        && same_pairs(a.pairs.as_slice(), b.pairs.as_slice())
        && same_expressions(a.hyps.as_slice(), b.hyps.as_slice())
        && same_expression(&a.statement, &b.statement)
        && a.proof.has_same_steps(&b.proof)
}

fn same_line(a: &Line, b: &Line) -> bool
    ensures { IsTrue result ↔ (a.now ≡ b.now) }
{
    a.rank == b.rank && a.label == b.label && a.kind == b.kind && a.citers == b.citers
}

fn same_lines(a: &[Line], b: &[Line]) -> bool
    ensures { IsTrue result ↔ (a.now ≡ b.now) }
{
    a.len() == b.len() && a.iter().zip(b).all(|(x, y)| same_line(x, y))
}

fn same_reply(a: &Reply, b: &Reply) -> bool
    ensures { IsTrue result ↔ (a.now ≡ b.now) }
{
    match (a, b) {
        (Reply::Done, Reply::Done) => true,
        (
            Reply::Shown {
                rank,
                citers,
                assertion,
            },
            Reply::Shown {
                rank: other_rank,
                citers: others,
                assertion: other,
            },
        ) => rank == other_rank && citers == others && same_assertion(assertion, other),
        (Reply::Listed(lines), Reply::Listed(others)) => {
            same_lines(lines.as_slice(), others.as_slice())
        }
        _ => false,
    }
}

/// Whether two lists of replies are equal.
pub(crate) fn same_replies(a: &[Reply], b: &[Reply]) -> bool
    ensures { IsTrue result ↔ (a.now ≡ b.now) }
{
    a.len() == b.len() && a.iter().zip(b).all(|(x, y)| same_reply(x, y))
}
