//! When one assertion may stand where another is cited.

ghost use Rattle.std.specs.Prelude.{◌≡◌, ◌↔◌, All, Contains, IsTrue, true};
ghost use Rattle.derivation.specs.Lookups.{ArePairsSorted, IsPlaceOfPair};
ghost use Rattle.library.specs.Edits.{is_alike};
ghost use Rattle.library.specs.LikeFrames.{SaysNoLess};

use mmsyntax::{Expr, Frame, SymbolWord};

/// Whether expressions are equal.
fn is_same(one: &[SymbolWord], other: &[SymbolWord]) -> bool
    ensures { IsTrue result ↔ (one.now ≡ other.now) }
{
    one == other
}

/// Whether lists of expressions are equal.
fn are_same(ones: &[Expr], others: &[Expr]) -> bool
    ensures { IsTrue result ↔ (ones.now ≡ others.now) }
{
    if ones.len() != others.len() {
        return false;
    }
    for (i, one) in ones.iter().enumerate() {
        if !is_same(one.as_slice(), others[i].as_slice()) {
            return false;
        }
    }
    true
}

/// The place of a pair, if it is there: by halving where the pairs ascend.
fn place_of(pairs: &[(u32, u32)], ascend: bool, pair: (u32, u32)) -> Option<usize>
    requires { ascend ≡ true → ArePairsSorted pairs.now }
    ensures { IsPlaceOfPair pairs.now pair result }
{
    if ascend {
        pairs.binary_search(&pair).ok()
    } else {
        pairs.iter().position(|other| *other == pair)
    }
}

/// Whether each of the pairs is one of the others.
fn are_within(pairs: &[(u32, u32)], others: &[(u32, u32)]) -> bool
    ensures { IsTrue result ↔ All (Contains others.now) pairs.now }
{
    let ascend = others.is_sorted();
    for pair in pairs {
        if place_of(others, ascend, *pair).is_none() {
            return false;
        }
    }
    true
}

/// Whether the hypotheses and the statements are the same, and each pair of the one is one of the other.
fn says_no_less(old: &Frame, new: &Frame) -> bool
    ensures { IsTrue result ↔ SaysNoLess old.now new.now }
{
    if !are_same(new.hyps.as_slice(), old.hyps.as_slice()) {
        return false;
    }
    if !is_same(new.statement.as_slice(), old.statement.as_slice()) {
        return false;
    }
    are_within(new.pairs.as_slice(), old.pairs.as_slice())
}

/// Whether the assertion `new` may stand where `old` is cited, by what a citing proof sees of them: it says the same of the same
/// hypotheses, and restricts no pair that `old` doesn't. The pairs of `old` are gone through for each of `new` unless they ascend, as those
/// of each frame of `frame_of` do.
pub fn is_alike(old: &Frame, new: &Frame) -> bool
    ensures { result ≡ is_alike old.now new.now }
{
    says_no_less(old, new)
}
