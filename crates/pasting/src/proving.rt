//! The proof that a command gives, and the theorem to which it gives it.

ghost use Rattle.std.specs.Prelude.{◌≡◌, IfOk, IfSome, List, Some, map, option_map, slice_get};
ghost use Rattle.std.specs.Option.{option_and_then};
ghost use Rattle.mmtext.specs.Views.{seen};
ghost use Rattle.mmsyntax.specs.Tables.{Tables};
ghost use Rattle.source.specs.Scopes.{Assertion};
ghost use Rattle.taking.specs.Names.{Map};
ghost use Rattle.expanding.specs.Views.{seen_cut};
ghost use Rattle.pasting.specs.Pasted.{reproved, reproving, proving};
ghost use Rattle.pasting.specs.Views.{AreKnown, IsProvingIf, IsWithin};

use crate::addition::{Addition, addition_of};
use crate::additions::Additions;
use expanding::{Cut, cut_of};
use mmtext::Token;
use source::Declared;
use std::alloc::{AllocError, Global};

/// A theorem to which a command gives a proof.
#[derive(Drop)]
pub(crate) enum Theorem<'c, 'x, 'w> {
    /// The one that stands at this place in the source, from 0.
    Standing(usize),
    /// One that a script adds, and this command reproves.
    Reproved(&'c Addition<'x>),
    /// It is added.
    Added(Addition<'w>),
}

/// A command that gives a proof.
#[derive(Drop)]
pub(crate) struct Proving<'c, 'x, 't, 'w> {
    /// The command around its proof.
    pub cut: Cut<'t, 'w>,
    /// The `$.` that ends the proof.
    pub ends: Token<'w>,
    /// The label of the theorem.
    pub label: Token<'w>,
    /// The theorem.
    pub theorem: Theorem<'c, 'x, 'w>,
}

/// The label of `reprove LABEL $=`.
pub(crate) fn reproved<'w>(front: &[Token<'w>]) -> Option<Token<'w>>
    ensures { option_map seen result ≡ reproved (map seen front.now) }
{
    let [verb, label, _] = front else {
        return None;
    };
    (verb.text == b"reprove".as_slice()).then_some(*label)
}

/// The proof that `reprove` gives to a theorem of the source, or to one that scripts add.
fn reproving<'c, 'x, 't, 'w, 'a, D: Declared<'a>>(
    declared: &D,
    additions: &'c Additions<'x>,
    cut: Cut<'t, 'w>,
    ends: Token<'w>,
) -> Option<Proving<'c, 'x, 't, 'w>>
    ensures within { IfSome result (λ r. IsWithin (D.scope declared.now) r.theorem) }
    ensures proving { (m : Map) (t : Tables) (xs : List Assertion) → AreKnown m t xs additions.now
        → slice_get (seen_cut cut.entry).back 0 ≡ Some (seen ends.entry) → IsProvingIf m t (D.scope declared.now) result
        (option_and_then (reproving t (D.scope declared.now) xs (seen_cut cut.entry)) (reproved (seen_cut cut.entry).front)) }
{
    let label = reproved(cut.front)?;
    let Some(place) = declared.place_of(label.text) else {
        let addition = additions.addition(label.text)?;
        return Some(Proving {
            cut,
            ends,
            label,
            theorem: Theorem::Reproved(addition),
        });
    };
    Some(Proving {
        cut,
        ends,
        label,
        theorem: Theorem::Standing(place),
    })
}

/// The proof that a command gives in the words of the source, if it does.
pub(crate) fn proving_of<'c, 'x, 't, 'w, 'a, D: Declared<'a>>(
    alloc: Global,
    declared: &D,
    additions: &'c Additions<'x>,
    part: &'t [Token<'w>],
) -> Result<Option<Proving<'c, 'x, 't, 'w>>, AllocError>
    ensures within { IfOk result (λ made. IfSome made (λ r. IsWithin (D.scope declared.now) r.theorem)) }
    ensures proving { IfOk result (λ made. (m : Map) (t : Tables) (xs : List Assertion) → AreKnown m t xs additions.now
        → IsProvingIf m t (D.scope declared.now) made (proving m t (D.scope declared.now) xs (map seen part.now))) }
{
    let Some(cut) = cut_of(part) else {
        return Ok(None);
    };
    let Some(ends) = cut.back.first() else {
        return Ok(None);
    };
    let found = reproving(declared, additions, cut, *ends);
    if found.is_some() {
        return Ok(found);
    }
    match addition_of(alloc, part)? {
        None => Ok(None),
        Some(addition) => Ok(Some(Proving {
            cut,
            ends: *ends,
            label: addition.label,
            theorem: Theorem::Added(addition),
        })),
    }
}
