//! Items as they read then.

ghost use Rattle.std.specs.Prelude.{◌≡◌, ◌≤◌, ◌∷◌, ◌++◌, ℕ, [], length, false, None, IfOk, IfSome, IsTrue, MatchOption, OnOk, codes};
ghost use Rattle.std.specs.Str.{bytes_eq};
ghost use Rattle.mmtext.specs.Words.{Word};
ghost use Rattle.items.specs.declared.place.WordPlace.{WordPlace};
ghost use Rattle.items.specs.Bare.{IsBare, has_proof};
ghost use Rattle.items.specs.Items.{Item as Pieces, bytes_of, label_of, IsStatement};
ghost use Rattle.items.specs.Reading.{Stands, IsFrontTo, IsItemAt};
ghost use Rattle.items.specs.Machine.{rest_then, IsPut};
ghost use Rattle.items.specs.Rewriting.{HasProofText, ReadsThen};

use crate::part::Part;
use crate::place::WordPlace;
use crate::reading::{Item, Kind, end_of_comment};
use giving::LabelMap;
use mmtext::next_token;
use std::alloc::AllocError;

/// Puts what stands in a text from a byte up to another, behind a token each, with changed labels: it begins with this part of a statement.
pub(crate) fn put_reworded<'w>(
    out: &mut Vec<u8>,
    changes: &'w LabelMap<'_>,
    text: &'w [u8],
    from: usize,
    end: usize,
    part: Part,
) -> Result<(), AllocError>
    requires order { from ≤ end }
    requires within { end ≤ length text.now }
    ensures { OnOk result ((x : Pieces) → Stands text.now from x end → (place : WordPlace) → place.comment ≡ None → place.part ≡ part
        → out.new.items ≡ out.old.items ++ bytes_of (rest_then changes.now place x)) }
{
    let mut place = WordPlace::at(part);
    let mut at = from;
    while at < end {
        let Some(token) = next_token(text, at) else {
            return Ok(());
        };
        out.extend_from_slice(&text[at..token.place])?;
        let (reading, behind) = place.take(changes, token.text);
        reading.put(out)?;
        place = behind;
        at = token.place + token.text.len();
    }
    Ok(())
}

/// The byte behind the `$=` of a theorem that begins behind a byte of a text. None where no `$=` stands in it.
fn end_of_front(text: &[u8], from: usize) -> Option<usize>
    requires { from ≤ length text.now }
    ensures front { IfSome result (IsFrontTo text.now from) }
    ensures within { IfSome result (λ end. from ≤ end × (end ≤ length text.now)) }
    ensures bare { (x : Pieces) (end : ℕ) → Stands text.now from x end → IsStatement x
        → MatchOption result (has_proof x ≡ false) (λ front. end ≤ front → has_proof x ≡ false) }
{
    let mut at = from;
    while let Some(token) = next_token(text, at) {
        let end = token.place + token.text.len();
        if token.text == b"$(".as_slice() {
            at = end_of_comment(text, end)?;
            continue;
        }
        if token.text == b"$=".as_slice() {
            return Some(end);
        }
        at = end;
    }
    None
}

/// Puts a theorem that begins behind a byte of a text and ends at another, with changed labels, and with this text for what stands between
/// `$=` and `$.`. Whether it has a `$=`.
fn put_reproved(
    out: &mut Vec<u8>,
    changes: &LabelMap<'_>,
    proof: &[u8],
    text: &[u8],
    from: usize,
    end: usize,
) -> Result<bool, AllocError>
    requires order { from ≤ end }
    requires within { end ≤ length text.now }
    ensures put { (x : Pieces) (label : Word) → Stands text.now from x end → IsStatement x → label_of x ≡ label ∷ []
        → bytes_eq label (codes "$=") ≡ false → IfOk result (λ is. IsTrue is → IsPut out.old.items out.new.items
        (HasProofText changes.now proof.now x)) }
    ensures bare { (x : Pieces) → Stands text.now from x end → IsStatement x → IfOk result (λ is. is ≡ false → has_proof x ≡ false) }
{
    let Some(front) = end_of_front(text, from) else {
        return Ok(false);
    };
    if front >= end {
        return Ok(false);
    }
    put_reworded(out, changes, text, from, front, Part::Label)?;
    out.extend_from_slice(proof)?;
    out.extend_from_slice(b"$.")?;
    Ok(true)
}

/// Puts an item that begins behind a byte of a text: with another proof, if there is a text for the label of its assertion, and else with
/// changed labels. Whether it could be put: no text is for an axiom.
pub fn put_item(
    out: &mut Vec<u8>,
    changes: &LabelMap<'_>,
    proofs: &LabelMap<'_>,
    text: &[u8],
    from: usize,
    item: Item<'_>,
) -> Result<bool, AllocError>
    requires order { from ≤ item.end }
    requires within { item.end ≤ length text.now }
    ensures put { (is : IsItemAt text.now from item.entry) → IfOk result (λ put. IsTrue put → IsPut out.old.items out.new.items
        (ReadsThen changes.now proofs.now is.item)) }
    ensures bare { (is : IsItemAt text.now from item.entry) → IfOk result (λ put. put ≡ false → IsBare proofs.now is.item) }
{
    let Kind::Assertion(label) = item.kind else {
        put_reworded(out, changes, text, from, item.end, Part::Fixed)?;
        return Ok(true);
    };
    if let Some(proof) = proofs.text_for(label) {
        return put_reproved(out, changes, proof, text, from, item.end);
    }
    put_reworded(out, changes, text, from, item.end, Part::Label)?;
    Ok(true)
}
