//! Labels that may not stand beside one another in a library.

ghost use Rattle.std.specs.Prelude.{◌≡◌, ◌&&◌};
ghost use Rattle.std.specs.List.{list_any};
ghost use Rattle.mmsyntax.specs.Dotted.{is_dotted, trunk};
ghost use Rattle.library.specs.Edits.{clashes, has, without};
ghost use Rattle.catalog.specs.Entries.{living};
ghost use Rattle.catalog.specs.Places.{IsIndex};
ghost use Rattle.catalog.specs.Trunks.{AreTrunks};

use crate::places::{Places, find_label};
use crate::trunks::Trunks;
use library::Ranked;
use mmsyntax::{is_dotted, trunk};

/// Whether an assertion has a label, which isn't `own`.
fn has_beside(entries: &[Option<Ranked>], places: &Places, own: &[u8], label: &[u8]) -> bool
    requires { IsIndex places.now entries.now }
    ensures { result ≡ has (without own.now (living entries.now)) label.now }
{
    own != label && find_label(entries, places, label).is_some()
}

/// Whether a label is `L.k` for that of such an assertion, L.
fn has_front_beside(entries: &[Option<Ranked>], places: &Places, own: &[u8], label: &[u8]) -> bool
    requires { IsIndex places.now entries.now }
    ensures { result ≡ (is_dotted (trunk label.now) label.now && has (without own.now (living entries.now)) (trunk label.now)) }
{
    let front = trunk(label);
    is_dotted(front, label) && has_beside(entries, places, own, front)
}

/// Whether one of some labels is `L.k`, for the label L, and that of such an assertion.
fn some_beside(
    entries: &[Option<Ranked>],
    places: &Places,
    own: &[u8],
    label: &[u8],
    dotted: &[Vec<u8>],
) -> bool
    requires { IsIndex places.now entries.now }
    ensures { result
        ≡ list_any (λ k. is_dotted label.now k.items && has (without own.now (living entries.now)) k.items) dotted.now }
{
    for word in dotted {
        let word = word.as_slice();
        if is_dotted(label, word) && has_beside(entries, places, own, word) {
            return true;
        }
    }
    false
}

/// Whether the label of an assertion clashes with one. The assertion with the label `own`, if there is one, is left out.
pub fn has_clash(
    entries: &[Option<Ranked>],
    places: &Places,
    trunks: &Trunks,
    own: &[u8],
    label: &[u8],
) -> bool
    requires indexed { IsIndex places.now entries.now }
    requires trunks { AreTrunks trunks.now places.now }
    ensures { result ≡ clashes (without own.now (living entries.now)) label.now }
{
    if has_front_beside(entries, places, own, label) {
        return true;
    }
    match trunks.get(label) {
        None => false,
        Some(dotted) => some_beside(entries, places, own, label, dotted.as_slice()),
    }
}
