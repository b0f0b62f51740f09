//! The line of each cause for which a source isn't edited.

ghost use Rattle.std.specs.Prelude.{◌≡◌, ◌≢◌, ◌++◌, [], codes, IfOk, map, slice_index_or, string_bytes};
ghost use Rattle.mmtext.specs.declared.fault.FaultKind.TheVariants.{NoMemory as OutOfMemory};
ghost use Rattle.checking.specs.FaultLines.{line_of};
ghost use Rattle.checking.specs.declared.fault.Fault.TheVariants.{NoMemory as NoMemoryOfRun};
ghost use Rattle.intake.specs.declared.refusal.Refusal.TheVariants.{NoMemory as NoMemoryOfTake};
ghost use Rattle.locating.specs.Told.{text_line};
ghost use Rattle.taketext.specs.Refusals.{refusal_line as taking_line};
ghost use Rattle.std.specs.Prelude.{ℕ, Bool, List};
ghost use Rattle.mmtext.specs.Text.{Token as Word};
ghost use Rattle.mmtext.specs.Views.{seen};
ghost use Rattle.mmsyntax.specs.Tables.{Tables};
ghost use Rattle.source.specs.Scopes.{Assertion, Scope};
ghost use Rattle.taking.specs.Names.{Map};
ghost use Rattle.expanding.specs.Refusals.{IsUnranked};
ghost use Rattle.pasting.specs.Views.{IsUnpasted};
ghost use Rattle.editscripts.specs.Refusals.{IsToldBy, IsPasteFaultLine, IsCrowdedLine, crowded_line};

use crate::unedited::Unedited;
use checking::Fault;
use expanding::Unranked;
use locating::{spot_at, text_line, told_at};
use mmtext::{FaultKind, TextFault, Token};
use pasting::Unpasted;
use std::alloc::{AllocError, Global};
use taketext::refusal_line as taking_line;

/// That no library is taken.
pub fn untaken(
    alloc: Global,
    path: &str,
    source: &[u8],
    why: &intake::Refusal<'_, '_>,
) -> Result<Unedited, AllocError>
    ensures { IfOk result (IsToldBy (λ line. (why.now ≢ NoMemoryOfTake) × (line ≡ taking_line path.now source.now why.now))) }
{
    match why {
        intake::Refusal::NoMemory => Ok(Unedited::NoMemory),
        _ => Ok(Unedited::Refused(taking_line(alloc, path, source, why)?)),
    }
}

/// That a script isn't read, or the scripts aren't run. The paths are those of the source and of the scripts.
pub fn unworked(alloc: Global, paths: &[&str], fault: &Fault) -> Result<Unedited, AllocError>
    ensures { IfOk result (IsToldBy (λ line. (fault.now ≢ NoMemoryOfRun) × (line ≡ line_of (map (λ p. p.now) paths.now) fault.now))) }
{
    match fault {
        Fault::NoMemory => Ok(Unedited::NoMemory),
        _ => Ok(Unedited::Refused(fault.line(alloc, paths)?)),
    }
}

/// The path at a place, from 0; none is empty.
pub(crate) fn path_at<'p>(paths: &[&'p str], place: usize) -> &'p str
    ensures { result.now ≡ slice_index_or (map (λ p. p.now) paths.now) place [] }
{
    match paths.get(place) {
        Some(path) => *path,
        None => "",
    }
}

/// The text at a place, from 0; none is empty.
pub(crate) fn text_at(texts: &[Vec<u8>], place: usize) -> &[u8]
    ensures { result.now ≡ slice_index_or (map (λ t. t.items) texts.now) place [] }
{
    match texts.get(place) {
        Some(text) => text.as_slice(),
        None => b"",
    }
}

/// That the text of a script at a path has a fault.
pub(crate) fn unread(
    alloc: Global,
    path: &str,
    text: &[u8],
    fault: TextFault,
) -> Result<Unedited, AllocError>
    ensures { IfOk result (IsToldBy (λ line. (fault.kind ≢ OutOfMemory) × (line ≡ text_line path.now text.now fault))) }
{
    if fault.kind == FaultKind::NoMemory {
        return Ok(Unedited::NoMemory);
    }
    Ok(Unedited::Refused(text_line(alloc, path, text, fault)?))
}

/// That a compressed proof of a script at a path is none at its theorem.
pub(crate) fn unpasted(
    alloc: Global,
    path: &str,
    text: &[u8],
    why: Unpasted<'_>,
) -> Result<Unedited, AllocError>
    ensures { (m : Map) (t : Tables) (s : Scope) (xs : List Assertion) (ts : List Word) → IsUnpasted m t s xs ts why.entry
        → IfOk result (IsToldBy (IsPasteFaultLine path.now text.now m t s xs ts)) }
{
    match why {
        Unpasted::NoMemory => Ok(Unedited::NoMemory),
        Unpasted::Faulty(word, kind) => {
            let place = word.place;
            unread(alloc, path, text, TextFault { place, kind })
        }
    }
}

/// The line of a word that puts too many at one place.
fn crowded_line(
    alloc: Global,
    path: &str,
    text: &[u8],
    word: Token<'_>,
) -> Result<String, AllocError>
    ensures { IfOk result (λ line. string_bytes line ≡ crowded_line path.now text.now (seen word.entry)) }
{
    let spot = spot_at(text, word.place);
    told_at(
        alloc,
        path,
        text,
        Some(spot),
        "over 99 are put at one place",
    )
}

/// That a script at a path puts too many at one place.
pub(crate) fn crowded(
    alloc: Global,
    path: &str,
    text: &[u8],
    why: Unranked<'_>,
) -> Result<Unedited, AllocError>
    ensures { (s : Scope) (flags : List Bool) (gaps : List ℕ) (ts : List Word) → IsUnranked s flags gaps ts why.entry
        → IfOk result (IsToldBy (IsCrowdedLine path.now text.now s flags gaps ts)) }
{
    match why {
        Unranked::NoMemory => Ok(Unedited::NoMemory),
        Unranked::Crowded(word) => {
            let line = crowded_line(alloc, path, text, word)?;
            Ok(Unedited::Refused(line))
        }
    }
}
