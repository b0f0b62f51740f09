//! The line of each cause for which the source with edits isn't printed.

ghost use Rattle.std.specs.Prelude.{◌≡◌, ◌≢◌, ◌++◌, codes, IfOk};
ghost use Rattle.givetext.specs.Refusals.{refusal_text};
ghost use Rattle.givetext.specs.declared.refusal.Refusal.TheVariants.{NoMemory as NoMemoryOfGive};
ghost use Rattle.verifytext.specs.Lines.{refusal_line as verifying_line};
ghost use Rattle.verifytext.specs.declared.refusal.Refusal.TheVariants.{NoMemory as NoMemoryOfVerify};
ghost use Rattle.editscripts.specs.Refusals.{IsToldBy};

use editscripts::Unedited;
use givetext::refusal_text;
use std::alloc::{AllocError, Global};
use verifytext::refusal_line as verifying_line;

/// That the edits can't be given back.
pub(crate) fn ungiven(
    alloc: Global,
    path: &str,
    why: &givetext::Refusal,
) -> Result<Unedited, AllocError>
    ensures { IfOk result (IsToldBy (λ line. (why.now ≢ NoMemoryOfGive) × (line ≡ path.now ++ (codes ": " ++ refusal_text why.now)))) }
{
    if let givetext::Refusal::NoMemory = why {
        return Ok(Unedited::NoMemory);
    }
    let text = refusal_text(alloc, why)?;
    Ok(Unedited::Refused(format!(in alloc; "{path}: {text}")?))
}

/// That the source with the edits, which has this text, isn't said to verify.
pub(crate) fn unverified(
    alloc: Global,
    path: &str,
    text: &[u8],
    why: verifytext::Refusal<'_>,
) -> Result<Unedited, AllocError>
    ensures { IfOk result (IsToldBy (λ line. (why.entry ≢ NoMemoryOfVerify)
        × (line ≡ verifying_line (path.now ++ codes ": the source with these edits") text.now why.entry))) }
{
    if let verifytext::Refusal::NoMemory = why {
        return Ok(Unedited::NoMemory);
    }
    let path = format!(in alloc; "{path}: the source with these edits")?;
    Ok(Unedited::Refused(verifying_line(alloc, path.as_str(), text, why)?))
}
