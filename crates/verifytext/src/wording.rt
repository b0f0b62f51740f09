//! The lines that are told of a source.

ghost use Rattle.std.specs.Prelude.{◌≡◌, IfOk, string_bytes};
ghost use Rattle.verifytext.specs.Lines.{ok_line, too_long_line, refusal_line};

use crate::finding_lines::finding_lines;
use crate::refusal::Refusal;
use crate::verifying_text::Verified;
use locating::{printed_name, proof_line, source_line, theorem_at, told_line};
use std::alloc::{AllocError, Global};

/// What is printed of a source that verifies.
pub(crate) fn ok_line(alloc: Global, verified: Verified) -> Result<String, AllocError>
    ensures { IfOk result (λ line. string_bytes line ≡ ok_line verified.assertions verified.unfinished) }
{
    let Verified {
        assertions,
        unfinished,
    } = verified;
    if unfinished == 0 {
        format!(in alloc; "ok {assertions}\n")
    } else {
        format!(in alloc; "ok {assertions}, {unfinished} unfinished\n")
    }
}

/// The line of a theorem whose proof writes down too many symbols: no step is at fault, so it is told at the theorem's label.
fn too_long_line(alloc: Global, path: &str, text: &[u8], label: &[u8]) -> Result<String, AllocError>
    ensures { IfOk result (λ line. string_bytes line ≡ too_long_line path.now text.now label.now) }
{
    let name = printed_name(label);
    let known = format!(in alloc; "proof of {name}: expressions of more than 268435456 symbols")?;
    let spot = theorem_at(alloc, text, label)?;
    let rule = "the steps of this proof write down more than 268435456 symbols";
    told_line(alloc, path, text, spot, Some(label), rule, known.as_str())
}

/// The line of a refusal, behind the path of the source, and where in its text the fault is, and behind a fault of a proof what it finds:
/// want of memory has no place.
pub fn refusal_line(
    alloc: Global,
    path: &str,
    text: &[u8],
    why: Refusal<'_>,
) -> Result<String, AllocError>
    ensures { IfOk result (λ line. string_bytes line ≡ refusal_line path.now text.now why.entry) }
{
    match why {
        Refusal::Source(fault) => source_line(alloc, path, text, fault),
        Refusal::Proof(label, fault, finding) => {
            let mut line = proof_line(alloc, path, text, label, fault)?;
            line.push_str(finding_lines(alloc, &finding)?.as_str())?;
            Ok(line)
        }
        Refusal::TooLong(label) => too_long_line(alloc, path, text, label),
        Refusal::NoMemory => format!(in alloc; "no memory"),
    }
}
