//! The lines of refusals.

ghost use Rattle.std.specs.Prelude.{◌≡◌, IfOk, string_bytes};
ghost use Rattle.std.specs.Option.{option_map};
ghost use Rattle.taketext.specs.Refusals.{limit_text, at_name, refusal_text, refusal_line, long_line};

use drafts::Limit;
use intake::Refusal;
use locating::{printed_name, proof_rule, source_line, theorem_at, told_line};
use std::alloc::{AllocError, Global};

/// What a limit says that is passed by a number.
fn number_text(alloc: Global, limit: Limit) -> Result<String, AllocError>
    ensures { IfOk result (λ text. string_bytes text ≡ limit_text limit) }
{
    match limit {
        Limit::ManyConstants(n) => format!(in alloc; "{n} constants: more than 65535"),
        Limit::ManyVariables(n) => format!(in alloc; "{n} variables: more than 65535"),
        Limit::ManyFloats(n) => format!(in alloc; "{n} $f: more than 65535"),
        Limit::ManyAssertions(n) => format!(in alloc; "{n} assertions: more than 4096"),
        Limit::LongConstant(_)
        | Limit::LongVariable(_)
        | Limit::LongFloat(_)
        | Limit::LongLabel(_) => format!(in alloc; "a name of over 255 bytes"),
        Limit::ManyHypotheses(_) => format!(in alloc; "more than 1000 hypotheses"),
        Limit::ManySymbols(_) => format!(in alloc; "an expression of more than 65535 symbols"),
        Limit::ManyPairs(_) => format!(in alloc; "more than 65535 pairs"),
        Limit::ManySteps(_) => format!(in alloc; "a proof of more than 16384 steps"),
    }
}

/// What a limit says, at a name of the source if it is at one.
fn limit_text(alloc: Global, limit: Limit, name: Option<&[u8]>) -> Result<String, AllocError>
    ensures { IfOk result (λ text. string_bytes text ≡ at_name (option_map (λ w. w.now) name.entry) (limit_text limit)) }
{
    let text = number_text(alloc, limit)?;
    match name {
        None => Ok(text),
        Some(name) => {
            let name = printed_name(name);
            format!(in alloc; "{name}: {text}")
        }
    }
}

/// What a refusal says, as programs know it.
fn refusal_text(alloc: Global, why: &Refusal<'_, '_>) -> Result<String, AllocError>
    ensures { IfOk result (λ text. string_bytes text ≡ refusal_text why.now) }
{
    match why {
        Refusal::Source(fault) => format!(in alloc; "text {fault}"),
        Refusal::UnknownLabel(label) => {
            let label = printed_name(label);
            format!(in alloc; "no assertion {label}")
        }
        Refusal::Backwards => format!(in alloc; "the first label stands behind the second"),
        Refusal::TooMany(n) => format!(in alloc; "{n} assertions: more than 4096"),
        Refusal::TooWide => format!(in alloc; "more than 65535 constants or $f"),
        Refusal::NoFreshName(word) => {
            let word = printed_name(word);
            format!(in alloc; "no free name for {word}")
        }
        Refusal::Passes(limit, name) => limit_text(alloc, *limit, *name),
        Refusal::Unlawful => format!(in alloc; "what is taken is not of the profile"),
        Refusal::Proof(label, fault) => {
            let label = printed_name(label.as_slice());
            format!(in alloc; "proof of {label}: {fault}")
        }
        Refusal::NoMemory => format!(in alloc; "no memory"),
    }
}

/// The line of a refusal, behind the path of the source and, of a fault, where in its text that is: the steps of a proof of the library
/// aren't the source's, so such a proof is told at the theorem's label. Want of memory has no path.
pub fn refusal_line(
    alloc: Global,
    path: &str,
    source: &[u8],
    why: &Refusal<'_, '_>,
) -> Result<String, AllocError>
    ensures { IfOk result (λ line. string_bytes line ≡ refusal_line path.now source.now why.now) }
{
    let text = refusal_text(alloc, why)?;
    match why {
        Refusal::Source(fault) => source_line(alloc, path, source, *fault),
        Refusal::Proof(label, fault) => {
            let (label, rule) = (label.as_slice(), proof_rule(fault.kind));
            let spot = theorem_at(alloc, source, label)?;
            told_line(alloc, path, source, spot, Some(label), rule, text.as_str())
        }
        Refusal::NoMemory => Ok(text),
        _ => format!(in alloc; "{path}: {text}"),
    }
}

/// The line of a library whose text has so many bytes.
pub(crate) fn long_line(alloc: Global, path: &str, count: usize) -> Result<String, AllocError>
    ensures { IfOk result (λ line. string_bytes line ≡ long_line path.now count) }
{
    format!(in alloc; "{path}: a library of {count} bytes: more than 16777216")
}
