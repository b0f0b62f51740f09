//! The line of a fault of a text: its place, the statement's label, the rule in plain words and the fault as programs know it; then the
//! line of the text, and signs below the word at fault, where they fit.

ghost use Rattle.std.specs.Prelude.{◌≡◌, ◌++◌, IfOk, OnOk, Some, None, map, string_bytes, if◌then◌else◌};
ghost use Rattle.std.specs.List.{repeat};
ghost use Rattle.std.specs.Option.{option_map};
ghost use Rattle.mmtext.specs.Views.{seen};
ghost use Rattle.locating.specs.Told.{shown, is_visible, fits, excerpt, labelled, told_rule, told_at, spot_at, fault_text, text_line, label_behind, source_line, proof_line};
ghost use Rattle.locating.specs.Lines.{word_from};
ghost use Rattle.locating.specs.Rules.{rule_behind};

use crate::fronts::{front_of, label_in, words_of};
use crate::lines::{column_at, line_at, line_front, line_rest, word_from};
use crate::rules::{proof_rule, rule_behind, text_rule};
use crate::spot::Spot;
use crate::steps::step_at;
use derivation::ProofFault;
use mmtext::{TextFault, Token};
use std::alloc::{AllocError, Global};

/// A name as it is printed: itself, where it is text, as each name of a source is; else a question mark.
pub fn printed_name(name: &[u8]) -> &str
    ensures { result.now ≡ shown name.now }
{
    match str::from_utf8(name) {
        Ok(text) => text,
        Err(_) => "?",
    }
}

/// Whether a byte takes one column.
fn is_visible(byte: u8) -> bool
    ensures { result ≡ is_visible byte }
{
    byte >= 32 && byte < 127
}

/// A line as a text, if it can be shown.
fn shown_line(line: &[u8]) -> Option<&str>
    ensures { option_map (λ s. s.now) result ≡ (if fits line.now then Some line.now else None) }
{
    if line.len() > 120 || !line.iter().all(|byte| is_visible(*byte)) {
        return None;
    }
    str::from_utf8(line).ok()
}

/// Puts a sign so many times.
fn put_signs(out: &mut String, sign: &str, many: usize) -> Result<(), AllocError>
    ensures { OnOk result (string_bytes out.new ≡ string_bytes out.old ++ repeat many sign.now) }
{
    for _ in 0..many {
        out.push_str(sign)?;
    }
    Ok(())
}

/// Puts the line of a spot below what is told of it, and signs below the spot.
fn put_excerpt(alloc: Global, out: &mut String, text: &[u8], spot: Spot) -> Result<(), AllocError>
    ensures { OnOk result (string_bytes out.new ≡ string_bytes out.old ++ excerpt text.now spot) }
{
    let front = line_front(text, spot.place);
    let mut line = Vec::from_slice(alloc, front)?;
    line.extend_from_slice(line_rest(text, spot.place))?;
    let Some(line) = shown_line(line.as_slice()) else {
        return Ok(());
    };
    out.push_str("\n")?;
    out.push_str(line)?;
    out.push_str("\n")?;
    put_signs(out, " ", front.len())?;
    out.push_str("^")?;
    put_signs(out, "^", spot.length.saturating_sub(1))
}

/// What is said of a fault, behind its place.
fn said(alloc: Global, label: Option<&[u8]>, rule: &str, fault: &str) -> Result<String, AllocError>
    ensures { IfOk result (λ said. string_bytes said
        ≡ labelled (option_map (λ w. w.now) label.entry) (told_rule rule.now fault.now)) }
{
    match label {
        None => format!(in alloc; "{rule} ({fault})"),
        Some(label) => {
            let label = printed_name(label);
            format!(in alloc; "{label}: {rule} ({fault})")
        }
    }
}

/// The line that tells what is said of a place of a text at a path, and below it the line of the text, where it fits; where the place isn't
/// known, behind the path alone.
///
/// # Errors
///
/// Want of memory.
pub fn told_at(
    alloc: Global,
    path: &str,
    text: &[u8],
    spot: Option<Spot>,
    said: &str,
) -> Result<String, AllocError>
    ensures { IfOk result (λ line. string_bytes line ≡ told_at path.now text.now spot said.now) }
{
    let Some(spot) = spot else {
        return format!(in alloc; "{path}: {said}");
    };
    let (line, column) = (line_at(text, spot.place), column_at(text, spot.place));
    let mut out = format!(in alloc; "{path}:{line}:{column}: {said}")?;
    put_excerpt(alloc, &mut out, text, spot)?;
    Ok(out)
}

/// The line that tells something of a text at a path: where, in which statement, the rule that is broken, and how programs know it. Below
/// it stands the line of the text, where it fits. Where the place isn't known, the path stands alone in front.
///
/// # Errors
///
/// Want of memory.
pub fn told_line(
    alloc: Global,
    path: &str,
    text: &[u8],
    spot: Option<Spot>,
    label: Option<&[u8]>,
    rule: &str,
    fault: &str,
) -> Result<String, AllocError>
    ensures { IfOk result (λ line. string_bytes line
        ≡ told_at path.now text.now spot (labelled (option_map (λ w. w.now) label.entry) (told_rule rule.now fault.now))) }
{
    let said = said(alloc, label, rule, fault)?;
    told_at(alloc, path, text, spot, said.as_str())
}

/// The word at a place.
pub fn spot_at(text: &[u8], place: usize) -> Spot
    ensures { result ≡ spot_at text.now place }
{
    Spot {
        place,
        length: word_from(text, place).len(),
    }
}

/// The line of a fault of a text in any language, at a path.
///
/// # Errors
///
/// Want of memory.
pub fn text_line(
    alloc: Global,
    path: &str,
    text: &[u8],
    fault: TextFault,
) -> Result<String, AllocError>
    ensures { IfOk result (λ line. string_bytes line ≡ text_line path.now text.now fault) }
{
    let spot = spot_at(text, fault.place);
    let rule = text_rule(text, fault.kind);
    let known = format!(in alloc; "text {fault}")?;
    told_line(alloc, path, text, Some(spot), None, rule, known.as_str())
}

/// The label of the statement that some words of a source lead into.
fn label_behind<'a>(front: Option<&[Token<'a>]>) -> Option<&'a [u8]>
    ensures { option_map (λ w. w.now) result ≡ label_behind (option_map (λ ws. map seen ws.now) front.entry) }
{
    label_in(front_of(front?))
}

/// The line of a fault of a source at a path, by the words in front of it.
fn line_behind(
    alloc: Global,
    path: &str,
    text: &[u8],
    front: Option<&[Token<'_>]>,
    fault: TextFault,
) -> Result<String, AllocError>
    ensures { let ws = option_map (λ ws. map seen ws.now) front.entry in let place = fault.place in IfOk result (λ line. string_bytes line
        ≡ told_at path.now text.now (Some (spot_at text.now place)) (labelled (label_behind ws)
        (told_rule (rule_behind text.now ws (word_from text.now place) fault.kind) (fault_text fault)))) }
{
    let spot = spot_at(text, fault.place);
    let rule = rule_behind(alloc, text, front, word_from(text, fault.place), fault.kind)?;
    let known = format!(in alloc; "text {fault}")?;
    let label = label_behind(front);
    told_line(
        alloc,
        path,
        text,
        Some(spot),
        label,
        rule.as_str(),
        known.as_str(),
    )
}

/// The line of a fault of a source in the whole language, at a path.
///
/// # Errors
///
/// Want of memory.
pub fn source_line(
    alloc: Global,
    path: &str,
    text: &[u8],
    fault: TextFault,
) -> Result<String, AllocError>
    ensures { IfOk result (λ line. string_bytes line ≡ source_line path.now text.now fault) }
{
    match words_of(alloc, &text[..fault.place.min(text.len())])? {
        None => line_behind(alloc, path, text, None, fault),
        Some(words) => line_behind(alloc, path, text, Some(words.as_slice()), fault),
    }
}

/// The line of a fault in the proof of a theorem of a source, at a path.
///
/// # Errors
///
/// Want of memory.
pub fn proof_line(
    alloc: Global,
    path: &str,
    text: &[u8],
    label: &[u8],
    fault: ProofFault,
) -> Result<String, AllocError>
    ensures { IfOk result (λ line. string_bytes line ≡ proof_line path.now text.now label.now fault) }
{
    let spot = step_at(alloc, text, label, fault.step)?;
    let name = printed_name(label);
    let known = format!(in alloc; "proof of {name}: {fault}")?;
    let rule = proof_rule(fault.kind);
    told_line(alloc, path, text, spot, Some(label), rule, known.as_str())
}
