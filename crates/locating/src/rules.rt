//! The rules that a text, a source or a proof breaks, in plain words.

ghost use Rattle.std.specs.Prelude.{◌≡◌, IfOk, map, string_bytes};
ghost use Rattle.std.specs.Option.{option_map};
ghost use Rattle.std.specs.List.{list_all};
ghost use Rattle.mmtext.specs.Views.{seen};
ghost use Rattle.locating.specs.Fronts.{front_of};
ghost use Rattle.locating.specs.Rules.{rule_of, rule_of_bytes, text_rule, rule_at_start, end_rule, rule_in_proof, letters_rule, is_letter, word_rule, placed_rule, begins_variables, taken_behind, taken_rule, include_rule, rule_behind, proof_rule};

use crate::fronts::{Part, front_of, part_at, says};
use crate::lines::{column_at, line_at};
use crate::taken::{first_declared, is_float_front, last_declared, last_typed};
use derivation::ProofFaultKind;
use mmtext::{FaultKind, Token, contains_dollar};
use std::alloc::{AllocError, Global};

/// What a text of any language breaks.
fn rule_of(kind: FaultKind) -> &'static str
    ensures { result.now ≡ rule_of kind }
{
    match kind {
        FaultKind::BadByte => "a byte that is neither printable ASCII nor white space",
        FaultKind::BadToken => "this word may not stand here",
        FaultKind::Unfinished => "the text ends inside of a statement, a block or a comment",
        FaultKind::OutOfProfile => "this part of Metamath is not read here",
        FaultKind::UnknownSymbol => "no such symbol is declared here",
        FaultKind::RepeatedLabel => "this name is taken already",
        FaultKind::BadLabel => "no assertion or $f may have this label",
        FaultKind::NoTypeFor => "this variable has no $f here",
        FaultKind::TooLong => "this is longer than may be read",
        FaultKind::NoMemory => "no memory",
        FaultKind::LabelClashes => "this label is another one with a number behind it",
        FaultKind::UnknownLabel => "nothing in front has this label",
        FaultKind::NotActive => "this was declared in a block that is closed",
    }
}

/// What a byte breaks that may stand in no text.
fn rule_of_bytes(text: &[u8]) -> &'static str
    ensures { result.now ≡ rule_of_bytes text.now }
{
    if text.starts_with(&[0xef, 0xbb, 0xbf]) {
        "the text begins with a byte order mark"
    } else {
        rule_of(FaultKind::BadByte)
    }
}

/// What a text of any language breaks at a fault of a kind.
pub(crate) fn text_rule(text: &[u8], kind: FaultKind) -> &'static str
    ensures { result.now ≡ text_rule text.now kind }
{
    match kind {
        FaultKind::BadByte => rule_of_bytes(text),
        _ => rule_of(kind),
    }
}

/// What a word breaks where a statement begins.
fn rule_at_start(word: &[u8]) -> &'static str
    ensures { result.now ≡ rule_at_start word.now }
{
    if word == b"$)".as_slice() {
        "no comment is open here"
    } else if word == b"$}".as_slice() {
        "no block is open here"
    } else if word == b"$c".as_slice() {
        "constants are declared outside of blocks"
    } else if contains_dollar(word) {
        "no statement begins with this word"
    } else {
        "a label has letters, digits, hyphens, underscores and periods"
    }
}

/// What a word with a `$` breaks in a proof.
fn end_rule(word: &[u8]) -> &'static str
    ensures { result.now ≡ end_rule word.now }
{
    if word == b"$.".as_slice() {
        "the steps leave no entry, or more than one"
    } else {
        rule_of(FaultKind::BadToken)
    }
}

/// What a word breaks in a proof, where another word than a keyword would break a rule.
fn rule_in_proof(word: &[u8], rule: &'static str) -> &'static str
    ensures { result.now ≡ rule_in_proof word.now rule.now }
{
    if contains_dollar(word) {
        end_rule(word)
    } else {
        rule
    }
}

/// Whether a byte may stand in a proof of letters.
fn is_letter(byte: u8) -> bool
    ensures { result ≡ is_letter byte }
{
    (byte >= b'A' && byte <= b'Z') || byte == b'?'
}

/// Whether all bytes of a word may stand in a proof of letters.
fn are_letters(word: &[u8]) -> bool
    ensures { result ≡ list_all is_letter word.now }
{
    word.iter().all(|byte| is_letter(*byte))
}

/// What a word breaks among the letters of a proof.
fn letters_rule(word: &[u8]) -> &'static str
    ensures { result.now ≡ letters_rule word.now }
{
    if are_letters(word) {
        "these letters name what isn't there, or take more entries than there are"
    } else {
        "proofs in letters have A to Z and ? alone"
    }
}

/// What a word breaks that may not stand in a part of a statement.
fn word_rule(part: Part, word: &[u8]) -> &'static str
    ensures { result.now ≡ word_rule part word.now }
{
    match part {
        Part::Comment => "no comment has $( or $) inside of it",
        Part::Start => rule_at_start(word),
        Part::Keyword => "behind a label stands $f, $e, $a or $p",
        Part::Steps => rule_in_proof(word, "this step takes more entries than there are"),
        Part::Labels => rule_in_proof(
            word,
            "no label of a mandatory hypothesis stands in parentheses",
        ),
        Part::Letters => rule_in_proof(word, letters_rule(word)),
        Part::Other => rule_of(FaultKind::BadToken),
    }
}

/// A rule, and where something stands that it speaks of, if that is known.
fn placed_rule(
    alloc: Global,
    text: &[u8],
    rule: &str,
    spoken: Option<Token<'_>>,
) -> Result<String, AllocError>
    ensures { IfOk result (λ said. string_bytes said ≡ placed_rule text.now rule.now (option_map seen spoken.entry)) }
{
    match spoken {
        None => Ok(String::from_str(alloc, rule)?),
        Some(token) => {
            let (line, column) = (line_at(text, token.place), column_at(text, token.place));
            format!(in alloc; "{rule}, on line {line}, column {column}")
        }
    }
}

/// Whether words of a statement are those of a `$v`.
fn begins_variables(front: &[Token<'_>]) -> bool
    ensures { result ≡ begins_variables (map seen front.now) }
{
    match front.first() {
        None => false,
        Some(first) => says(b"$v", *first),
    }
}

/// What a name breaks that is taken behind words, of which the last are those of its statement.
fn taken_behind(
    alloc: Global,
    text: &[u8],
    name: &[u8],
    words: &[Token<'_>],
) -> Result<String, AllocError>
    ensures { let ts = map seen words.now in
        IfOk result (λ rule. string_bytes rule ≡ taken_behind text.now name.now ts (front_of ts)) }
{
    let front = front_of(words);
    if is_float_front(front) {
        let rule = "this variable has a $f already";
        return placed_rule(alloc, text, rule, last_typed(name, words));
    }
    let rule = rule_of(FaultKind::RepeatedLabel);
    if begins_variables(front) {
        placed_rule(alloc, text, rule, last_declared(name, words))
    } else {
        placed_rule(alloc, text, rule, first_declared(name, words))
    }
}

/// What a name breaks that is taken, and where it was declared, if that is known.
fn taken_rule(
    alloc: Global,
    text: &[u8],
    name: &[u8],
    front: Option<&[Token<'_>]>,
) -> Result<String, AllocError>
    ensures { IfOk result (λ rule. string_bytes rule
        ≡ taken_rule text.now name.now (option_map (λ ws. map seen ws.now) front.entry)) }
{
    match front {
        None => Ok(String::from_str(alloc, rule_of(FaultKind::RepeatedLabel))?),
        Some(words) => taken_behind(alloc, text, name, words),
    }
}

/// What is left out of the language.
fn include_rule(word: &[u8]) -> &'static str
    ensures { result.now ≡ include_rule word.now }
{
    if word == b"$[".as_slice() {
        "no other file is read: $[ and $] include one"
    } else {
        rule_of(FaultKind::OutOfProfile)
    }
}

/// What a source breaks at a word, behind the words in front of it.
///
/// # Errors
///
/// Want of memory.
pub(crate) fn rule_behind(
    alloc: Global,
    text: &[u8],
    front: Option<&[Token<'_>]>,
    word: &[u8],
    kind: FaultKind,
) -> Result<String, AllocError>
    ensures { IfOk result (λ rule. string_bytes rule
        ≡ rule_behind text.now (option_map (λ ws. map seen ws.now) front.entry) word.now kind) }
{
    let rule = match kind {
        FaultKind::RepeatedLabel => return taken_rule(alloc, text, word, front),
        FaultKind::BadByte => rule_of_bytes(text),
        FaultKind::BadToken => word_rule(part_at(front), word),
        FaultKind::OutOfProfile => include_rule(word),
        _ => rule_of(kind),
    };
    String::from_str(alloc, rule)
}

/// What a proof breaks.
pub fn proof_rule(kind: ProofFaultKind) -> &'static str
    ensures { result.now ≡ proof_rule kind }
{
    match kind {
        ProofFaultKind::UnknownStep => "this step names nothing that may be cited here",
        ProofFaultKind::StackShort => "this step takes more entries than there are",
        ProofFaultKind::WrongType => "an entry has another type than the $f that it is for",
        ProofFaultKind::HypothesisDiffers => "an entry isn't what the $e that it is for says here",
        ProofFaultKind::NotDisjoint => "a $d of what is cited is not kept here",
        ProofFaultKind::NotOneLeft => "the steps leave no entry, or more than one",
        ProofFaultKind::StatementDiffers => "what is proved isn't the statement",
        ProofFaultKind::TooLong => "this step makes an expression of more than 65535 symbols",
        ProofFaultKind::NoMemory => "no memory",
    }
}
