//! The forms of a script that the source does away with: `replace * OLD NEW` is one transaction for each theorem that cites OLD, and
//! `before M` is `behind` the assertion in front of M.

ghost use Rattle.std.specs.Prelude.{◌≡◌, ◌++◌, ◌&&◌, [], codes, IfOk, OnOk, Some, None, false, map, option_map, slice_get};
ghost use Rattle.std.specs.Option.{option_and_then};
ghost use Rattle.mmtext.specs.Views.{seen};
ghost use Rattle.mmtext.specs.Words.{all_digits};
ghost use Rattle.std.specs.List.{list_any};
ghost use Rattle.std.specs.Str.{bytes_eq};
ghost use Rattle.source.specs.Views.{seen_words, seen_proof};
ghost use Rattle.source.specs.Whole.{labels_in};
ghost use Rattle.spreading.specs.Forms.{begins_with};
ghost use Rattle.spreading.specs.Spreading.{IsSpreadWith, cites, citing, replaced_in_each, label_in_front, assertion_at, spread_place, spread_part, unknown_label, with_misfit, misfit_of, misfit_other, misfit_place, spread_other};
ghost use Rattle.spreading.specs.Views.{seen_misfit, seen_star, citer};

use crate::forms::{begins_with, is_beside, part_length, split_place};
use crate::misfit::Misfit;
use crate::star::{Star, star_of, word_at};
use mmtext::Token;
use source::{Declared, ProofWords};
use std::alloc::{AllocError, Global};

// ---- replace *

/// Whether a label is one of these.
fn is_among(labels: &[&[u8]], label: &[u8]) -> bool
    ensures { result ≡ list_any (λ w. bytes_eq label.now w.now) labels.now }
{
    labels.iter().any(|other| label == *other)
}

/// The labels that stand in a proof.
pub fn labels_in<'p, 'a>(proof: &'p ProofWords<'a>) -> &'p [&'a [u8]]
    ensures { seen_words result.now ≡ labels_in (seen_proof proof.now) }
{
    match proof {
        ProofWords::Normal(labels) | ProofWords::Compressed(labels, _) => labels.as_slice(),
    }
}

/// Whether the proof of the assertion at a place, from 0, names a label.
pub fn cites<'a, D: Declared<'a>>(declared: &D, place: usize, label: &[u8]) -> bool
    ensures { result ≡ cites label.now (option_and_then (λ a. a.proof) (slice_get (D.scope declared.now).assertions place)) }
{
    match declared.proof(place) {
        None => false,
        Some(proof) => is_among(labels_in(proof), label),
    }
}

/// The label of the assertion at a place, if its proof names one.
fn citer_at<'a, D: Declared<'a>>(declared: &D, place: usize, label: &[u8]) -> Option<&'a [u8]>
    ensures { option_map (λ w. w.now) result ≡ option_and_then (citer label.now) (slice_get (D.scope declared.now).assertions place) }
{
    if cites(declared, place, label) {
        declared.label(place)
    } else {
        None
    }
}

/// The labels of the theorems that cite an assertion, in the order of the source.
fn citing<'a, D: Declared<'a>>(
    alloc: Global,
    declared: &D,
    label: &[u8],
) -> Result<Vec<&'a [u8]>, AllocError>
    ensures { IfOk result (λ labels. seen_words labels.items ≡ citing (D.scope declared.now) label.now) }
{
    let mut labels = Vec::new(alloc);
    for place in 0..declared.assertions() {
        if let Some(citer) = citer_at(declared, place, label) {
            labels.push(citer)?;
        }
    }
    Ok(labels)
}

/// Puts a `replace` in each of these theorems, each in a transaction of its own.
fn put_each<'a>(
    star: Star<'a>,
    labels: &[&'a [u8]],
    out: &mut Vec<Token<'a>>,
) -> Result<(), AllocError>
    ensures { OnOk result (map seen out.new.items
        ≡ map seen out.old.items ++ replaced_in_each (seen_star star.entry) (seen_words labels.now)) }
{
    let Some((first, others)) = labels.split_first() else {
        return Ok(());
    };
    star.put_in(first, out)?;
    for label in others {
        star.begin_next(out)?;
        star.put_in(label, out)?;
    }
    Ok(())
}

/// Puts for a `replace *` those of each theorem that cites the assertion.
fn put_star<'a, D: Declared<'a>>(
    alloc: Global,
    declared: &D,
    star: Star<'a>,
    out: &mut Vec<Token<'a>>,
) -> Result<(), AllocError>
    ensures { OnOk result (map seen out.new.items
        ≡ map seen out.old.items ++ replaced_in_each (seen_star star.entry) (citing (D.scope declared.now) star.entry.old.text.now)) }
{
    let labels = citing(alloc, declared, star.old.text)?;
    put_each(star, labels.as_slice(), out)
}

/// Why a `replace *` can't be, which stands alone in its transaction or doesn't.
fn misfit_of_star<'a, D: Declared<'a>>(
    declared: &D,
    is_alone: bool,
    star: Star<'a>,
) -> Option<Misfit<'a>>
    ensures { option_map seen_misfit result ≡ misfit_other (D.scope declared.now) is_alone [] (Some (seen_star star.entry)) }
{
    if !is_alone {
        return Some(Misfit::NotAlone(star.star));
    }
    unknown_label(declared, star.old)
}

/// Why a word can't be a label of the source, if it is none.
fn unknown_label<'a, D: Declared<'a>>(declared: &D, word: Token<'a>) -> Option<Misfit<'a>>
    ensures { option_map seen_misfit result ≡ unknown_label (D.scope declared.now) (seen word.entry) }
{
    match declared.place_of(word.text) {
        None => Some(Misfit::Unknown(word)),
        Some(_) => None,
    }
}

// ---- before M

/// The label of the assertion in front of the one with a label, if one stands there.
fn label_in_front<'a, D: Declared<'a>>(declared: &D, label: &[u8]) -> Option<&'a [u8]>
    ensures { option_map (λ w. w.now) result ≡ label_in_front (D.scope declared.now) (assertion_at (D.scope declared.now) label.now) }
{
    declared.label(declared.place_of(label)?.checked_sub(1)?)
}

/// Why words can't say where something is put.
fn misfit_place<'a, D: Declared<'a>>(declared: &D, words: &[Token<'a>]) -> Option<Misfit<'a>>
    ensures { option_map seen_misfit result ≡ misfit_place (D.scope declared.now) (map seen words.now) }
{
    match words {
        [how, label, ..] if is_beside(*how) => unknown_label(declared, *label),
        [how, ..] if is_number(how.text) => Some(Misfit::Numbered(*how)),
        _ => None,
    }
}

/// Whether all bytes of a word are digits.
fn is_number(word: &[u8]) -> bool
    ensures { result ≡ all_digits word.now }
{
    word.iter().all(u8::is_ascii_digit)
}

/// Puts words that say where something is put, and those behind them.
fn put_place<'a, D: Declared<'a>>(
    declared: &D,
    words: &[Token<'a>],
    out: &mut Vec<Token<'a>>,
) -> Result<(), AllocError>
    ensures { OnOk result (map seen out.new.items ≡ map seen out.old.items ++ spread_place (D.scope declared.now) (map seen words.now)) }
{
    if let (Some(how), Some(label)) = (words.first(), words.get(1))
        && how.text == b"before".as_slice()
        && let Some(front) = label_in_front(declared, label.text)
    {
        out.push(word_at(how.place, b"behind"))?;
        out.push(word_at(label.place, front))?;
        return out.extend_from_slice(&words[2..]);
    }
    out.extend_from_slice(words)
}

/// Puts the words of a command that is no `replace *`, or one that stands alone.
fn put_other<'a, D: Declared<'a>>(
    declared: &D,
    part: &[Token<'a>],
    out: &mut Vec<Token<'a>>,
) -> Result<(), AllocError>
    ensures { OnOk result (map seen out.new.items
        ≡ map seen out.old.items ++ spread_other (D.scope declared.now) (map seen part.now) None) }
{
    let (front, place) = split_place(part);
    out.extend_from_slice(front)?;
    put_place(declared, place, out)
}

// ---- all parts

/// Puts a part.
fn put_part<'a, D: Declared<'a>>(
    alloc: Global,
    declared: &D,
    part: &[Token<'a>],
    out: &mut Vec<Token<'a>>,
) -> Result<(), AllocError>
    ensures { OnOk result (map seen out.new.items
        ≡ map seen out.old.items ++ spread_part (D.scope declared.now) (map seen part.now)) }
{
    match star_of(part) {
        Some(star) => put_star(alloc, declared, star, out),
        None => put_other(declared, part, out),
    }
}

/// Why a part can't be, which stands alone in its transaction or doesn't.
fn misfit_of<'a, D: Declared<'a>>(
    declared: &D,
    is_alone: bool,
    part: &[Token<'a>],
) -> Option<Misfit<'a>>
    ensures { option_map seen_misfit result ≡ misfit_of (D.scope declared.now) is_alone (map seen part.now) }
{
    match star_of(part) {
        Some(star) => misfit_of_star(declared, is_alone, star),
        None => misfit_place(declared, split_place(part).1),
    }
}

/// Whether `begin` stands right in front of a part, as is said, and `commit` right behind it.
fn is_enclosed(is_begun: bool, behind: &[Token<'_>]) -> bool
    ensures { result ≡ (is_begun && begins_with (codes "commit") (map seen behind.now)) }
{
    is_begun && begins_with(behind, b"commit")
}

/// A script by the source.
#[derive(Drop)]
pub struct SpreadScript<'a> {
    /// Its words: `replace *` and `before` are done away with, but before the first assertion of all. Each has the place of the word in
    /// the script for which it stands.
    pub words: Vec<Token<'a>>,
    /// What can't be in it, in the order of its commands: an unknown label behind `behind`, `before` or `replace *`, a number that says
    /// where something is put, a `replace *` beside another command.
    pub misfits: Vec<Misfit<'a>>,
}

impl<'a> SpreadScript<'a> {
    /// Puts a part, which stands alone in its transaction or doesn't.
    fn put<D: Declared<'a>>(
        &mut self,
        alloc: Global,
        declared: &D,
        is_alone: bool,
        part: &[Token<'a>],
    ) -> Result<(), AllocError>
        ensures words { OnOk result (map seen self.new.words.items
            ≡ map seen self.old.words.items ++ spread_part (D.scope declared.now) (map seen part.now)) }
        ensures misfits { OnOk result (map seen_misfit self.new.misfits.items
            ≡ map seen_misfit self.old.misfits.items
            ++ with_misfit (misfit_of (D.scope declared.now) is_alone (map seen part.now)) []) }
    {
        if let Some(misfit) = misfit_of(declared, is_alone, part) {
            self.misfits.push(misfit)?;
        }
        put_part(alloc, declared, part, &mut self.words)
    }
}

/// The words of a script by the source, and all that can't be in it.
///
/// # Errors
///
/// Want of memory.
pub fn spread<'a, D: Declared<'a>>(
    alloc: Global,
    declared: &D,
    words: &[Token<'a>],
) -> Result<SpreadScript<'a>, AllocError>
    ensures { IfOk result (λ out.
        IsSpreadWith (D.scope declared.now) (map seen words.now) (map seen out.words.items) (map seen_misfit out.misfits.items)) }
{
    let mut out = SpreadScript {
        words: Vec::new(alloc),
        misfits: Vec::new(alloc),
    };
    let mut at = 0;
    let mut is_begun = false;
    while at < words.len() {
        let rest = &words[at..];
        let (part, behind) = rest.split_at(part_length(rest));
        out.put(alloc, declared, is_enclosed(is_begun, behind), part)?;
        is_begun = begins_with(part, b"begin");
        at += part.len();
    }
    Ok(out)
}
