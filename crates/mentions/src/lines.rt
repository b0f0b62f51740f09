//! The lines that say which labels that vanished comments of the source with the edits still mention.

ghost use Rattle.std.specs.Prelude.{◌≡◌, ◌-◌, ◌++◌, IfOk, OnOk, filter, length, map, string_bytes, take};
ghost use Rattle.std.specs.Str.{bytes_eq};
ghost use Rattle.source.specs.Scopes.{is_in};
ghost use Rattle.mmtext.specs.Views.{seen};
ghost use Rattle.source.specs.Views.{seen_words};
ghost use Rattle.mentions.specs.Lines.{first_place, mention_line, mention_lines, mention_text, more_line, most_told, named};

use crate::mentioned::{is_one_of, mentioned_of};
use giving::LabelMap;
use locating::line_at;
use mmtext::Token;
use replylines::shown;
use sourceediting::marked;
use std::alloc::{AllocError, Global};
use std::hash::RandomState;

/// The most labels that have a line.
const MOST_TOLD: usize = 10;

/// The texts of words.
fn texts_of<'w>(alloc: Global, words: &[Token<'w>]) -> Result<Vec<&'w [u8]>, AllocError>
    ensures { IfOk result (λ texts. seen_words texts.items ≡ map (λ t. t.text) (map seen words.now)) }
{
    let mut texts = Vec::new(alloc);
    for word in words {
        texts.push(word.text)?;
    }
    Ok(texts)
}

/// Those of labels that are among others.
fn those_in<'l>(
    alloc: Global,
    names: &LabelMap<'_>,
    labels: &[&'l [u8]],
) -> Result<Vec<&'l [u8]>, AllocError>
    ensures { IfOk result (λ made. seen_words made.items ≡ filter (λ w. is_in (map (λ c. c.0) names.now) w) (seen_words labels.now)) }
{
    let mut made = Vec::new(alloc);
    for label in labels {
        if is_one_of(names, label) {
            made.push(*label)?;
        }
    }
    Ok(made)
}

/// Those of labels that are among words.
fn named_of<'l>(
    alloc: Global,
    keys: RandomState,
    words: &[Token<'_>],
    labels: &[&'l [u8]],
) -> Result<Vec<&'l [u8]>, AllocError>
    ensures { IfOk result (λ made. seen_words made.items ≡ named (map seen words.now) (seen_words labels.now)) }
{
    let texts = texts_of(alloc, words)?;
    let names = marked(alloc, keys, texts.as_slice())?;
    those_in(alloc, &names, labels)
}

/// Those of words that are a label.
fn words_of<'w>(
    alloc: Global,
    words: &[Token<'w>],
    label: &[u8],
) -> Result<Vec<Token<'w>>, AllocError>
    ensures { IfOk result (λ made. map seen made.items ≡ filter (λ t. bytes_eq t.text label.now) (map seen words.now)) }
{
    let mut made = Vec::new(alloc);
    for word in words {
        if word.text == label {
            made.push(*word)?;
        }
    }
    Ok(made)
}

/// Where the first of words begins.
fn first_place(words: &[Token<'_>]) -> usize
    ensures { result ≡ first_place (map seen words.now) }
{
    match words.first() {
        Some(word) => word.place,
        None => 0,
    }
}

/// That a label is so many words, of which the first stands on this line.
fn mention_text(alloc: Global, many: usize, label: &[u8], line: usize) -> Result<String, AllocError>
    ensures { IfOk result (λ text. string_bytes text ≡ mention_text many label.now line) }
{
    let label = shown(label);
    if many == 1 {
        return format!(in alloc; "1 more mention of {label}, on line {line}");
    }
    format!(in alloc; "{many} more mentions of {label}, first on line {line}")
}

/// The line of a label that is one of these words of a text.
fn mention_line(
    alloc: Global,
    out: &[u8],
    words: &[Token<'_>],
    label: &[u8],
) -> Result<String, AllocError>
    ensures { IfOk result (λ line. string_bytes line ≡ mention_line out.now label.now
        (filter (λ t. bytes_eq t.text label.now) (map seen words.now))) }
{
    let its = words_of(alloc, words, label)?;
    let line = line_at(out, first_place(its.as_slice()));
    mention_text(alloc, its.len(), label, line)
}

/// The lines of labels that are among these words of a text.
fn lines_for(
    alloc: Global,
    out: &[u8],
    words: &[Token<'_>],
    labels: &[&[u8]],
) -> Result<Vec<String>, AllocError>
    ensures { IfOk result (λ said. map string_bytes said.items
        ≡ map (λ w. mention_line out.now w (filter (λ t. bytes_eq t.text w) (map seen words.now))) (seen_words labels.now)) }
{
    let mut said = Vec::new(alloc);
    for label in labels {
        said.push(mention_line(alloc, out, words, label)?)?;
    }
    Ok(said)
}

/// Puts behind lines how many more labels there are, if there are any.
fn put_more(alloc: Global, said: &mut Vec<String>, many: usize) -> Result<(), AllocError>
    ensures { OnOk result (map string_bytes said.new.items ≡ map string_bytes said.old.items ++ more_line many) }
{
    if many == 0 {
        return Ok(());
    }
    if many == 1 {
        said.push(format!(in alloc; "and of 1 more label")?)?;
        return Ok(());
    }
    said.push(format!(in alloc; "and of {many} more labels")?)?;
    Ok(())
}

/// The lines of the first labels that are among these words of a text, and how many more there are.
fn capped_lines(
    alloc: Global,
    out: &[u8],
    words: &[Token<'_>],
    labels: &[&[u8]],
) -> Result<Vec<String>, AllocError>
    ensures { IfOk result (λ said. map string_bytes said.items
        ≡ map (λ w. mention_line out.now w (filter (λ t. bytes_eq t.text w) (map seen words.now)))
        (take most_told (seen_words labels.now)) ++ more_line (length (seen_words labels.now) - most_told)) }
{
    let told = labels.len().min(MOST_TOLD);
    let mut said = lines_for(alloc, out, words, &labels[..told])?;
    put_more(alloc, &mut said, labels.len() - told)?;
    Ok(said)
}

/// A line for each of the first of these labels that comments of a text mention, and how many more there are. Where there are no labels,
/// the text isn't gone through.
///
/// # Errors
///
/// Want of memory.
pub fn mention_lines(
    alloc: Global,
    keys: RandomState,
    labels: &[&[u8]],
    out: &[u8],
) -> Result<Vec<String>, AllocError>
    ensures { IfOk result (λ said. map string_bytes said.items ≡ mention_lines out.now (seen_words labels.now)) }
{
    if labels.is_empty() {
        return Ok(Vec::new(alloc));
    }
    let marks = marked(alloc, keys, labels)?;
    let words = mentioned_of(alloc, &marks, out)?;
    let named = named_of(alloc, keys, words.as_slice(), labels)?;
    capped_lines(alloc, out, words.as_slice(), named.as_slice())
}
