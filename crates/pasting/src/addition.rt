//! What `add` brings: an assertion with its label, its `$e` and its symbols.

ghost use Rattle.std.specs.Prelude.{◌≡◌, IfOk, map, option_map};
ghost use Rattle.mmtext.specs.Views.{seen};
ghost use Rattle.source.specs.Views.{seen_words};
ghost use Rattle.pasting.specs.Additions.{addition_in, addition_of, claims, ends_symbols, is_premise, symbols_in};
ghost use Rattle.pasting.specs.Views.{seen_addition};

use mmtext::Token;
use source::HypothesisWords;
use std::alloc::{AllocError, Global};

/// An assertion that a script adds.
#[derive(Drop)]
pub(crate) struct Addition<'w> {
    /// Its label.
    pub label: Token<'w>,
    /// The `$e` in front of it, in their order.
    pub premises: Vec<HypothesisWords<'w>>,
    /// Its symbols.
    pub statement: Vec<&'w [u8]>,
}

/// `$=` or `$.`.
fn ends_symbols(word: Token<'_>) -> bool
    ensures { result ≡ ends_symbols (seen word.entry) }
{
    word.text == b"$=".as_slice() || word.text == b"$.".as_slice()
}

/// `$a` or `$p`.
fn claims(word: Token<'_>) -> bool
    ensures { result ≡ claims (seen word.entry) }
{
    word.text == b"$a".as_slice() || word.text == b"$p".as_slice()
}

/// `$e`.
fn is_premise(word: Token<'_>) -> bool
    ensures { result ≡ is_premise (seen word.entry) }
{
    word.text == b"$e".as_slice()
}

/// The symbols up to a `$=` or `$.`.
fn symbols_in<'w>(alloc: Global, words: &[Token<'w>]) -> Result<Vec<&'w [u8]>, AllocError>
    ensures { IfOk result (λ symbols. seen_words symbols.items ≡ symbols_in (map seen words.now)) }
{
    let mut symbols = Vec::new(alloc);
    for word in words {
        if ends_symbols(*word) {
            return Ok(symbols);
        }
        symbols.push(word.text)?;
    }
    Ok(symbols)
}

/// The first assertion among words, with the `$e` in front of it.
fn addition_in<'w>(alloc: Global, words: &[Token<'w>]) -> Result<Option<Addition<'w>>, AllocError>
    ensures { IfOk result (λ made. option_map seen_addition made ≡ addition_in (map seen words.now)) }
{
    let Some((first, rest)) = words.split_first() else {
        return Ok(None);
    };
    let mut label = *first;
    let mut premises = Vec::new(alloc);
    for (at, mark) in rest.iter().enumerate() {
        if claims(*mark) {
            let statement = symbols_in(alloc, &rest[at + 1..])?;
            return Ok(Some(Addition {
                label,
                premises,
                statement,
            }));
        }
        if is_premise(*mark) {
            let symbols = symbols_in(alloc, &rest[at + 1..])?;
            premises.push(HypothesisWords::Premise(label.text, symbols))?;
        }
        label = *mark;
    }
    Ok(None)
}

/// What a command adds.
pub(crate) fn addition_of<'w>(
    alloc: Global,
    part: &[Token<'w>],
) -> Result<Option<Addition<'w>>, AllocError>
    ensures { IfOk result (λ made. option_map seen_addition made ≡ addition_of (map seen part.now)) }
{
    match part.first() {
        Some(verb) if verb.text == b"add".as_slice() => addition_in(alloc, part),
        _ => Ok(None),
    }
}
