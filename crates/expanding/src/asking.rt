//! What scripts ask of a source: of which assertions they speak, and whose proofs they ask for.

ghost use Rattle.std.specs.Prelude.{◌≡◌, ◌++◌, IfOk, IsTrue, OnOk, map, option_map};
ghost use Rattle.mmtext.specs.Views.{seen};
ghost use Rattle.source.specs.Views.{seen_words};
ghost use Rattle.expanding.specs.Asking.{asks_for_proof, is_behind, words_behind, label_behind, labels_behind, spoken_in, spoken, asked};
ghost use Rattle.spreading.specs.Spreading.{assertion_at};
ghost use Rattle.expanding.specs.Views.{seen_scripts};

use mmtext::Token;
use source::Declared;
use std::alloc::{AllocError, Global};

/// What the words of scripts ask of a source.
#[derive(Drop)]
pub struct Asked<'a> {
    /// Of which assertions they speak: all words, and the labels of those that stand behind one behind which something is put.
    pub spoken: Vec<&'a [u8]>,
    /// Whose proofs they ask for: the words behind one that does.
    pub asked: Vec<&'a [u8]>,
}

/// Whether a word is that of a command by which an assertion gets another proof or another place, or goes.
fn asks_for_proof(word: &[u8]) -> bool
    ensures { result ≡ asks_for_proof word.now }
{
    word == b"reprove".as_slice()
        || word == b"replace".as_slice()
        || word == b"move".as_slice()
        || word == b"delete".as_slice()
}

/// Puts the words behind others that stand behind a word which asks for a proof.
fn put_asked<'a>(asked: &mut Vec<&'a [u8]>, words: &[&'a [u8]]) -> Result<(), AllocError>
    ensures { OnOk result (seen_words asked.new.items ≡ seen_words asked.old.items ++ words_behind asks_for_proof (seen_words words.now)) }
{
    let mut asks = false;
    for word in words {
        if asks {
            asked.push(*word)?;
        }
        asks = asks_for_proof(*word);
    }
    Ok(())
}

/// Whether a word says that an assertion is named behind which something is put.
fn is_behind(word: &[u8]) -> bool
    ensures { result ≡ is_behind word.now }
{
    word == b"behind".as_slice()
}

/// Puts the words behind others that stand behind `behind`.
fn put_named<'a>(named: &mut Vec<&'a [u8]>, words: &[&'a [u8]]) -> Result<(), AllocError>
    ensures { OnOk result (seen_words named.new.items ≡ seen_words named.old.items ++ words_behind is_behind (seen_words words.now)) }
{
    let mut names = false;
    for word in words {
        if names {
            named.push(*word)?;
        }
        names = is_behind(*word);
    }
    Ok(())
}

/// The label of the assertion behind the one with a label, if one stands there.
fn label_behind<'a, D: Declared<'a>>(declared: &D, label: &[u8]) -> Option<&'a [u8]>
    ensures { option_map (λ w. w.now) result ≡ label_behind (D.scope declared.now) (assertion_at (D.scope declared.now) label.now) }
{
    // For the proof: there are no more assertions than a number counts.
    let _many = declared.assertions();
    let place = declared.place_of(label)?;
    declared.label(place.checked_add(1)?)
}

/// Puts the labels of the assertions behind those with these labels.
fn put_behind<'a, D: Declared<'a>>(
    declared: &D,
    spoken: &mut Vec<&'a [u8]>,
    named: &[&'a [u8]],
) -> Result<(), AllocError>
    ensures { OnOk result (seen_words spoken.new.items
        ≡ seen_words spoken.old.items ++ labels_behind (D.scope declared.now) (seen_words named.now)) }
{
    for label in named {
        if let Some(behind) = label_behind(declared, *label) {
            spoken.push(behind)?;
        }
    }
    Ok(())
}

/// The words of a script, without their places.
pub(crate) fn spoken_in<'a>(
    alloc: Global,
    script: &[Token<'a>],
) -> Result<Vec<&'a [u8]>, AllocError>
    ensures { IfOk result (λ words. seen_words words.items ≡ spoken_in (map seen script.now)) }
{
    let mut words = Vec::new(alloc);
    for word in script {
        words.push(word.text)?;
    }
    Ok(words)
}

/// What scripts speak of in a source, and what they ask for, by their words.
///
/// # Errors
///
/// Want of memory.
pub fn asked_of<'a, D: Declared<'a>>(
    alloc: Global,
    declared: &D,
    scripts: &[Vec<Token<'a>>],
) -> Result<Asked<'a>, AllocError>
    ensures spoken { IfOk result (λ a. seen_words a.spoken.items ≡ spoken (D.scope declared.now) (seen_scripts scripts.now)) }
    ensures asked { IfOk result (λ a. seen_words a.asked.items ≡ asked (seen_scripts scripts.now)) }
{
    let mut spoken = Vec::new(alloc);
    let mut asked = Vec::new(alloc);
    let mut named = Vec::new(alloc);
    for script in scripts {
        let words = spoken_in(alloc, script.as_slice())?;
        put_asked(&mut asked, words.as_slice())?;
        put_named(&mut named, words.as_slice())?;
        spoken.extend_from_slice(words.as_slice())?;
    }
    put_behind(declared, &mut spoken, named.as_slice())?;
    Ok(Asked { spoken, asked })
}
