//! What stand-ins are called: as neither the library nor a script calls anything.

ghost use Rattle.std.specs.Prelude.{◌≡◌, ◌++◌, IfOk, OnOk, map};
ghost use Rattle.expanding.specs.Views.{seen_scripts};
ghost use Rattle.source.specs.Views.{seen_words};
ghost use Rattle.standins.specs.StandIns.{candidate, free_labels, words_of};

use mmsyntax::{Assertion, Database, Label};
use mmtext::Token;
use sites::Indexed;
use std::alloc::{AllocError, Global};
use std::hash::RandomState;

/// How many labels are tried.
const MOST_CANDIDATES: u32 = 65_536;

/// The candidate with a number, from 0.
fn candidate(alloc: Global, number: u32) -> Result<Label, AllocError>
    ensures { IfOk result (λ label. label ≡ candidate number) }
{
    let text = format!(in alloc; "stand-in-{number}")?;
    Label::from_slice(alloc, text.as_bytes())
}

/// So many labels that are none of these words, if there are so many.
pub(crate) fn free_labels(
    alloc: Global,
    words: &Indexed<'_>,
    count: usize,
) -> Result<Vec<Label>, AllocError>
    ensures { IfOk result (λ made. made.items ≡ free_labels words.now count) }
{
    let mut made = Vec::new(alloc);
    for number in 0..MOST_CANDIDATES {
        if made.len() >= count {
            return Ok(made);
        }
        let label = candidate(alloc, number)?;
        if words.place(label.as_slice()).is_none() {
            made.push(label)?;
        }
    }
    Ok(made)
}

/// Puts the words of a script.
fn put_words<'w>(found: &mut Vec<&'w [u8]>, script: &[Token<'w>]) -> Result<(), AllocError>
    ensures { OnOk result (seen_words found.new.items ≡ seen_words found.old.items ++ map (λ t. t.text.now) script.now) }
{
    for word in script {
        found.push(word.text)?;
    }
    Ok(())
}

/// Puts the labels of assertions.
fn put_labels<'x>(found: &mut Vec<&'x [u8]>, assertions: &'x [Assertion]) -> Result<(), AllocError>
    ensures { OnOk result (seen_words found.new.items ≡ seen_words found.old.items ++ map (λ a. a.label) assertions.now) }
{
    for assertion in assertions {
        found.push(assertion.label.as_slice())?;
    }
    Ok(())
}

/// The labels of a library and the words of scripts.
pub(crate) fn words_of<'x, 'w: 'x>(
    alloc: Global,
    keys: RandomState,
    database: &'x Database,
    scripts: &[Vec<Token<'w>>],
) -> Result<Indexed<'x>, AllocError>
    ensures { IfOk result (λ made. made ≡ words_of database.now (seen_scripts scripts.now)) }
{
    let mut found: Vec<&'x [u8]> = Vec::new(alloc);
    put_labels(&mut found, database.assertions())?;
    for script in scripts {
        put_words(&mut found, script.as_slice())?;
    }
    Indexed::new(alloc, keys, found)
}
