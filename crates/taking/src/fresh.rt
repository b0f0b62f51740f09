//! Fresh names: what a name is changed to where the profile doesn't allow it.

ghost use Rattle.std.specs.Prelude.{◌≡◌, ◌++◌, ◌∷◌, ◌&&◌, [], Bool, length, take, IfOk, IfErr, OnOk};
ghost use Rattle.std.specs.Str.{bytes_eq};
ghost use mathlib.Core.Bool.{not};
ghost use Rattle.mmtext.specs.Words.{Word};
ghost use Rattle.source.specs.Views.{seen_words};
ghost use Rattle.taking.specs.Fresh.{undotted, tail, candidate, fresh, renamed_by, AreGiven, AreLeft, AreRefused};

use itoa::Buffer;
use mmsyntax::{Label, MOST_NAME_BYTES, Sequence};
use std::alloc::{AllocError, Global};

/// Why words have no names.
#[derive(Clone, Copy, Debug)]
pub enum Unnamed<'a> {
    /// The profile doesn't allow this word, and none of a thousand candidates for it is free.
    NoFreshName(&'a [u8]),
    /// Memory ran out.
    NoMemory,
}

impl<'a> From<AllocError> for Unnamed<'a> {
    ghost use Rattle.std.specs.Prelude.{◌≡◌};
    ghost use Rattle.taking.specs.declared.fresh.Unnamed.TheVariants.{NoMemory};

    ghost from_gives = { λ _ e. e ≡ NoMemory };

    fn from(_e: AllocError) -> Unnamed<'a> {
        Unnamed::NoMemory
    }
}

/// Which names may be given: none that a symbol or a label has already.
pub trait FreeNames {
    // the names that may be given
    ghost is_free: { Self → Word → Bool };

    /// Whether a name may be given.
    fn is_free(&self, name: &[u8]) -> bool
        ensures { result ≡ is_free self.now name.now };

    /// A name is given, and may not be given again. After an error nothing is said of the names.
    fn note(&mut self, name: &[u8]) -> Result<(), AllocError>
        ensures { OnOk result ((w : Word) → is_free self.new w ≡ (is_free self.old w && not (bytes_eq w name.now))) };
}

/// A word with `_` at each dot.
fn undotted(alloc: Global, word: &[u8]) -> Result<Label, AllocError>
    ensures { IfOk result (λ made. made ≡ undotted word.now) }
{
    let mut name = Label::new(alloc);
    for byte in word {
        name.push(if *byte == b'.' { b'_' } else { *byte })?;
    }
    Ok(name)
}

/// Bytes go to the end. After an error nothing is said of the name.
fn push_all(name: &mut Label, bytes: &[u8]) -> Result<(), AllocError>
    ensures { OnOk result (name.new ≡ name.old ++ bytes.now) }
{
    for byte in bytes {
        name.push(*byte)?;
    }
    Ok(())
}

/// What stands behind a word in the candidate with a number, from 0: nothing, and then `_1`, `_2` and so on.
fn tail(alloc: Global, number: u32) -> Result<Label, AllocError>
    ensures { IfOk result (λ made. made ≡ tail number) }
{
    let mut made = Label::new(alloc);
    if number > 0 {
        made.push(b'_')?;
        let mut buffer = Buffer::new();
        push_all(&mut made, buffer.format(number).as_bytes())?;
    }
    Ok(made)
}

/// The front of a word, of so many bytes at most.
fn cut(word: &[u8], most: usize) -> &[u8]
    ensures { result.now ≡ take most word.now }
{
    if word.len() <= most {
        return word;
    }
    &word[..most]
}

/// The candidate with a number, from 0: the word with `_` at each dot, cut so that there is room for what stands behind it, and that.
fn candidate(alloc: Global, word: &[u8], number: u32) -> Result<Label, AllocError>
    ensures { IfOk result (λ made. made ≡ candidate word.now number) }
{
    let behind = tail(alloc, number)?;
    let room = MOST_NAME_BYTES.saturating_sub(behind.as_slice().len());
    let mut name = undotted(alloc, cut(word, room))?;
    push_all(&mut name, behind.as_slice())?;
    Ok(name)
}

/// The first of a thousand candidates that is free, if one is.
pub fn fresh_name<N: FreeNames>(
    alloc: Global,
    names: &N,
    word: &[u8],
) -> Result<Option<Label>, AllocError>
    ensures { IfOk result (λ made. made ≡ fresh (N.is_free names.now) word.now) }
{
    for number in 0..1000 {
        let name = candidate(alloc, word, number)?;
        if names.is_free(name.as_slice()) {
            return Ok(Some(name));
        }
    }
    Ok(None)
}

/// The name in the library: a fresh one where the profile doesn't allow the word, if one is free, and else the same.
pub fn library_name<N: FreeNames>(
    alloc: Global,
    names: &N,
    changes: bool,
    word: &[u8],
) -> Result<Option<Label>, AllocError>
    ensures { IfOk result (λ made. made ≡ renamed_by (N.is_free names.now) changes word.now) }
{
    if changes {
        fresh_name(alloc, names, word)
    } else {
        Ok(Some(Label::from_slice(alloc, word)?))
    }
}

/// One more name that is given: it may not be given again, and goes to the end. After an error nothing is said of the names.
fn give<N: FreeNames>(names: &mut N, given: &mut Vec<Label>, name: Label) -> Result<(), AllocError>
    ensures noted { OnOk result ((w : Word) → N.is_free names.new w ≡ (N.is_free names.old w && not (bytes_eq w name))) }
    ensures given { OnOk result (given.new.items ≡ given.old.items ++ name ∷ []) }
{
    names.note(name.as_slice())?;
    given.push(name)?;
    Ok(())
}

/// The names of words in the library, each other than the earlier ones where it changes. They are given then. After an error nothing is
/// said of the names.
///
/// # Errors
///
/// The first word that changes and of which no candidate is free, or want of memory.
pub fn library_names<'a, N: FreeNames>(
    alloc: Global,
    names: &mut N,
    changes: &[bool],
    words: &[&'a [u8]],
) -> Result<Sequence<Label>, Unnamed<'a>>
    requires { length changes.now ≡ length words.now }
    ensures given { IfOk result (AreGiven (N.is_free names.old) changes.now (seen_words words.now)) }
    ensures left { IfOk result (AreLeft (N.is_free names.old) (N.is_free names.new)) }
    ensures refused { IfErr result (AreRefused (N.is_free names.old) changes.now (seen_words words.now)) }
{
    let mut given = Vec::new(alloc);
    for i in 0..words.len() {
        let Some(name) = library_name(alloc, names, changes[i], words[i])? else {
            return Err(Unnamed::NoFreshName(words[i]));
        };
        give(names, &mut given, name)?;
    }
    Ok(Sequence::from_vec(given))
}
