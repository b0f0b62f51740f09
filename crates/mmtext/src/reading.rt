//! Reading a text of any language: its comments are passed over, and a reader of the language takes its other tokens.

ghost use Rattle.std.specs.Prelude.{◌≡◌, OnOk};
ghost use Rattle.std.specs.Option.{option_map};
ghost use Rattle.mmtext.specs.Text.{mark_of};
ghost use Rattle.mmtext.specs.Languages.{Language, step, token_reading, reading};
ghost use Rattle.mmtext.specs.Takings.{TakesWord};
ghost use Rattle.mmtext.specs.Views.{seen, state_at, Gives, IsReadAs};

use crate::comments::{Turn, comment_turn};
use crate::fault::{Stop, TextFault};
use crate::mark::{Mark, mark_word};
use crate::texts::{no_memory, text_fault, unfinished_at};
use crate::token::{Token, next_token};
use std::alloc::Global;

/// How far a text of a language was read, which stands in no comment. It takes tokens where it lies: most go on what they stand in, and
/// few of them lead elsewhere.
///
/// After an error nothing is said of a reader.
pub trait Reader<'a>: Drop {
    /// What a whole text says.
    type Said: Drop;

    // The places of the language, and what its texts say, as its rules see them.
    ghost Place: { Type 0 };

    ghost Meaning: { Type 0 };

    // The language, which stays the same.
    ghost language: { Self → Language Place Meaning };

    // How far the text was read.
    ghost place: { Self → Place };

    // What the reader keeps besides is true there.
    ghost IsReady: { Self → Type 0 };

    // How the rules see what is said.
    ghost meaning: { Self.Said → Meaning };

    /// The most bytes that a text of the language may have.
    fn most_bytes(&self) -> usize
        ensures { result ≡ (language self.now).most_bytes };

    /// Takes a word without `$`, if that is quick: whether it did. Else it stays where it is.
    fn take_word(&mut self, alloc: Global, token: Token<'a>) -> Result<bool, Stop>
        requires { IsReady self.old }
        ensures ready { OnOk result (IsReady self.new) }
        ensures same { OnOk result (language self.new ≡ language self.old) }
        ensures taken { TakesWord (language self.old) (place self.old) (seen token.entry) (place self.new) result };

    /// Takes a token with this mark.
    fn take(&mut self, alloc: Global, token: Token<'a>, mark: Mark) -> Result<(), Stop>
        requires ready { IsReady self.old }
        requires mark { mark ≡ mark_of token.text.now }
        ensures ready { OnOk result (IsReady self.new) }
        ensures same { OnOk result (language self.new ≡ language self.old) }
        ensures leads { Gives (λ _. place self.new) result ((language self.old).row (place self.old) (seen token.entry)) };

    /// What the text says, if it may end here.
    fn finish(self) -> Option<Self::Said>
        requires { IsReady self }
        ensures { option_map meaning result ≡ (language self).said (place self) };
}

/// Takes a token that may stand in a comment, or open one or close one.
fn move_on<'a, R: Reader<'a>>(
    alloc: Global,
    reader: &mut R,
    in_comment: &mut bool,
    token: Token<'a>,
) -> Result<(), Stop>
    requires { R.IsReady reader.old }
    ensures ready { OnOk result (R.IsReady reader.new) }
    ensures same { OnOk result (R.language reader.new ≡ R.language reader.old) }
    ensures leads { Gives (λ _. state_at (R.place reader.new) in_comment.new) result
        (step (R.language reader.old) (state_at (R.place reader.old) in_comment.old) (seen token.entry)) }
{
    let mark = mark_word(token.text);
    match comment_turn(*in_comment, token, mark)? {
        Turn::Skipped(open) => *in_comment = open,
        Turn::Read => {
            reader.take(alloc, token, mark)?;
            *in_comment = false;
        }
    }
    Ok(())
}

/// Reads a token. Most are words outside of comments.
fn read_token<'a, R: Reader<'a>>(
    alloc: Global,
    reader: &mut R,
    in_comment: &mut bool,
    token: Token<'a>,
) -> Result<(), Stop>
    requires { R.IsReady reader.old }
    ensures ready { OnOk result (R.IsReady reader.new) }
    ensures same { OnOk result (R.language reader.new ≡ R.language reader.old) }
    ensures leads { Gives (λ _. state_at (R.place reader.new) in_comment.new) result
        (step (R.language reader.old) (state_at (R.place reader.old) in_comment.old) (seen token.entry)) }
{
    if !*in_comment && reader.take_word(alloc, token)? {
        return Ok(());
    }
    move_on(alloc, reader, in_comment, token)
}

/// What the tokens of a text say.
fn read_tokens<'a, R: Reader<'a>>(
    alloc: Global,
    mut reader: R,
    text: &'a [u8],
) -> Result<R::Said, Stop>
    requires ready { R.IsReady reader }
    requires start { R.place reader ≡ (R.language reader).start }
    ensures { Gives R.meaning result (token_reading (R.language reader) text.now) }
{
    let mut in_comment = false;
    let mut at = 0;
    while let Some(token) = next_token(text, at) {
        at = token.place + token.text.len();
        read_token(alloc, &mut reader, &mut in_comment, token)?;
    }
    if in_comment {
        return Err(unfinished_at(text.len()));
    }
    match reader.finish() {
        Some(said) => Ok(said),
        None => Err(unfinished_at(text.len())),
    }
}

/// What a text says, read by a reader at its start: its length is tested first, then its bytes, then its tokens.
fn read_text<'a, R: Reader<'a>>(alloc: Global, reader: R, text: &'a [u8]) -> Result<R::Said, Stop>
    requires ready { R.IsReady reader }
    requires start { R.place reader ≡ (R.language reader).start }
    ensures { Gives R.meaning result (reading (R.language reader) text.now) }
{
    if let Some(fault) = text_fault(reader.most_bytes(), text) {
        return Err(Stop::Fault(fault));
    }
    read_tokens(alloc, reader, text)
}

/// What a text says, read by a reader at its start.
///
/// # Errors
///
/// The first fault of the text in the language: in its length, else in its bytes, else at a token, else at its end. `NoMemory`, with place
/// 0, if memory ran out.
pub fn read<'a, R: Reader<'a>>(
    alloc: Global,
    reader: R,
    text: &'a [u8],
) -> Result<R::Said, TextFault>
    requires ready { R.IsReady reader }
    requires start { R.place reader ≡ (R.language reader).start }
    ensures { IsReadAs R.meaning (R.language reader) text.now result }
{
    match read_text(alloc, reader, text) {
        Ok(said) => Ok(said),
        Err(Stop::Fault(fault)) => Err(fault),
        Err(Stop::Memory) => Err(no_memory()),
    }
}
