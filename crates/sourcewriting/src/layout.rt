//! Words and letters in lines of at most 79 columns.

ghost use Rattle.std.specs.Prelude.{◌||◌, ◌≡◌, All, ◌≤◌, ◌<◌, ◌+◌, ◌⊎◌, ℕ, Bool, suc, min, nat_le, List, [], ◌∷◌, ◌++◌, length, is_some, IsTrue, IsFalse, IfOk, IfSome, if◌then◌else◌, codes};
ghost use Rattle.std.specs.List.{list_all, flat_map};
ghost use Rattle.std.specs.Bool.{then_some};
ghost use Rattle.std.specs.Option.{option_map};
ghost use mathlib.Core.Bool.{not};
ghost use Rattle.mmtext.specs.Text.{is_printable};
ghost use Rattle.mmtext.specs.Words.{Word, is_label};
ghost use Rattle.source.specs.Views.{seen_words};
ghost use Rattle.items.specs.Layout.{IsLaidOut, is_word};
ghost use Rattle.sourcewriting.specs.Indentations.{is_indentation, usual_indentation, indentation_like, IsIndentation};
ghost use Rattle.sourcewriting.specs.Laid.{IsLaid, IsWhole, HasLabels, HasCut, IsLaidOutAs, IsShort, has_closing};
ghost use Rattle.sourcewriting.specs.Lines.{column_then};

use items::are_spaces;
use mmtext::is_label_token;
use std::alloc::{AllocError, Global};

/// A line has so many columns at most.
const COLUMNS: usize = 79;

/// What the lines of a proof in a block begin with.
const IN_BLOCK: &[u8] = b"      ";

/// What those of another begin with.
const OUTSIDE: &[u8] = b"    ";

/// The white space that each line of a proof begins with if nothing else is known: six spaces in a block, as where the theorem has `$e`,
/// and else four.
pub fn proof_indentation(in_block: bool) -> &'static [u8]
    ensures is { result.now ≡ usual_indentation in_block }
    ensures room { IsIndentation result.now }
{
    if in_block { IN_BLOCK } else { OUTSIDE }
}

/// Whether bytes are spaces that leave room for `$.`.
fn is_indentation(bytes: &[u8]) -> bool
    ensures is { result ≡ is_indentation bytes.now }
    ensures room { IsTrue result → IsIndentation bytes.now }
{
    are_spaces(bytes) && bytes.len() <= COLUMNS - 2
}

/// The white space that each line of another proof begins with: that of the old one, if it is spaces that leave room for `$.`, and else six
/// spaces in a block and four outside.
pub fn indentation_like(old: Option<&[u8]>, in_block: bool) -> &[u8]
    ensures is { result.now ≡ indentation_like (option_map (λ i. i.now) old.entry) in_block }
    ensures room { IsIndentation result.now }
{
    match old {
        Some(spaces) if is_indentation(spaces) => spaces,
        _ => proof_indentation(in_block),
    }
}

/// Words in lines with their indentation. Want of memory, and a word that can't stand there, are told at its end.
#[derive(Drop)]
pub(crate) struct Layout<'i> {
    text: Vec<u8>,
    /// The column behind the last word, counted from 0. There is no room on the first line.
    column: usize,
    /// The spaces that a line begins with.
    indentation: &'i [u8],
    /// Whether memory ran out.
    is_cut_off: bool,
    /// Whether a word was put that is none, or that isn't a label where a label is to stand.
    is_refused: bool,
}

/// Whether bytes are printable characters.
fn are_printable(bytes: &[u8]) -> bool
    ensures { result ≡ list_all is_printable bytes.now }
{
    bytes.iter().all(|b| b' ' < *b && *b < 127)
}

/// Whether a word consists of printable characters, of which there is one at least.
fn is_printable_word(word: &[u8]) -> bool
    ensures { result ≡ is_word word.now }
{
    !word.is_empty() && are_printable(word)
}

impl<'i> Layout<'i> {
    /// No word yet.
    pub(crate) fn new(alloc: Global, indentation: &'i [u8]) -> Layout<'i>
        requires { IsIndentation indentation.now }
        ensures laid { IsLaid indentation.now result [] }
        ensures fine { IsFalse result.is_refused }
    {
        Layout {
            text: Vec::new(alloc),
            column: COLUMNS,
            indentation,
            is_cut_off: false,
            is_refused: false,
        }
    }

    /// Puts bytes on the line.
    fn put(&mut self, bytes: &[u8])
        ensures whole { IsFalse self.new.is_cut_off
            → IsFalse self.old.is_cut_off × (self.new.text.items ≡ self.old.text.items ++ bytes.now) }
        ensures column { min self.new.column 79 ≡ min (self.old.column + length bytes.now) 79 }
        ensures refused { self.new.is_refused ≡ self.old.is_refused }
        ensures same { self.new.indentation ≡ self.old.indentation }
    {
        self.is_cut_off = self.text.extend_from_slice(bytes).is_err() || self.is_cut_off;
        self.column = self.column.saturating_add(bytes.len());
    }

    /// Whether a word of so many bytes has room on the line behind a space.
    fn has_room(&self, length: usize) -> bool
        ensures { result ≡ nat_le (self.now.column + suc length) 79 }
    {
        self.column.saturating_add(length).saturating_add(1) <= COLUMNS
    }

    /// Puts white space: a space, or what begins a line.
    fn put_space(&mut self, begins_line: bool)
        ensures whole { IsFalse self.new.is_cut_off → IsFalse self.old.is_cut_off × (self.new.text.items
            ≡ self.old.text.items ++ (if begins_line then 10 ∷ self.old.indentation.now else codes " ")) }
        ensures column { min self.new.column 79
            ≡ min (if begins_line then length self.old.indentation.now else suc self.old.column) 79 }
        ensures refused { self.new.is_refused ≡ self.old.is_refused }
        ensures same { self.new.indentation ≡ self.old.indentation }
    {
        if begins_line {
            self.put(b"\n");
            self.column = 0;
            self.put(self.indentation);
        } else {
            self.put(b" ");
        }
    }

    /// What was put is right there, or isn't.
    fn expect(&mut self, is_right: bool)
        ensures { self.new ≡ record self.old { is_refused = self.old.is_refused || not is_right } }
    {
        if !is_right {
            self.is_refused = true;
        }
    }

    /// Puts a word.
    pub(crate) fn put_word(&mut self, word: &[u8])
        ensures whole { IsFalse self.new.is_cut_off → IsFalse self.old.is_cut_off }
        ensures right { IsFalse self.new.is_refused → IsFalse self.old.is_refused }
        ensures fine { IsTrue (is_word word.now) → self.new.is_refused ≡ self.old.is_refused }
        ensures laid { (i : List ℕ) (ws : List Word) → IsFalse (has_closing ws) ⊎ IsShort self.old (length word.now)
            → IsLaid i self.old ws → IsLaid i self.new (ws ++ word.now ∷ []) }
    {
        self.expect(is_printable_word(word));
        let begins_line = !self.has_room(word.len());
        self.put_space(begins_line);
        self.put(word);
    }

    /// Puts a label: no other word can stand there.
    pub(crate) fn put_label(&mut self, label: &[u8])
        ensures fine { IsTrue (is_label label.now) → IsTrue (is_word label.now) → self.new.is_refused ≡ self.old.is_refused }
        ensures laid { (i : List ℕ) (front labels : List Word) → IsFalse (has_closing front)
            → HasLabels i self.old front labels → HasLabels i self.new front (labels ++ label.now ∷ []) }
    {
        self.expect(is_label_token(label));
        self.put_word(label);
    }

    /// Other spaces, with which each line begins from here on.
    pub(crate) fn indent(&mut self, indentation: &'i [u8])
        ensures { self.new ≡ record self.old { indentation = indentation.entry } }
    {
        self.indentation = indentation;
    }

    /// Puts words.
    pub(crate) fn put_words(&mut self, words: &[&[u8]])
        ensures { All (λ w. IsTrue (is_word w)) (seen_words words.now) → self.new.is_refused ≡ self.old.is_refused }
    {
        for word in words {
            self.put_word(word);
        }
    }

    /// How many letters have room on the line, or else on a new one: at least one.
    fn room(&self) -> usize
        ensures some { 0 < result }
        ensures short { (n : ℕ) → n ≤ result → IsIndentation self.now.indentation.now → IsShort self.now n }
        ensures fills { IsIndentation self.now.indentation.now → column_then self.now.indentation.now self.now.column result ≡ 79 }
    {
        let here = COLUMNS.saturating_sub(self.column.saturating_add(1));
        if here > 0 {
            return here;
        }
        COLUMNS.saturating_sub(self.indentation.len()).max(1)
    }

    /// Puts letters, which can be cut anywhere.
    pub(crate) fn put_letters(&mut self, letters: &[u8])
        ensures fine { IsTrue (list_all is_printable letters.now) → self.new.is_refused ≡ self.old.is_refused }
        ensures laid { (i : List ℕ) (ws : List Word) → IsLaid i self.old ws
            → (cut : List Word) × (flat_map (λ w. w) cut ≡ letters.now) × HasCut i self.new ws cut }
    {
        let mut rest = letters;
        while !rest.is_empty() {
            let (word, others) = rest.split_at(self.room().min(rest.len()));
            self.put_word(word);
            rest = others;
        }
    }

    /// The text. None where a word can't stand there.
    pub(crate) fn into_text(self) -> Result<Option<Vec<u8>>, AllocError>
        ensures { IfOk result (λ made. IsFalse self.entry.is_cut_off × (made ≡ then_some (not self.entry.is_refused) self.entry.text)) }
    {
        if self.is_cut_off {
            return Err(AllocError);
        }
        Ok((!self.is_refused).then_some(self.text))
    }

    /// The text, with room for `$.` behind it. None where a word can't stand there.
    pub(crate) fn finish(mut self) -> Result<Option<Vec<u8>>, AllocError>
        ensures whole { IsFalse self.entry.is_refused → IfOk result (λ made. IsTrue (is_some made)) }
        ensures laid { (i : List ℕ) (ws : List Word) → IsLaid i self.entry ws
            → IfOk result (λ made. IfSome made (λ text. IsWhole self.entry × IsLaidOutAs i ws text.items)) }
    {
        let begins_line = !self.has_room(2);
        self.put_space(begins_line);
        self.into_text()
    }
}
