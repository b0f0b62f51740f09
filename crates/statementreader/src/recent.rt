//! Words that were looked up lately. Most words of a text stand in it again and again.

ghost use Rattle.std.specs.Prelude.{◌≡◌, ◌<◌, ◌++◌, ◌∷◌, [], IfOk, OnOk, length};
ghost use Rattle.mmsyntax.specs.Tables.{Tables};
ghost use Rattle.mmtext.specs.Words.{Word};
ghost use Rattle.statementreader.specs.Recalls.{IsTrueOf, IsKept, IsKeptAt, RecallsTrue};
ghost use Rattle.statementreader.specs.Takings.{IsSmallNamed, step_as};

use crate::place::Place;
use crate::steps::{Named, push_named, push_named_near};
use mmsyntax::{Name, Proof, SymbolTable};
use mmtext::{contains_dollar, is_label_token};
use std::alloc::{AllocError, Global};
use std::hash::{FoldHasher, Hasher};

/// How many words of a short text are kept.
const FEWEST: usize = 64;
/// The bytes of the longest text that is short.
const SHORT_TEXT: usize = 1024;
/// How many words are kept of a text that isn't long.
const FEWER: usize = 512;
/// The bytes of the longest text that isn't long.
const MIDDLING_TEXT: usize = 16384;
/// How many words of a long text are kept where a prelude has few symbols.
const FEW: usize = 4096;
/// How many are kept where it has many.
const MANY: usize = 65536;
/// The most symbols that are few.
const FEW_SYMBOLS: usize = 2048;

/// What is known of a word: what it names, whether a `$` stands in it, and whether it has only bytes of a label.
#[derive(Clone, Copy)]
pub(crate) struct Recalled<'a> {
    pub word: &'a [u8],
    pub name: Option<Name>,
    pub with_dollar: bool,
    pub is_label: bool,
    /// Where it stood last among the labels that a proof cites: a hint, and nothing is known of it.
    pub cited_at: usize,
}

/// Words that were looked up lately among the symbols of a prelude: one for each place, or none at all. A new word takes the place of an
/// earlier one, so words that were chosen to meet at one place cost what they would cost without this.
#[derive(Drop)]
pub struct Recent<'a> {
    entries: Vec<Recalled<'a>>,
    /// The most words that are kept.
    most: usize,
}

/// What is known of a word by looking at it.
fn looked_up<'a>(symbols: &SymbolTable, word: &'a [u8]) -> Recalled<'a>
    ensures word { result.word.now ≡ word.now }
    ensures known { IsTrueOf symbols.now result }
{
    Recalled {
        word,
        name: symbols.look_up(word),
        with_dollar: contains_dollar(word),
        is_label: is_label_token(word),
        cited_at: 0,
    }
}

impl<'a> Recent<'a> {
    /// No word, of a text that may be long.
    pub fn new(alloc: Global) -> Self
        ensures { result.entries.items ≡ [] }
    {
        Recent {
            entries: Vec::new(alloc),
            most: MANY,
        }
    }

    /// No word, of a text of a length in bytes: the shorter it is, the fewer are kept.
    pub fn for_text(alloc: Global, length: usize) -> Self
        ensures { (t : Tables) → RecallsTrue t result }
    {
        Recent {
            entries: Vec::new(alloc),
            most: most_of_text(length),
        }
    }

    /// Keeps no word at a place where the symbols may change.
    pub fn keep_at(&mut self, place: &Place<'_>)
        ensures { IsKept place.now self.old self.new }
    {
        match place {
            Place::Prelude(_) => self.entries.clear(),
            Place::Unit(_) => {}
        }
    }

    /// Makes room for words.
    fn open(&mut self, alloc: Global, symbols: &SymbolTable) -> Result<(), AllocError>
        requires { self.old.entries.items ≡ [] }
        ensures knows { RecallsTrue symbols.now self.new }
        ensures room { OnOk result (0 < length self.new.entries.items) }
    {
        let size = size_for(symbols, self.most);
        let nothing = looked_up(symbols, b"".as_slice());
        self.entries = vec![in alloc; nothing; size]?;
        Ok(())
    }

    /// The place of what is known of a word, which is looked up if nothing is kept of it.
    pub(crate) fn look_up(
        &mut self,
        alloc: Global,
        symbols: &SymbolTable,
        word: &'a [u8],
    ) -> Result<usize, AllocError>
        requires { RecallsTrue symbols.now self.old }
        ensures knows { RecallsTrue symbols.now self.new }
        ensures found { IfOk result (λ place. IsKeptAt symbols.now self.new.entries.items place word.now) }
    {
        if self.entries.is_empty() {
            self.open(alloc, symbols)?;
        }
        let place = place_of(word, self.entries.len());
        self.keep(symbols, word, place);
        Ok(place)
    }

    /// Keeps a word at a place, unless it is there.
    fn keep(&mut self, symbols: &SymbolTable, word: &'a [u8], place: usize)
        requires knows { RecallsTrue symbols.now self.old }
        requires place { place < length self.old.entries.items }
        ensures knows { RecallsTrue symbols.now self.new }
        ensures kept { IsKeptAt symbols.now self.new.entries.items place word.now }
    {
        if self.entries[place].word != word {
            self.entries[place] = looked_up(symbols, word);
        }
    }

    /// Notes where the word that is kept at a place stands among the labels that a proof cites.
    pub(crate) fn note(&mut self, place: usize, cited_at: usize)
        requires { place < length self.old.entries.items }
        ensures { (t : Tables) → RecallsTrue t self.old → RecallsTrue t self.new }
    {
        self.entries[place].cited_at = cited_at;
    }

    /// Puts the step that a word is, by what it names, behind others. Its label is looked for where it stood last among those that are
    /// cited, and else put behind them.
    ///
    /// # Errors
    ///
    /// Want of memory: the steps are the same then.
    pub fn push_named(
        &mut self,
        alloc: Global,
        steps: &mut Proof,
        named: Named,
        word: &[u8],
    ) -> Result<(), AllocError>
        requires { IsSmallNamed named }
        ensures known { (t : Tables) → RecallsTrue t self.old → RecallsTrue t self.new }
        ensures pushed { OnOk result (steps.new ≡ steps.old ++ step_as word.now named ∷ []) }
    {
        if self.entries.is_empty() {
            return push_named(alloc, steps, named, word);
        }
        let place = place_of(word, self.entries.len());
        let hint = self.entries[place].cited_at;
        let cited_at = push_named_near(alloc, steps, hint, named, word)?;
        self.note(place, cited_at);
        Ok(())
    }

    /// What is known of the word that is kept at a place.
    pub(crate) fn at(&self, place: usize) -> &Recalled<'a>
        requires { place < length self.now.entries.items }
        ensures { (t : Tables) (w : Word) → IsKeptAt t self.now.entries.items place w
            → (result.now.word.now ≡ w) × IsTrueOf t result.now }
    {
        &self.entries[place]
    }
}

/// How many words of a text of a length in bytes are kept at most: filling the places takes less time than reading the text.
fn most_of_text(length: usize) -> usize {
    if length <= SHORT_TEXT {
        FEWEST
    } else if length <= MIDDLING_TEXT {
        FEWER
    } else {
        MANY
    }
}

/// How many words are kept by the number of symbols, and at most so many: a power of two.
fn size_for(symbols: &SymbolTable, most: usize) -> usize
    ensures { 0 < result }
{
    let count = symbols
        .constants()
        .len()
        .saturating_add(symbols.variables().len());
    let size = if count > FEW_SYMBOLS { MANY } else { FEW };
    if size > most { most.max(1) } else { size }
}

/// The place of a word among `size`, a power of two.
fn place_of(word: &[u8], size: usize) -> usize
    requires { 0 < size }
    ensures { result < size }
{
    let mut hasher = FoldHasher::default();
    hasher.write(word);
    (hasher.finish() as usize) & (size - 1)
}
