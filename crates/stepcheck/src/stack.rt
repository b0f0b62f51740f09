//! The expressions of the trees so far: their symbols in one vector, one expression behind another, or lent from where they stand.

ghost use Rattle.std.specs.Prelude.{◌≡◌, ◌-◌, ◌<◌, ◌≤◌, ◌++◌, ◌∷◌, [], OnOk, IfErr, length, take, drop, slice_index_or};
ghost use Rattle.stepcheck.specs.Spans.{start};

use derivation::ProofFaultKind;
use mmsyntax::SymbolWord;
use std::alloc::{AllocError, Global};
use std::marker::Model;

/// How many symbols the stack of most proofs has at once, and how many expressions.
const USUAL_SYMBOLS: usize = 256;

const USUAL_EXPRESSIONS: usize = 32;

/// An expression of a stack.
#[derive(Clone, Copy)]
pub(crate) enum Entry<'a> {
    /// The stack's own symbols from a place to another.
    Own(usize, usize),
    /// Symbols that stand elsewhere, and how many symbols of the stack's own lie below.
    Lent(usize, &'a [SymbolWord]),
}

/// How many symbols of the stack's own lie below an entry.
fn start_of(entry: &Entry) -> usize
    ensures { result ≡ start entry.now }
{
    match entry {
        Entry::Own(start, _) => *start,
        Entry::Lent(start, _) => *start,
    }
}

/// The last expressions of a stack. Contracts see them as a list.
#[derive(Drop)]
pub(crate) struct Args<'a> {
    symbols: &'a [SymbolWord],
    entries: &'a [Entry<'a>],
}

impl<'a> Model for Args<'a> {
    ghost use Rattle.std.specs.Prelude.{List, length};
    ghost use Rattle.mmsyntax.specs.declared.statement.Symbol.{Symbol};
    ghost use Rattle.stepcheck.specs.Spans.{cut, AreWithin};

    ghost Value = { List (List Symbol) };

    ghost view = { λ a. cut a.symbols.now a.entries.now };

    ghost invariant = { λ a. AreWithin (length a.symbols.now) a.entries.now };
}

impl<'a> Args<'a> {
    /// How many they are.
    pub(crate) fn len(&self) -> usize
        ensures { result ≡ length self.now }
    {
        self.entries.len()
    }

    /// The expression at a place.
    pub(crate) fn at(&self, place: usize) -> &'a [SymbolWord]
        requires { place < length self.now }
        ensures { result.now ≡ slice_index_or self.now place result.now }
    {
        let symbols = self.symbols;
        let entry = self.entries[place];
        match entry {
            Entry::Own(start, end) => &symbols[start..end],
            Entry::Lent(_, lent) => lent,
        }
    }

    /// Those from a place on.
    pub(crate) fn behind(&self, place: usize) -> Args<'a>
        requires { place ≤ length self.now }
        ensures { result ≡ drop place self.now }
    {
        let (_, entries) = self.entries.split_at(place);
        Args {
            symbols: self.symbols,
            entries,
        }
    }
}

/// The expressions of the trees so far, the last one on top. Contracts see them as a list.
#[derive(Drop)]
pub(crate) struct Stack<'a> {
    symbols: Vec<SymbolWord>,
    entries: Vec<Entry<'a>>,
}

impl<'a> Model for Stack<'a> {
    ghost use Rattle.std.specs.Prelude.{List, length};
    ghost use Rattle.mmsyntax.specs.declared.statement.Symbol.{Symbol};
    ghost use Rattle.stepcheck.specs.Spans.{cut, AreSpans};

    ghost Value = { List (List Symbol) };

    ghost view = { λ s. cut s.symbols.items s.entries.items };

    ghost invariant = { λ s. AreSpans (length s.symbols.items) s.entries.items };
}

impl<'a> Stack<'a> {
    /// No expressions.
    pub(crate) fn new(alloc: Global) -> Stack<'a>
        ensures { result ≡ [] }
    {
        let mut symbols = Vec::new(alloc);
        let mut entries = Vec::new(alloc);
        // Room for most proofs. Where it is refused, each growth asks again.
        let _ = symbols.reserve(USUAL_SYMBOLS);
        let _ = entries.reserve(USUAL_EXPRESSIONS);
        Stack { symbols, entries }
    }

    /// How many expressions it has.
    pub(crate) fn len(&self) -> usize
        ensures { result ≡ length self.now }
    {
        self.entries.len()
    }

    /// So many of the last expressions.
    pub(crate) fn last(&self, count: usize) -> Args<'_>
        requires { count ≤ length self.now }
        ensures { result ≡ drop (length self.now - count) self.now }
    {
        let base = self.entries.len() - count;
        let (_, entries) = self.entries.as_slice().split_at(base);
        Args {
            symbols: self.symbols.as_slice(),
            entries,
        }
    }

    /// Puts a copy of an expression on top. Its only fault is want of memory.
    pub(crate) fn push(&mut self, expression: &[SymbolWord]) -> Result<(), ProofFaultKind>
        ensures value { OnOk result (self.new ≡ self.old ++ expression.now ∷ []) }
        ensures kinds { IfErr result (λ kind. kind ≡ ProofFaultKind.NoMemory) }
    {
        let start = self.symbols.len();
        self.symbols.extend_from_slice(expression)?;
        let end = self.symbols.len();
        match self.entries.push(Entry::Own(start, end)) {
            Ok(()) => Ok(()),
            Err(_) => Err(ProofFaultKind::NoMemory),
        }
    }

    /// Puts an expression of two symbols on top, each where it is to stand: to copy a list of two takes longer.
    pub(crate) fn push_two(
        &mut self,
        first: SymbolWord,
        second: SymbolWord,
    ) -> Result<(), AllocError>
        ensures { OnOk result (self.new ≡ self.old ++ (first ∷ second ∷ []) ∷ []) }
    {
        let start = self.symbols.len();
        self.symbols.push(first)?;
        self.symbols.push(second)?;
        let end = self.symbols.len();
        self.entries.push(Entry::Own(start, end))?;
        Ok(())
    }

    /// Puts an expression that stands elsewhere on top, without a copy. Its only fault is want of memory.
    pub(crate) fn lend(&mut self, expression: &'a [SymbolWord]) -> Result<(), ProofFaultKind>
        ensures value { OnOk result (self.new ≡ self.old ++ expression.now ∷ []) }
        ensures kinds { IfErr result (λ kind. kind ≡ ProofFaultKind.NoMemory) }
    {
        let below = self.symbols.len();
        match self.entries.push(Entry::Lent(below, expression)) {
            Ok(()) => Ok(()),
            Err(_) => Err(ProofFaultKind::NoMemory),
        }
    }

    /// Takes all but the first expressions away.
    pub(crate) fn truncate(&mut self, count: usize)
        ensures { self.new ≡ take count self.old }
    {
        if count < self.entries.len() {
            let start = start_of(&self.entries[count]);
            self.symbols.truncate(start);
            self.entries.truncate(count);
        }
    }
}
