//! The expressions of a proof: their symbols in one list that only grows, and an expression is a part of it.

ghost use Rattle.std.specs.Prelude.{◌≡◌, ◌≤◌, ◌+◌, ℕ, ◌++◌, ◌∷◌, [], OnOk, IfOk, IfErr, Some, None, length, take, drop, reverse, slice_get, slice_index_or, slice_range, if◌then◌else◌};
ghost use Rattle.source.specs.Proofs.{push, mark, repeat};
ghost use Rattle.sourcecheck.specs.Spans.{cut, AreWithin};
ghost use Rattle.sourcecheck.specs.Coded.{IsRefusal, piece_value, filled};

use derivation::ProofFaultKind;
use sourceframes::Piece;
use std::alloc::{AllocError, Global};
use std::marker::Model;
use std::mem;

/// The most symbols that the steps of one proof write down: 2^28.
const MOST_SYMBOLS: usize = 268_435_456;

/// From a place of the list to another.
pub(crate) type Span = (usize, usize);

/// The last expressions of a stack, the first of them first. Contracts see them as a list.
#[derive(Drop)]
pub(crate) struct Arguments<'a> {
    symbols: &'a [u32],
    spans: &'a [Span],
}

impl<'a> Model for Arguments<'a> {
    ghost use Rattle.std.specs.Prelude.{List, ℕ, length};
    ghost use Rattle.sourcecheck.specs.Spans.{cut, AreWithin};

    ghost Value = { List (List ℕ) };

    ghost view = { λ a. cut a.symbols.now a.spans.now };

    ghost invariant = { λ a. AreWithin (length a.symbols.now) a.spans.now };
}

impl<'a> Arguments<'a> {
    /// How many they are.
    pub(crate) fn len(&self) -> usize
        ensures { result ≡ length self.now }
    {
        self.spans.len()
    }

    /// The expression at a place: none behind the last one.
    pub(crate) fn at(&self, place: usize) -> &'a [u32]
        ensures { result.now ≡ slice_index_or self.now place [] }
    {
        let symbols = self.symbols;
        if place < self.spans.len() {
            let (start, end) = self.spans[place];
            &symbols[start..end]
        } else {
            &symbols[..0]
        }
    }
}

/// The expressions of a proof that stand, and those that are marked. Contracts see both as lists, the last that stands first, and how many
/// symbols were written down.
#[derive(Drop)]
pub(crate) struct Stack {
    symbols: Vec<u32>,
    spans: Vec<Span>,
    marked: Vec<Span>,
}

impl Model for Stack {
    ghost use Rattle.std.specs.Prelude.{List, ℕ, length, reverse};
    ghost use Rattle.sourcecheck.specs.Spans.{cut, AreWithin, Sheet};

    ghost Value = { Sheet };

    ghost view = { λ s. record {
      stack = record { entries = reverse (cut s.symbols.items s.spans.items); marked = cut s.symbols.items s.marked.items };
      written = length s.symbols.items;
    } };

    ghost invariant = { λ s. AreWithin (length s.symbols.items) s.spans.items × AreWithin (length s.symbols.items) s.marked.items };
}

/// One more symbol.
fn add(symbols: &mut Vec<u32>, number: u32) -> Result<(), ProofFaultKind>
    ensures made { OnOk result (symbols.new.items ≡ symbols.old.items ++ number ∷ []) }
    ensures grows { length symbols.old.items ≤ length symbols.new.items }
    ensures kinds { (count : ℕ) → IfErr result (IsRefusal count) }
{
    match symbols.push(number) {
        Ok(()) => Ok(()),
        Err(_) => Err(ProofFaultKind::NoMemory),
    }
}

/// The symbols from a place to another once more, without the first of them, if the list keeps to 2^28.
fn add_again(symbols: &mut Vec<u32>, start: usize, end: usize) -> Result<(), ProofFaultKind>
    requires { (start ≤ end) × (end ≤ length symbols.old.items) }
    ensures made { OnOk result (symbols.new.items ≡ symbols.old.items ++ drop 1 (slice_range symbols.old.items start end)) }
    ensures grows { length symbols.old.items ≤ length symbols.new.items }
    ensures kinds { IfErr result (IsRefusal (length symbols.old.items + length (drop 1 (slice_range symbols.old.items start end)))) }
{
    if start == end {
        return Ok(());
    }
    let more = end - start - 1;
    if symbols.len() > MOST_SYMBOLS || more > MOST_SYMBOLS - symbols.len() {
        return Err(ProofFaultKind::TooLong);
    }
    match symbols.extend_from_within(start + 1..end) {
        Ok(()) => Ok(()),
        Err(_) => Err(ProofFaultKind::NoMemory),
    }
}

impl Stack {
    /// Nothing stands.
    pub(crate) fn new(alloc: Global) -> Stack
        ensures { result ≡ record { stack = record { entries = []; marked = [] }; written = 0 } }
    {
        Stack {
            symbols: Vec::new(alloc),
            spans: Vec::new(alloc),
            marked: Vec::new(alloc),
        }
    }

    /// Where its memory comes from.
    pub(crate) fn alloc(&self) -> Global {
        *self.symbols.allocator()
    }

    /// Nothing stands, over the room of this stack, which has none any more.
    pub(crate) fn take_room(&mut self) -> Stack
        ensures { result ≡ record { stack = record { entries = []; marked = [] }; written = 0 } }
    {
        let none = Stack::new(self.alloc());
        let mut taken = mem::replace(self, none);
        taken.symbols.clear();
        taken.spans.clear();
        taken.marked.clear();
        taken
    }

    /// How many expressions stand.
    pub(crate) fn len(&self) -> usize
        ensures { result ≡ length self.now.stack.entries }
    {
        self.spans.len()
    }

    /// So many of the last expressions.
    pub(crate) fn last(&self, count: usize) -> Arguments<'_>
        requires { count ≤ length self.now.stack.entries }
        ensures { result ≡ reverse (take count self.now.stack.entries) }
    {
        let base = self.spans.len() - count;
        let (_, spans) = self.spans.as_slice().split_at(base);
        Arguments {
            symbols: self.symbols.as_slice(),
            spans,
        }
    }

    /// An expression goes on.
    pub(crate) fn push(&mut self, expression: &[u32]) -> Result<(), AllocError>
        ensures stack { OnOk result (self.new.stack ≡ push self.old.stack expression.now) }
        ensures written { OnOk result (self.new.written ≡ self.old.written + length expression.now) }
    {
        let start = self.symbols.len();
        self.symbols.extend_from_slice(expression)?;
        let end = self.symbols.len();
        self.spans.push((start, end))?;
        Ok(())
    }

    /// The last expression is marked: whether there is one.
    pub(crate) fn mark(&mut self) -> Result<bool, AllocError>
        ensures stack { IfOk result (λ goes. mark self.old.stack.entries self.old.stack.marked
            ≡ (if goes then Some self.new.stack else None)) }
        ensures written { self.new.written ≡ self.old.written }
    {
        let count = self.spans.len();
        if count == 0 {
            return Ok(false);
        }
        let span = self.spans[count - 1];
        self.marked.push(span)?;
        Ok(true)
    }

    /// A marked expression goes on again, by its number from 0: whether there is one.
    pub(crate) fn repeat(&mut self, number: usize) -> Result<bool, AllocError>
        ensures stack { IfOk result (λ goes. repeat self.old.stack (slice_get self.old.stack.marked number)
            ≡ (if goes then Some self.new.stack else None)) }
        ensures written { self.new.written ≡ self.old.written }
    {
        if number >= self.marked.len() {
            return Ok(false);
        }
        let span = self.marked[number];
        self.spans.push(span)?;
        Ok(true)
    }

    /// What pieces make of so many of the last expressions goes on in their place.
    pub(crate) fn conclude(&mut self, count: usize, pieces: &[Piece]) -> Result<(), ProofFaultKind>
        requires { count ≤ length self.old.stack.entries }
        ensures kinds { let made = filled (reverse (take count self.old.stack.entries)) pieces.now in
            IfErr result (IsRefusal (self.old.written + length made)) }
        ensures stack { OnOk result (self.new.stack ≡ record {
          entries = filled (reverse (take count self.old.stack.entries)) pieces.now ∷ drop count self.old.stack.entries;
          marked = self.old.stack.marked;
        }) }
        ensures written { let made = filled (reverse (take count self.old.stack.entries)) pieces.now in
            OnOk result (self.new.written ≡ self.old.written + length made) }
    {
        let base = self.spans.len() - count;
        let start = self.symbols.len();
        let (_, spans) = self.spans.as_slice().split_at(base);
        fill(&mut self.symbols, spans, pieces)?;
        let end = self.symbols.len();
        self.spans.truncate(base);
        match self.spans.push((start, end)) {
            Ok(()) => Ok(()),
            Err(_) => Err(ProofFaultKind::NoMemory),
        }
    }
}

/// What stands for one piece is written down, if there is room for it.
fn fill_one(symbols: &mut Vec<u32>, spans: &[Span], piece: Piece) -> Result<(), ProofFaultKind>
    requires { AreWithin (length symbols.old.items) spans.now }
    ensures made { OnOk result (symbols.new.items ≡ symbols.old.items ++ piece_value (cut symbols.old.items spans.now) piece) }
    ensures grows { length symbols.old.items ≤ length symbols.new.items }
    ensures kinds { IfErr result (IsRefusal (length symbols.old.items + length (piece_value (cut symbols.old.items spans.now) piece))) }
{
    match piece {
        Piece::Itself(number) => add(symbols, number),
        Piece::Argument(place) => match spans.get(place as usize) {
            None => Ok(()),
            Some(span) => add_again(symbols, span.0, span.1),
        },
    }
}

/// What stands for pieces is written down, if there is room for it.
fn fill(symbols: &mut Vec<u32>, spans: &[Span], pieces: &[Piece]) -> Result<(), ProofFaultKind>
    requires { AreWithin (length symbols.old.items) spans.now }
    ensures made { OnOk result (symbols.new.items ≡ symbols.old.items ++ filled (cut symbols.old.items spans.now) pieces.now) }
    ensures grows { length symbols.old.items ≤ length symbols.new.items }
    ensures kinds { IfErr result (IsRefusal (length symbols.old.items + length (filled (cut symbols.old.items spans.now) pieces.now))) }
{
    for piece in pieces {
        fill_one(symbols, spans, *piece)?;
    }
    Ok(())
}
