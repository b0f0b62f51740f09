//! The one word of a kind, of a pair and of a symbol, both ways.

ghost use Rattle.std.specs.Prelude.{◌≡◌};
ghost use Rattle.bodystore.specs.Bodies.{kind_word, pair_word, symbol_word, IsSmallPair, IsSmallSymbol};

use mmsyntax::{Kind, Symbol, SymbolWord};

/// How many values a place has: 2^32.
pub(crate) const PLACES: u64 = 4_294_967_296;

pub(crate) fn kind_word(kind: Kind) -> u64
    ensures { result ≡ kind_word kind }
{
    match kind {
        Kind::Axiom => 0,
        Kind::Theorem => 1,
    }
}

/// The kind of a word. A word that no kind has gives some kind.
pub(crate) fn kind_of(word: u64) -> Kind
    ensures { (kind : _) → kind_word kind ≡ word → result ≡ kind }
{
    if word == 0 {
        Kind::Axiom
    } else {
        Kind::Theorem
    }
}

pub(crate) fn pair_word(pair: (u32, u32)) -> u64
    ensures { result ≡ pair_word pair }
{
    pair.0 as u64 * PLACES + pair.1 as u64
}

/// The pair of a word.
pub(crate) fn pair_of(word: u64) -> (u32, u32)
    ensures { (pair : _) → IsSmallPair pair → pair_word pair ≡ word → result ≡ pair }
{
    ((word / PLACES) as u32, (word % PLACES) as u32)
}

pub(crate) fn symbol_word(symbol: SymbolWord) -> u64
    ensures { result ≡ symbol_word symbol }
{
    match symbol.symbol() {
        Symbol::Const(place) => 2 * place as u64,
        Symbol::Var(place) => 2 * place as u64 + 1,
    }
}

/// The symbol of a word. A word that no symbol has gives some symbol.
pub(crate) fn symbol_of(word: u64) -> SymbolWord
    ensures { (symbol : _) → IsSmallSymbol symbol → symbol_word symbol ≡ word → result ≡ symbol }
{
    let place = (word / 2 & 0x7fff_ffff) as u32;
    if word % 2 == 0 {
        SymbolWord::new(Symbol::Const(place))
    } else {
        SymbolWord::new(Symbol::Var(place))
    }
}
