//! What an assertion says in the library: its words as symbols.

ghost use Rattle.std.specs.Prelude.{◌≡◌, ◌↔◌, Option, IfOk, IsTrue};
ghost use Rattle.mmtext.specs.Words.{Word};
ghost use Rattle.mmsyntax.specs.declared.statement.Symbol.{Symbol as Placed};
ghost use Rattle.mmsyntax.specs.SymbolWords.{IsSmallPlace};
ghost use Rattle.source.specs.Views.{seen_words};
ghost use Rattle.taking.specs.Says.{each};

use mmsyntax::{Expr, Sequence, Symbol, SymbolWord};
use std::alloc::{AllocError, Global};

/// Which symbols of the library words have where an assertion stands: constants, and the variables of active `$f`.
pub trait SymbolPlaces {
    // the symbol of a word, if it has one
    ghost placed: { Self → Word → Option Placed };

    /// The symbol of a word, if it has one.
    fn symbol(&self, word: &[u8]) -> Option<Symbol>
        ensures { result ≡ placed self.now word.now };
}

/// How many places of each kind a word of a symbol can name.
const PLACES: u32 = 0x8000_0000;

/// Whether a word has room for a symbol's place.
fn is_small(symbol: Symbol) -> bool
    ensures { IsTrue result ↔ IsSmallPlace symbol }
{
    match symbol {
        Symbol::Const(place) => place < PLACES,
        Symbol::Var(place) => place < PLACES,
    }
}

/// The symbols of words: nothing where one has none.
pub fn expression<P: SymbolPlaces>(
    alloc: Global,
    places: &P,
    words: &[&[u8]],
) -> Result<Option<Expr>, AllocError>
    ensures { IfOk result (λ made. made ≡ each (P.placed places.now) (seen_words words.now)) }
{
    let mut symbols = Vec::new(alloc);
    for word in words {
        let Some(symbol) = places.symbol(word) else {
            return Ok(None);
        };
        // No source has so many: each would be told as want of memory.
        if !is_small(symbol) {
            return Err(AllocError);
        }
        symbols.push(SymbolWord::new(symbol))?;
    }
    Ok(Some(Sequence::from_vec(symbols)))
}
