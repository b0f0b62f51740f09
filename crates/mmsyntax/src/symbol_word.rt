//! A symbol in four bytes, which clauses see as the symbol.

ghost use Rattle.std.specs.Prelude.{◌≡◌};
ghost use Rattle.mmsyntax.specs.SymbolWords.{IsSmallPlace};

use crate::statement::Symbol;
use std::marker::Model;

/// A math symbol as one word: `2 i` is the constant at the place `i`, `2 j + 1` the variable of the `$f` at the place `j`. A clause sees
/// the symbol. An expression is a list of these: half the memory of a kind beside a place, and one comparison for two.
#[derive(Clone, Copy, Debug, PartialEq, Eq)]
pub struct SymbolWord {
    word: u32,
}

impl Model for SymbolWord {
    ghost use Rattle.mmsyntax.specs.declared.statement.Symbol.{Symbol};

    ghost Value = { Symbol };

    ghost use Rattle.mmsyntax.specs.SymbolWords.{symbol_of_word, word_of_symbol, same_word};
    ghost use Rattle.std.proofs.Common.{ap};

    ghost view = { λ s. symbol_of_word s.word };

    ghost inverse = { λ symbol. record { word = word_of_symbol symbol } };

    ghost inverse_ok = { λ s _. ap (λ w. record { word = w }) (same_word s.word) };
}

impl SymbolWord {
    /// The word of a symbol. Its place is below 2^31.
    #[tactic(auto, using(crate::proofs::SymbolWords::const_word, crate::proofs::SymbolWords::var_word))]
    pub fn new(symbol: Symbol) -> SymbolWord
        requires { IsSmallPlace symbol }
        ensures { result ≡ symbol }
    {
        match symbol {
            Symbol::Const(place) => SymbolWord { word: 2 * place },
            Symbol::Var(place) => SymbolWord {
                word: 2 * place + 1,
            },
        }
    }

    /// The symbol.
    #[tactic(auto, using(crate::proofs::SymbolWords::const_at, crate::proofs::SymbolWords::var_at))]
    pub fn symbol(self) -> Symbol
        ensures { result ≡ self }
    {
        let place = self.word / 2;
        if self.word % 2 == 0 {
            Symbol::Const(place)
        } else {
            Symbol::Var(place)
        }
    }
}
