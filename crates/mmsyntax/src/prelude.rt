//! The prelude of a database: all its `$c`, `$v` and `$f` statements.

ghost use Rattle.std.specs.Prelude.{◌≡◌, ◌<◌, ℕ, [], Some, IfOk};
ghost use Rattle.mmsyntax.specs.Tables.{meaning};
ghost use Rattle.mmsyntax.specs.Layout.{IsSoundPrelude};
ghost use Rattle.mmsyntax.specs.SymbolWords.{NamesFew};
ghost use Rattle.mmsyntax.specs.declared.limits.TheConstants.{MOST_DECLARED};

use crate::label::Label;
use crate::statement::Float;
use crate::symbols::{Name, SymbolTable};
use std::alloc::{AllocError, Global};
use std::hash::RandomState;
use std::marker::Model;

/// The constants, the variables and the `$f` of a database, in order of declaration.
///
/// A prelude always has a spelling: some text declares just this much. Contracts see the three lists.
pub struct Prelude {
    symbols: SymbolTable,
}

impl Model for Prelude {
    ghost use Rattle.mmsyntax.specs.Tables.{Tables};
    ghost use Rattle.mmsyntax.specs.Layout.{IsSoundPrelude};

    ghost Value = { Tables };

    ghost view = { λ p. p.symbols };

    ghost invariant = { λ p. IsSoundPrelude p.symbols };
}

impl Drop for Prelude {
    fn drop(self) {
        let Prelude { symbols: _ } = self;
    }
}

impl Prelude {
    /// The prelude of a symbol table that some text declares.
    pub fn new(symbols: SymbolTable) -> Self
        requires { IsSoundPrelude symbols }
        ensures { result ≡ symbols }
    {
        Prelude { symbols }
    }

    /// Its symbol table.
    pub fn symbols(&self) -> &SymbolTable
        ensures { result.now ≡ self.now }
    {
        &self.symbols
    }

    /// The keys from which its map draws its hashes.
    pub fn keys(&self) -> RandomState {
        self.symbols.keys()
    }

    /// What a word names in the prelude: one look-up in a map. There are at most 65,535 constants, and as many `$f`.
    pub fn look_up(&self, word: &[u8]) -> Option<Name>
        ensures value { result ≡ meaning self.now word.now }
        ensures few { (j : ℕ) → result ≡ Some (Name.Label j) → j < MOST_DECLARED }
        ensures symbol { NamesFew result }
    {
        self.symbols.look_up(word)
    }

    /// The constants, in order of declaration.
    pub fn constants(&self) -> &[Label]
        ensures { result.now ≡ self.now.constants }
    {
        self.symbols.constants()
    }

    /// The variables, in order of declaration.
    pub fn variables(&self) -> &[Label]
        ensures { result.now ≡ self.now.variables }
    {
        self.symbols.variables()
    }

    /// The `$f` statements, in order.
    pub fn floats(&self) -> &[Float]
        ensures value { result.now ≡ self.now.floats }
        ensures sound { IsSoundPrelude self.now }
    {
        self.symbols.floats()
    }

    /// An equal prelude. Its map of names draws its hashes from the same keys.
    pub fn copy(&self, alloc: Global) -> Result<Prelude, AllocError>
        ensures { IfOk result (λ made. made ≡ self.now) }
    {
        Ok(Prelude::new(self.symbols.copy(alloc)?))
    }
}
