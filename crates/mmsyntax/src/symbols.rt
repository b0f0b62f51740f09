//! The symbol table of a prelude: constants, variables and `$f` statements, with a fast look-up by name.

ghost use Rattle.std.specs.Prelude.{◌≡◌, ◌<◌, ◌^◌, ◌++◌, ◌∷◌, [], length, None, Some, OnOk, IfOk};
ghost use Rattle.std.specs.Prelude.{IsSome, List, ℕ, cond};
ghost use Rattle.std.specs.HashMap.{get_by};
ghost use Rattle.std.specs.Str.{bytes_eq};
ghost use Rattle.mmsyntax.specs.Tables.{meaning};
ghost use Rattle.mmsyntax.specs.Layout.{IsSoundPrelude};
ghost use Rattle.mmsyntax.specs.SymbolWords.{NamesFew};
ghost use Rattle.mmsyntax.specs.declared.symbols.Name.TheVariants.{Variable};
ghost use Rattle.mmsyntax.specs.declared.limits.TheConstants.{MOST_DECLARED};

use crate::label::Label;
use crate::statement::Float;
use std::alloc::{AllocError, Global};
use std::collections::HashMap;
use std::hash::RandomState;
use std::marker::Model;

/// What a word of the prelude names.
#[derive(Clone, Copy, Debug, PartialEq, Eq)]
pub enum Name {
    /// The constant at a place.
    Constant(u32),
    /// The variable at a place, and the place of its `$f`, if it has one.
    Variable(u32, Option<u32>),
    /// The label of a `$f`, by its place.
    Label(u32),
}

/// A clause sees the three tables. The map is for look-ups alone.
pub struct SymbolTable {
    constants: Vec<Label>,
    variables: Vec<Label>,
    floats: Vec<Float>,
    names: HashMap<Vec<u8>, Name, RandomState>,
}

impl Model for SymbolTable {
    ghost use Rattle.mmsyntax.specs.Tables.{Tables};
    ghost use Rattle.mmsyntax.specs.Indexes.{IsSymbolTable};

    ghost Value = { Tables };

    ghost view = { λ p. record { constants = p.constants.items; variables = p.variables.items; floats = p.floats.items } };

    ghost invariant = { λ p. IsSymbolTable p.names
        (record { constants = p.constants.items; variables = p.variables.items; floats = p.floats.items }) };
}

impl Drop for SymbolTable {
    fn drop(self) {
        let SymbolTable {
            constants: _,
            variables: _,
            floats: _,
            names: _,
        } = self;
    }
}

impl SymbolTable {
    /// A table in which nothing is declared. Its map draws its hashes from these keys.
    #[tactic(auto, unfolding(crate::specs::Tables::meaning))]
    pub fn new(alloc: Global, keys: RandomState) -> Self
        ensures { result ≡ record { constants = []; variables = []; floats = [] } }
    {
        SymbolTable {
            constants: Vec::new(alloc),
            variables: Vec::new(alloc),
            floats: Vec::new(alloc),
            names: HashMap::with_hasher(alloc, keys),
        }
    }

    /// The keys from which its map draws its hashes.
    pub fn keys(&self) -> RandomState {
        *self.names.hasher()
    }

    /// What a word names: one look-up in a map. There are at most 65,535 constants, and as many `$f`.
    pub fn look_up(&self, word: &[u8]) -> Option<Name>
        ensures value { result ≡ meaning self.now word.now }
        ensures few { (j : ℕ) → result ≡ Some (Name.Label j) → j < MOST_DECLARED }
        ensures symbol { NamesFew result }
    {
        self.names.get(word).copied()
    }

    /// The constants, in the order of their declarations.
    pub fn constants(&self) -> &[Label]
        ensures { result.now ≡ self.now.constants }
    {
        self.constants.as_slice()
    }

    /// The variables, in the order of their declarations.
    pub fn variables(&self) -> &[Label]
        ensures { result.now ≡ self.now.variables }
    {
        self.variables.as_slice()
    }

    /// The `$f`, in the order of the text.
    pub fn floats(&self) -> &[Float]
        ensures { result.now ≡ self.now.floats }
    {
        self.floats.as_slice()
    }

    /// One more constant. After an error only what is always true of a prelude holds.
    pub fn add_constant(&mut self, alloc: Global, word: &[u8]) -> Result<(), AllocError>
        requires new { meaning self.old word.now ≡ None }
        requires room { length self.old.constants < MOST_DECLARED }
        ensures { OnOk result (self.new ≡ record self.old { constants = self.old.constants ++ word.now ∷ [] }) }
    {
        let key = Vec::from_slice(alloc, word)?;
        let name = Label::from_slice(alloc, word)?;
        let place = self.constants.len() as u32;
        self.constants.push(name)?;
        match self.names.insert(key, Name::Constant(place)) {
            Ok(_) => Ok(()),
            Err(_) => {
                let _ = self.constants.pop();
                Err(AllocError)
            }
        }
    }

    /// One more variable.
    pub fn add_variable(&mut self, alloc: Global, word: &[u8]) -> Result<(), AllocError>
        requires new { meaning self.old word.now ≡ None }
        requires room { length self.old.variables < MOST_DECLARED }
        ensures { OnOk result (self.new ≡ record self.old { variables = self.old.variables ++ word.now ∷ [] }) }
    {
        let key = Vec::from_slice(alloc, word)?;
        let name = Label::from_slice(alloc, word)?;
        let place = self.variables.len() as u32;
        self.variables.push(name)?;
        match self.names.insert(key, Name::Variable(place, None)) {
            Ok(_) => Ok(()),
            Err(_) => {
                let _ = self.variables.pop();
                Err(AllocError)
            }
        }
    }

    /// One more `$f`, of a constant and of a variable that has none.
    pub fn add_float(
        &mut self,
        alloc: Global,
        label: &[u8],
        type_code: u32,
        word: &[u8],
        variable: u32,
    ) -> Result<(), AllocError>
        requires new { meaning self.old label.now ≡ None }
        requires variable { meaning self.old word.now ≡ Some (Variable variable None) }
        requires room { length self.old.floats < MOST_DECLARED }
        ensures { OnOk result
            (self.new ≡ record self.old {
              floats = self.old.floats ++ record { label = label.now; type_code = type_code; variable = variable } ∷ [];
            }) }
    {
        let key = Vec::from_slice(alloc, label)?;
        let label = Label::from_slice(alloc, label)?;
        let place = self.floats.len() as u32;
        self.floats.push(Float {
            label,
            type_code,
            variable,
        })?;
        match self.names.insert(key, Name::Label(place)) {
            Ok(_) => {}
            Err(_) => {
                let _ = self.floats.pop();
                return Err(AllocError);
            }
        }
        set_float(&mut self.names, word, variable, place);
        Ok(())
    }

    /// An equal table. Its map draws its hashes from the same keys.
    pub fn copy(&self, alloc: Global) -> Result<SymbolTable, AllocError>
        requires { IsSoundPrelude self.now }
        ensures { IfOk result (λ made. made ≡ self.now) }
    {
        let mut made = SymbolTable::new(alloc, self.keys());
        made.add_constants(alloc, self)?;
        made.add_variables(alloc, self)?;
        made.add_floats(alloc, self)?;
        Ok(made)
    }

    /// Puts the constants of another table into an empty one.
    fn add_constants(&mut self, alloc: Global, from: &SymbolTable) -> Result<(), AllocError>
        requires sound { IsSoundPrelude from.now }
        requires empty { self.old ≡ record { constants = []; variables = []; floats = [] } }
        ensures { OnOk result (self.new ≡ record self.old { constants = from.now.constants }) }
    {
        for name in from.constants() {
            self.add_constant(alloc, name.as_slice())?;
        }
        Ok(())
    }

    /// Puts the variables of another table behind its constants.
    fn add_variables(&mut self, alloc: Global, from: &SymbolTable) -> Result<(), AllocError>
        requires sound { IsSoundPrelude from.now }
        requires constants { self.old ≡ record { constants = from.now.constants; variables = []; floats = [] } }
        ensures { OnOk result (self.new ≡ record self.old { variables = from.now.variables }) }
    {
        for name in from.variables() {
            self.add_variable(alloc, name.as_slice())?;
        }
        Ok(())
    }

    /// Puts the `$f` of another table behind its constants and its variables.
    fn add_floats(&mut self, alloc: Global, from: &SymbolTable) -> Result<(), AllocError>
        requires sound { IsSoundPrelude from.now }
        requires symbols { self.old ≡ record from.now { floats = [] } }
        ensures { OnOk result (self.new ≡ from.now) }
    {
        for float in from.floats() {
            let word = from.variables()[float.variable as usize].as_slice();
            self.add_float(
                alloc,
                float.label.as_slice(),
                float.type_code,
                word,
                float.variable,
            )?;
        }
        Ok(())
    }
}

/// Notes the `$f` of a variable that is there.
fn set_float(
    names: &mut HashMap<Vec<u8>, Name, RandomState>,
    word: &[u8],
    variable: u32,
    place: u32,
)
    requires { IsSome (get_by (λ k. bytes_eq word.now k.items) names.old) }
    ensures { (q : List ℕ) → get_by (λ k. bytes_eq q k.items) names.new
        ≡ cond (bytes_eq word.now q) (Some (Variable variable (Some place))) (get_by (λ k. bytes_eq q k.items) names.old) }
{
    if let Some(name) = names.get_mut(word) {
        *name = Name::Variable(variable, Some(place));
    }
}
