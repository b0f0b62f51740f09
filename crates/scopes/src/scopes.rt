//! The tables as their users see them: what stands at a place.

ghost use Rattle.std.specs.Prelude.{◌≡◌};
ghost use Rattle.source.specs.Scopes.{outset};
ghost use Rattle.scopes.specs.Sound.{IsSoundTables};
ghost use Rattle.scopes.specs.Views.{kept_of, stand_of, marks_of};

use crate::tables::Tables;
use crate::{blocks, declaring, faults, frames, labels, mandatory, shown};
use mmtext::FaultKind;
use source::{Citation, Declared, HypothesisWords, ProofWords, Standing};
use std::alloc::{AllocError, Global};
use std::hash::RandomState;
use std::marker::Model;
use std::mem;
use wordkeys::WordKeys;

/// What stands at a place of a source: names, active variables, hypotheses and `$d`, blocks that are open, and all assertions so far.
///
/// Each look-up is that of one word in a map. What is kept is linear in the text and in the mandatory hypotheses of its assertions: the
/// active ones of an assertion are found from its last one. Where an assertion begins the words of the active `$e` are looked up once, and
/// then each of its own, while it is read: its mandatory hypotheses are those marked at its end, and their numbers are noted.
pub struct Scopes<'a> {
    tables: Tables<'a>,
}

// Proved here once: a derived drop is proved again in each crate that drops such a value.
impl<'a> Drop for Scopes<'a> {
    fn drop(self) {
        let Scopes { tables: _ } = self;
    }
}

impl<'a> Model for Scopes<'a> {
    ghost use Rattle.scopes.specs.Seen.{Seen};
    ghost use Rattle.scopes.specs.Sound.{IsSoundTables};
    ghost use Rattle.scopes.specs.Views.{kept_of, stand_of, marks_of};

    ghost Value = { Seen };

    ghost view = { λ s. record { stand = stand_of (kept_of s.tables); marks = marks_of (kept_of s.tables) } };

    ghost invariant = { λ s. IsSoundTables s.tables };
}

impl<'a> Scopes<'a> {
    /// Before any statement. `keys` make the hashes of the map inside.
    pub fn new(alloc: Global, keys: RandomState) -> Scopes<'a>
        ensures { result.stand ≡ outset }
    {
        Scopes {
            tables: Tables::new(alloc, WordKeys::new(keys)),
        }
    }

    /// Takes the tables out, and leaves none.
    fn take(&mut self, alloc: Global) -> Tables<'a>
        ensures sound { IsSoundTables result }
        ensures stand { stand_of (kept_of result) ≡ self.old.stand }
        ensures marks { marks_of (kept_of result) ≡ self.old.marks }
    {
        let none = Tables::new(alloc, *self.tables.names.hasher());
        mem::replace(&mut self.tables, none)
    }
}

impl<'a> Standing<'a> for Scopes<'a> {
    ghost stand = { λ s. s.stand };

    ghost marks = { λ s. s.marks };

    fn is_outermost(&self) -> bool {
        self.tables.blocks.is_empty()
    }

    fn label_fault(&self, word: &'a [u8]) -> Option<FaultKind> {
        faults::label_fault(&self.tables, word)
    }

    fn constant_fault(&self, word: &'a [u8]) -> Option<FaultKind> {
        faults::constant_fault(&self.tables, word)
    }

    fn variable_fault(&self, word: &'a [u8]) -> Option<FaultKind> {
        faults::variable_fault(&self.tables, word)
    }

    fn type_fault(&self, word: &'a [u8]) -> Option<FaultKind> {
        faults::type_fault(&self.tables, word)
    }

    fn float_fault(&self, word: &'a [u8]) -> Option<FaultKind> {
        faults::float_fault(&self.tables, word)
    }

    fn distinct_fault(&self, others: &[&'a [u8]], word: &'a [u8]) -> Option<FaultKind> {
        faults::distinct_fault(&self.tables, others, word)
    }

    fn begin(&mut self) {
        frames::begin(&mut self.tables);
    }

    fn symbol_fault(&mut self, others: &[&'a [u8]], word: &'a [u8]) -> Option<FaultKind> {
        frames::symbol_fault(&mut self.tables, others, word)
    }

    fn mandatory_count(&self) -> usize {
        frames::count_marked(&self.tables)
    }

    fn named(&self, word: &'a [u8]) -> Result<Citation, FaultKind> {
        labels::named(&self.tables, word)
    }

    fn cited(&self, word: &'a [u8]) -> Result<Citation, FaultKind> {
        labels::cited(&self.tables, word)
    }

    fn declare_constant(&mut self, alloc: Global, word: &'a [u8]) -> Result<(), AllocError> {
        let mut tables = self.take(alloc);
        declaring::add_constant(&mut tables, word)?;
        self.tables = tables;
        Ok(())
    }

    fn declare_variable(&mut self, alloc: Global, word: &'a [u8]) -> Result<(), AllocError> {
        let mut tables = self.take(alloc);
        declaring::add_variable(&mut tables, word)?;
        self.tables = tables;
        Ok(())
    }

    fn declare_float(
        &mut self,
        alloc: Global,
        label: &'a [u8],
        type_code: &'a [u8],
        variable: &'a [u8],
    ) -> Result<(), AllocError> {
        let mut tables = self.take(alloc);
        declaring::add_float(&mut tables, label, type_code, variable)?;
        self.tables = tables;
        Ok(())
    }

    fn declare_hypothesis(
        &mut self,
        alloc: Global,
        label: &'a [u8],
        expression: Vec<&'a [u8]>,
    ) -> Result<(), AllocError> {
        let mut tables = self.take(alloc);
        declaring::add_premise(&mut tables, label, expression)?;
        self.tables = tables;
        Ok(())
    }

    fn declare_distinct(
        &mut self,
        alloc: Global,
        variables: Vec<&'a [u8]>,
    ) -> Result<(), AllocError> {
        let mut tables = self.take(alloc);
        declaring::add_distinct(&mut tables, variables)?;
        self.tables = tables;
        Ok(())
    }

    fn declare_axiom(
        &mut self,
        alloc: Global,
        label: &'a [u8],
        expression: Vec<&'a [u8]>,
    ) -> Result<(), AllocError> {
        let mut tables = self.take(alloc);
        declaring::add_asserted(alloc, &mut tables, label, expression, None)?;
        self.tables = tables;
        Ok(())
    }

    fn declare_theorem(
        &mut self,
        alloc: Global,
        label: &'a [u8],
        expression: Vec<&'a [u8]>,
        proof: ProofWords<'a>,
    ) -> Result<(), AllocError> {
        let mut tables = self.take(alloc);
        declaring::add_asserted(alloc, &mut tables, label, expression, Some(proof))?;
        self.tables = tables;
        Ok(())
    }

    fn open_block(&mut self, alloc: Global) -> Result<(), AllocError> {
        let mut tables = self.take(alloc);
        blocks::open_block(&mut tables)?;
        self.tables = tables;
        Ok(())
    }

    fn close_block(&mut self) -> bool {
        blocks::close_block(&mut self.tables)
    }
}

impl<'a> Declared<'a> for Scopes<'a> {
    ghost scope = { λ s. s.stand.scope };

    fn constants(&self) -> &[&'a [u8]] {
        self.tables.constants.as_slice()
    }

    fn labels(&self) -> &[&'a [u8]] {
        self.tables.labels.as_slice()
    }

    fn has_name(&self, word: &[u8]) -> bool {
        shown::has_name(&self.tables, word)
    }

    fn assertions(&self) -> usize {
        self.tables.assertions.len()
    }

    fn place_of(&self, label: &[u8]) -> Option<usize> {
        shown::place_of(&self.tables, label)
    }

    fn label(&self, place: usize) -> Option<&'a [u8]> {
        shown::label(&self.tables, place)
    }

    fn statement(&self, place: usize) -> Option<&[&'a [u8]]> {
        shown::statement(&self.tables, place)
    }

    fn proof(&self, place: usize) -> Option<&ProofWords<'a>> {
        shown::proof(&self.tables, place)
    }

    fn active(&self, alloc: Global, place: usize) -> Result<Vec<&HypothesisWords<'a>>, AllocError> {
        shown::active(&self.tables, alloc, place)
    }

    fn mandatory(
        &self,
        alloc: Global,
        place: usize,
    ) -> Result<Vec<&HypothesisWords<'a>>, AllocError> {
        mandatory::mandatory(&self.tables, alloc, place)
    }

    fn pairs(&self, alloc: Global, place: usize) -> Result<Vec<(&'a [u8], &'a [u8])>, AllocError> {
        shown::pairs(&self.tables, alloc, place)
    }
}
