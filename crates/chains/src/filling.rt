//! Puts an assertion into an empty slot, and empties a slot.

ghost use Rattle.std.specs.Prelude.{◌≡◌, ◌≢◌, ◌<◌, [], length, true, IfOk, IfErr};
ghost use Rattle.mmsyntax.specs.declared.statement.Kind.TheVariants.{Theorem};
ghost use Rattle.bodystore.specs.Bodies.{label_body, proof_body, statement_body, statement_of};
ghost use Rattle.cells.specs.State.{State, HasBody};
ghost use Rattle.cells.specs.Slots.{name_cell, proof_cell, statement_cell};
ghost use Rattle.cells.specs.Sight.{Sight, WasWritten, ForEachState, Turns, KeepsOthers, IsCaused, Onward, TakesAtMost, ReadsWithin, after};
ghost use Rattle.cells.specs.Aside.{KeepsAside, IsOfSlot};
ghost use Rattle.chains.specs.Filling.{bodies_length, FillsAny, IsFillable, LaysAnyDown, LaysProof, Empties, IsOfFilling};

use crate::chains::put_in;
use bodystore::{StoredStep, encode_label, encode_proof, encode_statement};
use cells::{
    Cells, Halt, cited_slots, citers_cell, count_in, name_cell, proof_cell, put, put_body,
    rank_cell, statement_cell,
};
use mmsyntax::{Assertion, Kind};
use std::alloc::Global;

/// Puts an assertion with its rank into an empty slot: stages its label, its statement and its proof, in this order, writes the slot's
/// cells, counts its citations, and puts the slot into the chain of its label's bucket. It takes at most the words of these three bodies.
///
/// The steps of the proof are given as they are stored. An axiom has none.
///
/// # Errors
///
/// The run halts.
pub fn fill<C: Cells>(
    alloc: Global,
    cells: &mut C,
    slot: usize,
    rank: u32,
    assertion: &Assertion,
    steps: &[StoredStep],
) -> Result<(), Halt>
    requires may { ((C.sight cells.old).may_write ≡ true) × ((C.sight cells.old).may_stage ≡ true) }
    requires slot { slot < (C.sight cells.old).setting.slots }
    requires fillable { IsFillable (C.sight cells.old).setting.slots assertion.now steps.now }
    ensures onward { Onward (C.sight cells.old) (C.sight cells.new) }
    ensures ok { IfOk result (λ _. FillsAny slot rank assertion.now steps.now (C.sight cells.old) (C.sight cells.new)) }
    ensures halts { IfErr result (IsCaused (C.sight cells.new)) }
    ensures written { IfOk result (λ _. WasWritten (C.sight cells.new) (name_cell slot)) }
    ensures taken { TakesAtMost (bodies_length assertion.now steps.now) (C.sight cells.old) (C.sight cells.new) }
    ensures keeps { IfOk result (λ _. KeepsAside (IsOfFilling (C.sight cells.old).setting.slots slot assertion.now.label steps.now)
        (C.sight cells.old) (C.sight cells.new)) }
    ensures reads { ReadsWithin (IsOfFilling (C.sight cells.old).setting.slots slot assertion.now.label steps.now) (C.sight cells.old)
        (C.sight cells.new) }
{
    lay_down(alloc, cells, slot, rank, assertion, steps)?;
    let cited = cited_slots(alloc, steps)?;
    count_in(cells, cited.as_slice())?;
    put_in(cells, slot, assertion.label.as_slice())
}

/// Stages the label, the statement and the proof of an assertion, and writes the five cells of its slot, with no citer.
fn lay_down<C: Cells>(
    alloc: Global,
    cells: &mut C,
    slot: usize,
    rank: u32,
    assertion: &Assertion,
    steps: &[StoredStep],
) -> Result<(), Halt>
    requires may { ((C.sight cells.old).may_write ≡ true) × ((C.sight cells.old).may_stage ≡ true) }
    requires slot { slot < (C.sight cells.old).setting.slots }
    requires labelled { assertion.now.label ≢ [] }
    requires some { assertion.now.kind ≡ Theorem → steps.now ≢ [] }
    ensures onward { Onward (C.sight cells.old) (C.sight cells.new) }
    ensures ok { IfOk result (λ _. LaysAnyDown slot rank assertion.now steps.now (C.sight cells.old) (C.sight cells.new)) }
    ensures halts { IfErr result (IsCaused (C.sight cells.new)) }
    ensures written { IfOk result (λ _. WasWritten (C.sight cells.new) (name_cell slot)) }
    ensures taken { TakesAtMost (bodies_length assertion.now steps.now) (C.sight cells.old) (C.sight cells.new) }
    ensures keeps { IfOk result (λ _. KeepsAside (IsOfSlot slot) (C.sight cells.old) (C.sight cells.new)) }
    ensures reads { ReadsWithin (IsOfSlot slot) (C.sight cells.old) (C.sight cells.new) }
{
    put_label(alloc, cells, slot, assertion.label.as_slice())?;
    put_statement(alloc, cells, slot, assertion)?;
    put_proof(alloc, cells, slot, assertion.kind, steps)?;
    put(cells, rank_cell(slot), rank as u64)?;
    put(cells, citers_cell(slot), 0)
}

/// Stages a label and has the name cell of a slot name it.
fn put_label<C: Cells>(alloc: Global, cells: &mut C, slot: usize, label: &[u8]) -> Result<(), Halt>
    requires may { ((C.sight cells.old).may_write ≡ true) × ((C.sight cells.old).may_stage ≡ true) }
    requires slot { slot < (C.sight cells.old).setting.slots }
    requires some { label.now ≢ [] }
    ensures onward { Onward (C.sight cells.old) (C.sight cells.new) }
    ensures ok { IfOk result (λ _. ForEachState (C.sight cells.new) (λ st. HasBody st (name_cell slot) (label_body label.now))) }
    ensures halts { IfErr result (IsCaused (C.sight cells.new)) }
    ensures others { IfOk result (λ _. KeepsOthers (name_cell slot) (C.sight cells.old) (C.sight cells.new)) }
    ensures written { IfOk result (λ _. WasWritten (C.sight cells.new) (name_cell slot)) }
    ensures taken { TakesAtMost (length (label_body label.now)) (C.sight cells.old) (C.sight cells.new) }
    ensures keeps { IfOk result (λ _. KeepsAside (λ c. c ≡ name_cell slot) (C.sight cells.old) (C.sight cells.new)) }
    ensures reads { ReadsWithin (λ c. c ≡ name_cell slot) (C.sight cells.old) (C.sight cells.new) }
{
    let words = encode_label(alloc, label)?;
    put_body(cells, name_cell(slot), words.as_slice())
}

/// Stages the statement of an assertion and has the statement cell of a slot name it.
fn put_statement<C: Cells>(
    alloc: Global,
    cells: &mut C,
    slot: usize,
    assertion: &Assertion,
) -> Result<(), Halt>
    requires may { ((C.sight cells.old).may_write ≡ true) × ((C.sight cells.old).may_stage ≡ true) }
    requires slot { slot < (C.sight cells.old).setting.slots }
    ensures onward { Onward (C.sight cells.old) (C.sight cells.new) }
    ensures ok { IfOk result (λ _. ForEachState (C.sight cells.new)
        (λ st. HasBody st (statement_cell slot) (statement_body (statement_of assertion.now)))) }
    ensures halts { IfErr result (IsCaused (C.sight cells.new)) }
    ensures others { IfOk result (λ _. KeepsOthers (statement_cell slot) (C.sight cells.old) (C.sight cells.new)) }
    ensures taken { TakesAtMost (length (statement_body (statement_of assertion.now))) (C.sight cells.old) (C.sight cells.new) }
    ensures keeps { IfOk result (λ _. KeepsAside (λ c. c ≡ statement_cell slot) (C.sight cells.old) (C.sight cells.new)) }
    ensures reads { ReadsWithin (λ c. c ≡ statement_cell slot) (C.sight cells.old) (C.sight cells.new) }
{
    let words = encode_statement(alloc, assertion)?;
    put_body(cells, statement_cell(slot), words.as_slice())
}

/// Stages the steps of a theorem and has the proof cell of its slot name them; nothing where the assertion is an axiom.
fn put_proof<C: Cells>(
    alloc: Global,
    cells: &mut C,
    slot: usize,
    kind: Kind,
    steps: &[StoredStep],
) -> Result<(), Halt>
    requires may { ((C.sight cells.old).may_write ≡ true) × ((C.sight cells.old).may_stage ≡ true) }
    requires slot { slot < (C.sight cells.old).setting.slots }
    requires some { kind ≡ Theorem → steps.now ≢ [] }
    ensures onward { Onward (C.sight cells.old) (C.sight cells.new) }
    ensures ok { IfOk result (λ _. Turns (C.sight cells.old) (C.sight cells.new) (λ st next. LaysProof st next slot kind steps.now)) }
    ensures halts { IfErr result (IsCaused (C.sight cells.new)) }
    ensures others { IfOk result (λ _. KeepsOthers (proof_cell slot) (C.sight cells.old) (C.sight cells.new)) }
    ensures taken { TakesAtMost (length (proof_body steps.now)) (C.sight cells.old) (C.sight cells.new) }
    ensures keeps { IfOk result (λ _. KeepsAside (λ c. c ≡ proof_cell slot) (C.sight cells.old) (C.sight cells.new)) }
    ensures reads { ReadsWithin (λ c. c ≡ proof_cell slot) (C.sight cells.old) (C.sight cells.new) }
{
    match kind {
        Kind::Axiom => Ok(()),
        Kind::Theorem => {
            let proof = encode_proof(alloc, steps)?;
            put_body(cells, proof_cell(slot), proof.as_slice())
        }
    }
}

/// Writes 0 to the five cells of a slot. It stages nothing.
///
/// # Errors
///
/// The run halts.
pub fn vacate<C: Cells>(cells: &mut C, slot: usize) -> Result<(), Halt>
    requires may { (C.sight cells.old).may_write ≡ true }
    requires slot { slot < (C.sight cells.old).setting.slots }
    ensures onward { Onward (C.sight cells.old) (C.sight cells.new) }
    ensures ok { IfOk result (λ _. (st : State) → Empties slot (after (C.sight cells.old) st) (after (C.sight cells.new) st)) }
    ensures halts { IfErr result (IsCaused (C.sight cells.new)) }
    ensures written { IfOk result (λ _. WasWritten (C.sight cells.new) (name_cell slot)) }
    ensures taken { TakesAtMost 0 (C.sight cells.old) (C.sight cells.new) }
    ensures keeps { IfOk result (λ _. KeepsAside (IsOfSlot slot) (C.sight cells.old) (C.sight cells.new)) }
    ensures reads { ReadsWithin (IsOfSlot slot) (C.sight cells.old) (C.sight cells.new) }
{
    for part in 0..5 {
        let cell = name_cell(slot) + part;
        cells.read(cell)?;
        cells.write(cell, 0);
    }
    Ok(())
}
