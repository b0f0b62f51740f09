//! A database, read from its text, and its proofs checked.

ghost use Rattle.std.specs.Prelude.{◌≡◌, ◌≢◌, ◌<◌, IfOk, OnOk, IfErr, length};
ghost use Rattle.derivation.specs.Databases.{AllCheck, IsFirstFault as IsFirstFaultOfProofs};
ghost use Rattle.mmsyntax.specs.Tables.{Contents};
ghost use Rattle.checking.specs.declared.fault.Fault.{Fault as FaultOfJob};
ghost use Rattle.checking.specs.declared.fault.Fault.TheVariants.{NoMemory};
ghost use Rattle.checking.specs.Checks.{IsChecked, IsLabelAt, IsProofFault, IsDatabaseFault, RefusesWith};
ghost use Rattle.checking.specs.Parts.{IsProofFaultOf, GivesOrLacksMemory};

use crate::fault::{Fault, text_fault};
use mmstatement::{Database, Label, read_database};
use proofcheck::{ProofFault, ProofFaultKind, check_all};
use std::alloc::{AllocError, Global};
use std::hash::RandomState;
use std::thread::Threads;

/// The label of the assertion at a place of a database.
fn label_at(alloc: Global, db: &Database, place: usize) -> Result<Label, AllocError>
    requires { place < length db.now.assertions }
    ensures { IfOk result (IsLabelAt db.now place) }
{
    db.assertions()[place].label.copy(alloc)
}

/// The fault of a proof, of the assertion with a number from 1, or want of memory.
fn proof_fault(alloc: Global, db: &Database, number: usize, fault: ProofFault) -> Fault
    requires { fault.kind ≢ ProofFaultKind.NoMemory → IsFirstFaultOfProofs db.now number fault }
    ensures { IsProofFaultOf db.now number fault result }
{
    if fault.kind == ProofFaultKind::NoMemory {
        return Fault::NoMemory;
    }
    match label_at(alloc, db, number - 1) {
        Ok(label) => Fault::Proof { label, fault },
        Err(_) => Fault::NoMemory,
    }
}

/// Checks the proofs of a database, by many threads.
fn check_proofs(rt: &(impl Threads + Sync), alloc: Global, db: &Database) -> Result<(), Fault>
    ensures yes { OnOk result (AllCheck db.now) }
    ensures only { AllCheck db.now → IfErr result (λ f. f ≡ NoMemory) }
    ensures fault { IfErr result (λ f. f ≢ NoMemory → IsProofFault db.now f) }
    ensures refused { (f : FaultOfJob) → IsProofFault db.now f → RefusesWith f result }
{
    match check_all(rt, alloc, db) {
        Ok(()) => Ok(()),
        Err((number, fault)) => Err(proof_fault(alloc, db, number, fault)),
    }
}

/// Reads a database and checks its proofs.
pub fn read_and_check(
    rt: &(impl Threads + Sync),
    alloc: Global,
    keys: RandomState,
    text: &[u8],
) -> Result<Database, Fault>
    ensures done { IfOk result (λ db. IsChecked text.now db) }
    ensures only { (contents : Contents) → IsChecked text.now contents → GivesOrLacksMemory result contents }
    ensures fault { IfErr result (λ f. f ≢ NoMemory → IsDatabaseFault text.now f) }
    ensures refused { (f : FaultOfJob) → IsDatabaseFault text.now f → RefusesWith f result }
{
    let db = match read_database(alloc, keys, text) {
        Ok(db) => db,
        Err(fault) => return Err(text_fault(0, fault)),
    };
    check_proofs(rt, alloc, &db)?;
    Ok(db)
}
