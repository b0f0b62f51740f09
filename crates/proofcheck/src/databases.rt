//! Checks each proof of a database.

ghost use Rattle.std.specs.Prelude.{◌≡◌, ◌≢◌, ℕ, map, IfOk, OnOk, IfErr, MatchResult};
ghost use Rattle.mmframes.specs.Frames.{frame};
ghost use Rattle.derivation.specs.Databases.{AllCheck, IsFirstFault};

use crate::checkers::{Framed, check_shared};
use crate::labels::Places;
use derivation::{ProofFault, ProofFaultKind};
use mmframes::frame_of;
use mmsyntax::{Assertion, Database, Frame, Prelude};
use std::alloc::{AllocError, Global};
use std::thread::Threads;

/// The frames of assertions, in order.
fn frames_of(
    alloc: Global,
    prelude: &Prelude,
    assertions: &[Assertion],
) -> Result<Vec<Frame>, AllocError>
    ensures { IfOk result (λ made. made.items ≡ map (frame prelude.now) assertions.now) }
{
    let mut made = Vec::new(alloc);
    for assertion in assertions {
        made.push(frame_of(alloc, prelude, assertion)?)?;
    }
    Ok(made)
}

/// Want of memory before any proof is checked.
fn no_memory() -> (usize, ProofFault)
    ensures { result.1.kind ≡ ProofFaultKind.NoMemory }
{
    (
        0,
        ProofFault {
            step: 0,
            kind: ProofFaultKind::NoMemory,
        },
    )
}

/// Checks each theorem of a database over the assertions before it, by as many threads as there are processors.
///
/// Ok only where the steps of each are the listing of a tree that derives its statement. Else the first assertion whose proof has a
/// fault, counted from 1, and that fault: the answer of one thread. With the kind `NoMemory` the number says nothing.
///
/// Each frame is made once, and so is what finds the places of labels. Each thread claims one assertion after another until all are
/// claimed. A fault stops only the checks of the thread that finds it.
pub fn check_all(
    rt: &(impl Threads + Sync),
    alloc: Global,
    db: &Database,
) -> Result<(), (usize, ProofFault)>
    ensures yes { OnOk result (AllCheck db.now) }
    ensures fault { IfErr result (λ found. found.1.kind ≢ ProofFaultKind.NoMemory → IsFirstFault db.now found.0 found.1) }
    ensures proved { AllCheck db.now → IfErr result (λ found. found.1.kind ≡ ProofFaultKind.NoMemory) }
    ensures refused { (i : ℕ) (fault : ProofFault) → IsFirstFault db.now i fault →
        MatchResult result (λ _. ⊥) (λ found. found.1.kind ≢ ProofFaultKind.NoMemory → (found.0 ≡ i) × (found.1 ≡ fault)) }
{
    let Ok(frames) = frames_of(alloc, db.prelude(), db.assertions()) else {
        return Err(no_memory());
    };
    let Ok(places) = Places::new(alloc, db.prelude().keys(), db.assertions()) else {
        return Err(no_memory());
    };
    let framed = Framed {
        db,
        frames: frames.as_slice(),
        places: &places,
    };
    let Ok(found) = check_shared(rt, alloc, &framed) else {
        return Err(no_memory());
    };
    match found {
        None => Ok(()),
        Some(first) => Err(first),
    }
}
