//! Opens libraries in running words.

ghost use Rattle.std.specs.Prelude.{◌≡◌, ◌≢◌, ◌↔◌, ◌≤◌, None, [], length, IsTrue, IfOk, IfErr, OnOk, All};
ghost use Rattle.derivation.specs.Databases.{AllCheck};
ghost use Rattle.tlwords.specs.Known.{Knows};
ghost use Rattle.lawful.specs.Lawful.{library_terms};
ghost use Rattle.lawful.specs.Laws.{IsPassOn};
ghost use Rattle.transaction.specs.Openings.{IsShape, LibraryOpens, Refuses, Faults, AreSeated};

use crate::running::Library;
use crate::session::Session;
use crate::shape::{OpenError, Shape};
use bodystore::Stage;
use derivation::ProofFaultKind;
use lawful::{Given, LibraryLaw};
use lending::Kit;
use mmsyntax::{Database, MOST_ASSERTIONS};
use plaincells::PlainCells;
use proofcheck::check_all;
use std::alloc::{AllocError, Global};
use std::hash::RandomState;
use std::snapshot::Snapshot;
use std::thread::Threads;
use tlwords::{Pass, Words};

impl Shape {
    /// Whether it is within the limits: 1 to 4,096 slots, a room of at most 16,777,216 words, and 1 to 64 sessions.
    pub fn is_lawful(self) -> bool
        ensures { IsTrue result ↔ IsShape self }
    {
        (1..=MOST_ASSERTIONS).contains(&self.slots)
            && self.room <= 16_777_216
            && (1..=64).contains(&self.sessions)
    }
}

impl Library {
    /// Opens the library of a database, with as many sessions as the shape says. Its proofs are checked first, by as many threads as there
    /// are processors. The sessions' look-ups draw their hashes from the keys.
    ///
    /// # Errors
    ///
    /// In this order: `BadShape`, exactly for a shape outside the limits; `TooMany`, exactly for more assertions than slots; `ProofFails`
    /// with the first assertion whose proof has a fault, and that fault; `StoreFull`, exactly where the bodies of the assertions have more
    /// words than the room; want of memory.
    pub fn open<R: Threads + Sync>(
        rt: &R,
        alloc: Global,
        keys: RandomState,
        database: &Database,
        shape: Shape,
    ) -> Result<(Library, Vec<Session>), OpenError>
        ensures { LibraryOpens database.now shape result }
    {
        fits(shape, database)?;
        check(rt, alloc, database)?;
        Library::open_checked(alloc, keys, database, shape)
    }

    /// Opens the library of a database each of whose proofs checks, as [`Library::open`] does, and doesn't check them again.
    ///
    /// # Errors
    ///
    /// Those of [`Library::open`] but `ProofFails`, in its order.
    pub fn open_checked(
        alloc: Global,
        keys: RandomState,
        database: &Database,
        shape: Shape,
    ) -> Result<(Library, Vec<Session>), OpenError>
        requires checks { AllCheck database.now }
        ensures { LibraryOpens database.now shape result }
    {
        fits(shape, database)?;
        // For the proof: some text declares the database.
        let _assertions = database.assertions();
        let prelude = database.prelude().copy(alloc)?;
        let cells = PlainCells::open(alloc, database, shape.slots, shape.room)?;
        let given = Given {
            database: Snapshot::of(database),
            slots: shape.slots,
        };
        let (values, store) = cells.into_words();
        let opened = Words::<LibraryLaw>::open(
            alloc,
            &given,
            values,
            store,
            shape.room,
            shape.sessions,
        );
        // The shape and the room were tested, so it is memory that ran out.
        let Ok((words, passes)) = opened else {
            return Err(OpenError::NoMemory);
        };
        let sessions = seat_all(alloc, keys, &given, passes)?;
        let library = Library {
            prelude,
            given,
            words,
        };
        Ok((library, sessions))
    }
}

/// Whether a shape is within the limits, and has a slot for each assertion of a database.
fn fits(shape: Shape, database: &Database) -> Result<(), OpenError>
    ensures yes { OnOk result (IsShape shape × (length database.now.assertions ≤ shape.slots)) }
    ensures no { IfErr result (Refuses database.now shape) }
{
    if !shape.is_lawful() {
        return Err(OpenError::BadShape);
    }
    if database.assertions().len() > shape.slots {
        return Err(OpenError::TooMany);
    }
    Ok(())
}

/// Checks all proofs of a database.
fn check<R: Threads + Sync>(rt: &R, alloc: Global, database: &Database) -> Result<(), OpenError>
    ensures yes { OnOk result (AllCheck database.now) }
    ensures fault { IfErr result (λ error. Faults database.now error) }
{
    match check_all(rt, alloc, database) {
        Ok(()) => Ok(()),
        Err((_, fault)) if fault.kind == ProofFaultKind::NoMemory => Err(OpenError::NoMemory),
        Err((index, fault)) => Err(OpenError::ProofFails(index, fault)),
    }
}

/// A session for each pass, in order.
fn seat_all(
    alloc: Global,
    keys: RandomState,
    given: &Given,
    passes: Vec<Pass<LibraryLaw>>,
) -> Result<Vec<Session>, AllocError>
    requires on { All (IsPassOn given.now) passes.items }
    requires knows { All (Knows library_terms) passes.items }
    requires new { All (λ k. k.drawn ≡ []) passes.items }
    requires unrefused { All (λ k. k.full ≡ None) passes.items }
    ensures { IfOk result (λ made. AreSeated given.now passes.items made.items) }
{
    let mut sessions = Vec::with_capacity(alloc, passes.len())?;
    for pass in passes {
        // Nothing was to be staged yet.
        let lacked_room = Snapshot::of(&false);
        let kit = Kit {
            pass,
            stage: Stage::new(alloc, keys),
            lacked_room,
        };
        sessions.push_reserved(Session {
            kit: Some(kit),
            records: Vec::new(alloc),
            given: Snapshot::of(given),
        });
    }
    Ok(sessions)
}
