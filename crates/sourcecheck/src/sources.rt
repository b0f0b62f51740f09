//! Checks all proofs of a source.

ghost use Rattle.std.specs.Prelude.{◌≡◌, ◌<◌, false, length, IfOk, IfErr, OnOk, Some, slice_get, take};
ghost use Rattle.std.specs.Option.{option_map_or};
ghost use Rattle.source.specs.Scopes.{Assertion};
ghost use Rattle.source.specs.Proofs as proofs;
ghost use Rattle.source.specs.Whole.{IsWhole};
ghost use Rattle.verifying.specs.Verifies.{Verifies, unfinished};
ghost use Rattle.sourceframes.specs.Names.{words_of, IsSound, Keeps, Lasts};
ghost use Rattle.sourceframes.specs.Frames.{IsFrameOf, AreFrames};
ghost use Rattle.sourcecheck.specs.Answers.{IsRefusedAt, IsRefusedIn};
ghost use Rattle.sourcecheck.specs.Checkers.{IsFoundAmong, FailsAt};

use crate::checkers::{Framed, check_shared};
use derivation::{ProofFault, ProofFaultKind};
use following::Follow;
use scopes::Scopes;
use source::Declared;
use sourceframes::{Frame, Table, frame_of};
use std::alloc::{AllocError, Global};
use std::hash::RandomState;
use std::thread::Threads;
use taking::is_unfinished;

/// Why a source isn't said to verify.
#[derive(Clone, Copy, Debug)]
pub enum Unverified<'a> {
    /// The label of the first theorem whose proof has a fault, and the fault.
    Fault(&'a [u8], ProofFault),
    /// The label of the first theorem that isn't verified, if the steps of its proof write down over 2^28 symbols.
    TooLong(&'a [u8]),
    /// Memory ran out.
    NoMemory,
}

/// How the assertion at a place is cited. After an error nothing is said of the table.
fn frame_at<'a, D: Declared<'a>>(
    alloc: Global,
    table: &mut Table<'a>,
    declared: &D,
    place: usize,
) -> Result<Frame, AllocError>
    requires sound { IsSound table.old }
    requires whole { IsWhole (D.scope declared.now) }
    requires within { place < length (D.scope declared.now).assertions }
    ensures keeps { OnOk result (Keeps table.old table.new) }
    ensures made { IfOk result (λ f. (x : Assertion) → slice_get (D.scope declared.now).assertions place ≡ Some x
        → Lasts (words_of table.new) (λ name. IsFrameOf name f x)) }
{
    let Some(statement) = declared.statement(place) else {
        unreachable!()
    };
    frame_of(alloc, table, declared, place, statement)
}

/// How each assertion is cited. After an error nothing is said of the table.
fn frames_of<'a, D: Declared<'a>>(
    alloc: Global,
    table: &mut Table<'a>,
    declared: &D,
) -> Result<Vec<Frame>, AllocError>
    requires sound { IsSound table.old }
    requires whole { IsWhole (D.scope declared.now) }
    ensures sound { OnOk result (IsSound table.new) }
    ensures many { IfOk result (λ fs. length fs.items ≡ length (D.scope declared.now).assertions) }
    ensures made { IfOk result (λ fs. Lasts (words_of table.new) (λ name. AreFrames name (D.scope declared.now).assertions fs.items)) }
{
    let mut frames = Vec::with_capacity(alloc, declared.assertions())?;
    for place in 0..declared.assertions() {
        frames.push(frame_at(alloc, table, declared, place)?)?;
    }
    Ok(frames)
}

/// What is told of a fault that was found at a place.
fn refusal_at<'a, D: Declared<'a>>(declared: &D, place: usize, fault: ProofFault) -> Unverified<'a>
    requires within { place < length (D.scope declared.now).assertions }
    requires fails { FailsAt (D.scope declared.now).assertions place fault }
    ensures { IsRefusedAt (D.scope declared.now).assertions place result }
{
    let Some(label) = declared.label(place) else {
        unreachable!()
    };
    match fault.kind {
        ProofFaultKind::NoMemory => Unverified::NoMemory,
        ProofFaultKind::TooLong => Unverified::TooLong(label),
        _ => Unverified::Fault(label, fault),
    }
}

/// What is found first among all assertions, by checkers beside one another.
fn first_fault<'a>(
    rt: &(impl Threads + Sync),
    alloc: Global,
    keys: RandomState,
    workers: Option<usize>,
    declared: &Scopes<'a>,
    follow: &(impl Follow + Sync),
) -> Result<Option<(usize, ProofFault)>, AllocError>
    requires { IsWhole declared.now.stand.scope }
    ensures { IfOk result (IsFoundAmong declared.now.stand.scope.assertions (λ k. k < length declared.now.stand.scope.assertions)) }
{
    let mut table = Table::new(alloc, keys);
    let frames = frames_of(alloc, &mut table, declared)?;
    let framed = Framed {
        table: &table,
        frames: frames.as_slice(),
        declared,
    };
    check_shared(rt, alloc, workers, &framed, follow)
}

/// Whether the proof of the assertion at a place is unfinished.
fn is_unfinished_at<'a, D: Declared<'a>>(declared: &D, place: usize) -> bool
    ensures { (x : Assertion) → slice_get (D.scope declared.now).assertions place ≡ Some x
        → result ≡ option_map_or proofs.is_unfinished x.proof false }
{
    match declared.proof(place) {
        None => false,
        Some(proof) => is_unfinished(proof),
    }
}

/// How many proofs of a source are unfinished.
fn count_unfinished<'a, D: Declared<'a>>(declared: &D) -> usize
    ensures { result ≡ unfinished (D.scope declared.now) }
{
    let mut count = 0;
    for place in 0..declared.assertions() {
        if is_unfinished_at(declared, place) {
            count += 1;
        }
    }
    count
}

/// Checks all proofs of a source: how many of them are unfinished. `workers` check beside one another, from 1 to 64; if none is said, as
/// many as there are processors. Whatever they do first, the same is told. Who follows is told of each assertion, on any thread.
///
/// It costs about as much as the expressions that the proofs write down have symbols; at each assertion its active hypotheses and pairs are
/// gone through as well.
///
/// # Errors
///
/// The first fault: that of the first theorem in the order of the source, at the first step at fault. If memory or room runs out at a
/// theorem before it, that is told.
pub fn check_source<'a>(
    rt: &(impl Threads + Sync),
    alloc: Global,
    keys: RandomState,
    workers: Option<usize>,
    declared: &Scopes<'a>,
    follow: &(impl Follow + Sync),
) -> Result<usize, Unverified<'a>>
    requires { IsWhole declared.now.stand.scope }
    ensures verified { OnOk result (Verifies declared.now.stand.scope) }
    ensures unfinished { IfOk result (λ n. n ≡ unfinished declared.now.stand.scope) }
    ensures refused { IfErr result (IsRefusedIn declared.now.stand.scope) }
{
    match first_fault(rt, alloc, keys, workers, declared, follow) {
        Err(_) => Err(Unverified::NoMemory),
        Ok(Some((place, fault))) => Err(refusal_at(declared, place, fault)),
        Ok(None) => Ok(count_unfinished(declared)),
    }
}
