//! Checks all proofs of a source, from its text.

ghost use Rattle.std.specs.Prelude.{◌≡◌, ℕ, List, Some, IfOk, IfErr};
ghost use Rattle.source.specs.Sources.{DeclaresText};
ghost use Rattle.source.specs.Whole.{IsWhole};
ghost use Rattle.verifying.specs.Faults.{fault_in};
ghost use Rattle.sourcecheck.specs.Answers.{IsRefusedIn};
ghost use Rattle.verifytext.specs.Verdicts.{IsVerifiedText, IsFirstFinding, IsRefused};

use crate::refusal::Refusal;
use derivation::ProofFault;
use explaining::{Finding, explain};
use following::Follow;
use scopes::Scopes;
use source::Declared;
use source::laws::sources_are_whole;
use sourcecheck::{Unverified, check_source};
use sourcereader::read_source;
use std::alloc::{AllocError, Global};
use std::hash::RandomState;
use std::thread::Threads;

/// How much of a source was looked at.
#[derive(Clone, Copy, Debug, PartialEq, Eq)]
pub struct Verified {
    /// How many assertions it has, axioms and theorems.
    pub assertions: usize,
    /// How many of its proofs are unfinished: a step of theirs isn't there (`?`).
    pub unfinished: usize,
}

/// What the first fault of the proofs of a source finds, which is that of the theorem with a label.
fn finding_of<'a>(
    alloc: Global,
    scopes: &Scopes<'a>,
    label: &'a [u8],
    fault: ProofFault,
) -> Result<Finding<'a>, AllocError>
    requires whole { IsWhole scopes.now.stand.scope }
    requires faulty { fault_in scopes.now.stand.scope ≡ Some (label.now, fault) }
    ensures { IfOk result (IsFirstFinding scopes.now.stand.scope label.entry.now fault) }
{
    let Some(place) = scopes.place_of(label) else {
        unreachable!()
    };
    match explain(alloc, scopes, place)? {
        Some(explained) => Ok(explained.finding),
        None => unreachable!(),
    }
}

/// Why a source that was read isn't said to verify, with what its first fault finds.
fn refusal_of<'a>(alloc: Global, scopes: &Scopes<'a>, why: Unverified<'a>) -> Refusal<'a>
    requires whole { IsWhole scopes.now.stand.scope }
    requires refused { IsRefusedIn scopes.now.stand.scope why }
    ensures { (text : List ℕ) → DeclaresText text scopes.now.stand.scope → IsRefused text result }
{
    match why {
        Unverified::Fault(label, fault) => match finding_of(alloc, scopes, label, fault) {
            Ok(finding) => Refusal::Proof(label, fault, finding),
            Err(_) => Refusal::NoMemory,
        },
        Unverified::TooLong(label) => Refusal::TooLong(label),
        Unverified::NoMemory => Refusal::NoMemory,
    }
}

/// Checks all proofs of a source that was read, by so many threads beside one another, or as many as there are processors: as [`verify`]
/// does of its text. Who follows is told how far it is, but not that it is at its end.
///
/// # Errors
///
/// The first theorem in the order of the source whose proof has a fault, with its first step at fault and what that finds; or want of
/// memory at any time.
pub fn verify_read<'a>(
    rt: &(impl Threads + Sync),
    alloc: Global,
    keys: RandomState,
    scopes: &Scopes<'a>,
    workers: Option<usize>,
    follow: &(impl Follow + Sync),
) -> Result<Verified, Refusal<'a>>
    requires { IsWhole scopes.now.stand.scope }
    ensures verified { (text : List ℕ) → DeclaresText text scopes.now.stand.scope → IfOk result (IsVerifiedText text) }
    ensures refused { (text : List ℕ) → DeclaresText text scopes.now.stand.scope → IfErr result (IsRefused text) }
{
    let assertions = scopes.assertions();
    follow.begin_assertions(assertions);
    match check_source(rt, alloc, keys, workers, scopes, follow) {
        Ok(unfinished) => Ok(Verified {
            assertions,
            unfinished,
        }),
        Err(why) => Err(refusal_of(alloc, scopes, why)),
    }
}

/// Reads a source, and checks its proofs. Who follows is told how far it is, but not that it is at its end.
fn verify_text<'a>(
    rt: &(impl Threads + Sync),
    alloc: Global,
    keys: RandomState,
    text: &'a [u8],
    workers: Option<usize>,
    follow: &(impl Follow + Sync),
) -> Result<Verified, Refusal<'a>>
    ensures verified { IfOk result (IsVerifiedText text.now) }
    ensures refused { IfErr result (IsRefused text.now) }
{
    follow.begin_reading();
    let scopes = read_source(alloc, Scopes::new(alloc, keys), text)?;
    // For the proof: what is read is whole.
    sources_are_whole();
    verify_read(rt, alloc, keys, &scopes, workers, follow)
}

/// Checks all proofs of a source in the whole language, by so many threads beside one another, or as many as there are processors.
///
/// Ok only where the text declares a source each of whose finished proofs derives its statement; nothing is asked of an unfinished proof
/// but that each of its steps takes what is there. The same is answered whatever the threads do. Who follows is told how far it is.
///
/// # Errors
///
/// The text's fault; or the first theorem in the order of the source whose proof has a fault, with its first step at fault and what that
/// finds; or want of memory at any time.
pub fn verify<'a>(
    rt: &(impl Threads + Sync),
    alloc: Global,
    keys: RandomState,
    text: &'a [u8],
    workers: Option<usize>,
    follow: &(impl Follow + Sync),
) -> Result<Verified, Refusal<'a>>
    ensures verified { IfOk result (IsVerifiedText text.now) }
    ensures refused { IfErr result (IsRefused text.now) }
{
    let verified = verify_text(rt, alloc, keys, text, workers, follow);
    follow.end();
    verified
}
