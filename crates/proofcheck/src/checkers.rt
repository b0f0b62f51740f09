//! Those who check the assertions of a database beside one another.

ghost use Rattle.std.specs.Prelude.{◌≡◌, ◌≢◌, ◌<◌, ◌≤◌, [], None, All, map, IfOk, OnOk, IfErr, length, vec_capacity};
ghost use Rattle.derivation.specs.Databases.{ChecksAt, HasFaultAt};
ghost use Rattle.claims.specs.Claims.{IsClaimantOf, AreClaimed};
ghost use Rattle.proofcheck.specs.Reports.{FoundAmong, earlier, earliest};
ghost use Rattle.proofcheck.specs.Checkers.{checker_of, IsFramed, IsReady, HasChecked};

use crate::earlier::Earlier;
use crate::labels::Places;
use claims::{Claimant, Numbers};
use derivation::{ProofFault, ProofFaultKind};
use mmsyntax::{Database, Frame};
use rayon::current_num_threads;
use rayon::prelude::*;
use std::alloc::{AllocError, Global};
use std::thread::Threads;
use stepcheck::check;

/// The fewest assertions for which a thread is started. A proof takes long beside that, so few serve.
const LEAST_SHARE: usize = 16;

/// The most checkers: `rayon` starts no more threads.
const MOST_CHECKERS: usize = 32;

/// One of those who check: what it claims assertions with, and the first fault that it found, at its place, counted from 1.
#[derive(Drop)]
pub(crate) struct Checker {
    pub(crate) claimant: Claimant,
    pub(crate) found: Option<(usize, ProofFault)>,
}

/// A database made ready to be checked: with the frames of its assertions, and with their places by their labels.
#[derive(Clone, Copy)]
pub(crate) struct Framed<'a> {
    pub(crate) db: &'a Database,
    pub(crate) frames: &'a [Frame],
    pub(crate) places: &'a Places<'a>,
}

/// Checks the assertion at a place over those before it.
fn check_at(alloc: Global, framed: &Framed<'_>, i: usize) -> Result<(), ProofFault>
    requires place { i < length framed.now.db.now.assertions }
    requires framed { IsFramed framed.now }
    ensures yes { OnOk result (ChecksAt framed.now.db.now i) }
    ensures fault { IfErr result (λ fault. fault.kind ≢ ProofFaultKind.NoMemory → HasFaultAt framed.now.db.now i fault) }
{
    let earlier = Earlier {
        frames: framed.frames,
        places: framed.places,
        limit: i,
    };
    let db = framed.db;
    check(alloc, db.prelude(), &earlier, &db.assertions()[i])
}

/// What is found at one place.
fn found_at(alloc: Global, framed: &Framed<'_>, place: usize) -> Option<(usize, ProofFault)>
    requires place { place < length framed.now.db.now.assertions }
    requires framed { IsFramed framed.now }
    ensures { FoundAmong framed.now.db.now (λ k. k ≡ place) result }
{
    match check_at(alloc, framed, place) {
        Ok(()) => None,
        Err(fault) => Some((place + 1, fault)),
    }
}

/// Checks the assertions that the checker claims, one after another, until all are claimed. Behind a fault it goes on claiming, and checks
/// nothing more: each place that it claims is behind those that it claimed before.
fn check_claimed(alloc: Global, framed: &Framed<'_>, numbers: &Numbers, checker: &mut Checker)
    requires ready { IsReady numbers.now checker.old }
    requires count { numbers.now.count ≡ length framed.now.db.now.assertions }
    requires framed { IsFramed framed.now }
    ensures { HasChecked framed.now.db.now numbers.now checker.new }
{
    while let Some(place) = checker.claimant.claim(numbers) {
        if checker.found.is_none() {
            checker.found = found_at(alloc, framed, place);
        }
    }
}

/// Checks by each of these checkers, on threads beside one another.
fn check_beside(
    rt: &(impl Threads + Sync),
    alloc: Global,
    framed: &Framed<'_>,
    numbers: &Numbers,
    checkers: &mut [Checker],
)
    requires ready { All (IsReady numbers.now) checkers.old }
    requires count { numbers.now.count ≡ length framed.now.db.now.assertions }
    requires framed { IsFramed framed.now }
    ensures many { length checkers.new ≡ length checkers.old }
    ensures checked { All (HasChecked framed.now.db.now numbers.now) checkers.new }
{
    par_for_each_mut(
        rt,
        checkers,
        |_place: usize, checker: &mut Checker|
            requires { IsReady numbers.now checker.now
                × (numbers.now.count ≡ length framed.now.db.now.assertions)
                × IsFramed framed.now }
            ensures { HasChecked framed.entry.now.db.now numbers.entry.now checker.new }
        { check_claimed(alloc, framed, numbers, checker) },
    );
}

/// How many check so many assertions: one for each processor, and at most one for each share of the least size, but one at least.
fn count_checkers(rt: &impl Threads, assertions: usize) -> usize
    ensures some { 0 < result }
    ensures few { result ≤ 32 }
{
    current_num_threads(rt)
        .min(assertions / LEAST_SHARE)
        .clamp(1, MOST_CHECKERS)
}

/// A checker for each claimant.
fn checkers_of(alloc: Global, claimants: Vec<Claimant>) -> Result<Vec<Checker>, AllocError>
    ensures { IfOk result (λ checkers. checkers.items ≡ map checker_of claimants.items) }
{
    let mut checkers = Vec::with_capacity(alloc, claimants.len())?;
    for claimant in claimants {
        checkers.push_reserved(Checker {
            claimant,
            found: None,
        });
    }
    Ok(checkers)
}

/// What was found at the lower place.
fn earlier_of(
    found: Option<(usize, ProofFault)>,
    other: Option<(usize, ProofFault)>,
) -> Option<(usize, ProofFault)>
    ensures { result ≡ earlier found other }
{
    match (found, other) {
        (None, other) => other,
        (Some(found), None) => Some(found),
        (Some(found), Some(other)) => {
            if other.0 < found.0 {
                Some(other)
            } else {
                Some(found)
            }
        }
    }
}

/// What the checkers found at the lowest place. The numbers are taken back from them: for the proof, so that each place was claimed.
/// There is room for the claimants, as nothing is allocated any more when all is checked.
fn first_found(
    numbers: Numbers,
    checkers: Vec<Checker>,
    mut claimants: Vec<Claimant>,
) -> Option<(usize, ProofFault)>
    requires own { All (λ c. IsClaimantOf numbers c.claimant) checkers.items }
    requires all { length checkers.items ≡ numbers.claimants }
    requires none { claimants.items ≡ [] }
    requires room { length checkers.items ≤ vec_capacity claimants }
    ensures first { result ≡ earliest None (map (λ c. c.found) checkers.items) }
    ensures claimed { AreClaimed numbers (map (λ c. c.claimant) checkers.items) }
{
    let mut first = None;
    for checker in checkers {
        let Checker { claimant, found } = checker;
        first = earlier_of(first, found);
        claimants.push_reserved(claimant);
    }
    numbers.close(claimants);
    first
}

/// What is found first among all assertions, by checkers on as many threads as there are processors.
///
/// # Errors
///
/// Want of memory before any proof is checked.
pub(crate) fn check_shared(
    rt: &(impl Threads + Sync),
    alloc: Global,
    framed: &Framed<'_>,
) -> Result<Option<(usize, ProofFault)>, AllocError>
    requires { IsFramed framed.now }
    ensures { IfOk result (FoundAmong framed.now.db.now (λ k. k < length framed.now.db.now.assertions)) }
{
    let count = framed.db.assertions().len();
    let many = count_checkers(rt, count);
    let (numbers, claimants) = Numbers::open(alloc, count, many)?;
    let mut checkers = checkers_of(alloc, claimants)?;
    let spent = Vec::with_capacity(alloc, many)?;
    check_beside(rt, alloc, framed, &numbers, checkers.as_mut_slice());
    Ok(first_found(numbers, checkers, spent))
}
