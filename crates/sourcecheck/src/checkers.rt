//! Those who check the assertions of a source beside one another.

ghost use Rattle.std.specs.Prelude.{◌≡◌, ◌<◌, ◌≤◌, [], None, All, IfNone, IfSome, IfOk, length, map, vec_capacity};
ghost use Rattle.source.specs.Whole.{IsWhole};
ghost use Rattle.claims.specs.Claims.{IsClaimantOf, AreClaimed};
ghost use Rattle.sourcecheck.specs.Found.{earlier, earliest};
ghost use Rattle.sourcecheck.specs.Checkers.{checker_of, IsFoundAmong, Knows, IsReady, HasChecked};

use crate::stack::Stack;
use crate::theorem::{check_theorem, fault};
use claims::{Claimant, Numbers};
use derivation::{ProofFault, ProofFaultKind};
use following::Follow;
use rayon::current_num_threads;
use scopes::Scopes;
use source::Declared;
use sourceframes::{Frame, Table};
use std::alloc::{AllocError, Global};
use std::thread;
use std::thread::Threads;

/// The fewest assertions for which a thread is started. A proof takes long beside that, so few serve.
const LEAST_SHARE: usize = 16;

/// The most checkers.
const MOST_CHECKERS: usize = 64;

/// One of those who check: what it claims assertions with, and the first fault that it found, at its place.
#[derive(Drop)]
pub(crate) struct Checker {
    pub(crate) claimant: Claimant,
    pub(crate) found: Option<(usize, ProofFault)>,
}

/// The assertions of a source made ready to be checked: with numbers of words, and with the frames over these.
#[derive(Clone, Copy)]
pub(crate) struct Framed<'s, 'a> {
    pub(crate) table: &'s Table<'a>,
    pub(crate) frames: &'s [Frame],
    pub(crate) declared: &'s Scopes<'a>,
}

/// What is found at one place, by who has these numbers of words, or none as memory was wanting. After a fault nothing is said of them.
fn found_at<'a, D: Declared<'a>>(
    own: &mut Option<Table<'a>>,
    room: &mut Stack,
    frames: &[Frame],
    declared: &D,
    place: usize,
) -> Option<(usize, ProofFault)>
    requires knows { IfSome own.old (Knows (D.scope declared.now).assertions frames.now) }
    requires whole { IsWhole (D.scope declared.now) }
    requires within { place < length (D.scope declared.now).assertions }
    ensures knows { IfNone result (IfSome own.new (Knows (D.scope declared.now).assertions frames.now)) }
    ensures found { IsFoundAmong (D.scope declared.now).assertions (λ k. k ≡ place) result }
{
    let Some(table) = own else {
        return Some((place, fault(ProofFaultKind::NoMemory)));
    };
    match check_theorem(table, room, frames, declared, place) {
        Ok(()) => None,
        Err(fault) => Some((place, fault)),
    }
}

/// Checks the assertions that the checker claims, one after another, until all are claimed. Behind a fault it goes on claiming, and checks
/// nothing more: each place that it claims is behind those that it claimed before. Who follows is told of each.
fn check_claimed(
    alloc: Global,
    framed: &Framed<'_, '_>,
    numbers: &Numbers,
    checker: &mut Checker,
    follow: &impl Follow,
)
    requires whole { IsWhole framed.now.declared.now.stand.scope }
    requires knows { Knows framed.now.declared.now.stand.scope.assertions framed.now.frames.now framed.now.table.now }
    requires count { numbers.now.count ≡ length framed.now.declared.now.stand.scope.assertions }
    requires ready { IsReady numbers.now checker.old }
    ensures { HasChecked framed.now.declared.now.stand.scope.assertions numbers.now checker.new }
{
    let mut own = framed.table.copy(alloc).ok();
    let mut room = Stack::new(alloc);
    while let Some(place) = checker.claimant.claim(numbers) {
        follow.pass_assertion();
        if checker.found.is_none() {
            checker.found = found_at(&mut own, &mut room, framed.frames, framed.declared, place);
        }
    }
}

/// Checks by each of these checkers, each on a thread of its own.
fn check_beside(
    rt: &(impl Threads + Sync),
    alloc: Global,
    framed: &Framed<'_, '_>,
    numbers: &Numbers,
    checkers: &mut [Checker],
    follow: &(impl Follow + Sync),
)
    requires some { 0 < length checkers.old }
    requires whole { IsWhole framed.now.declared.now.stand.scope }
    requires knows { Knows framed.now.declared.now.stand.scope.assertions framed.now.frames.now framed.now.table.now }
    requires count { numbers.now.count ≡ length framed.now.declared.now.stand.scope.assertions }
    requires ready { All (IsReady numbers.now) checkers.old }
    ensures many { length checkers.new ≡ length checkers.old }
    ensures checked { All (HasChecked framed.now.declared.now.stand.scope.assertions numbers.now) checkers.new }
{
    let threads = checkers.len();
    thread::for_each_mut(
        rt,
        checkers,
        threads,
        &|_place: usize, checker: &mut Checker|
            requires { IsWhole framed.now.declared.now.stand.scope
                × Knows framed.now.declared.now.stand.scope.assertions framed.now.frames.now framed.now.table.now
                × (numbers.now.count ≡ length framed.now.declared.now.stand.scope.assertions)
                × IsReady numbers.now checker.now }
            ensures { HasChecked framed.entry.now.declared.now.stand.scope.assertions numbers.entry.now checker.new }
        { check_claimed(alloc, framed, numbers, checker, follow) },
    );
}

/// How many check so many assertions: as many as are wanted, or one for each processor, and at most one for each share of the least size,
/// but one at least.
fn count_checkers(rt: &impl Threads, workers: Option<usize>, assertions: usize) -> usize
    ensures some { 0 < result }
    ensures few { result ≤ 64 }
{
    let wanted = match workers {
        Some(workers) => workers,
        None => current_num_threads(rt),
    };
    wanted.min(assertions / LEAST_SHARE).clamp(1, MOST_CHECKERS)
}

/// A checker for each claimant.
fn checkers_of(alloc: Global, claimants: Vec<Claimant>) -> Result<Vec<Checker>, AllocError>
    ensures { IfOk result (λ checkers. checkers.items ≡ map checker_of claimants.items) }
{
    let mut checkers = Vec::with_capacity(alloc, claimants.len())?;
    for claimant in claimants {
        checkers.push_reserved(Checker {
            claimant,
            found: None,
        });
    }
    Ok(checkers)
}

/// What was found at the lower place.
fn earlier_of(
    found: Option<(usize, ProofFault)>,
    other: Option<(usize, ProofFault)>,
) -> Option<(usize, ProofFault)>
    ensures { result ≡ earlier found other }
{
    match (found, other) {
        (None, other) => other,
        (Some(found), None) => Some(found),
        (Some(found), Some(other)) => {
            if other.0 < found.0 {
                Some(other)
            } else {
                Some(found)
            }
        }
    }
}

/// What the checkers found at the lowest place. The numbers are taken back from them: for the proof, so that each place was claimed.
/// There is room for the claimants, as nothing is allocated any more when all is checked.
fn first_found(
    numbers: Numbers,
    checkers: Vec<Checker>,
    mut claimants: Vec<Claimant>,
) -> Option<(usize, ProofFault)>
    requires own { All (λ c. IsClaimantOf numbers c.claimant) checkers.items }
    requires all { length checkers.items ≡ numbers.claimants }
    requires none { claimants.items ≡ [] }
    requires room { length checkers.items ≤ vec_capacity claimants }
    ensures first { result ≡ earliest None (map (λ c. c.found) checkers.items) }
    ensures claimed { AreClaimed numbers (map (λ c. c.claimant) checkers.items) }
{
    let mut first = None;
    for checker in checkers {
        let Checker { claimant, found } = checker;
        first = earlier_of(first, found);
        claimants.push_reserved(claimant);
    }
    numbers.close(claimants);
    first
}

/// What is found first among all assertions.
///
/// # Errors
///
/// Want of memory before any proof is checked.
pub(crate) fn check_shared(
    rt: &(impl Threads + Sync),
    alloc: Global,
    workers: Option<usize>,
    framed: &Framed<'_, '_>,
    follow: &(impl Follow + Sync),
) -> Result<Option<(usize, ProofFault)>, AllocError>
    requires whole { IsWhole framed.now.declared.now.stand.scope }
    requires knows { Knows framed.now.declared.now.stand.scope.assertions framed.now.frames.now framed.now.table.now }
    ensures { let xs = framed.now.declared.now.stand.scope.assertions in IfOk result (IsFoundAmong xs (λ k. k < length xs)) }
{
    let declared = framed.declared;
    let count = declared.assertions();
    let many = count_checkers(rt, workers, count);
    let (numbers, claimants) = Numbers::open(alloc, count, many)?;
    let mut checkers = checkers_of(alloc, claimants)?;
    let spent = Vec::with_capacity(alloc, many)?;
    check_beside(rt, alloc, framed, &numbers, checkers.as_mut_slice(), follow);
    Ok(first_found(numbers, checkers, spent))
}
