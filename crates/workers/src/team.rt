//! Workers on threads.

ghost use Rattle.std.specs.Prelude.{◌≡◌, All, IfOk, IfErr, length, map};
ghost use Rattle.std.specs.List.{AllZip};
ghost use Rattle.library.specs.Fitting.{CommandFits};
ghost use Rattle.claims.specs.Claims.{IsClaimantOf};
ghost use Rattle.lawful.specs.Lawful.{setting_given};
ghost use Rattle.transaction.specs.Members.{IsSessionOf};
ghost use Rattle.workers.specs.Shifts.{AreShifts, ArePromised, IsKept};
ghost use Rattle.workers.specs.Works.{IsWorkLack};

use crate::error::WorkError;
use crate::gate::Gate;
use crate::shift::{Shift, Shop, work};
use claims::Claimant;
use library::Script;
use std::alloc::{AllocError, Global};
use std::snapshot::Snapshot;
use std::sync::Wait;
use std::thread;
use std::thread::{Promise, PromisedHandle, Scope, Threads};
use transaction::Session;

/// What the thread of a worker hands back.
type Handed = Result<Shift, AllocError>;

/// Promises that the thread hands back a shift of this session and this claimant.
#[derive(Drop)]
struct ShiftOf<'w> {
    scripts: &'w [Script],
    session: Snapshot<Session>,
    claimant: Snapshot<Claimant>,
}

impl<'w> Promise<Handed> for ShiftOf<'w> {
    ghost use Rattle.std.specs.Prelude.{IfOk};
    ghost use Rattle.workers.specs.Shifts.{IsKept};

    ghost kept_by = { λ p r. IfOk r (IsKept p) };
}

/// Runs the scripts with a worker for each session, and waits for all of them. Where there are two or more, each is on a thread.
///
/// # Errors
///
/// `NoThread` where there are two or more and a thread can't be had, and want of memory.
pub(crate) fn employ<R: Threads + Wait + Sync, G: Gate + Sync>(
    rt: &R,
    alloc: Global,
    shop: Shop<'_, G>,
    sessions: Vec<Session>,
    claimants: Vec<Claimant>,
) -> Result<Vec<Shift>, WorkError>
    requires own { All (IsSessionOf shop.library.now) sessions.items }
    requires claims { All (IsClaimantOf shop.numbers.now) claimants.items }
    requires pairs { length claimants.items ≡ length sessions.items }
    requires indexes { shop.numbers.now.count ≡ length shop.scripts.now }
    requires fit { All (All (All (CommandFits (setting_given shop.library.now.given).prelude))) shop.scripts.now }
    ensures shifts { IfOk result (λ shifts. AreShifts shop.entry.scripts.now sessions.items claimants.items shifts.items) }
    ensures lack { IfErr result (IsWorkLack sessions.items) }
{
    if sessions.len() < 2 {
        Ok(work_here(rt, alloc, shop, sessions, claimants)?)
    } else {
        work_on_threads(rt, alloc, shop, sessions, claimants)
    }
}

/// Runs the scripts with one worker after another, on the calling thread.
fn work_here<R: Wait, G: Gate>(
    rt: &R,
    alloc: Global,
    shop: Shop<'_, G>,
    sessions: Vec<Session>,
    claimants: Vec<Claimant>,
) -> Result<Vec<Shift>, AllocError>
    requires own { All (IsSessionOf shop.library.now) sessions.items }
    requires claims { All (IsClaimantOf shop.numbers.now) claimants.items }
    requires pairs { length claimants.items ≡ length sessions.items }
    requires indexes { shop.numbers.now.count ≡ length shop.scripts.now }
    requires fit { All (All (All (CommandFits (setting_given shop.library.now.given).prelude))) shop.scripts.now }
    ensures { IfOk result (λ shifts. AreShifts shop.entry.scripts.now sessions.items claimants.items shifts.items) }
{
    let mut shifts = Vec::with_capacity(alloc, sessions.len())?;
    for (session, claimant) in sessions.into_iter().zip(claimants) {
        shifts.push_reserved(work(rt, alloc, shop, session, claimant)?);
    }
    Ok(shifts)
}

/// Runs the scripts with a worker for each session, each on a thread, and waits for all of them.
fn work_on_threads<R: Threads + Wait + Sync, G: Gate + Sync>(
    rt: &R,
    alloc: Global,
    shop: Shop<'_, G>,
    sessions: Vec<Session>,
    claimants: Vec<Claimant>,
) -> Result<Vec<Shift>, WorkError>
    requires own { All (IsSessionOf shop.library.now) sessions.items }
    requires claims { All (IsClaimantOf shop.numbers.now) claimants.items }
    requires pairs { length claimants.items ≡ length sessions.items }
    requires indexes { shop.numbers.now.count ≡ length shop.scripts.now }
    requires fit { All (All (All (CommandFits (setting_given shop.library.now.given).prelude))) shop.scripts.now }
    ensures { IfOk result (λ shifts. AreShifts shop.entry.scripts.now sessions.items claimants.items shifts.items) }
{
    // The closures of this file capture the parts of the shop: of one that captures a `Shop`, its caller learns nothing that it ensures.
    let Shop {
        library,
        scripts,
        numbers,
        gate,
    } = shop;
    thread::scope(
        thread::scope_env(),
        rt,
        |scope| -> Result<Vec<Shift>, WorkError>
            requires own { All (IsSessionOf library.now) sessions.items }
            requires claims { All (IsClaimantOf numbers.now) claimants.items }
            requires pairs { length claimants.items ≡ length sessions.items }
            requires indexes { numbers.now.count ≡ length scripts.now }
            requires fit { All (All (All (CommandFits (setting_given library.now.given).prelude))) scripts.now }
            ensures { IfOk result (λ shifts. AreShifts scripts.entry.now sessions.items claimants.items shifts.items) }
        {
            let shop = Shop {
                library,
                scripts,
                numbers,
                gate,
            };
            let handles = start_all(scope, rt, alloc, shop, sessions, claimants)?;
            wait_for_all(rt, alloc, handles)
        },
    )
}

/// Starts a thread for each session.
fn start_all<'s, 'w: 's, R: Threads + Wait + Sync, G: Gate + Sync>(
    scope: &'s Scope<'s, &'w ()>,
    rt: &'w R,
    alloc: Global,
    shop: Shop<'w, G>,
    sessions: Vec<Session>,
    claimants: Vec<Claimant>,
) -> Result<Vec<PromisedHandle<Handed, ShiftOf<'w>>>, WorkError>
    requires own { All (IsSessionOf shop.library.now) sessions.items }
    requires claims { All (IsClaimantOf shop.numbers.now) claimants.items }
    requires pairs { length claimants.items ≡ length sessions.items }
    requires indexes { shop.numbers.now.count ≡ length shop.scripts.now }
    requires fit { All (All (All (CommandFits (setting_given shop.library.now.given).prelude))) shop.scripts.now }
    ensures { IfOk result (λ made. ArePromised shop.entry.scripts.now sessions.items claimants.items (map (λ h. h.promise) made.items)) }
{
    let mut handles = Vec::with_capacity(alloc, sessions.len())?;
    for (session, claimant) in sessions.into_iter().zip(claimants) {
        handles.push_reserved(start(scope, rt, alloc, shop, session, claimant)?);
    }
    Ok(handles)
}

/// Starts a thread for one session.
fn start<'s, 'w: 's, R: Threads + Wait + Sync, G: Gate + Sync>(
    scope: &'s Scope<'s, &'w ()>,
    rt: &'w R,
    alloc: Global,
    shop: Shop<'w, G>,
    session: Session,
    claimant: Claimant,
) -> Result<PromisedHandle<Handed, ShiftOf<'w>>, WorkError>
    requires own { IsSessionOf shop.library.now session }
    requires claims { IsClaimantOf shop.numbers.now claimant }
    requires indexes { shop.numbers.now.count ≡ length shop.scripts.now }
    requires fit { All (All (All (CommandFits (setting_given shop.library.now.given).prelude))) shop.scripts.now }
    ensures scripts { IfOk result (λ handle. handle.promise.scripts.now ≡ shop.entry.scripts.now) }
    ensures session { IfOk result (λ handle. handle.promise.session.value ≡ session) }
    ensures claimant { IfOk result (λ handle. handle.promise.claimant.value ≡ claimant) }
{
    let Shop {
        library,
        scripts,
        numbers,
        gate,
    } = shop;
    let promise = ShiftOf {
        scripts,
        session: Snapshot::of(&session),
        claimant: Snapshot::of(&claimant),
    };
    let worker = move || {
        let shop = Shop {
            library,
            scripts,
            numbers,
            gate,
        };
        work(rt, alloc, shop, session, claimant)
    };
    match scope.spawn_with(promise, worker) {
        Ok(handle) => Ok(handle),
        Err(_) => Err(WorkError::NoThread),
    }
}

/// What each thread hands back, in order.
fn wait_for_all<R: Threads + Wait>(
    rt: &R,
    alloc: Global,
    handles: Vec<PromisedHandle<Handed, ShiftOf<'_>>>,
) -> Result<Vec<Shift>, WorkError>
    ensures { IfOk result (λ shifts. AllZip IsKept (map (λ h. h.promise) handles.entry.items) shifts.items) }
{
    let mut shifts = Vec::with_capacity(alloc, handles.len())?;
    for handle in handles {
        shifts.push_reserved(handle.join(rt)?);
    }
    Ok(shifts)
}
