//! What one worker does.

ghost use Rattle.std.specs.Prelude.{◌≡◌, ◌<◌, [], All, IfOk, OnOk, OnErr, length};
ghost use Rattle.library.specs.Fitting.{CommandFits};
ghost use Rattle.claims.specs.Claims.{IsClaimantOf};
ghost use Rattle.lawful.specs.Lawful.{setting_given};
ghost use Rattle.transaction.specs.Members.{IsSessionOf};
ghost use Rattle.workers.specs.Shifts.{IsShift, IsCutOff, RunsNext};

use crate::gate::Gate;
use claims::{Claimant, Numbers};
use library::Script;
use std::alloc::{AllocError, Global};
use std::sync::Wait;
use transaction::{Library, Outcome, Session};

/// What the workers share.
pub(crate) struct Shop<'w, G> {
    pub(crate) library: &'w Library,
    pub(crate) scripts: &'w [Script],
    // the indexes of the scripts
    pub(crate) numbers: &'w Numbers,
    pub(crate) gate: &'w G,
}

impl<'w, G> Clone for Shop<'w, G> {
    ghost use Rattle.std.specs.Prelude.{◌≡◌, ⊤};

    ghost is_clone = { λ s r. r ≡ s };

    ghost is_infallible = { λ _. ⊤ };

    fn clone(&self) -> Result<Self, AllocError> {
        Ok(*self)
    }
}

impl<'w, G> Copy for Shop<'w, G> {}

/// A script that was run.
#[derive(Drop)]
pub(crate) struct Row {
    /// Its index, from 0.
    pub(crate) script: usize,
    /// The outcome of each of its transactions, in order.
    pub(crate) outcomes: Vec<Outcome>,
}

/// What a worker hands back: its session, what it claimed with, and the scripts that it ran.
#[derive(Drop)]
pub(crate) struct Shift {
    pub(crate) session: Session,
    pub(crate) claimant: Claimant,
    pub(crate) rows: Vec<Row>,
}

/// Runs the scripts that the claimant claims, one after another, until all are claimed.
pub(crate) fn work<R: Wait, G: Gate>(
    rt: &R,
    alloc: Global,
    shop: Shop<'_, G>,
    session: Session,
    claimant: Claimant,
) -> Result<Shift, AllocError>
    requires own { IsSessionOf shop.library.now session }
    requires claims { IsClaimantOf shop.numbers.now claimant }
    requires indexes { shop.numbers.now.count ≡ length shop.scripts.now }
    requires fit { All (All (All (CommandFits (setting_given shop.library.now.given).prelude))) shop.scripts.now }
    ensures { IfOk result (λ shift. IsShift shop.entry.scripts.now session claimant shift.session shift.claimant shift.rows.items) }
{
    let mut shift = Shift {
        session,
        claimant,
        rows: Vec::new(alloc),
    };
    run_claimed(rt, alloc, shop, &mut shift)?;
    Ok(shift)
}

/// Runs the scripts that the claimant of the shift claims, until all are claimed. Memory is wanted of a script before its first transaction
/// alone: where it is wanting, all that were claimed before are run, each to its end, and this one isn't begun.
fn run_claimed<R: Wait, G: Gate>(
    rt: &R,
    alloc: Global,
    shop: Shop<'_, G>,
    shift: &mut Shift,
) -> Result<(), AllocError>
    requires own { IsSessionOf shop.library.now shift.old.session }
    requires claims { IsClaimantOf shop.numbers.now shift.old.claimant }
    requires none { shift.old.rows.items ≡ [] }
    requires indexes { shop.numbers.now.count ≡ length shop.scripts.now }
    requires fit { All (All (All (CommandFits (setting_given shop.library.now.given).prelude))) shop.scripts.now }
    ensures done { OnOk result (IsShift shop.entry.scripts.now shift.old.session shift.old.claimant
        shift.new.session shift.new.claimant shift.new.rows.items) }
    ensures lack { OnErr result (IsCutOff shop.entry.scripts.now shift.old.session shift.old.claimant
        shift.new.session shift.new.claimant shift.new.rows.items) }
{
    while let Some(script) = shift.claimant.claim(shop.numbers) {
        shop.gate.enter(script);
        let ran = run_script(rt, alloc, shop, script, &mut shift.session, &mut shift.rows);
        shop.gate.leave(script);
        ran?;
    }
    // For the proof: what is promised of the session.
    let _ = shift.session.records();
    Ok(())
}

/// Submits the transactions of the script with this index, from 0, one after another, whatever becomes of them, and puts their outcomes
/// behind the other rows. Where memory is wanting, none of them was submitted, and no row is put.
fn run_script<R: Wait, G: Gate>(
    rt: &R,
    alloc: Global,
    shop: Shop<'_, G>,
    script: usize,
    session: &mut Session,
    rows: &mut Vec<Row>,
) -> Result<(), AllocError>
    requires own { IsSessionOf shop.library.now session.old }
    requires script { script < length shop.scripts.now }
    requires fit { All (All (All (CommandFits (setting_given shop.library.now.given).prelude))) shop.scripts.now }
    ensures own { IsSessionOf shop.entry.library.now session.new }
    ensures ok { OnOk result (RunsNext shop.entry.scripts.now script session.old session.new rows.old.items rows.new.items) }
    ensures lack { OnErr result ((session.new ≡ session.old) × (rows.new.items ≡ rows.old.items)) }
{
    rows.reserve(1)?;
    let transactions = shop.scripts[script].as_slice();
    let mut outcomes = Vec::with_capacity(alloc, transactions.len())?;
    for transaction in transactions {
        outcomes.push_reserved(session.submit(rt, alloc, shop.library, transaction));
        shop.gate.pass(script);
    }
    rows.push_reserved(Row { script, outcomes });
    Ok(())
}
