//! What became of each transaction of scripts, as lines of JSON.

ghost use Rattle.std.specs.Prelude.{◌≡◌, ◌++◌, All, IfOk, OnOk, map};
ghost use Rattle.std.specs.Option.{option_map};
ghost use Rattle.transaction.specs.Closings.{lists_of};
ghost use Rattle.reports.specs.Reports.{IsReportable, AreReportable};
ghost use Rattle.editscripts.specs.Replies.{replies_of, all_replies, replies_in, told_if, seen_replies};
ghost use Rattle.editscripts.specs.Views.{seen_texts, beginnings_of};

use crate::lacking::{commands_at, line_at, lines_at, transactions_at};
use crate::run::RunScripts;
use crate::telling::path_at;
use library::Transaction;
use mmsyntax::Prelude;
use replylines::{Header, put_line};
use std::alloc::{AllocError, Global};
use transaction::Outcome;

/// What became of each transaction, a line of JSON each.
#[derive(Debug, Drop)]
pub struct Replies {
    /// Where the database with the edits is written.
    pub written: Vec<u8>,
    /// Where it isn't.
    pub unwritten: Vec<u8>,
}

/// Of which script it is told what became of its transactions.
#[derive(Clone, Copy)]
struct Told<'a> {
    /// Its path.
    path: &'a str,
    /// The lines on which its transactions begin, from 1.
    lines: &'a [usize],
    /// Whether the database with the edits was written.
    written: bool,
}

/// Puts what became of the transactions of a script.
fn put_replies(
    alloc: Global,
    out: &mut Vec<u8>,
    prelude: &Prelude,
    told: Told<'_>,
    script: &[Transaction],
    outcomes: &[Outcome],
) -> Result<(), AllocError>
    requires { All (IsReportable prelude.now) outcomes.now }
    ensures { OnOk result (out.new.items
        ≡ out.old.items ++ replies_of told.entry.written prelude.now told.entry.path.now told.entry.lines.now script.now outcomes.now) }
{
    for (k, outcome) in outcomes.iter().enumerate() {
        let header = Header {
            path: told.path,
            line: line_at(told.lines, k),
            written: told.written,
        };
        let commands = commands_at(script, k);
        put_line(alloc, out, prelude, header, commands, outcome)?;
    }
    Ok(())
}

/// What became of the transactions of scripts, in their order, and whether the database with the edits was written.
fn replies_with(
    alloc: Global,
    written: bool,
    prelude: &Prelude,
    run: &RunScripts<'_>,
) -> Result<Vec<u8>, AllocError>
    requires { AreReportable prelude.now (lists_of run.now.rows.now) }
    ensures { let r = run.now in IfOk result (λ out. out.items ≡ all_replies written prelude.now
        (map (λ p. p.now) r.paths.now) (seen_texts r.texts.now) (beginnings_of r.laid.now) r.scripts.now (lists_of r.rows.now)) }
{
    let rows = run.rows;
    let mut out = Vec::new(alloc);
    for (n, row) in rows.iter().enumerate() {
        let lines = lines_at(alloc, run.texts, run.laid, n)?;
        let told = Told {
            path: path_at(run.paths, n + 1),
            lines: lines.as_slice(),
            written,
        };
        let script = transactions_at(run.scripts, n);
        put_replies(alloc, &mut out, prelude, told, script, row.as_slice())?;
    }
    Ok(out)
}

/// The same, if it is asked for, where the database with the edits is written and where it isn't.
///
/// # Errors
///
/// Want of memory.
pub fn replies_if(
    alloc: Global,
    asked: bool,
    prelude: &Prelude,
    run: &RunScripts<'_>,
) -> Result<Option<Replies>, AllocError>
    requires { AreReportable prelude.now (lists_of run.now.rows.now) }
    ensures { let r = run.now in IfOk result (λ told. option_map seen_replies told ≡ told_if asked (replies_in prelude.now
        (map (λ p. p.now) r.paths.now) (seen_texts r.texts.now) (beginnings_of r.laid.now) r.scripts.now (lists_of r.rows.now))) }
{
    if !asked {
        return Ok(None);
    }
    let written = replies_with(alloc, true, prelude, run)?;
    let unwritten = replies_with(alloc, false, prelude, run)?;
    Ok(Some(Replies { written, unwritten }))
}
