//! The answer of the program where scripts edit a source.

ghost use Rattle.std.specs.Prelude.{◌≡◌, IfOk, IfErr, map};
ghost use Rattle.transaction.specs.Closings.{lists_of};
ghost use Rattle.reports.specs.Reports.{AreReportable};
ghost use Rattle.checking.specs.Tasks.{IsWithin};
ghost use Rattle.edittext.specs.Edited.{edit_room};
ghost use Rattle.edittext.specs.Answers.{IsEditAnswer};
ghost use Rattle.edittext.specs.Finished.{IsFirstAccount, told_of};
ghost use Rattle.editscripts.specs.Refusals.{IsToldBy};
ghost use Rattle.edittext.specs.Refusals.{IsUneditedLine};
ghost use Rattle.editscripts.specs.Quoted.{done_quotations};
ghost use Rattle.editscripts.specs.Views.{seen_quotes, seen_texts};
ghost use Rattle.pasting.specs.Views.{seen_quotation};

use crate::account::Account;
use crate::call::{close_run, run_over};
use crate::counts::counts_of;
use dressing::Given;
use editedsource::{Finished, SourceEdit, finish};
use editopening::{Begun, EditOrder, begin, read_old};
use editscripts::{
    RunScripts, Unedited, done_descriptions, done_quotations, may_print, replies_if, undone,
};
use following::Follow;
use givetext::{EditedLibrary, Replayed};
use intake::Taken;
use jobs::{Edited, Watch};
use pasting::Quotation;
use source::laws::sources_are_whole;
use std::alloc::{AllocError, Global};
use std::hash::RandomState;
use std::sync::Wait;
use std::thread::Threads;
use transaction::Outcome;

/// What the program answers where scripts edit a source.
#[derive(Debug, Drop)]
pub enum Told {
    /// This is printed, and so much is told of the run.
    Printed(Vec<u8>, Account),
    /// Nothing is printed, since some transaction wasn't done: so much is told of the run.
    Undone(Account),
    /// So much is told of the run, and nothing is printed, as this line says: the edits aren't given back into the source, or it doesn't
    /// verify with them.
    Unfinished(Account, String),
    /// Nothing is run, as this line says.
    Refused(String),
}

/// What is told of a run, before the source with its edits is written.
fn account_of(
    alloc: Global,
    order: EditOrder<'_>,
    texts: &[Vec<u8>],
    begun: &Begun<'_>,
    outcomes: &[Vec<Outcome>],
) -> Result<Account, AllocError>
    requires { AreReportable begun.now.taken.database.prelude (lists_of outcomes.now) }
    ensures { IfOk result (IsFirstAccount (map (λ p. p.now) order.entry.paths.now) (seen_texts texts.now) begun.now (lists_of outcomes.now)
        order.entry.with_replies) }
{
    let run = RunScripts {
        paths: order.paths,
        texts,
        laid: begun.laid.as_slice(),
        scripts: begun.opened.scripts.as_slice(),
        rows: outcomes,
    };
    let undone = undone(alloc, &run)?;
    let prelude = begun.taken.database.prelude();
    let replies = replies_if(alloc, order.with_replies, prelude, &run)?;
    Ok(Account {
        counts: counts_of(outcomes),
        undone,
        spoken: Vec::new(alloc),
        mentions: Vec::new(alloc),
        replies,
    })
}

/// What scripts give in their own words whose transactions were done, the last first.
fn quotations_of<'q, 'a: 'q>(
    alloc: Global,
    rows: &[Vec<Outcome>],
    begun: &'q Begun<'a>,
) -> Result<Vec<Quotation<'q>>, AllocError>
    ensures { IfOk result (λ made. map seen_quotation made.items
        ≡ done_quotations (lists_of rows.now) (seen_quotes begun.entry.now.quotes.items)) }
{
    done_quotations(alloc, rows, begun.quotes.as_slice())
}

/// The answer behind a run, of which so much is told before, by how it finished.
fn told_of(account: Account, finished: Result<Finished, Unedited>) -> Result<Told, Unedited>
    ensures { result ≡ told_of account finished }
{
    match finished {
        Ok(
            Finished {
                out,
                spoken,
                mentions,
            },
        ) => Ok(Told::Printed(
            out,
            Account {
                spoken,
                mentions,
                ..account
            },
        )),
        Err(Unedited::Refused(line)) => Ok(Told::Unfinished(account, line)),
        Err(Unedited::NoMemory) => Err(Unedited::NoMemory),
    }
}

/// The source with the edits of one history of the scripts, once it was verified; or what wasn't done.
fn edit<'a>(
    rt: &(impl Threads + Wait + Sync),
    alloc: Global,
    keys: RandomState,
    order: EditOrder<'_>,
    source: &'a [u8],
    texts: &'a [Vec<u8>],
    follow: &(impl Follow + Watch + Sync),
) -> Result<Told, Unedited>
    requires { IsWithin order.workers order.room }
    ensures told { IfOk result (IsEditAnswer order.entry.path.now (map (λ p. p.now) order.entry.paths.now) source.now
        (map (λ t. t.items) texts.now) order.entry.workers (edit_room order.entry.room) order.entry.force order.entry.partial
        order.entry.with_replies) }
    ensures refused { IfErr result (IsToldBy (IsUneditedLine order.entry.path.now (map (λ p. p.now) order.entry.paths.now) source.now
        (map (λ t. t.items) texts.now) order.entry.workers (edit_room order.entry.room) order.entry.force)) }
{
    let old = read_old(alloc, keys, order.path, source, follow)?;
    // For the proof: what is read is whole.
    sources_are_whole();
    let mut begun = begin(rt, alloc, keys, order, source, &old, texts, follow)?;
    Follow::end(follow);
    let (opened, scripts) = (begun.database(), begun.opened.scripts.as_slice());
    let Edited {
        outcomes,
        history,
        library,
    } = run_over(rt, alloc, keys, order, opened, scripts, follow)?;
    let rows = outcomes.as_slice();
    let account = account_of(alloc, order, texts, &begun, rows)?;
    if !may_print(order.partial, account.undone.as_slice()) {
        return Ok(Told::Undone(account));
    }
    let closed = close_run(alloc, keys, &mut begun, library)?;
    let run = Replayed {
        entries: history,
        edited: closed,
    };
    let quotations = quotations_of(alloc, rows, &begun)?;
    let descriptions = done_descriptions(alloc, rows, begun.descriptions.as_slice())?;
    let given = Given {
        quotations: quotations.as_slice(),
        descriptions: descriptions.as_slice(),
    };
    let edit = edit_of(order.path, source, &begun.taken, &run, given);
    let finished = finish(rt, alloc, keys, old, &edit, follow);
    told_of(account, finished)
}

/// What goes into a source: the edits of a run over the library that was taken of it, with what the scripts give in their own words.
fn edit_of<'x, 'a>(
    path: &'x str,
    source: &'x [u8],
    taken: &'x Taken<'a>,
    replayed: &'x Replayed,
    given: Given<'x>,
) -> SourceEdit<'x, 'a>
    ensures path { result.path.now ≡ path.entry.now }
    ensures source { result.library.source.now ≡ source.entry.now }
    ensures taken { result.library.taken.now ≡ taken.entry.now }
    ensures replayed { result.library.replayed.now ≡ replayed.entry.now }
    ensures given { result.given ≡ given.entry }
{
    let library = EditedLibrary {
        source,
        taken,
        replayed,
    };
    SourceEdit {
        path,
        library,
        given,
    }
}

/// Edits the source in the text of a file by scripts, and gives what the program answers.
///
/// A library is taken of the source, of the assertions that the scripts speak of; workers run the scripts over it, each of which claims
/// the next one; and the source with the edits of their one history is printed, once it was verified whole. Nothing is printed where a
/// transaction wasn't done, unless a part is asked for. Once the scripts were run, what became of each transaction is told in any case. Who
/// follows is told how far it is. It may wait.
///
/// # Errors
///
/// Want of memory.
pub fn answer_edit(
    rt: &(impl Threads + Wait + Sync),
    alloc: Global,
    keys: RandomState,
    order: EditOrder<'_>,
    source: &[u8],
    texts: &[Vec<u8>],
    follow: &(impl Follow + Watch + Sync),
) -> Result<Told, AllocError>
    requires { IsWithin order.workers order.room }
    ensures { IfOk result (IsEditAnswer order.entry.path.now (map (λ p. p.now) order.entry.paths.now) source.now
        (map (λ t. t.items) texts.now) order.entry.workers (edit_room order.entry.room) order.entry.force order.entry.partial
        order.entry.with_replies) }
{
    let told = edit(rt, alloc, keys, order, source, texts, follow);
    Follow::end(follow);
    match told {
        Ok(told) => Ok(told),
        Err(Unedited::Refused(line)) => Ok(Told::Refused(line)),
        Err(Unedited::NoMemory) => Err(AllocError),
    }
}
