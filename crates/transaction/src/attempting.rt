//! Tries transactions.

ghost use Rattle.std.specs.Prelude.{◌≡◌, ◌≢◌, ◌<◌, ◌++◌, ◌∷◌, [], Some, None, true, false, is_some, All, IfOk, MatchOption, vec_len, vec_capacity};
ghost use Rattle.library.specs.Fitting.{CommandFits};
ghost use Rattle.library.specs.Transactions.{has_edit};
ghost use Rattle.cells.specs.Answers.{has_staging};
ghost use Rattle.tlwords.specs.Commits.{writes_kept};
ghost use Rattle.tlwords.specs.declared.mode.Mode.TheVariants.{Reading};
ghost use Rattle.lawful.specs.Laws.{IsPassOn};
ghost use Rattle.lending.specs.Lent.{is_writing};
ghost use Rattle.lawful.specs.Lawful.{setting_given};
ghost use Rattle.transaction.specs.Members.{IsSessionOf};
ghost use Rattle.transaction.specs.Attempts.{Attempts};
ghost use Rattle.transaction.specs.Tries.{Tries, Stores, EndsStored, carried_by, MayBeDone, MayBeRefused, AsksWithin, KeepsWithin, EndsWithin};

use crate::outcome::{Outcome, Record, conflict, refusal};
use crate::running::Library;
use crate::session::Session;
use commands::{RunError, has_staging, run};
use lawful::Note;
use lending::{GivenUp, Kit, Live};
use library::{Refused, Replies, Reply, SharedList, Transaction, has_edit, has_too_many};
use mmsyntax::Sequence;
use std::alloc::{AllocError, Global};
use std::snapshot::Snapshot;
use tlwords::Mode;

/// What one run of a session gives back.
pub(crate) struct Tried {
    pub(crate) kit: Kit,
    pub(crate) outcome: Outcome,
    /// Of the number that the run drew, if it drew one.
    pub(crate) drawn: Option<Record>,
}

impl Session {
    /// Tries a transaction once, whose commands are within the limits of the prelude. It waits for nobody.
    ///
    /// A transaction with an edit that is not refused is `Committed`; one without is `Read`, and keeps no read set. What it reads is the
    /// library after one front of the history, which is no older than what this session had seen or been told.
    ///
    /// Every other outcome changes nothing, and the session can be used again; only words of the store that were staged stay used: at most
    /// those of its bodies, each once, and none for a body that was staged since the last Committed, unless memory ran out for the note of
    /// it. All memory is taken before the first lock. Each try but one of too many commands is one run, which loads the clock once: it is
    /// never tried again inside. Where a run met a conflict, that is the outcome, and neither `StoreFull` nor `NoMemory`. Of these the one
    /// is told only where the store had no room for words that this try was to stage, the other only where it didn't lack room. The cell of
    /// a conflict is one that some command may read, and a commit writes no cells but those that its commands may write. The same cells
    /// alone are locked by a try, whatever comes of it, and none but where it committed or met a conflict.
    pub fn attempt(&mut self, alloc: Global, library: &Library, commands: &Transaction) -> Outcome
        requires own { IsSessionOf library.now self.old }
        requires fit { All (CommandFits (setting_given library.now.given).prelude) commands.now }
        ensures { Attempts commands.now self.old self.new result }
    {
        // For the proof: what is so of the session and of the library's words at all times.
        let _ = &self.records;
        let _ = &library.words;
        if has_too_many(commands.as_slice()) {
            return Outcome::TooManyCommands;
        }
        let Some(kit) = self.kit.take() else {
            unreachable!()
        };
        let Tried {
            kit,
            outcome,
            drawn,
        } = transact(alloc, library, kit, commands, &mut self.records);
        self.kit = Some(kit);
        put_drawn(&mut self.records, drawn);
        outcome
    }
}

/// Puts the record of the number that a run drew, if it drew one, behind those of earlier numbers. There is room for it.
fn put_drawn(records: &mut Vec<Record>, drawn: Option<Record>)
    requires { is_some drawn ≡ true → vec_len records.old < vec_capacity records.old }
    ensures { MatchOption drawn (records.new.items ≡ records.old.items) (λ own. records.new.items ≡ records.old.items ++ own ∷ []) }
{
    if let Some(own) = drawn {
        records.push_reserved(own);
    }
}

/// The mode of a run, by whether a command is an edit.
fn mode_of(edits: bool) -> Mode
    ensures writes { is_writing result ≡ edits }
    ensures reads { edits ≡ false → result ≡ Reading }
{
    if edits { Mode::Writing } else { Mode::Reading }
}

/// Runs a transaction once, to its end. Before its first read there is memory for one record more, or the run is given up.
fn transact(
    alloc: Global,
    library: &Library,
    kit: Kit,
    commands: &Transaction,
    records: &mut Vec<Record>,
) -> Tried
    requires own { kit.pass.home ≡ library.now.words }
    requires on { IsPassOn library.now.given kit.pass }
    requires fit { All (CommandFits (setting_given library.now.given).prelude) commands.now }
    ensures tries { Tries commands.now kit.pass result.kit.pass result.outcome result.drawn }
    ensures stored { Stores commands.now kit result.kit result.outcome }
    ensures within { EndsWithin kit.pass commands.now result.kit.pass result.outcome }
    ensures records { records.new.items ≡ records.old.items }
    ensures room { is_some result.drawn ≡ true → vec_len records.new < vec_capacity records.new }
{
    let edits = has_edit(commands.as_slice());
    let mode = mode_of(edits);
    let may_stage = has_staging(commands.as_slice());
    let mut live = library.begin(alloc, kit, mode, may_stage);
    if records.reserve(1).is_err() {
        return stop(live, commands);
    }
    match run(alloc, &library.prelude, &mut live, commands.as_slice()) {
        Ok(replies) if edits => commit(alloc, live, commands, replies),
        Ok(replies) => answer(live, commands, replies),
        Err(RunError::Refused(refused)) => refuse(live, commands, refused),
        Err(_) => stop(live, commands),
    }
}

/// The replies of a transaction for its outcome, and the commands with the same replies for its record.
fn share_done(
    alloc: Global,
    commands: &Transaction,
    replies: Sequence<Reply>,
) -> Result<(Replies, (Transaction, Replies)), AllocError>
    ensures { IfOk result (λ made. made ≡ (replies, (commands.now, replies))) }
{
    let replies = SharedList::from_vec(alloc, replies.into_vec())?;
    let done = (commands.share()?, replies.share()?);
    Ok((replies, done))
}

/// The record of a number that a conflict left void, if one was drawn.
fn void_record(drawn: Option<u64>) -> Option<Record>
    ensures { MatchOption drawn (result ≡ None) (λ number. result ≡ Some (record { number = number; done = None })) }
{
    match drawn {
        Some(number) => Some(Record { number, done: None }),
        None => None,
    }
}

/// Commits a run whose commands are done, of which one is an edit.
fn commit(alloc: Global, live: Live<'_>, commands: &Transaction, replies: Sequence<Reply>) -> Tried
    requires stages { live.run.may_stage ≡ has_staging commands.now }
    requires writes { is_writing live.run.going.mode ≡ has_edit commands.now }
    requires edit { has_edit commands.now ≡ true }
    requires some { writes_kept live.run.going.slots ≢ [] }
    requires lawful { MayBeDone live.run commands.now replies }
    requires asks { AsksWithin live.run commands.now }
    requires keeps { KeepsWithin live.run commands.now }
    ensures tries { Tries commands.now live.entry.run.began result.kit.pass result.outcome result.drawn }
    ensures stored { EndsStored (carried_by live.entry.run) result.kit result.outcome }
    ensures within { EndsWithin live.entry.run.began commands.now result.kit.pass result.outcome }
{
    let note = Note::Done {
        commands: Snapshot::of(commands),
        replies: Snapshot::of(&replies),
    };
    let Ok((replies, done)) = share_done(alloc, commands, replies) else {
        return stop(live, commands);
    };
    let place = live.place();
    let (kit, ended) = live.end(&note);
    drop(note);
    let (outcome, drawn) = match ended {
        tlwords::Outcome::Committed(number) => (
            Outcome::Committed { number, replies },
            Some(Record {
                number,
                done: Some(done),
            }),
        ),
        tlwords::Outcome::Conflict {
            conflict: found,
            drawn,
        } => (conflict(place, found), void_record(drawn)),
        tlwords::Outcome::NumbersUsed => (Outcome::NumbersUsed, None),
        tlwords::Outcome::Read(_) => unreachable!(),
    };
    Tried {
        kit,
        outcome,
        drawn,
    }
}

/// Ends a run that only read, and whose commands are done.
fn answer(live: Live<'_>, commands: &Transaction, replies: Sequence<Reply>) -> Tried
    requires edit { has_edit commands.now ≡ false }
    requires reading { live.run.going.mode ≡ Reading }
    requires lawful { MayBeDone live.run commands.now replies }
    requires asks { AsksWithin live.run commands.now }
    ensures tries { Tries commands.now live.entry.run.began result.kit.pass result.outcome result.drawn }
    ensures stored { EndsStored (carried_by live.entry.run) result.kit result.outcome }
    ensures within { EndsWithin live.entry.run.began commands.now result.kit.pass result.outcome }
{
    let place = live.place();
    let note = Note::Done {
        commands: Snapshot::of(commands),
        replies: Snapshot::of(&replies),
    };
    let (kit, ended) = live.end(&note);
    drop(note);
    let outcome = match ended {
        tlwords::Outcome::Read(place) => Outcome::Read { place, replies },
        tlwords::Outcome::Conflict {
            conflict: found,
            drawn: _,
        } => conflict(place, found),
        tlwords::Outcome::Committed(_) | tlwords::Outcome::NumbersUsed => unreachable!(),
    };
    Tried {
        kit,
        outcome,
        drawn: None,
    }
}

/// Ends a run of which a command is refused: what it kept aside is thrown away.
fn refuse(mut live: Live<'_>, commands: &Transaction, refused: Refused) -> Tried
    requires writes { is_writing live.run.going.mode ≡ has_edit commands.now }
    requires lawful { MayBeRefused live.run commands.now refused }
    requires asks { AsksWithin live.run commands.now }
    ensures tries { Tries commands.now live.entry.run.began result.kit.pass result.outcome result.drawn }
    ensures stored { EndsStored (carried_by live.entry.run) result.kit result.outcome }
    ensures within { EndsWithin live.entry.run.began commands.now result.kit.pass result.outcome }
{
    live.forget();
    let place = live.place();
    let note = Note::Refused {
        commands: Snapshot::of(commands),
        refused: Snapshot::of(&refused),
    };
    let (kit, ended) = live.end(&note);
    drop(note);
    let outcome = match ended {
        tlwords::Outcome::Read(place) => refusal(place, refused),
        tlwords::Outcome::Conflict {
            conflict: found,
            drawn: _,
        } => conflict(place, found),
        tlwords::Outcome::Committed(_) | tlwords::Outcome::NumbersUsed => unreachable!(),
    };
    Tried {
        kit,
        outcome,
        drawn: None,
    }
}

/// Ends a run that was stopped, or for which memory ran out.
fn stop(live: Live<'_>, commands: &Transaction) -> Tried
    requires stages { live.run.may_stage ≡ has_staging commands.now }
    requires writes { is_writing live.run.going.mode ≡ has_edit commands.now }
    requires asks { AsksWithin live.run commands.now }
    ensures tries { Tries commands.now live.entry.run.began result.kit.pass result.outcome result.drawn }
    ensures stored { EndsStored (carried_by live.entry.run) result.kit result.outcome }
    ensures within { EndsWithin live.entry.run.began commands.now result.kit.pass result.outcome }
    ensures undrawn { result.drawn ≡ None }
{
    let place = live.place();
    let (kit, why) = live.give_up();
    let outcome = match why {
        GivenUp::Conflict(found) => conflict(place, found),
        GivenUp::StoreFull => Outcome::StoreFull,
        GivenUp::NoMemory => Outcome::NoMemory,
    };
    Tried {
        kit,
        outcome,
        drawn: None,
    }
}
