//! The library that scripts ask of a source, and the scripts as they are read over it.

ghost use Rattle.std.specs.Prelude.{◌≡◌, All, IfOk, IfErr, length, map};
ghost use Rattle.derivation.specs.Databases.{AllCheck};
ghost use Rattle.library.specs.Fitting.{CommandFits};
ghost use Rattle.source.specs.Scopes.{Assertion, is_in};
ghost use Rattle.source.specs.Sources.{DeclaresText};
ghost use Rattle.source.specs.Whole.{IsWhole};
ghost use Rattle.taking.specs.Reasons.{Choice};
ghost use Rattle.editopening.specs.Opening.{IsTakenFor};
ghost use Rattle.editopening.specs.Refusals.{IsUnopenedBy, IsUntakenBy, IsUnbegunLine};
ghost use Rattle.editopening.specs.Views.{IsBegun};
ghost use Rattle.editscripts.specs.Refusals.{IsToldBy};
ghost use Rattle.editscripts.specs.Views.{seen_texts};
ghost use Rattle.expanding.specs.Views.{seen_scripts};
ghost use Rattle.standins.specs.StandIns.{stand_ins};
ghost use Rattle.standins.specs.Views.{IsOpened, opened_database};

use crate::order::EditOrder;
use choosing::{Wish, wanted_of};
use editscripts::{Unedited, descriptions_of, faultless, lay_all, quotes_of, read_all, untaken};
use expanding::{Described, Laid, asked_of};
use following::Follow;
use intake::{Taken, take_declared};
use mmsyntax::Database;
use mmtext::Token;
use pasting::Quote;
use source::Declared;
use standins::{Opened, ReadScripts, Unopened, open};
use std::alloc::Global;
use std::hash::RandomState;
use std::thread::Threads;

/// The library that scripts ask of a source.
fn take_for<'a, D: Declared<'a>>(
    rt: &(impl Threads + Sync),
    alloc: Global,
    keys: RandomState,
    path: &str,
    source: &[u8],
    declared: &D,
    scripts: &[Vec<Token<'a>>],
    follow: &impl Follow,
) -> Result<Taken<'a>, Unedited>
    requires { IsWhole (D.scope declared.now) }
    ensures taken { IfOk result (IsTakenFor (D.scope declared.now) (seen_scripts scripts.now)) }
    ensures refused { IfErr result (IsToldBy (IsUntakenBy path.now source.now (D.scope declared.now) (seen_scripts scripts.now))) }
{
    let asked = asked_of(alloc, declared, scripts)?;
    let (spoken, proofs) = (asked.spoken.as_slice(), asked.asked.as_slice());
    let wanted = wanted_of(alloc, keys, declared, spoken, proofs)?;
    let wish = Wish::These(wanted.labels.as_slice(), wanted.axioms.as_slice());
    match take_declared(rt, alloc, keys, declared, wish, follow) {
        Ok(taken) => Ok(taken),
        Err(why) => Err(untaken(alloc, path, source, &why)?),
    }
}

/// The library that scripts ask of a source, and the scripts as they are read over it.
#[derive(Drop)]
pub struct Begun<'a> {
    /// The library.
    pub taken: Taken<'a>,
    /// The texts of the scripts with its ranks.
    pub laid: Vec<Laid>,
    /// What the scripts are run over, and the scripts as they are run.
    pub opened: Opened,
    /// What each of them gives in its own words.
    pub quotes: Vec<Vec<Quote<'a>>>,
    /// The descriptions in each of them.
    pub descriptions: Vec<Vec<Described<'a>>>,
}

impl<'a> Begun<'a> {
    /// The library that the scripts are run over.
    pub fn database(&self) -> &Database
        ensures { result.now ≡ opened_database self.entry.now.taken.database self.entry.now.opened }
    {
        match &self.opened.database {
            Some(database) => database,
            None => &self.taken.database,
        }
    }
}

/// The library that was taken with stand-ins for the theorems that it has as axioms and that the scripts reprove.
fn open_for<'a, D: Declared<'a>>(
    rt: &(impl Threads + Sync),
    alloc: Global,
    path: &str,
    declared: &D,
    taken: &Taken<'a>,
    read: ReadScripts<'_, '_>,
) -> Result<Opened, Unedited>
    requires flags { length taken.now.chosen.items ≡ length (D.scope declared.now).assertions }
    requires checks { AllCheck taken.now.database }
    requires fit { All (All (All (CommandFits taken.now.database.prelude))) read.scripts.items }
    ensures opened { (choice : Choice) → map (λ (x : Assertion). is_in choice.chosen x.label) (D.scope declared.now).assertions
        ≡ taken.now.chosen.items
        → IfOk result (IsOpened (stand_ins (D.scope declared.now) choice taken.now (seen_scripts read.entry.words.now)
        read.entry.scripts.items) taken.now.database read.entry.scripts.items) }
    ensures checks { IfOk result (λ o. AllCheck (opened_database taken.now.database o)) }
    ensures fit { IfOk result (λ o. All (All (All (CommandFits taken.now.database.prelude))) o.scripts.items) }
    ensures refused { (choice : Choice) → map (λ (x : Assertion). is_in choice.chosen x.label) (D.scope declared.now).assertions
        ≡ taken.now.chosen.items
        → IfErr result (IsToldBy (IsUnopenedBy path.now taken.now.database
        (stand_ins (D.scope declared.now) choice taken.now (seen_scripts read.entry.words.now) read.entry.scripts.items))) }
{
    match open(rt, alloc, declared, taken, read) {
        Ok(opened) => Ok(opened),
        Err(Unopened::NoMemory) => Err(Unedited::NoMemory),
        Err(Unopened::Unlawful) => Err(Unedited::Refused(format!(in alloc;
            "{path}: no library has room for stand-ins of unfinished or long proofs"
        )?)),
    }
}

/// The library that scripts ask of a source, and the scripts as they are read over it. Who follows is told how far it is.
///
/// # Errors
///
/// The lines of all that is wrong with the scripts and can be told before; else a line that tells why no library is taken for them, or the
/// first thing that is wrong with them over it; want of memory.
pub fn begin<'a, D: Declared<'a>>(
    rt: &(impl Threads + Sync),
    alloc: Global,
    keys: RandomState,
    order: EditOrder<'_>,
    source: &'a [u8],
    declared: &D,
    texts: &'a [Vec<u8>],
    follow: &impl Follow,
) -> Result<Begun<'a>, Unedited>
    requires whole { IsWhole (D.scope declared.now) }
    requires declares { DeclaresText source.now (D.scope declared.now) }
    ensures begun { IfOk result (IsBegun source.now (D.scope declared.now) (seen_texts texts.now) order.entry.force) }
    ensures refused { IfErr result (IsToldBy (IsUnbegunLine order.entry.path.now (map (λ p. p.now) order.entry.paths.now) source.now
        (D.scope declared.now) (seen_texts texts.now) order.entry.force)) }
{
    let (path, paths, force) = (order.path, order.paths, order.force);
    let spread = faultless(alloc, keys, paths, source, declared, texts, force)?;
    let spread = spread.as_slice();
    let taken = take_for(rt, alloc, keys, path, source, declared, spread, follow)?;
    let (database, flags) = (&taken.database, taken.chosen.as_slice());
    // For the proof: the library has a spelling, so what is taken is as narrow.
    let _spelled = database.assertions();
    let laid = lay_all(alloc, keys, paths, declared, texts, database, flags, spread)?;
    let scripts = read_all(
        alloc,
        paths,
        texts,
        taken.database.prelude(),
        laid.as_slice(),
    )?;
    let read = ReadScripts {
        words: spread,
        scripts,
    };
    let opened = open_for(rt, alloc, path, declared, &taken, read)?;
    let quotes = quotes_of(alloc, spread)?;
    let descriptions = descriptions_of(alloc, keys, texts, spread)?;
    Ok(Begun {
        taken,
        laid,
        opened,
        quotes,
        descriptions,
    })
}
