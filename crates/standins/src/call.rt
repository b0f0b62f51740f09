//! A library is opened with its stand-ins, and closed without them.

ghost use Rattle.std.specs.Prelude.{◌≡◌, ◌≤◌, ◌-◌, ◌*◌, All, IfOk, IfErr, OnOk, length, map};
ghost use Rattle.derivation.specs.Databases.{AllCheck};
ghost use Rattle.expanding.specs.Views.{seen_scripts};
ghost use Rattle.library.specs.Fitting.{CommandFits};
ghost use Rattle.source.specs.Scopes.{Assertion, is_in};
ghost use Rattle.taking.specs.Reasons.{Choice};
ghost use Rattle.standins.specs.Ending.{IsSettled, IsWithdrawn};
ghost use Rattle.standins.specs.StandIns.{stand_ins};
ghost use Rattle.standins.specs.Views.{IsOpened, IsUnopened, opened_database, seen_stand_ins};

use crate::opening::{Unopened, library_with};
use crate::raising::raise;
use crate::settling::settle;
use crate::standing::{StandIn, stand_ins_for};
use crate::withdrawing::withdraw;
use intake::Taken;
use library::{PlainLibrary, Script};
use mmsyntax::Database;
use mmtext::Token;
use source::Declared;
use std::alloc::{AllocError, Global};
use std::hash::RandomState;
use std::thread::Threads;

/// What scripts are run over, and the scripts as they are run.
#[derive(Drop)]
pub struct Opened {
    /// The stand-ins.
    pub stand_ins: Vec<StandIn>,
    /// The library with them: none where it has none, as it is the library that was taken.
    pub database: Option<Database>,
    /// The scripts, with ranks that count the axioms in front of the library.
    pub scripts: Vec<Script>,
}

/// Scripts that were read.
#[derive(Drop)]
pub struct ReadScripts<'r, 'w> {
    /// Their words by the source.
    pub words: &'r [Vec<Token<'w>>],
    /// Their commands.
    pub scripts: Vec<Script>,
}

/// How much higher ranks are in a library that has more axioms in front.
fn raise_by(taken: &Database, opened: &Database) -> u32
    requires { length taken.now.assertions ≤ length opened.now.assertions }
    ensures { result ≡ 100 * (length opened.now.assertions - length taken.now.assertions) }
{
    let (many, few) = (opened.assertions().len(), taken.assertions().len());
    100 * (many - few) as u32
}

/// The library that was taken of a source with stand-ins for the theorems that it has as axioms and to which the scripts give other proofs,
/// and the scripts as they are run over it.
///
/// Where there are no such theorems it costs as much as there are commands and assertions. Else the library is copied and checked again,
/// and the scripts are copied.
///
/// # Errors
///
/// - `Unlawful`: with them the library passes a limit, as that of 4,096 assertions, or doesn't verify.
/// - `NoMemory`: memory ran out.
pub fn open<'a, D: Declared<'a>>(
    rt: &(impl Threads + Sync),
    alloc: Global,
    declared: &D,
    taken: &Taken<'a>,
    read: ReadScripts<'_, '_>,
) -> Result<Opened, Unopened>
    requires flags { length taken.now.chosen.items ≡ length (D.scope declared.now).assertions }
    requires checks { AllCheck taken.now.database }
    requires fit { All (All (All (CommandFits taken.now.database.prelude))) read.scripts.items }
    ensures opened { (choice : Choice) → map (λ (x : Assertion). is_in choice.chosen x.label) (D.scope declared.now).assertions
        ≡ taken.now.chosen.items
        → IfOk result (IsOpened (stand_ins (D.scope declared.now) choice taken.now (seen_scripts read.entry.words.now)
        read.entry.scripts.items) taken.now.database read.entry.scripts.items) }
    ensures checks { IfOk result (λ o. AllCheck (opened_database taken.now.database o)) }
    ensures fit { IfOk result (λ o. All (All (All (CommandFits taken.now.database.prelude))) o.scripts.items) }
    ensures refused { (choice : Choice) → map (λ (x : Assertion). is_in choice.chosen x.label) (D.scope declared.now).assertions
        ≡ taken.now.chosen.items
        → IfErr result (IsUnopened taken.now.database
        (stand_ins (D.scope declared.now) choice taken.now (seen_scripts read.entry.words.now) read.entry.scripts.items)) }
{
    let keys = taken.database.prelude().keys();
    let ReadScripts { words, scripts } = read;
    let stand_ins = stand_ins_for(alloc, keys, declared, taken, words, scripts.as_slice())?;
    if stand_ins.is_empty() {
        return Ok(Opened {
            stand_ins,
            database: None,
            scripts,
        });
    }
    let database = library_with(rt, alloc, keys, &taken.database, stand_ins.as_slice())?;
    let by = raise_by(&taken.database, &database);
    let scripts = raise(alloc, by, scripts.as_slice())?;
    Ok(Opened {
        stand_ins,
        database: Some(database),
        scripts,
    })
}

/// The library behind a run without its stand-ins: a theorem that leans on one is an axiom again. Each other one that had one is no longer
/// told to be an axiom of the library that was taken.
///
/// Where there are stand-ins, it costs as many steps as there are of them and of the library's steps, multiplied.
///
/// # Errors
///
/// Want of memory. The library is let go, and nothing is said of what is told of the one that was taken.
pub fn close<'a>(
    alloc: Global,
    keys: RandomState,
    stand_ins: &[StandIn],
    taken: &mut Taken<'a>,
    library: PlainLibrary,
) -> Result<PlainLibrary, AllocError>
    ensures withdrawn { IfOk result (IsWithdrawn (seen_stand_ins stand_ins.now) library) }
    ensures settled { OnOk result (IsSettled (seen_stand_ins stand_ins.now) library.entries taken.old taken.new) }
{
    settle(alloc, keys, stand_ins, library.entries(), taken)?;
    withdraw(alloc, keys, stand_ins, library)
}
