//! Scripts done by one editor, one after another.

use crate::samples::{DEMO, checked, is_demo_renamed, mini};
use export::write_library;
use library::Reason;
use plainediting::edit_all;
use scripts::read_script;
use std::alloc::AllocGlobal;
use std::hash::RandomState;
use std::random::RandomSource;
use std::test::Fail;
use std::thread::Threads;
use transaction::Outcome;

/// Whether of two scripts the first commits its one transaction, and the second reads behind it, and is refused there.
fn are_wanted(outcomes: &[Vec<Outcome>]) -> bool {
    let [first, second] = outcomes else {
        return false;
    };
    let is_committed = matches!(first.as_slice(), [Outcome::Committed { number: 1, .. }]);
    let is_read_and_refused = matches!(
        second.as_slice(),
        [
            Outcome::Read { place: 1, .. },
            Outcome::Refused {
                place: 1,
                index: 1,
                reason: Reason::UnknownLabel,
            },
        ]
    );
    is_committed && is_read_and_refused
}

/// The text of the library of a text behind two scripts, where these have the wanted outcomes.
fn edited(
    rt: &(impl AllocGlobal + RandomSource + Threads + Sync),
    text: &[u8],
    first: &[u8],
    second: &[u8],
) -> Result<Vec<u8>, Fail> {
    let keys = RandomState::new(rt)?;
    let db = checked(rt, text)?;
    let first = read_script(rt.alloc(), db.prelude(), first)?;
    let second = read_script(rt.alloc(), db.prelude(), second)?;
    let (outcomes, library) = edit_all(rt.alloc(), keys, &db, &[first, second])?;
    if !are_wanted(outcomes.as_slice()) {
        return Err(Fail::from("committed 1, read 1, and refused 1"));
    }
    Ok(write_library(rt.alloc(), &library)?)
}

/// Over two databases an assertion is called otherwise, shown, and looked for by its old label.
pub(crate) fn are_scripts_run(
    rt: &(impl AllocGlobal + RandomSource + Threads + Sync),
) -> Result<bool, Fail> {
    let small = edited(
        rt,
        mini(),
        b"begin rename we wz commit",
        b"begin show wz commit begin show we commit",
    )?;
    let large = edited(
        rt,
        DEMO.as_bytes(),
        b"begin rename th1 refl commit",
        b"begin show refl commit begin show th1 commit",
    )?;
    Ok(
        small.as_slice() == b"$c wff $.\nwz $a wff $.\n".as_slice()
            && is_demo_renamed(large.as_slice()),
    )
}
