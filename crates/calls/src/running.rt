//! Transactions on libraries in plain cells: which cells they write.

ghost use Rattle.std.specs.Prelude.{◌≡◌, All};
ghost use Rattle.library.specs.Fitting.{CommandFits};

use crate::samples::{checked, mini, three};
use commands::{Halt, RunError, run};
use library::Command;
use mmstatement::Prelude;
use plaincells::PlainCells;
use scripts::read_script;
use std::alloc::{AllocGlobal, Global};
use std::random::RandomSource;
use std::test::Fail;
use std::thread::Threads;

/// A transaction over a library in plain cells, and what it leaves. A row of texts and numbers alone costs the check little.
struct Row {
    name: &'static str,
    /// The library's text: `mini`, or `three`.
    text: &'static str,
    slots: usize,
    room: usize,
    script: &'static str,
    /// How many replies it has, `f` where the store is full, and `r` where it is refused.
    answer: u8,
    /// Cells, and the value of each.
    values: &'static [u64],
    /// How many words of the store are taken.
    taken: usize,
}

const ROWS: [Row; 8] = [
    // (31 * 119 + 101) mod 4096 is 3790: the bucket of `we` is the cell 20480 + 3790, and its next cell 6 * 4096. The label, two words
    // from 0 on; the statement, five from 2 on; no proof; the rank; no citer.
    Row {
        name: "a_small_library_lies_where_its_label_says",
        text: "mini",
        slots: 4096,
        room: 7,
        script: "begin list commit",
        answer: b'1',
        values: &[
            24_270, 1, 24_576, 0, 0, 2, 1, 67_108_869, 2, 0, 3, 100, 4, 0,
        ],
        taken: 7,
    },
    // (31 * 119 + 122) mod 4096 is 3811: behind the 20480 cells of the slots. And the label `wz` behind the 7 words that were there:
    // 7 * 2^25 + 2.
    Row {
        name: "a_renamed_slot_changes_its_chain",
        text: "mini",
        slots: 4096,
        room: 100,
        script: "begin rename we wz commit",
        answer: b'1',
        values: &[24_270, 0, 24_291, 1, 0, 234_881_026],
        taken: 9,
    },
    // `t` is the byte 116: the slot 116, whose cells begin with 580; its bucket's cell, its next cell, and the citers of `we` in the
    // slot 0. Behind the 7 words that were there stand the label, the statement and the proof, in this order: 7, 8 and 13 times 2^25,
    // and the lengths.
    Row {
        name: "an_added_theorem_lies_from_its_bucket_on",
        text: "mini",
        slots: 4096,
        room: 100,
        script: "begin add 200 t $p wff $= we $. commit",
        answer: b'1',
        values: &[
            580,
            234_881_025,
            581,
            268_435_461,
            582,
            436_207_617,
            583,
            200,
            584,
            0,
            20_596,
            117,
            24_692,
            0,
            4,
            1,
        ],
        taken: 14,
    },
    // The proof of the slot 2 behind the 35 words that were there, 35 * 2^25 + 3, and still one citer of the slot 0.
    Row {
        name: "an_equal_proof_is_staged_again",
        text: "three",
        slots: 4,
        room: 100,
        script: "begin reprove th $= wx wy id $. commit",
        answer: b'1',
        values: &[12, 1_174_405_123, 4, 1],
        taken: 38,
    },
    // `c` is the byte 99 and `g` 103, and both are 3 mod 4: behind the last slot the first ones are looked at. The ranks, and the citers
    // of `we`.
    Row {
        name: "an_empty_slot_is_looked_for_going_round",
        text: "mini",
        slots: 4,
        room: 100,
        script: "begin add 200 c $p wff $= we $. add 201 g $p wff $= we $. commit",
        answer: b'2',
        values: &[3, 100, 18, 200, 8, 201, 4, 2],
        taken: 21,
    },
    // A transaction that takes a word more than the store has is stopped.
    Row {
        name: "a_full_store_stops_a_transaction",
        text: "mini",
        slots: 4,
        room: 8,
        script: "begin rename we wz commit",
        answer: b'f',
        values: &[0, 2, 22, 1],
        taken: 7,
    },
    // One that takes none is done.
    Row {
        name: "a_full_store_gives_up_an_assertion",
        text: "mini",
        slots: 4,
        room: 7,
        script: "begin delete we commit",
        answer: b'1',
        values: &[0, 0, 3, 0, 22, 0],
        taken: 7,
    },
    // (31 * (119 mod 4) + 101) mod 4 is 2: the bucket of `we`, its next cell and its name, but what was staged is.
    Row {
        name: "what_is_undone_is_as_it_was",
        text: "mini",
        slots: 4,
        room: 100,
        script: "begin rename we wz delete no commit",
        answer: b'r',
        values: &[22, 1, 25, 0, 0, 2],
        taken: 9,
    },
];

/// The library of a text in so many slots, with a store of so much room.
fn opened(
    rt: &(impl AllocGlobal + RandomSource + Threads + Sync),
    text: &[u8],
    slots: usize,
    room: usize,
) -> Result<PlainCells, Fail> {
    if !(1..=4096).contains(&slots) || room > 16_777_216 {
        return Err(Fail::from("the limits"));
    }
    let db = checked(rt, text)?;
    PlainCells::open(rt.alloc(), &db, slots, room).map_err(Fail::from)
}

/// How many replies a transaction has, `f` where the store is full, `r` where it is refused, or `-`. What isn't done is undone.
fn done(alloc: Global, prelude: &Prelude, cells: &mut PlainCells, commands: &[Command]) -> u8
    requires prelude { prelude.now ≡ cells.old.prelude }
    requires fit { All (CommandFits prelude.now) commands.now }
{
    let answer = match run(alloc, prelude, cells, commands) {
        Ok(replies) => return b'0'.wrapping_add((replies.as_slice().len() & 0xf) as u8),
        Err(RunError::Halted(Halt::StoreFull)) => b'f',
        Err(RunError::Refused(_)) => b'r',
        Err(_) => b'-',
    };
    cells.undo();
    answer
}

/// The same of the one transaction of a script.
fn answer_over(
    alloc: Global,
    prelude: &Prelude,
    cells: &mut PlainCells,
    script: &[u8],
) -> Result<u8, Fail>
    requires { prelude.now ≡ cells.old.prelude }
{
    let script = read_script(alloc, prelude, script)?;
    match script.as_slice() {
        [transaction] => Ok(done(alloc, prelude, cells, transaction.as_slice())),
        _ => Err(Fail::from("one transaction")),
    }
}

/// The same over the prelude of the cells.
fn answer(alloc: Global, cells: &mut PlainCells, script: &[u8]) -> Result<u8, Fail> {
    let prelude = cells.prelude().copy(alloc)?;
    answer_over(alloc, &prelude, cells, script)
}

/// Whether cells have these values.
fn hold(cells: &PlainCells, values: &[u64]) -> bool {
    for pair in values.chunks(2) {
        let [cell, value] = pair else {
            return false;
        };
        if cells.values().get(*cell as usize) != Some(value) {
            return false;
        }
    }
    true
}

/// Whether the transaction of a row over the library of a text leaves what it is to leave.
fn leaves(
    rt: &(impl AllocGlobal + RandomSource + Threads + Sync),
    text: &[u8],
    row: &Row,
) -> Result<bool, Fail> {
    let mut cells = opened(rt, text, row.slots, row.room)?;
    let answer = answer(rt.alloc(), &mut cells, row.script.as_bytes())?;
    Ok(answer == row.answer && hold(&cells, row.values) && cells.taken() == row.taken)
}

/// Makes the calls of this name, and says whether the answers are the wanted ones.
pub(crate) fn make(
    rt: &(impl AllocGlobal + RandomSource + Threads + Sync),
    name: &str,
) -> Result<bool, Fail> {
    for row in &ROWS {
        if row.name == name {
            let text = if row.text == "three" { three() } else { mini() };
            return leaves(rt, text, row);
        }
    }
    Err(Fail::from("there are no calls of this name"))
}
