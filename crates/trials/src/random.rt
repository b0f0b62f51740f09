//! Random transactions: so many of random commands, each done by the one-thread editor and, as reads and writes of slots, over a library
//! in plain cells.
//!
//! After each transaction the outcomes are compared, and what the two list; after some also what they show of each label. All eight
//! commands are drawn, over few labels, ranks and steps, so that each test of each command passes often and fails often.

use crate::in_cells::{InCells, apply};
use crate::opening::unread;
use crate::outcomes::{put_refusal, put_replies};
use commands::RunError;
use history::{ApplyError, Editor};
use library::{Command, Transaction};
use mmreader::read_database;
use mmsyntax::Database;
use proofcheck::check_all;
use rand_core::Rng;
use rand_pcg::Pcg32;
use scripts::read_script;
use std::alloc::Global;
use std::hash::RandomState;
use std::thread::Threads;
use wordrows::Written;

/// The database that all begins with: an axiom without hypotheses, one with one, one with two, and one with a variable.
const DATABASE: &[u8] = b"$c wff $. $v x $. wx $f wff x $. we $a wff $.
${ wi.1 $e wff $. wi $a wff $. $} ${ wk.1 $e wff $. wk.2 $e wff $. wk $a wff $. $} ${ wn.1 $e wff x $. wn $a wff $. $}";

/// How many slots the library has: few, so that it is often full.
const SLOTS: usize = 9;

/// How many words of bodies there is room for.
const ROOM: usize = 1_000_000;

/// The most pieces that a script is drawn of.
const MOST_PIECES: usize = 10_000;

/// What a capital letter of a script stands for: one of these, drawn at random.
///
/// - S is a script of a transaction and a look at what is listed then, and A looks at what is shown of each label too.
/// - T is one to three commands, mostly one, and C is a command.
/// - K is a label of theorems that come and go, some of which clash. L may also be that of an axiom, or one that no assertion may have.
/// - R is a rank from 0 to 1,299. P is the steps of a proof, of which some are unknown, or not below, or too many. N is the label of an
///   assertion without hypotheses, if it has one, and M that of any.
fn pieces_of(letter: u8) -> &'static str {
    match letter {
        b'S' => "begin T commit begin list commit",
        b'A' => {
            "begin T commit begin list commit begin show a commit begin show b commit begin show c commit begin show d commit \
             begin show e commit begin show a.1 commit begin show a.2 commit begin show b.1 commit begin show a.1.1 commit \
             begin show c.1001 commit begin show we commit begin show wi commit begin show wk commit begin show wn commit"
        }
        b'T' => "C|C|C|C|C C|C C C",
        b'C' => {
            "list|show L|delete K|move L R|move K R|rename K L|rename K K|reprove K $= P $.|reprove L $= P $.|replace K M M|replace K N N|\
             add R K $p wff $= P $.|add R K $p wff $= P $.|add R K $p wff $= N $.|add R L $p wff $= P $.|add R K $a wff $."
        }
        b'K' => "a|b|c|d|e|a.1|a.2|b.1|a.1.1|c.1001",
        b'L' => "K|K|K|we|wi|wk|wn|wx|a+b",
        b'R' => "0|DE|DEE|DEE|DEE|DEE|1DEE|12EE",
        b'D' => "1|2|3|4|5|6|7|8|9",
        b'E' => "0|1|2|3|4|5|6|7|8|9",
        b'P' => "N|N|N wi|N N wk|N wi wi|N wi N wk|N N wk wi|N N|N wx",
        b'N' => "we|we|K",
        b'M' => "N|N|wi|wk|wn",
        _ => "",
    }
}

/// What is drawn for a byte; none where it stands for itself.
fn drawn_for(generator: &mut Pcg32, byte: u8) -> Option<&'static str> {
    let pieces = pieces_of(byte);
    if pieces.is_empty() {
        return None;
    }
    let count = pieces.split('|').count().max(1);
    let drawn = generator.next_u32() as usize % count;
    pieces.split('|').nth(drawn)
}

/// Puts a text in front of what is left, of which the last byte comes first.
fn put_front(left: &mut Written, text: &str) {
    for byte in text.bytes().rev() {
        left.put(&[byte]);
    }
}

/// Writes a script that is drawn from a letter.
fn draw(alloc: Global, script: &mut Written, generator: &mut Pcg32, letter: u8) {
    let mut left = Written::new(alloc);
    left.put(&[letter]);
    for _ in 0..MOST_PIECES {
        let Some(piece) = left.bytes.pop() else {
            break;
        };
        match drawn_for(generator, piece) {
            Some(drawn) => put_front(&mut left, drawn),
            None => script.put(&[piece]),
        }
    }
}

/// Does a transaction by the editor, and writes its replies: 0 where it was done, and the number of the reason where it was refused.
fn edit(alloc: Global, out: &mut Written, editor: &mut Editor, commands: &[Command]) -> usize {
    match apply(editor, alloc, commands) {
        Ok(replies) => put_replies(alloc, out, editor.prelude(), replies.as_slice()),
        Err(ApplyError::Refused(refused)) => {
            put_refusal(out, 0, refused.index, refused.reason);
            return refused.reason.number() as usize;
        }
        Err(ApplyError::NoMemory) => out.is_short = true,
    }
    0
}

/// Does one over plain cells, and writes its replies.
fn write(alloc: Global, out: &mut Written, cells: &mut InCells, commands: &[Command]) {
    match cells.apply(alloc, commands) {
        Ok(replies) => put_replies(alloc, out, cells.prelude(), replies.as_slice()),
        Err(RunError::Refused(refused)) => { put_refusal(out, 0, refused.index, refused.reason) }
        Err(_) => out.is_short = true,
    }
}

/// Does a transaction in both: 0 where it was done, and the number of the reason where it was refused. None where the two differ, or
/// memory ran out.
fn both(
    alloc: Global,
    editor: &mut Editor,
    cells: &mut InCells,
    commands: &[Command],
) -> Option<usize> {
    let mut edited = Written::new(alloc);
    let number = edit(alloc, &mut edited, editor, commands);
    let mut written = Written::new(alloc);
    write(alloc, &mut written, cells, commands);
    let are_whole = !edited.is_short && !written.is_short;
    let are_same = are_whole && edited.bytes.as_slice() == written.bytes.as_slice();
    are_same.then_some(number)
}

/// Does the transactions of a script in both, and counts how the first ended; false where the two differ, or memory ran out.
fn are_all_alike(
    alloc: Global,
    editor: &mut Editor,
    cells: &mut InCells,
    transactions: &[Transaction],
    ends: &mut [u32],
) -> bool {
    for (place, transaction) in transactions.iter().enumerate() {
        let Some(number) = both(alloc, editor, cells, transaction.as_slice()) else {
            return false;
        };
        if place == 0
            && let Some(count) = ends.get_mut(number)
        {
            *count = count.saturating_add(1);
        }
    }
    true
}

/// The same of a script that is drawn from a letter. One that can't be read, as it adds a proof of L that cites `L.k`, is left out.
fn are_alike(
    alloc: Global,
    generator: &mut Pcg32,
    editor: &mut Editor,
    cells: &mut InCells,
    letter: u8,
    ends: &mut [u32],
) -> bool {
    let mut script = Written::new(alloc);
    draw(alloc, &mut script, generator, letter);
    match read_script(alloc, editor.prelude(), script.bytes.as_slice()) {
        Ok(transactions) => are_all_alike(alloc, editor, cells, transactions.as_slice(), ends),
        Err(_) => !script.is_short,
    }
}

/// Does so many random transactions in both, drawn from a seed, and writes how they ended: how many were done, and refused for each
/// reason.
fn put_ends(
    alloc: Global,
    out: &mut Written,
    editor: &mut Editor,
    cells: &mut InCells,
    transactions: usize,
    seed: usize,
) {
    let mut generator = Pcg32::new(seed as u64, 54);
    let mut ends = [0_u32; 15];
    for number in 0..transactions {
        let letter = if number % 16 == 0 { b'A' } else { b'S' };
        if !are_alike(alloc, &mut generator, editor, cells, letter, &mut ends) {
            return out.put(b"the two differ\n");
        }
    }
    out.show(format_args!("done, and refused by reason: {ends:?}\n"));
}

/// Opens both with a database, and does so many random transactions in them; false where they can't be opened.
fn compare_over(
    rt: &(impl Threads + Sync),
    alloc: Global,
    keys: RandomState,
    out: &mut Written,
    db: &Database,
    transactions: usize,
    seed: usize,
) -> bool {
    let Ok(()) = check_all(rt, alloc, db) else {
        return false;
    };
    let Ok(mut editor) = Editor::open(alloc, keys, db, SLOTS) else {
        return false;
    };
    let Ok(mut cells) = InCells::open(alloc, db, SLOTS, ROOM) else {
        return false;
    };
    put_ends(alloc, out, &mut editor, &mut cells, transactions, seed);
    true
}

/// Does random transactions, by words that say their number and the seed, and writes the line of how they ended; false where the words
/// are no two numbers.
pub fn compare(
    rt: &(impl Threads + Sync),
    alloc: Global,
    keys: RandomState,
    out: &mut Written,
    words: &str,
) -> bool {
    let (transactions, seed) = words.split_once(' ').unwrap_or((words, ""));
    let Ok(transactions) = transactions.parse::<usize>() else {
        return false;
    };
    let Ok(seed) = seed.parse::<usize>() else {
        return false;
    };
    match read_database(alloc, keys, DATABASE) {
        Ok(db) => compare_over(rt, alloc, keys, out, &db, transactions, seed),
        Err(fault) => unread(out, fault),
    }
}
