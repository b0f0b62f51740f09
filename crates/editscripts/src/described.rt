//! Which descriptions scripts give to what they add.

ghost use Rattle.std.specs.Prelude.{◌≡◌, ◌++◌, IfOk, OnOk, map};
ghost use Rattle.source.specs.Views.{seen_pairs};
ghost use Rattle.transaction.specs.Closings.{lists_of};
ghost use Rattle.expanding.specs.Views.{seen_scripts};
ghost use Rattle.expanding.specs.InFront.{seen_described};
ghost use Rattle.editscripts.specs.Described.{AreDescriptive, was_done, done_of, done_descriptions};
ghost use Rattle.editscripts.specs.Undone.{is_done};
ghost use Rattle.editscripts.specs.Views.{seen_texts, seen_descriptions};

use crate::telling::text_at;
use expanding::{Described, described_in};
use mmtext::Token;
use std::alloc::{AllocError, Global};
use std::hash::RandomState;
use transaction::Outcome;

/// The descriptions in scripts with these texts, by their words.
pub fn descriptions_of<'a>(
    alloc: Global,
    keys: RandomState,
    texts: &'a [Vec<u8>],
    scripts: &[Vec<Token<'a>>],
) -> Result<Vec<Vec<Described<'a>>>, AllocError>
    ensures { IfOk result (λ all. AreDescriptive (seen_texts texts.now) (seen_scripts scripts.now) (seen_descriptions all.items)) }
{
    let mut all = Vec::new(alloc);
    for (place, words) in scripts.iter().enumerate() {
        let text = text_at(texts, place);
        all.push(described_in(alloc, keys, text, words.as_slice())?)?;
    }
    Ok(all)
}

/// Whether a transaction was done.
fn is_done(outcome: &Outcome) -> bool
    ensures { result ≡ is_done outcome.now }
{
    match outcome {
        Outcome::Committed { .. } | Outcome::Read { .. } => true,
        _ => false,
    }
}

/// Whether the transaction of a script at a place was done, from 0.
pub(crate) fn was_done(row: &[Outcome], place: usize) -> bool
    ensures { result ≡ was_done row.now place }
{
    match row.get(place) {
        Some(outcome) => is_done(outcome),
        None => false,
    }
}

/// Puts the descriptions of a script whose transactions were done.
fn put_done<'a>(
    made: &mut Vec<(&'a [u8], &'a [u8])>,
    row: &[Outcome],
    described: &[Described<'a>],
) -> Result<(), AllocError>
    ensures { OnOk result (seen_pairs made.new.items ≡ seen_pairs made.old.items ++ done_of row.now (map seen_described described.now)) }
{
    for one in described {
        if was_done(row, one.transaction) {
            made.push((one.label, one.comment))?;
        }
    }
    Ok(())
}

/// The descriptions in scripts whose transactions were done, the last first.
pub fn done_descriptions<'a>(
    alloc: Global,
    rows: &[Vec<Outcome>],
    all: &[Vec<Described<'a>>],
) -> Result<Vec<(&'a [u8], &'a [u8])>, AllocError>
    ensures { IfOk result (λ made. seen_pairs made.items ≡ done_descriptions (lists_of rows.now) (seen_descriptions all.now)) }
{
    let mut made = Vec::new(alloc);
    for (row, described) in rows.iter().zip(all) {
        put_done(&mut made, row.as_slice(), described.as_slice())?;
    }
    made.reverse();
    Ok(made)
}
