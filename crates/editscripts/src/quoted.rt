//! What scripts give in their own words.

ghost use Rattle.std.specs.Prelude.{◌≡◌, ◌++◌, IfOk, OnOk, map};
ghost use Rattle.transaction.specs.Closings.{lists_of};
ghost use Rattle.expanding.specs.Views.{seen_scripts};
ghost use Rattle.pasting.specs.Views.{seen_quotation, seen_quote};
ghost use Rattle.editscripts.specs.Quoted.{AreQuotesOf, quoted_of, done_quotations};
ghost use Rattle.editscripts.specs.Views.{seen_quotes};

use crate::described::was_done;
use mmtext::Token;
use pasting::{Quotation, Quote, quotes_in};
use std::alloc::{AllocError, Global};
use transaction::Outcome;

/// What scripts give in their own words, by the words of each.
pub fn quotes_of<'a>(
    alloc: Global,
    scripts: &[Vec<Token<'a>>],
) -> Result<Vec<Vec<Quote<'a>>>, AllocError>
    ensures { IfOk result (λ all. AreQuotesOf (seen_scripts scripts.now) (seen_quotes all.items)) }
{
    let mut all = Vec::new(alloc);
    for words in scripts {
        all.push(quotes_in(alloc, words.as_slice())?)?;
    }
    Ok(all)
}

/// Puts what a script gives whose transactions were done.
fn put_done<'q>(
    made: &mut Vec<Quotation<'q>>,
    row: &[Outcome],
    quotes: &'q [Quote<'q>],
) -> Result<(), AllocError>
    ensures { OnOk result (map seen_quotation made.new.items ≡ map seen_quotation made.old.items
        ++ quoted_of row.now (map seen_quote quotes.now)) }
{
    for quote in quotes {
        if was_done(row, quote.transaction) {
            made.push(Quotation {
                label: quote.label,
                words: &quote.words,
            })?;
        }
    }
    Ok(())
}

/// What scripts give whose transactions were done, the last first.
pub fn done_quotations<'q>(
    alloc: Global,
    rows: &[Vec<Outcome>],
    all: &'q [Vec<Quote<'q>>],
) -> Result<Vec<Quotation<'q>>, AllocError>
    ensures { IfOk result (λ made. map seen_quotation made.items ≡ done_quotations (lists_of rows.now) (seen_quotes all.now)) }
{
    let mut made = Vec::new(alloc);
    for (row, quotes) in rows.iter().zip(all) {
        put_done(&mut made, row.as_slice(), quotes.as_slice())?;
    }
    made.reverse();
    Ok(made)
}
