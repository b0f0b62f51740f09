//! What is noted behind an edit that was done: how many transactions were, and where the source with the edits is.

ghost use Rattle.std.specs.Prelude.{◌≡◌, ◌++◌, ◌∷◌, [], ℕ, List, IfOk, OnOk, string_bytes};
ghost use Rattle.outside.specs.Events.{Event, Adds, notes};
ghost use Rattle.program.specs.Summaries.{all_noted, comma_if, counted_if, grouped, put_text, summary, with_commas, IsDoneNoted, IsNotedIf, IsSummary};

use commandline::Destination;
use edittext::{Account, Counts};
use outside::World;
use std::alloc::{AllocError, Global};

/// Puts a comma behind a text, where three digits follow, or a multiple of that.
fn put_comma(text: &mut Vec<u8>, rest: &[u8]) -> Result<(), AllocError>
    ensures { OnOk result (text.new.items ≡ text.old.items ++ comma_if rest.now) }
{
    if !rest.is_empty() && rest.len() % 3 == 0 {
        text.push(b',')?;
    }
    Ok(())
}

/// Digits with commas between groups of three, the last of which ends with the last digit.
fn with_commas(alloc: Global, digits: &[u8]) -> Result<Vec<u8>, AllocError>
    ensures { IfOk result (λ text. text.items ≡ with_commas digits.now) }
{
    let mut text = Vec::new(alloc);
    for place in 0..digits.len() {
        text.push(digits[place])?;
        put_comma(&mut text, &digits[place + 1..])?;
    }
    Ok(text)
}

/// A number with commas between groups of three digits.
fn grouped(alloc: Global, number: usize) -> Result<String, AllocError>
    ensures { IfOk result (λ text. string_bytes text ≡ grouped number) }
{
    let digits = format!(in alloc; "{number}")?;
    let text = with_commas(alloc, digits.as_bytes())?;
    String::from_utf8_lossy(alloc, text.as_slice())
}

/// That there are so many, and what they are, if there are any.
fn counted_if(alloc: Global, many: usize, what: &str) -> Result<String, AllocError>
    ensures { IfOk result (λ text. string_bytes text ≡ counted_if many what.now) }
{
    if many == 0 {
        return Ok(String::new(alloc));
    }
    let many = grouped(alloc, many)?;
    format!(in alloc; ", {many}{what}")
}

/// What became of the edited source, which is where it is to be.
fn put_text(alloc: Global, place: Destination<'_>, source: &str) -> Result<String, AllocError>
    ensures { IfOk result (λ text. string_bytes text ≡ put_text place.entry source.now) }
{
    match place {
        Destination::Printed => String::from_str(alloc, "printed"),
        Destination::File(path) => format!(in alloc; "{path} written"),
        Destination::Source => format!(in alloc; "{source} written"),
    }
}

/// How many transactions were done, how many were not, and where the edited source is, which has so many bytes.
fn summary(
    alloc: Global,
    place: Destination<'_>,
    source: &str,
    bytes: usize,
    counts: Counts,
) -> Result<String, AllocError>
    ensures { IfOk result (λ line. string_bytes line ≡ summary place.entry source.now bytes counts) }
{
    let committed = grouped(alloc, counts.committed)?;
    let read = counted_if(alloc, counts.read, " only read")?;
    let undone = counted_if(alloc, counts.undone, " not done")?;
    let put = put_text(alloc, place, source)?;
    let bytes = grouped(alloc, bytes)?;
    format!(in alloc; "{committed} committed{read}{undone}; {put}, {bytes} bytes")
}

/// Notes lines, one after another.
fn note_all<W: World>(world: &mut W, lines: &[String])
    ensures { Adds (W.done world.old) (W.done world.new) (all_noted lines.now) }
{
    for line in lines {
        world.note(line.as_str());
    }
}

/// Notes how many transactions were done, how many were not, and where the edited source is, which has so many bytes; or that there is no
/// memory for that line.
fn note_summary<W: World>(
    world: &mut W,
    alloc: Global,
    place: Destination<'_>,
    source: &str,
    bytes: usize,
    counts: Counts,
)
    ensures { (line : List ℕ) × Adds (W.done world.old) (W.done world.new) (notes line ∷ [])
        × IsSummary place.entry source.now bytes counts line }
{
    match summary(alloc, place, source, bytes, counts) {
        Ok(line) => world.note(line.as_str()),
        Err(_) => world.note("no memory"),
    }
}

/// Notes that, and then which labels comments still mention.
fn note_done<W: World>(
    world: &mut W,
    alloc: Global,
    place: Destination<'_>,
    source: &str,
    bytes: usize,
    account: &Account,
)
    ensures { (es : List Event) × Adds (W.done world.old) (W.done world.new) es
        × IsDoneNoted place.entry source.now bytes account.now es }
{
    note_summary(world, alloc, place, source, bytes, account.counts);
    note_all(world, account.mentions.as_slice());
}

/// Notes that, where the edited source is where it is to be.
pub(crate) fn note_if<W: World>(
    world: &mut W,
    alloc: Global,
    written: bool,
    place: Destination<'_>,
    source: &str,
    bytes: usize,
    account: &Account,
)
    ensures { (es : List Event) × Adds (W.done world.old) (W.done world.new) es
        × IsNotedIf written place.entry source.now bytes account.now es }
{
    if written {
        note_done(world, alloc, place, source, bytes, account);
    }
}
