//! The lines that tell what a step at fault asks for, and what it finds.

ghost use Rattle.std.specs.Prelude.{◌≡◌, ◌++◌, ◌∷◌, take, codes, IfOk, OnOk, string_bytes};
ghost use Rattle.std.specs.List.{flat_map};
ghost use Rattle.source.specs.Views.{seen_words};
ghost use Rattle.locating.specs.Told.{shown};
ghost use Rattle.verifytext.specs.FindingLines.{spaced, shown_expression, keeps_apart, put_for, not_apart, finding_lines};

use explaining::Finding;
use locating::printed_name;
use std::alloc::{AllocError, Global};

/// The most symbols of an expression that are shown.
const MOST_SHOWN: usize = 400;

/// Puts symbols with a space in front of each.
fn put_symbols(out: &mut String, symbols: &[&[u8]]) -> Result<(), AllocError>
    ensures { OnOk result (string_bytes out.new ≡ string_bytes out.old ++ flat_map (λ w. 32 ∷ shown w) (seen_words symbols.now)) }
{
    for symbol in symbols {
        out.push_str(" ")?;
        out.push_str(printed_name(*symbol))?;
    }
    Ok(())
}

/// Symbols with one space between them.
fn spaced(alloc: Global, symbols: &[&[u8]]) -> Result<String, AllocError>
    ensures { IfOk result (λ text. string_bytes text ≡ spaced (seen_words symbols.now)) }
{
    let Some((first, rest)) = symbols.split_first() else {
        return Ok(String::new(alloc));
    };
    let mut out = String::from_str(alloc, printed_name(*first))?;
    put_symbols(&mut out, rest)?;
    Ok(out)
}

/// The first symbols of an expression, as many as are shown.
fn first_symbols<'s, 'a>(symbols: &'s [&'a [u8]]) -> &'s [&'a [u8]]
    ensures { seen_words result.now ≡ take 400 (seen_words symbols.now) }
{
    &symbols[..symbols.len().min(MOST_SHOWN)]
}

/// The first symbols of an expression, and how many more there are.
fn shown_expression(alloc: Global, symbols: &[&[u8]]) -> Result<String, AllocError>
    ensures { IfOk result (λ text. string_bytes text ≡ shown_expression (seen_words symbols.now)) }
{
    if symbols.is_empty() {
        return String::from_str(alloc, "nothing");
    }
    if symbols.len() <= MOST_SHOWN {
        return spaced(alloc, symbols);
    }
    let front = spaced(alloc, first_symbols(symbols))?;
    let more = symbols.len() - MOST_SHOWN;
    format!(in alloc; "{front} .. and {more} more")
}

/// Of the type that a `$f` takes.
fn type_lines(
    alloc: Global,
    cited: &[u8],
    float: &[u8],
    wanted: &[u8],
    found: &[&[u8]],
) -> Result<String, AllocError>
    ensures { IfOk result (λ text. string_bytes text ≡ codes "\n  " ++ (shown float.now ++ (codes " of " ++ (shown cited.now
        ++ (codes " takes: " ++ (shown wanted.now ++ (codes "\n  found: " ++ shown_expression (seen_words found.now)))))))) }
{
    let (float, cited, wanted) = (
        printed_name(float),
        printed_name(cited),
        printed_name(wanted),
    );
    let found = shown_expression(alloc, found)?;
    format!(in alloc; "\n  {float} of {cited} takes: {wanted}\n  found: {found}")
}

/// Of what a `$e` says.
fn premise_lines(
    alloc: Global,
    cited: &[u8],
    premise: &[u8],
    wanted: &[&[u8]],
    found: &[&[u8]],
) -> Result<String, AllocError>
    ensures { IfOk result (λ text. string_bytes text ≡ codes "\n  " ++ (shown premise.now ++ (codes " of " ++ (shown cited.now
        ++ (codes " says: " ++ (shown_expression (seen_words wanted.now)
        ++ (codes "\n  found: " ++ shown_expression (seen_words found.now)))))))) }
{
    let (premise, cited) = (printed_name(premise), printed_name(cited));
    let wanted = shown_expression(alloc, wanted)?;
    let found = shown_expression(alloc, found)?;
    format!(in alloc; "\n  {premise} of {cited} says: {wanted}\n  found: {found}")
}

/// Of what stands for a variable of a pair.
fn put_for(alloc: Global, variable: &[u8], expression: &[&[u8]]) -> Result<String, AllocError>
    ensures { IfOk result (λ text. string_bytes text ≡ codes "\n  put for " ++ (shown variable.now ++ (codes ": "
        ++ shown_expression (seen_words expression.now)))) }
{
    let variable = printed_name(variable);
    let expression = shown_expression(alloc, expression)?;
    format!(in alloc; "\n  put for {variable}: {expression}")
}

/// Of a pair.
fn keeps_apart(
    alloc: Global,
    cited: &[u8],
    first: &[u8],
    second: &[u8],
) -> Result<String, AllocError>
    ensures { IfOk result (λ text. string_bytes text ≡ keeps_apart cited.now first.now second.now) }
{
    let (cited, first, second) = (
        printed_name(cited),
        printed_name(first),
        printed_name(second),
    );
    format!(in alloc; "\n  {cited} keeps apart: {first} {second}")
}

/// Of two variables that aren't apart.
fn not_apart(alloc: Global, one: &[u8], other: &[u8]) -> Result<String, AllocError>
    ensures { IfOk result (λ text. string_bytes text ≡ not_apart one.now other.now) }
{
    let (one, other) = (printed_name(one), printed_name(other));
    format!(in alloc; "\n  not apart here: {one} {other}")
}

/// Of a pair that isn't kept: the pair, what stands for both of its variables, and which two variables of these aren't apart.
fn pair_lines(
    alloc: Global,
    keeps: &str,
    for_first: &str,
    for_second: &str,
    meeting: &str,
) -> Result<String, AllocError>
    ensures { IfOk result (λ text. string_bytes text ≡ keeps.now ++ (for_first.now ++ (for_second.now ++ meeting.now))) }
{
    format!(in alloc; "{keeps}{for_first}{for_second}{meeting}")
}

/// Of the statement.
fn statement_lines(alloc: Global, wanted: &[&[u8]], found: &[&[u8]]) -> Result<String, AllocError>
    ensures { IfOk result (λ text. string_bytes text ≡ codes "\n  stated: " ++ (shown_expression (seen_words wanted.now)
        ++ (codes "\n  proved: " ++ shown_expression (seen_words found.now)))) }
{
    let wanted = shown_expression(alloc, wanted)?;
    let found = shown_expression(alloc, found)?;
    format!(in alloc; "\n  stated: {wanted}\n  proved: {found}")
}

/// The lines of what a step at fault finds, each behind a line feed.
///
/// # Errors
///
/// Want of memory.
pub(crate) fn finding_lines(alloc: Global, finding: &Finding<'_>) -> Result<String, AllocError>
    ensures { IfOk result (λ text. string_bytes text ≡ finding_lines finding.now) }
{
    match finding {
        Finding::WrongType {
            cited,
            float,
            wanted,
            found,
        } => type_lines(alloc, cited, float, wanted, found.as_slice()),
        Finding::HypothesisDiffers {
            cited,
            premise,
            wanted,
            found,
        } => premise_lines(alloc, cited, premise, wanted.as_slice(), found.as_slice()),
        Finding::NotDisjoint {
            cited,
            first,
            second,
            for_first,
            for_second,
            one,
            other,
        } => {
            let keeps = keeps_apart(alloc, cited, first, second)?;
            let for_first = put_for(alloc, first, for_first.as_slice())?;
            let for_second = put_for(alloc, second, for_second.as_slice())?;
            let meeting = not_apart(alloc, one, other)?;
            pair_lines(
                alloc,
                keeps.as_str(),
                for_first.as_str(),
                for_second.as_str(),
                meeting.as_str(),
            )
        }
        Finding::StatementDiffers { wanted, found } => {
            statement_lines(alloc, wanted.as_slice(), found.as_slice())
        }
    }
}
