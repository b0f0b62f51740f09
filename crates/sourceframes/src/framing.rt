//! How an assertion is cited, made once for each.

ghost use Rattle.std.specs.Prelude.{◌≡◌, ◌<◌, ◌||◌, List, Bool, map, filter, length, slice_get, Some, IfOk, OnOk};
ghost use Rattle.std.specs.List.{list_any};
ghost use Rattle.std.specs.Str.{bytes_eq};
ghost use Rattle.mmtext.specs.Words.{Word};
ghost use Rattle.mmsyntax.specs.Tables.{place_of};
ghost use Rattle.source.specs.Scopes.{Hypothesis, Assertion, is_in, stands_in, is_mandatory_variable, mandatory};
ghost use Rattle.source.specs.Views.{seen_words, seen_hypothesis, seen_hypotheses, seen_pairs};
ghost use Rattle.sourceframes.specs.Names.{words_of, IsSound, Keeps, Lasts};
ghost use Rattle.sourceframes.specs.declared.frame.Piece.TheVariants.{Argument};
ghost use Rattle.sourceframes.specs.Marks.{HaveNumbers};
ghost use Rattle.sourceframes.specs.Frames.{found, part_in, part_of, asked_in, asked_of, variable_of, seen_variable, AreVariables, is_that, is_kept, parts_in, parts_of, IsFrameOf};

use crate::frame::{Demand, Frame, Piece};
use crate::marks::Marked;
use crate::table::Table;
use crate::variables::Variables;
use source::{Declared, HypothesisWords};
use std::alloc::{AllocError, Global};

/// What stands for the argument at a place. No source has more places than a `u32` counts: they would be refused as if memory were wanting.
fn argument_at(place: usize) -> Result<Piece, AllocError>
    ensures { IfOk result (λ p. p ≡ Argument place) }
{
    match u32::try_from(place) {
        Ok(place) => Ok(Piece::Argument(place)),
        Err(_) => Err(AllocError),
    }
}

/// A symbol of an assertion with these variables. After an error nothing is said of the table.
fn piece_of<'a>(
    table: &mut Table<'a>,
    variables: &Variables<'a>,
    word: &'a [u8],
) -> Result<Piece, AllocError>
    requires { IsSound table.old }
    ensures keeps { OnOk result (Keeps table.old table.new) }
    ensures made { IfOk result (λ p. (hs : List Hypothesis) → AreVariables hs variables.now
        → Lasts (words_of table.new) (λ name. part_of name p ≡ part_in hs word.entry.now)) }
{
    match variables.place_of(word) {
        Some(place) => argument_at(place),
        None => Ok(Piece::Itself(table.number(word)?)),
    }
}

/// Symbols of an assertion with these variables. After an error nothing is said of the table.
fn pieces_of<'a>(
    alloc: Global,
    table: &mut Table<'a>,
    variables: &Variables<'a>,
    words: &[&'a [u8]],
) -> Result<Vec<Piece>, AllocError>
    requires { IsSound table.old }
    ensures keeps { OnOk result (Keeps table.old table.new) }
    ensures made { IfOk result (λ ps. (hs : List Hypothesis) → AreVariables hs variables.now
        → Lasts (words_of table.new) (λ name. map (part_of name) ps.items ≡ map (part_in hs) (seen_words words.now))) }
{
    let mut pieces = Vec::with_capacity(alloc, words.len())?;
    for word in words {
        pieces.push(piece_of(table, variables, *word)?)?;
    }
    Ok(pieces)
}

/// What is asked of the argument of a hypothesis. After an error nothing is said of the table.
fn demand_of<'a>(
    alloc: Global,
    table: &mut Table<'a>,
    variables: &Variables<'a>,
    hypothesis: &HypothesisWords<'a>,
) -> Result<Demand, AllocError>
    requires { IsSound table.old }
    ensures keeps { OnOk result (Keeps table.old table.new) }
    ensures made { IfOk result (λ d. (hs : List Hypothesis) → AreVariables hs variables.now
        → Lasts (words_of table.new) (λ name. asked_of name d ≡ asked_in hs (seen_hypothesis hypothesis.now))) }
{
    match hypothesis {
        HypothesisWords::Typing(_, type_code, _) => Ok(Demand::Typed(table.number(*type_code)?)),
        HypothesisWords::Premise(_, words) => Ok(Demand::Equal(pieces_of(
            alloc,
            table,
            variables,
            words.as_slice(),
        )?)),
    }
}

/// What is asked of the arguments of hypotheses. After an error nothing is said of the table.
fn demands_of<'a>(
    alloc: Global,
    table: &mut Table<'a>,
    variables: &Variables<'a>,
    hypotheses: Vec<&HypothesisWords<'a>>,
) -> Result<Vec<Demand>, AllocError>
    requires { IsSound table.old }
    ensures keeps { OnOk result (Keeps table.old table.new) }
    ensures made { IfOk result (λ ds. (hs : List Hypothesis) → AreVariables hs variables.now
        → Lasts (words_of table.new) (λ name. map (asked_of name) ds.items
        ≡ map (asked_in hs) (seen_hypotheses hypotheses.entry.items))) }
{
    let mut demands = Vec::with_capacity(alloc, hypotheses.len())?;
    for hypothesis in hypotheses {
        demands.push(demand_of(alloc, table, variables, hypothesis)?)?;
    }
    Ok(demands)
}

/// The symbols of a `$e` behind others.
fn mention<'a>(
    mentioned: &mut Vec<&'a [u8]>,
    hypothesis: &HypothesisWords<'a>,
) -> Result<(), AllocError>
    ensures { OnOk result ((w : Word) → is_in (seen_words mentioned.new.items) w
        ≡ (is_in (seen_words mentioned.old.items) w || stands_in w (seen_hypothesis hypothesis.now))) }
{
    if let HypothesisWords::Premise(_, words) = hypothesis {
        mentioned.extend_from_slice(words.as_slice())?;
    }
    Ok(())
}

/// The symbols of a statement, and those of the `$e` among hypotheses.
fn mentioned_in<'a>(
    alloc: Global,
    statement: &[&'a [u8]],
    hypotheses: Vec<&HypothesisWords<'a>>,
) -> Result<Vec<&'a [u8]>, AllocError>
    ensures { IfOk result (λ made. (w : Word) → is_in (seen_words made.items) w
        ≡ is_mandatory_variable (seen_hypotheses hypotheses.entry.items) (seen_words statement.now) w) }
{
    let mut mentioned = Vec::from_slice(alloc, statement)?;
    for hypothesis in hypotheses {
        mention(&mut mentioned, hypothesis)?;
    }
    Ok(mentioned)
}

/// Whether a word is one of these, which have these numbers. After an error nothing is said of the table.
fn is_among<'a>(
    table: &mut Table<'a>,
    _words: &[&'a [u8]],
    numbers: &Marked,
    word: &'a [u8],
) -> Result<bool, AllocError>
    requires sound { IsSound table.old }
    requires numbers { HaveNumbers (words_of table.old) (seen_words _words.now) numbers.now }
    ensures keeps { OnOk result (Keeps table.old table.new) }
    ensures among { IfOk result (λ among. among ≡ is_in (seen_words _words.now) word.entry.now) }
{
    let number = table.number(word)?;
    Ok(numbers.contains(number))
}

/// Whether both variables of a pair are among these words, which have these numbers. After an error nothing is said of the table.
fn is_kept<'a>(
    table: &mut Table<'a>,
    words: &[&'a [u8]],
    numbers: &Marked,
    pair: (&'a [u8], &'a [u8]),
) -> Result<bool, AllocError>
    requires sound { IsSound table.old }
    requires numbers { HaveNumbers (words_of table.old) (seen_words words.now) numbers.now }
    ensures keeps { OnOk result (Keeps table.old table.new) }
    ensures kept { IfOk result (λ kept. kept ≡ is_kept (seen_words words.now) (pair.entry.0.now, pair.entry.1.now)) }
{
    if !is_among(table, words, numbers, pair.0)? {
        return Ok(false);
    }
    is_among(table, words, numbers, pair.1)
}

/// The numbers of words, in which each is found by a look-up. After an error nothing is said of the table.
fn marked_of<'a>(
    alloc: Global,
    table: &mut Table<'a>,
    words: &[&'a [u8]],
) -> Result<Marked, AllocError>
    requires { IsSound table.old }
    ensures keeps { OnOk result (Keeps table.old table.new) }
    ensures numbers { IfOk result (HaveNumbers (words_of table.new) (seen_words words.now)) }
{
    let numbers = table.numbers(alloc, words)?;
    Marked::new(alloc, table.keys(), numbers, table.count())
}

/// The two variables of a pair. After an error nothing is said of the table.
fn pair_of<'a>(
    table: &mut Table<'a>,
    variables: &Variables<'a>,
    pair: (&'a [u8], &'a [u8]),
) -> Result<(Piece, Piece), AllocError>
    requires { IsSound table.old }
    ensures keeps { OnOk result (Keeps table.old table.new) }
    ensures made { IfOk result (λ q. (hs : List Hypothesis) → AreVariables hs variables.now
        → Lasts (words_of table.new) (λ name. parts_of name q ≡ parts_in hs (pair.entry.0.now, pair.entry.1.now))) }
{
    let first = piece_of(table, variables, pair.0)?;
    let second = piece_of(table, variables, pair.1)?;
    Ok((first, second))
}

/// The pairs of two variables that are mentioned. After an error nothing is said of the table.
fn pairs_of<'a>(
    alloc: Global,
    table: &mut Table<'a>,
    variables: &Variables<'a>,
    mentioned: &[&'a [u8]],
    pairs: Vec<(&'a [u8], &'a [u8])>,
) -> Result<Vec<(Piece, Piece)>, AllocError>
    requires { IsSound table.old }
    ensures keeps { OnOk result (Keeps table.old table.new) }
    ensures made { IfOk result (λ qs. (hs : List Hypothesis) → AreVariables hs variables.now
        → Lasts (words_of table.new) (λ name. map (parts_of name) qs.items
        ≡ map (parts_in hs) (filter (is_kept (seen_words mentioned.now)) (seen_pairs pairs.entry.items)))) }
{
    if pairs.is_empty() {
        return Ok(Vec::new(alloc));
    }
    let numbers = marked_of(alloc, table, mentioned)?;
    let mut kept = Vec::new(alloc);
    for pair in pairs {
        if is_kept(table, mentioned, &numbers, pair)? {
            kept.push(pair_of(table, variables, pair)?)?;
        }
    }
    Ok(kept)
}

/// How the assertion at a place, with this statement, is cited. After an error nothing is said of the table.
///
/// # Errors
///
/// Want of memory.
pub fn frame_of<'a, D: Declared<'a>>(
    alloc: Global,
    table: &mut Table<'a>,
    declared: &D,
    place: usize,
    words: &[&'a [u8]],
) -> Result<Frame, AllocError>
    requires sound { IsSound table.old }
    requires within { place < length (D.scope declared.now).assertions }
    ensures keeps { OnOk result (Keeps table.old table.new) }
    ensures made { IfOk result (λ f. (x : Assertion) → slice_get (D.scope declared.now).assertions place ≡ Some x
        → mandatory x.active x.statement ≡ x.hypotheses → seen_words words.now ≡ x.statement
        → Lasts (words_of table.new) (λ name. IsFrameOf name f x)) }
{
    let mandatory = declared.mandatory(alloc, place)?;
    let variables = Variables::new(alloc, table.keys(), mandatory.clone()?)?;
    let demands = demands_of(alloc, table, &variables, mandatory.clone()?)?;
    let mentioned = mentioned_in(alloc, words, mandatory)?;
    let statement = pieces_of(alloc, table, &variables, words)?;
    let pairs = pairs_of(
        alloc,
        table,
        &variables,
        mentioned.as_slice(),
        declared.pairs(alloc, place)?,
    )?;
    Ok(Frame {
        demands,
        statement,
        pairs,
    })
}
