//! Reading a command: one function for each kind of word in it.

ghost use Rattle.std.specs.Prelude.{◌≡◌, ◌∷◌, [], Ok, length, IfOk};
ghost use Rattle.std.specs.Str.{bytes_eq};
ghost use Rattle.mmtext.specs.Text.{mark_of, Token as SeenToken};
ghost use Rattle.mmtext.specs.Views.{seen, Gives};
ghost use Rattle.mmsyntax.specs.Tables.{Tables};
ghost use Rattle.mmsyntax.specs.Faults.{row};
ghost use Rattle.statementreader.specs.UnitReadings.{position_of};
ghost use Rattle.statementreader.specs.Takings.{IsSmallNamed, TakesItem, step_or_fault};
ghost use Rattle.statementreader.specs.Recalls.{RecallsTrue};
ghost use Rattle.scripts.specs.Scripts.{other_step_of};
ghost use Rattle.scripts.specs.ScriptFaults.{behind_verb, command_word, in_command, proof_start, step_row, unit_row, verb_of};
ghost use Rattle.scripts.specs.ScriptViews.{label_at, rank_at, behind_labels, seen_labels, AsksLabel};
ghost use Rattle.scripts.specs.ScriptViews.{decided, seen_command_place, seen_led, TakesInCommand};

use super::numerals::{hypothesis_place, is_numeral};
use super::place::{CommandPlace, Labels, Led, Verb};
use library::Command;
use mmsyntax::numeral::number;
use mmsyntax::{Label, Prelude, Proof};
use mmtext::{FaultKind, Mark, Stop, Token, contains_dollar, fault_at, mark_word};
use statementreader::{
    Named, Recent, StepPlace, UnitProgress, UnitReader, named_step, push_named, recalled_named_step,
};
use std::alloc::{AllocError, Global};

/// A label: a word without `$`.
///
/// # Errors
///
/// `BadToken` at a token with `$`, or want of memory.
pub fn read_label(alloc: Global, token: Token<'_>) -> Result<Label, Stop>
    ensures { Gives (λ l. l) result (label_at (seen token.entry)) }
{
    if contains_dollar(token.text) {
        return Err(fault_at(token, FaultKind::BadToken));
    }
    Ok(Label::from_slice(alloc, token.text)?)
}

/// A rank: a numeral, up to 4,294,967,295.
///
/// # Errors
///
/// `BadToken` at a token that is no numeral, and `TooLong` at a higher number.
pub fn read_rank(token: Token<'_>) -> Result<u32, Stop>
    ensures { Gives (λ n. n) result (rank_at (seen token.entry)) }
{
    if !is_numeral(token.text) {
        return Err(fault_at(token, FaultKind::BadToken));
    }
    match number(token.text) {
        Some(rank) => Ok(rank),
        None => Err(fault_at(token, FaultKind::TooLong)),
    }
}

/// A token of the assertion of `add`.
fn read_in_unit<'a>(
    alloc: Global,
    prelude: &Prelude,
    rank: u32,
    reader: UnitReader<'a>,
    token: Token<'a>,
) -> Result<Led<'a>, Stop>
    ensures { Gives (seen_led prelude.now) result
        (decided (seen token.entry) (unit_row (λ a. Command.Add rank a) (row (position_of prelude.now reader.entry) (seen token.entry)))) }
{
    match reader.read(alloc, prelude, token)? {
        UnitProgress::Within(reader) => {
            let reader = Box::new(alloc, reader)?;
            Ok(Led::Inside(CommandPlace::InUnit(rank, reader)))
        }
        UnitProgress::Whole(assertion) => Ok(Led::Whole(Command::Add { rank, assertion })),
    }
}

/// Behind `reprove` and a label: `$=`.
fn read_proof_start<'a>(alloc: Global, label: Label, token: Token<'a>) -> Result<Led<'a>, Stop>
    ensures { (t : Tables) → Gives (seen_led t) result
        (decided (seen token.entry) (proof_start label (λ steps. Command.Reprove label steps) (mark_of token.entry.text.now))) }
{
    if mark_word(token.text) != Mark::Proof {
        return Err(fault_at(token, FaultKind::BadToken));
    }
    Ok(Led::Inside(CommandPlace::InProof(label, Proof::new(alloc))))
}

/// What a word names as a step behind `count` steps of another proof of an assertion with a label, or why it names nothing.
fn other_step(
    prelude: &Prelude,
    label: &[u8],
    count: usize,
    word: &[u8],
) -> Result<Named, FaultKind>
    ensures named { step_or_fault word.now result ≡ other_step_of prelude.now label.now count word.now }
    ensures small { IfOk result IsSmallNamed }
{
    let hypothesis = hypothesis_place(label, word);
    let step = StepPlace { label, count };
    named_step(prelude.symbols(), step, hypothesis, word)
}

/// The same, of a word that was looked up lately or is looked up now.
fn recalled_other_step<'a>(
    alloc: Global,
    prelude: &Prelude,
    recent: &mut Recent<'a>,
    label: &[u8],
    count: usize,
    word: &'a [u8],
) -> Result<Result<Named, FaultKind>, AllocError>
    requires { RecallsTrue prelude.now recent.old }
    ensures knows { RecallsTrue prelude.now recent.new }
    ensures named { IfOk result (λ r. step_or_fault word.now r ≡ other_step_of prelude.now label.now count word.now) }
    ensures small { IfOk result (λ r. IfOk r IsSmallNamed) }
{
    let hypothesis = hypothesis_place(label, word);
    let symbols = prelude.symbols();
    let step = StepPlace { label, count };
    recalled_named_step(alloc, symbols, recent, step, hypothesis, word)
}

/// A step of another proof, or the `$.` behind one.
fn read_step<'a>(
    alloc: Global,
    prelude: &Prelude,
    label: Label,
    mut steps: Proof,
    token: Token<'a>,
) -> Result<Led<'a>, Stop>
    ensures { Gives (seen_led prelude.now) result (decided (seen token.entry)
        (step_row prelude.now label (λ given. Command.Reprove label given) steps (seen token.entry) (mark_of token.entry.text.now))) }
{
    if mark_word(token.text) == Mark::End && !steps.is_empty() {
        return Ok(Led::Whole(Command::Reprove { label, steps }));
    }
    match other_step(prelude, label.as_slice(), steps.len(), token.text) {
        Ok(named) => {
            push_named(alloc, &mut steps, named, token.text)?;
            Ok(Led::Inside(CommandPlace::InProof(label, steps)))
        }
        Err(kind) => Err(fault_at(token, kind)),
    }
}

/// Puts the step that a word is behind others of another proof of an assertion with a label. A word with a `$` is left: whether it had
/// none.
fn take_step<'a>(
    alloc: Global,
    prelude: &Prelude,
    recent: &mut Recent<'a>,
    label: &[u8],
    steps: &mut Proof,
    token: Token<'a>,
) -> Result<bool, Stop>
    requires { RecallsTrue prelude.now recent.old }
    ensures knows { RecallsTrue prelude.now recent.new }
    ensures taken { TakesItem (seen token.entry) steps.old steps.new
        (other_step_of prelude.now label.now (length steps.old) token.entry.text.now) result }
{
    if contains_dollar(token.text) {
        return Ok(false);
    }
    match recalled_other_step(alloc, prelude, recent, label, steps.len(), token.text)? {
        Ok(named) => {
            recent.push_named(alloc, steps, named, token.text)?;
            Ok(true)
        }
        Err(kind) => Err(fault_at(token, kind)),
    }
}

/// Takes a word without `$` that stands in a command, outside of comments, if that is a step of a proof or a symbol of an expression, which
/// grow where they lie: whether it did. What was looked up lately is of the same prelude.
///
/// # Errors
///
/// As [`read_in_command`].
pub fn take_in_command<'a>(
    alloc: Global,
    prelude: &Prelude,
    recent: &mut Recent<'a>,
    place: &mut CommandPlace<'a>,
    token: Token<'a>,
) -> Result<bool, Stop>
    requires { RecallsTrue prelude.now recent.old }
    ensures knows { RecallsTrue prelude.now recent.new }
    ensures taken { TakesInCommand prelude.now (seen_command_place prelude.now place.old) (seen token.entry)
        (seen_command_place prelude.now place.new) result }
{
    match place {
        CommandPlace::InProof(label, steps) => {
            take_step(alloc, prelude, recent, label.as_slice(), steps, token)
        }
        CommandPlace::InUnit(_, reader) => reader.take_word(alloc, prelude, recent, token),
        _ => Ok(false),
    }
}

/// Whether a token is a word.
pub(super) fn is_word(token: Token<'_>, word: &[u8]) -> bool
    ensures { result ≡ bytes_eq token.entry.text.now word.now }
{
    token.text == word
}

/// The command that a word begins.
fn verb_of(token: Token<'_>) -> Option<Verb>
    ensures { result ≡ verb_of token.entry.text.now }
{
    if is_word(token, b"add") {
        Some(Verb::Add)
    } else if is_word(token, b"reprove") {
        Some(Verb::Reprove)
    } else if is_word(token, b"replace") {
        Some(Verb::Replace)
    } else if is_word(token, b"rename") {
        Some(Verb::Rename)
    } else if is_word(token, b"move") {
        Some(Verb::Move)
    } else if is_word(token, b"delete") {
        Some(Verb::Delete)
    } else if is_word(token, b"show") {
        Some(Verb::Show)
    } else if is_word(token, b"list") {
        Some(Verb::List)
    } else {
        None
    }
}

/// Where the word of a command leads.
///
/// # Errors
///
/// `BadToken` at any other token.
pub fn read_command_word<'a>(token: Token<'a>) -> Result<Led<'a>, Stop>
    ensures { (t : Tables) → Gives (seen_led t) result (decided (seen token.entry) (command_word t token.entry.text.now)) }
{
    match verb_of(token) {
        Some(Verb::List) => Ok(Led::Whole(Command::List)),
        Some(verb) => Ok(Led::Inside(CommandPlace::Behind(verb, Labels::NoLabel))),
        None => Err(fault_at(token, FaultKind::BadToken)),
    }
}

/// Behind `add`: its rank.
fn read_added_rank<'a>(alloc: Global, prelude: &Prelude, token: Token<'a>) -> Result<Led<'a>, Stop>
    ensures { Gives (seen_led prelude.now) result
        (decided (seen token.entry) (in_command prelude.now (behind_verb prelude.now Verb.Add) (seen token.entry))) }
{
    let rank = read_rank(token)?;
    let reader = Box::new(alloc, UnitReader::new(alloc, prelude.keys()))?;
    Ok(Led::Inside(CommandPlace::InUnit(rank, reader)))
}

/// Behind `move` and a label: the new rank.
fn read_new_rank<'a>(label: Label, token: Token<'a>) -> Result<Led<'a>, Stop>
    ensures { (t : Tables) → Gives (seen_led t) result (decided (seen token.entry)
        (in_command t (behind_labels (behind_verb t Verb.Move) (label ∷ [])) (seen token.entry))) }
{
    let rank = read_rank(token)?;
    Ok(Led::Whole(Command::Move { label, rank }))
}

/// Where one more label leads: in the command, or behind it. Behind all its labels none may stand.
fn behind_label<'a>(
    verb: Verb,
    labels: Labels,
    label: Label,
    token: Token<'a>,
) -> Result<Led<'a>, Stop>
    requires { AsksLabel verb labels }
    ensures { (t : Tables) → label_at (seen token.entry) ≡ Ok label → Gives (seen_led t) result (decided (seen token.entry)
        (in_command t (behind_labels (behind_verb t verb) (seen_labels labels)) (seen token.entry))) }
{
    let given = match (verb, labels) {
        (Verb::Delete, Labels::NoLabel) => return Ok(Led::Whole(Command::Delete { label })),
        (Verb::Show, Labels::NoLabel) => return Ok(Led::Whole(Command::Show { label })),
        (Verb::Rename, Labels::One(old)) => {
            return Ok(Led::Whole(Command::Rename { old, new: label }));
        }
        (Verb::Replace, Labels::Two(citer, old)) => {
            return Ok(Led::Whole(Command::Replace {
                label: citer,
                old,
                new: label,
            }));
        }
        (Verb::Replace, Labels::One(citer)) => Labels::Two(citer, label),
        (Verb::Reprove | Verb::Replace | Verb::Rename | Verb::Move, Labels::NoLabel) => {
            Labels::One(label)
        }
        _ => return Err(fault_at(token, FaultKind::BadToken)),
    };
    Ok(Led::Inside(CommandPlace::Behind(verb, given)))
}

/// Where a label is wanted, or nothing.
fn read_at_label<'a>(
    alloc: Global,
    verb: Verb,
    labels: Labels,
    token: Token<'a>,
) -> Result<Led<'a>, Stop>
    requires { AsksLabel verb labels }
    ensures { (t : Tables) → Gives (seen_led t) result (decided (seen token.entry)
        (in_command t (behind_labels (behind_verb t verb) (seen_labels labels)) (seen token.entry))) }
{
    match read_label(alloc, token) {
        Ok(label) => behind_label(verb, labels, label, token),
        Err(stop) => {
            drop(labels);
            Err(stop)
        }
    }
}

/// Behind the word of a command and labels.
fn read_behind<'a>(
    alloc: Global,
    prelude: &Prelude,
    verb: Verb,
    labels: Labels,
    token: Token<'a>,
) -> Result<Led<'a>, Stop>
    ensures { Gives (seen_led prelude.now) result (decided (seen token.entry)
        (in_command prelude.now (behind_labels (behind_verb prelude.now verb) (seen_labels labels)) (seen token.entry))) }
{
    match (verb, labels) {
        (Verb::Add, Labels::NoLabel) => read_added_rank(alloc, prelude, token),
        (Verb::Reprove, Labels::One(label)) => read_proof_start(alloc, label, token),
        (Verb::Move, Labels::One(label)) => read_new_rank(label, token),
        (verb, labels) => read_at_label(alloc, verb, labels, token),
    }
}

/// Where a token leads that stands in a command, outside of comments. All tokens of a command are read over one prelude.
///
/// # Errors
///
/// The fault that [`read_script`](super::read_script) has at the token, or want of memory.
pub fn read_in_command<'a>(
    alloc: Global,
    prelude: &Prelude,
    place: CommandPlace<'a>,
    token: Token<'a>,
) -> Result<Led<'a>, Stop>
    ensures { Gives (seen_led prelude.now) result
        (decided (seen token.entry) (in_command prelude.now (seen_command_place prelude.now place.entry) (seen token.entry))) }
{
    match place {
        CommandPlace::Behind(verb, labels) => read_behind(alloc, prelude, verb, labels, token),
        CommandPlace::InUnit(rank, reader) => {
            read_in_unit(alloc, prelude, rank, Box::into_inner(reader), token)
        }
        CommandPlace::InProof(label, steps) => read_step(alloc, prelude, label, steps, token),
    }
}
