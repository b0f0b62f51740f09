//! Which theorems of a library have stand-ins.

ghost use Rattle.std.specs.Prelude.{◌≡◌, ◌++◌, IfOk, OnOk, filter_map, length, map};
ghost use Rattle.std.specs.List.{flat_map, zip};
ghost use Rattle.std.specs.Option.{option_map};
ghost use Rattle.expanding.specs.Views.{seen_scripts};
ghost use Rattle.source.specs.Scopes.{Assertion, is_in};
ghost use Rattle.source.specs.Views.{seen_pairs, seen_words};
ghost use Rattle.taking.specs.Reasons.{Choice};
ghost use Rattle.sourceediting.specs.Views.{seen_followed, seen_living};
ghost use Rattle.standins.specs.StandIns.{reproved_by, reproved, stand_in, stand_ins};
ghost use Rattle.standins.specs.Views.{leaning_pair, seen_stand_ins};

use crate::labels::{free_labels, words_of};
use intake::Taken;
use library::{Command, Script};
use mmsyntax::Label;
use mmtext::Token;
use sites::Indexed;
use source::Declared;
use sourceediting::{Followed, opening_of};
use std::alloc::{AllocError, Global};
use std::hash::RandomState;
use taking::Reason;

/// A theorem that leans on an axiom.
#[derive(Debug, Drop)]
pub struct StandIn {
    /// Its label in the source.
    pub source: Label,
    /// Its label in the library, as it was taken.
    pub theorem: Label,
    /// The label of the axiom, which its proof cites.
    pub cited: Label,
}

/// The label of the theorem to which a command gives another proof, if it does.
fn reproved_by(command: &Command) -> Option<&[u8]>
    ensures { option_map (λ w. w.now) result ≡ reproved_by command.now }
{
    match command {
        Command::Reprove { label, .. } => Some(label.as_slice()),
        _ => None,
    }
}

/// Puts the labels of the theorems to which commands give other proofs.
fn put_reproved<'s>(labels: &mut Vec<&'s [u8]>, commands: &'s [Command]) -> Result<(), AllocError>
    ensures { OnOk result (seen_words labels.new.items ≡ seen_words labels.old.items ++ filter_map reproved_by commands.now) }
{
    for command in commands {
        if let Some(label) = reproved_by(command) {
            labels.push(label)?;
        }
    }
    Ok(())
}

/// Puts those of a script.
fn put_reproved_in<'s>(labels: &mut Vec<&'s [u8]>, script: &'s Script) -> Result<(), AllocError>
    ensures { OnOk result (seen_words labels.new.items
        ≡ seen_words labels.old.items ++ flat_map (filter_map reproved_by) script.now) }
{
    for transaction in script.as_slice() {
        put_reproved(labels, transaction.as_slice())?;
    }
    Ok(())
}

/// The labels of the theorems to which scripts give other proofs.
fn reproved<'s>(
    alloc: Global,
    keys: RandomState,
    scripts: &'s [Script],
) -> Result<Indexed<'s>, AllocError>
    ensures { IfOk result (λ made. made ≡ reproved scripts.now) }
{
    let mut labels = Vec::new(alloc);
    for script in scripts {
        put_reproved_in(&mut labels, script)?;
    }
    Indexed::new(alloc, keys, labels)
}

/// The labels of the theorems that are told to be axioms.
fn told<'a>(
    alloc: Global,
    keys: RandomState,
    axioms: &[(&'a [u8], Reason)],
) -> Result<Indexed<'a>, AllocError>
    ensures { IfOk result (λ made. made ≡ map (λ a. a.0.now) axioms.now) }
{
    let mut labels = Vec::with_capacity(alloc, axioms.len())?;
    for one in axioms {
        labels.push(one.0)?;
    }
    Indexed::new(alloc, keys, labels)
}

/// The labels of an assertion, if they are of both kinds: in the source one of these, and in the library one of those.
fn leaning_pair<'h>(
    told: &Indexed<'_>,
    reproved: &Indexed<'_>,
    followed: &Followed<'h>,
) -> Option<(&'h [u8], &'h [u8])>
    ensures { option_map (λ p. (p.0.now, p.1.now)) result ≡ leaning_pair told.now reproved.now (seen_followed followed.entry.now) }
{
    let source = followed.source?;
    if told.place(source).is_some() && reproved.place(followed.first).is_some() {
        return Some((source, followed.first));
    }
    None
}

/// The labels of those of a library's assertions that have labels of both kinds.
fn leaning<'h>(
    alloc: Global,
    living: &[Followed<'h>],
    told: &Indexed<'_>,
    reproved: &Indexed<'_>,
) -> Result<Vec<(&'h [u8], &'h [u8])>, AllocError>
    ensures { IfOk result (λ made. seen_pairs made.items ≡ filter_map (leaning_pair told.now reproved.now) (seen_living living.now)) }
{
    let mut found = Vec::new(alloc);
    for followed in living {
        if let Some(pair) = leaning_pair(told, reproved, followed) {
            found.push(pair)?;
        }
    }
    Ok(found)
}

/// Theorems with labels for their axioms: as many as there are labels.
fn with_labels(
    alloc: Global,
    theorems: &[(&[u8], &[u8])],
    labels: &[Label],
) -> Result<Vec<StandIn>, AllocError>
    ensures { IfOk result (λ made. seen_stand_ins made.items ≡ map stand_in (zip (seen_pairs theorems.now) labels.now)) }
{
    let mut made = Vec::new(alloc);
    for (theorem, label) in theorems.iter().zip(labels) {
        made.push(StandIn {
            source: Label::from_slice(alloc, theorem.0)?,
            theorem: Label::from_slice(alloc, theorem.1)?,
            cited: label.copy(alloc)?,
        })?;
    }
    Ok(made)
}

/// The stand-ins for the theorems of a source that are axioms of the library which was taken of it, and to which scripts give other proofs.
/// Of the scripts these are the words, by the source, and the commands.
pub(crate) fn stand_ins_for<'a, D: Declared<'a>>(
    alloc: Global,
    keys: RandomState,
    declared: &D,
    taken: &Taken<'a>,
    words: &[Vec<Token<'_>>],
    scripts: &[Script],
) -> Result<Vec<StandIn>, AllocError>
    requires { length taken.now.chosen.items ≡ length (D.scope declared.now).assertions }
    ensures { (choice : Choice) → map (λ (x : Assertion). is_in choice.chosen x.label) (D.scope declared.now).assertions
        ≡ taken.now.chosen.items
        → IfOk result (λ made. seen_stand_ins made.items
        ≡ stand_ins (D.scope declared.now) choice taken.now (seen_scripts words.now) scripts.now) }
{
    let told = told(alloc, keys, taken.axioms.as_slice())?;
    let reproved = reproved(alloc, keys, scripts)?;
    let opening = opening_of(alloc, declared, taken.chosen.as_slice(), &taken.database)?;
    let theorems = leaning(alloc, opening.living.as_slice(), &told, &reproved)?;
    if theorems.is_empty() {
        return Ok(Vec::new(alloc));
    }
    let words = words_of(alloc, keys, &taken.database, words)?;
    let labels = free_labels(alloc, &words, theorems.len())?;
    with_labels(alloc, theorems.as_slice(), labels.as_slice())
}
