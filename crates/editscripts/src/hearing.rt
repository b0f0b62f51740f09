//! What scripts say of a source, and all that is wrong with it.

ghost use Rattle.std.specs.Prelude.{◌≡◌, ◌++◌, ◌∷◌, [], IfOk, IfErr, OnOk, map};
ghost use Rattle.source.specs.Sources.{DeclaresText};
ghost use Rattle.spreading.specs.Views.{seen_misfit};
ghost use Rattle.expanding.specs.Views.{seen_scripts};
ghost use Rattle.editscripts.specs.Encouraged.{AreAllowed};
ghost use Rattle.editscripts.specs.Expanded.{IsSpreadOf};
ghost use Rattle.editscripts.specs.Faults.{IsReading, words_read, read_faults, fault_in, unfit, spread_faults, IsFaultsText};
ghost use Rattle.editscripts.specs.Gathered.{AreRead, AreSpreadOut, ArePutBarred, ArePutCounted};
ghost use Rattle.editscripts.specs.Refusals.{IsToldBy};
ghost use Rattle.editscripts.specs.Views.{seen_fault, seen_reading, seen_spread, seen_texts};

use crate::fault_lines::faults_text;
use crate::faults::{ScriptFault, What, in_order};
use crate::unedited::Unedited;
use expanding::{barred_of, discouraged_of, words_in};
use mmtext::{FaultKind, TextFault, Token};
use remarks::read_remarks;
use source::Declared;
use spreading::{Misfit, SpreadScript, spread};
use std::alloc::{AllocError, Global};
use std::hash::RandomState;

/// The words of a text outside of comments, or its first fault.
fn reading<'a>(
    alloc: Global,
    text: &'a [u8],
) -> Result<Result<Vec<Token<'a>>, TextFault>, AllocError>
    ensures { IfOk result (λ r. IsReading text.now (seen_reading r)) }
{
    match words_in(alloc, text) {
        Ok(words) => Ok(Ok(words)),
        Err(fault) => {
            if fault.kind == FaultKind::NoMemory {
                return Err(AllocError);
            }
            Ok(Err(fault))
        }
    }
}

/// Puts the words of a script, or no words and its fault.
fn put_reading<'a>(
    scripts: &mut Vec<Vec<Token<'a>>>,
    faults: &mut Vec<ScriptFault<'a>>,
    alloc: Global,
    script: usize,
    reading: Result<Vec<Token<'a>>, TextFault>,
) -> Result<(), AllocError>
    ensures words { OnOk result (seen_scripts scripts.new.items
        ≡ seen_scripts scripts.old.items ++ words_read (seen_reading reading.entry) ∷ []) }
    ensures faults { OnOk result (map seen_fault faults.new.items
        ≡ map seen_fault faults.old.items ++ read_faults script (seen_reading reading.entry)) }
{
    match reading {
        Ok(words) => scripts.push(words)?,
        Err(fault) => {
            let what = What::Wordless(fault);
            faults.push(ScriptFault { script, what })?;
            scripts.push(Vec::new(alloc))?;
        }
    }
    Ok(())
}

/// The words of texts outside of comments, and puts the faults of those that have none.
fn words_of<'a>(
    alloc: Global,
    texts: &'a [Vec<u8>],
    faults: &mut Vec<ScriptFault<'a>>,
) -> Result<Vec<Vec<Token<'a>>>, AllocError>
    ensures { IfOk result (λ scripts. AreRead (seen_texts texts.now) (map seen_fault faults.old.items) (map seen_fault faults.new.items)
        (seen_scripts scripts.items)) }
{
    let mut scripts = Vec::new(alloc);
    for (script, text) in texts.iter().enumerate() {
        let found = reading(alloc, text.as_slice())?;
        put_reading(&mut scripts, faults, alloc, script, found)?;
    }
    Ok(scripts)
}

/// Puts what doesn't fit in a script.
fn put_misfits<'a>(
    faults: &mut Vec<ScriptFault<'a>>,
    script: usize,
    misfits: &[Misfit<'a>],
) -> Result<(), AllocError>
    ensures { OnOk result (map seen_fault faults.new.items
        ≡ map seen_fault faults.old.items ++ map (λ m. fault_in script (unfit m)) (map seen_misfit misfits.now)) }
{
    for misfit in misfits {
        let what = What::Unfit(*misfit);
        faults.push(ScriptFault { script, what })?;
    }
    Ok(())
}

/// Puts the words of a script by the source, and what doesn't fit.
fn put_spread<'a>(
    outs: &mut Vec<Vec<Token<'a>>>,
    faults: &mut Vec<ScriptFault<'a>>,
    script: usize,
    out: SpreadScript<'a>,
) -> Result<(), AllocError>
    ensures words { OnOk result (seen_scripts outs.new.items ≡ seen_scripts outs.old.items ++ (seen_spread out.entry).words ∷ []) }
    ensures faults { OnOk result (map seen_fault faults.new.items
        ≡ map seen_fault faults.old.items ++ spread_faults script (seen_spread out.entry)) }
{
    let SpreadScript { words, misfits } = out;
    put_misfits(faults, script, misfits.as_slice())?;
    outs.push(words)?;
    Ok(())
}

/// The words of scripts by the source, and puts what doesn't fit.
fn spread_all<'a, D: Declared<'a>>(
    alloc: Global,
    declared: &D,
    scripts: &[Vec<Token<'a>>],
    faults: &mut Vec<ScriptFault<'a>>,
) -> Result<Vec<Vec<Token<'a>>>, AllocError>
    ensures { IfOk result (λ outs. AreSpreadOut (D.scope declared.now) (seen_scripts scripts.now) (map seen_fault faults.old.items)
        (map seen_fault faults.new.items) (seen_scripts outs.items)) }
{
    let mut outs = Vec::new(alloc);
    for (script, words) in scripts.iter().enumerate() {
        let out = spread(alloc, declared, words.as_slice())?;
        put_spread(&mut outs, faults, script, out)?;
    }
    Ok(outs)
}

/// Puts what theorems forbid.
fn put_barred<'a, D: Declared<'a>>(
    alloc: Global,
    keys: RandomState,
    declared: &D,
    scripts: &[Vec<Token<'a>>],
    faults: &mut Vec<ScriptFault<'a>>,
) -> Result<(), AllocError>
    ensures { OnOk result (ArePutBarred (D.scope declared.now) (seen_scripts scripts.now) (map seen_fault faults.old.items)
        (map seen_fault faults.new.items)) }
{
    let found = barred_of(alloc, keys, declared, scripts)?;
    for barred in found.as_slice() {
        let (script, what) = (barred.script, What::Forbidden(barred.word, barred.by));
        faults.push(ScriptFault { script, what })?;
    }
    Ok(())
}

/// Puts what comments of the source discourage, if it isn't forced. The comments are read once.
fn put_discouraged<'a, D: Declared<'a>>(
    alloc: Global,
    keys: RandomState,
    source: &'a [u8],
    declared: &D,
    force: bool,
    scripts: &[Vec<Token<'a>>],
    faults: &mut Vec<ScriptFault<'a>>,
) -> Result<(), AllocError>
    requires { DeclaresText source.now (D.scope declared.now) }
    ensures { OnOk result (ArePutCounted source.now (D.scope declared.now) force (seen_scripts scripts.now)
        (map seen_fault faults.old.items) (map seen_fault faults.new.items)) }
{
    if force {
        return Ok(());
    }
    let remarks = read_remarks(alloc, source)?;
    let (modification, usage) = (remarks.modification.as_slice(), remarks.usage.as_slice());
    let found = discouraged_of(alloc, keys, declared, modification, usage, scripts)?;
    for (script, discouraged) in found.as_slice() {
        let (script, what) = (*script, What::Discouraged(*discouraged));
        faults.push(ScriptFault { script, what })?;
    }
    Ok(())
}

/// The words of scripts by the source, outside of comments, where nothing is wrong with them: all have words, which fit the source; no
/// theorem that scripts can't change forbids a command of theirs; and no comment of the source discourages one, or it is forced. The paths
/// are those of the source and of the scripts.
///
/// # Errors
///
/// All that is wrong, in order, a line each: the first hundred, and how many more there are; want of memory.
pub fn faultless<'a, D: Declared<'a>>(
    alloc: Global,
    keys: RandomState,
    paths: &[&str],
    source: &'a [u8],
    declared: &D,
    texts: &'a [Vec<u8>],
    force: bool,
) -> Result<Vec<Vec<Token<'a>>>, Unedited>
    requires { DeclaresText source.now (D.scope declared.now) }
    ensures spread { IfOk result (λ outs. IsSpreadOf (D.scope declared.now) (seen_texts texts.now) (seen_scripts outs.items)) }
    ensures allowed { IfOk result (λ outs. AreAllowed source.now (D.scope declared.now) force (seen_scripts outs.items)) }
    ensures refused { IfErr result (IsToldBy (IsFaultsText (map (λ p. p.now) paths.now) source.now (D.scope declared.now)
        (seen_texts texts.now) force)) }
{
    let mut faults: Vec<ScriptFault<'a>> = Vec::new(alloc);
    let words = words_of(alloc, texts, &mut faults)?;
    let spread = spread_all(alloc, declared, words.as_slice(), &mut faults)?;
    let scripts = spread.as_slice();
    put_barred(alloc, keys, declared, scripts, &mut faults)?;
    put_discouraged(alloc, keys, source, declared, force, scripts, &mut faults)?;
    if faults.is_empty() {
        return Ok(spread);
    }
    let ordered = in_order(alloc, faults.as_slice())?;
    let told = faults_text(alloc, paths, texts, ordered.as_slice())?;
    Err(Unedited::Refused(told))
}
