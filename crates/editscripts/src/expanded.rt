//! Scripts on the way to those that are run: their words by the source, with the proofs of the library that is taken and with its ranks.

ghost use Rattle.std.specs.Prelude.{◌≡◌, ℕ, All, List, [], IfOk, IfErr, length, map};
ghost use Rattle.std.specs.List.{AllZip};
ghost use Rattle.mmtext.specs.Text.{Token as Word};
ghost use Rattle.source.specs.Whole.{IsWhole};
ghost use Rattle.library.specs.Fitting.{CommandFits};
ghost use Rattle.checking.specs.Checks.{AreScripts};
ghost use Rattle.editscripts.specs.Expanded.{ArePasted, RankedScript, AreRanked, texts_of};
ghost use Rattle.editscripts.specs.Refusals.{IsToldBy, IsUnpastedBy, IsCrowdedBy, IsUnlaidBy, IsUnreadBy};
ghost use Rattle.expanding.specs.Views.{seen_scripts, IsLaid};
ghost use Rattle.pasting.specs.Views.{IsNarrow};
ghost use Rattle.editscripts.specs.Views.{seen_texts, AreLaid};

use crate::telling::{crowded, path_at, text_at, unpasted, unread};
use crate::unedited::Unedited;
use expanding::{Laid, Ranker};
use library::Script;
use mmsyntax::{Database, Prelude};
use mmtext::{TextFault, Token};
use pasting::Paster;
use scripts::read_script;
use source::Declared;
use std::alloc::{AllocError, Global};
use std::hash::RandomState;

/// The words of scripts with the proofs of a library that is taken of the source, as flags say of each of its assertions, in the stead of
/// those that they write in the source's own words.
fn paste_all<'w: 'a, 'a, D: Declared<'a>>(
    alloc: Global,
    keys: RandomState,
    paths: &[&str],
    declared: &D,
    texts: &[Vec<u8>],
    database: &Database,
    flags: &[bool],
    scripts: &[Vec<Token<'w>>],
) -> Result<Vec<Laid>, Unedited>
    requires whole { IsWhole (D.scope declared.now) }
    requires flags { length flags.now ≡ length (D.scope declared.now).assertions }
    requires narrow { IsNarrow (D.scope declared.now) flags.now }
    ensures pasted { IfOk result (λ laid. (outs : List (List Word)) × AllZip IsLaid outs laid.items
        × ArePasted (D.scope declared.now) flags.now database.now (seen_scripts scripts.now) outs) }
    ensures refused { IfErr result (IsToldBy (IsUnpastedBy
        (map (λ p. p.now) paths.now) (D.scope declared.now) (seen_texts texts.now) flags.now database.now (seen_scripts scripts.now))) }
{
    let paster = Paster::new(alloc, keys, declared, database, flags)?;
    let additions = paster.additions(alloc, keys, scripts)?;
    let mut all = Vec::new(alloc);
    for (script, words) in scripts.iter().enumerate() {
        match paster.paste(alloc, keys, declared, &additions, words.as_slice()) {
            Ok(laid) => all.push(laid)?,
            Err(why) => {
                let (path, text) = (path_at(paths, script + 1), text_at(texts, script));
                return Err(unpasted(alloc, path, text, why)?);
            }
        }
    }
    Ok(all)
}

/// The words of texts that remember them.
fn words_laid<'l>(alloc: Global, all: &'l [Laid]) -> Result<Vec<Vec<Token<'l>>>, AllocError>
    ensures { (outs : List (List Word)) → AllZip IsLaid outs all.now → IfOk result (λ words. seen_scripts words.items ≡ outs) }
{
    let mut words = Vec::with_capacity(alloc, all.len())?;
    for laid in all {
        words.push(laid.words(alloc)?)?;
    }
    Ok(words)
}

/// The texts of scripts over a library that is taken of the source, as flags say of each of its assertions: with its proofs in the stead of
/// those that they write in the source's own words, and with its ranks.
pub fn lay_all<'w: 'a, 'a, D: Declared<'a>>(
    alloc: Global,
    keys: RandomState,
    paths: &[&str],
    declared: &D,
    texts: &[Vec<u8>],
    database: &Database,
    flags: &[bool],
    scripts: &[Vec<Token<'w>>],
) -> Result<Vec<Laid>, Unedited>
    requires whole { IsWhole (D.scope declared.now) }
    requires flags { length flags.now ≡ length (D.scope declared.now).assertions }
    requires narrow { IsNarrow (D.scope declared.now) flags.now }
    ensures laid { IfOk result (λ laid. (pasted : List (List Word)) × (outs : List RankedScript) × (gaps : List ℕ)
        × ArePasted (D.scope declared.now) flags.now database.now (seen_scripts scripts.now) pasted × AreLaid outs laid.items
        × AreRanked (D.scope declared.now) flags.now [] pasted outs gaps) }
    ensures refused { IfErr result (IsToldBy (IsUnlaidBy
        (map (λ p. p.now) paths.now) (D.scope declared.now) (seen_texts texts.now) flags.now database.now (seen_scripts scripts.now))) }
{
    let pasted = paste_all(
        alloc, keys, paths, declared, texts, database, flags, scripts,
    )?;
    let words = words_laid(alloc, pasted.as_slice())?;
    rank_all(alloc, paths, declared, texts, flags, words.as_slice())
}

/// The texts of scripts with the ranks of a library that is taken of the source, as flags say of each of its assertions.
fn rank_all<'w, 'a, D: Declared<'a>>(
    alloc: Global,
    paths: &[&str],
    declared: &D,
    texts: &[Vec<u8>],
    flags: &[bool],
    scripts: &[Vec<Token<'w>>],
) -> Result<Vec<Laid>, Unedited>
    requires { length flags.now ≡ length (D.scope declared.now).assertions }
    ensures ranked { IfOk result (λ laid. (outs : List RankedScript) × (gaps : List ℕ) × AreLaid outs laid.items
        × AreRanked (D.scope declared.now) flags.now [] (seen_scripts scripts.now) outs gaps) }
    ensures refused { IfErr result (IsToldBy (IsCrowdedBy
        (map (λ p. p.now) paths.now) (D.scope declared.now) (seen_texts texts.now) flags.now (seen_scripts scripts.now))) }
{
    let mut ranker = Ranker::new(alloc, flags)?;
    let mut all = Vec::new(alloc);
    for (place, words) in scripts.iter().enumerate() {
        match ranker.rank(alloc, declared, words.as_slice()) {
            Ok(laid) => all.push(laid)?,
            Err(why) => {
                let (path, text) = (path_at(paths, place + 1), text_at(texts, place));
                return Err(crowded(alloc, path, text, why)?);
            }
        }
    }
    Ok(all)
}

/// Reads the texts of scripts over a library. A fault is told at the word of the keeper's text for which the word stands that has it.
pub fn read_all(
    alloc: Global,
    paths: &[&str],
    texts: &[Vec<u8>],
    prelude: &Prelude,
    all: &[Laid],
) -> Result<Vec<Script>, Unedited>
    ensures scripts { (outs : List RankedScript) → AreLaid outs all.now
        → IfOk result (λ scripts. AreScripts prelude.now (texts_of outs) scripts.items) }
    ensures fit { IfOk result (λ scripts. All (All (All (CommandFits prelude.now))) scripts.items) }
    ensures refused { (outs : List RankedScript) → AreLaid outs all.now
        → IfErr result (IsToldBy (IsUnreadBy (map (λ p. p.now) paths.now) prelude.now (seen_texts texts.now) outs)) }
{
    let mut scripts = Vec::new(alloc);
    for (place, laid) in all.iter().enumerate() {
        match read_script(alloc, prelude, laid.text.as_slice()) {
            Ok(script) => scripts.push(script)?,
            Err(fault) => {
                let (path, text) = (path_at(paths, place + 1), text_at(texts, place));
                let end = text.len();
                let told = TextFault {
                    place: laid.place_of(end, fault.place),
                    kind: fault.kind,
                };
                return Err(unread(alloc, path, text, told)?);
            }
        }
    }
    Ok(scripts)
}
