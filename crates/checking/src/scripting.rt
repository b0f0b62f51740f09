//! The scripts of a run, read from their texts.

ghost use Rattle.std.specs.Prelude.{◌+◌, ℕ, All, IfOk, IfErr, map};
ghost use Rattle.mmtext.specs.declared.fault.TextFault.{TextFault as FaultOfText};
ghost use Rattle.library.specs.Fitting.{CommandFits};
ghost use Rattle.checking.specs.Checks.{AreScripts, IsFirstFaultyScript};
ghost use Rattle.checking.specs.Parts.{IsScriptFault, IsRefusedWith};

use crate::fault::{Fault, text_fault};
use library::Script;
use mmstatement::Prelude;
use scripts::read_script;
use std::alloc::Global;

/// Reads the scripts in order. The first fault is that of the first text that has one.
pub fn read_scripts(
    alloc: Global,
    prelude: &Prelude,
    texts: &[Vec<u8>],
) -> Result<Vec<Script>, Fault>
    ensures ok { IfOk result (λ v. AreScripts prelude.now (map (λ t. t.items) texts.now) v.items) }
    ensures fit { IfOk result (λ v. All (All (All (CommandFits prelude.now))) v.items) }
    ensures err { IfErr result (IsScriptFault prelude.now (map (λ t. t.items) texts.now)) }
    ensures refused { (k : ℕ) (f : FaultOfText) → IsFirstFaultyScript prelude.now (map (λ t. t.items) texts.now) k f
        → IsRefusedWith (k + 1) f result }
{
    let mut scripts = Vec::new(alloc);
    for (i, text) in texts.iter().enumerate() {
        match read_script(alloc, prelude, text.as_slice()) {
            Ok(script) => scripts.push(script)?,
            Err(fault) => return Err(text_fault(i + 1, fault)),
        }
    }
    Ok(scripts)
}
