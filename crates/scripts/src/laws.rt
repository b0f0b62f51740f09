//! Laws of what texts spell as scripts: each function does nothing, and its contract is the law.

ghost use Rattle.scripts.specs.Laws.{ScriptIsOne, ScriptFaultIsOne, ScriptHasNoFault, FaultyIsNoScript, ScriptOrFault, ScriptsAreSaid};

/// Over a prelude a text spells at most one script, and has at most one fault. One of at most 16,777,216 bytes has either a script or a
/// fault, and not both; a longer one may spell a script, and its one fault is its length.
pub fn one_script_or_fault()
    ensures script { ScriptIsOne }
    ensures fault { ScriptFaultIsOne }
    ensures faultless { ScriptHasNoFault }
    ensures faulty { FaultyIsNoScript }
    ensures either { ScriptOrFault }
    ensures said { ScriptsAreSaid }
{}
