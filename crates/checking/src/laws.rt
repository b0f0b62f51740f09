//! Laws of the definitions: each function does nothing, and its contract is the law.

ghost use Rattle.checking.specs.Laws.{SpelledScriptsFit};

/// Over a prelude that some text declares, each command of a script that is spelled is within the limits of that prelude.
pub fn spelled_scripts_fit()
    ensures { SpelledScriptsFit }
{}
