//! Laws of databases: functions without a body, whose contracts are the laws.

ghost use Rattle.mmsyntax.specs.Assertions.{SpelledWhereDeclarable, SpelledWhereUnit};
ghost use Rattle.mmsyntax.specs.Laws.{SoundWhereApart, DatabaseFaultIsOne, UnitFaultIsOne};

/// Some text spells a database just where its prelude is sound, and its assertions are units that fit, with lawful labels
/// of which no two are equal.
pub fn spelled_databases()
    ensures { SpelledWhereDeclarable }
{}

/// Some text spells, over a sound prelude, an assertion by itself just where it is a unit that fits, with a lawful label.
pub fn spelled_units()
    ensures { SpelledWhereUnit }
{}

/// Some text declares a prelude, and no assertion, just where its names differ, each `$f` has a declared constant and variable, a variable
/// has one `$f` at most, and all is within the limits.
pub fn sound_preludes()
    ensures { SoundWhereApart }
{}

/// A text has at most one fault as a database.
pub fn database_faults()
    ensures { DatabaseFaultIsOne }
{}

/// A text has at most one fault as an assertion over a prelude.
pub fn unit_faults()
    ensures { UnitFaultIsOne }
{}
