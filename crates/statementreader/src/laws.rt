//! Laws of what texts spell as single assertions, against their faults: functions without a body, whose contracts are the laws.

ghost use Rattle.statementreader.specs.Laws.{UnitIsOne, UnitHasNoFault, FaultyIsNoUnit, UnitOrFault, UnitsAreSaid};

/// A text spells at most one assertion over a prelude.
pub fn one_unit()
    ensures { UnitIsOne }
{}

/// A text of at most 16,777,216 bytes that spells an assertion over a prelude has no fault there.
pub fn no_fault_of_a_unit()
    ensures { UnitHasNoFault }
{}

/// A text with a fault spells no assertion over a prelude, unless it is longer than 16,777,216 bytes, and that is its fault.
pub fn no_unit_of_a_fault()
    ensures { FaultyIsNoUnit }
{}

/// Every text spells an assertion over a prelude or has a fault there.
pub fn unit_or_fault()
    ensures { UnitOrFault }
{}

/// What a text spells by the grammar of single assertions is what their language says.
pub fn units_are_said()
    ensures { UnitsAreSaid }
{}
