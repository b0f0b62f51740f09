//! Laws of what texts spell as databases, against their faults: functions without a body, whose contracts are the laws.

ghost use Rattle.mmreader.specs.Laws.{DatabaseIsOne, DatabaseHasNoFault, FaultyIsNoDatabase, DatabaseOrFault, DatabasesAreSaid};

/// A text spells at most one database.
pub fn one_database()
    ensures { DatabaseIsOne }
{}

/// A text of at most 16,777,216 bytes that spells a database has no fault, so a reader does not refuse it.
pub fn no_fault_of_a_database()
    ensures { DatabaseHasNoFault }
{}

/// A text with a fault spells no database, unless it is longer than 16,777,216 bytes, and that is its fault.
pub fn no_database_of_a_fault()
    ensures { FaultyIsNoDatabase }
{}

/// Every text spells a database or has a fault.
pub fn database_or_fault()
    ensures { DatabaseOrFault }
{}

/// What a text spells by the grammar of databases is what their language says.
pub fn databases_are_said()
    ensures { DatabasesAreSaid }
{}
