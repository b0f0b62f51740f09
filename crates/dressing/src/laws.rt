//! A law of what a source is dressed in: a function without a body, whose contract says it.

ghost use Rattle.dressing.specs.Laws.{StaysWithout};

/// Where nothing is given, a source stays byte for byte.
pub fn stays_without()
    ensures { StaysWithout }
{}
