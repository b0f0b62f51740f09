//! Laws of texts in any language: functions without a body, whose contracts are the laws. `P` are the places of the language, and `A` is
//! what its texts say.

ghost use Rattle.mmtext.specs.Languages.{Language};
ghost use Rattle.mmtext.specs.Laws.{Says, SpellsOne, HasOneFault, SpellsWithoutFault, FailsByLength, SpellsOrFails};

/// A text says at most one value.
pub fn one_value<P, A>()
    ensures { (l : Language P A) → SpellsOne (Says l) }
{}

/// A text has at most one fault.
pub fn one_fault<P, A>()
    ensures { (l : Language P A) → HasOneFault l }
{}

/// A text that says a value and isn't too long has no fault.
pub fn no_fault_beside_a_value<P, A>()
    ensures { (l : Language P A) → SpellsWithoutFault l (Says l) }
{}

/// A text that says a value and has a fault has more bytes than its language allows, and that is its fault.
pub fn only_its_length_beside_a_value<P, A>()
    ensures { (l : Language P A) → FailsByLength l (Says l) }
{}

/// Every text says a value or has a fault.
pub fn value_or_fault<P, A>()
    ensures { (l : Language P A) → SpellsOrFails l (Says l) }
{}
