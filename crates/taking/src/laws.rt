//! Examples of what is taken: functions without a body, whose contracts are the examples.

ghost use Rattle.taking.specs.Examples.{NamesHavePlaces, TakenSaySame, TakenIsListed, TakesTwo, TakesOne, ReasonsAreInOrder};

/// Constants and `$f` have places in the order of the source, and of two local `$f` of one variable the first's is renamed.
pub fn names_have_places()
    ensures { NamesHavePlaces }
{}

/// Two assertions say the same as those of the source, with the pair of a dummy variable.
pub fn taken_say_same()
    ensures { TakenSaySame }
{}

/// A proof is listed, with its arguments in the profile's order.
pub fn taken_is_listed()
    ensures { TakenIsListed }
{}

/// What is taken whole.
pub fn takes_two()
    ensures { TakesTwo }
{}

/// What is taken without what it cites.
pub fn takes_one()
    ensures { TakesOne }
{}

/// Of several reasons the first is told.
pub fn reasons_are_in_order()
    ensures { ReasonsAreInOrder }
{}
