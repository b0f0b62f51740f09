//! Examples of choices: functions without a body, whose contracts are the examples.

ghost use Rattle.choosing.specs.Examples.{ForTakesWhatIsNeeded, BetweenTakesTheFront, NearestComesFirst};

/// What is asked for is chosen with what it cites, and with nothing else.
pub fn for_takes_what_is_needed()
    ensures { ForTakesWhatIsNeeded }
{}

/// What those between two cite before them stands in front.
pub fn between_takes_the_front()
    ensures { BetweenTakesTheFront }
{}

/// As long as there is room, the nearest are chosen, and what an axiom needs takes none of it.
pub fn nearest_comes_first()
    ensures { NearestComesFirst }
{}
