//! Whether paths lead to one file that are not to: what is written goes over nothing that is read, and over nothing else that is written.

ghost use Rattle.std.specs.Prelude.{List, map, option_map};
ghost use Rattle.conduct.specs.Comparing.{AreCompared};
ghost use Rattle.conduct.specs.Clashes.{clashes_with};
ghost use Rattle.outside.specs.Events.{Bytes, Event, Adds};

use outside::World;

/// The first of these paths that leads to one file with another path.
pub fn first_same<'a, W: World>(world: &mut W, one: &str, others: &[&'a str]) -> Option<&'a str>
    ensures { (line : Bytes → Bytes) → (es : List Event) × Adds (W.done world.old) (W.done world.new) es
        × AreCompared (clashes_with one.now line (map (λ p. p.now) others.now)) es (option_map (λ p. line p.now) result) }
{
    for other in others {
        if world.is_one_file(one, *other) {
            return Some(*other);
        }
    }
    None
}
