//! How a line is said, and a text printed.

ghost use Rattle.std.specs.Prelude.{◌≡◌, ◌∷◌, [], List, option_map, string_bytes};
ghost use Rattle.conduct.specs.Telling.{IsPrintedWith, IsPrinted, trouble_line, left_said, unprinted_said, unprinted_status};
ghost use Rattle.outside.specs.Events.{Event, Adds, says};

use crate::manner::Manner;
use outside::{Reason, Trouble, Unwritten, World};

/// The status where the standard output is a closed pipe: 128, and the number of SIGPIPE.
pub const CLOSED: u8 = 141;

/// Says why nothing was printed: one line, and status 1.
pub fn refuse<W: World>(world: &mut W, line: &str) -> u8
    ensures said { Adds (W.done world.old) (W.done world.new) (says line.now ∷ []) }
    ensures status { result ≡ 1 }
{
    world.say(line);
    1
}

/// Says why the words of a command line don't go together: one line, and status 2.
pub fn misuse<W: World>(world: &mut W, line: &str) -> u8
    ensures said { Adds (W.done world.old) (W.done world.new) (says line.now ∷ []) }
    ensures status { result ≡ 2 }
{
    world.say(line);
    2
}

/// Says that a text can't be printed, for this reason, and answers the status of that. Where the standard output is a closed pipe, a
/// command in full manner says nothing, and the status is `CLOSED`.
pub fn tell_unprinted<W: World>(world: &mut W, manner: Manner, why: Reason) -> u8
    ensures said { Adds (W.done world.old) (W.done world.new) (unprinted_said manner why) }
    ensures status { result ≡ unprinted_status manner why }
{
    match (manner, why) {
        (Manner::Full, Reason::ClosedPipe) => CLOSED,
        _ => refuse(world, manner.unwritten_line(why)),
    }
}

/// Prints a text, after which the status is this one, or says that it can't.
pub fn print_with<W: World>(world: &mut W, manner: Manner, status: u8, out: &[u8]) -> u8
    ensures { (es : List Event) × Adds (W.done world.old) (W.done world.new) es × IsPrintedWith manner status out.now es result }
{
    match world.print(out) {
        Ok(()) => status,
        Err(why) => tell_unprinted(world, manner, why),
    }
}

/// Prints a text, or says that it can't.
pub(crate) fn print_out<W: World>(world: &mut W, manner: Manner, out: &[u8]) -> u8
    ensures { (es : List Event) × Adds (W.done world.old) (W.done world.new) es × IsPrinted manner out.now es result }
{
    print_with(world, manner, 0, out)
}

/// Says why a text isn't in the file at a path.
fn say_trouble<W: World>(world: &mut W, manner: Manner, path: &str, trouble: Trouble)
    ensures { Adds (W.done world.old) (W.done world.new) (says (trouble_line manner path.now trouble) ∷ []) }
{
    match trouble {
        Trouble::NoMemory => world.say("no memory"),
        Trouble::Refused(why) => world.say_of(path, manner.unwritten_line(why)),
    }
}

/// Says which new file is left, if one is.
fn say_left<W: World>(world: &mut W, left: Option<&String>)
    ensures { Adds (W.done world.old) (W.done world.new) (left_said (option_map (λ path. string_bytes path.now) left.entry)) }
{
    if let Some(path) = left {
        world.say_of(path.as_str(), "cannot be removed");
    }
}

/// Says why a text isn't in the file at a path, and which new file is left, if one is: status 1.
pub fn tell_unwritten<W: World>(world: &mut W, manner: Manner, path: &str, why: &Unwritten) -> u8
    ensures said { Adds (W.done world.old) (W.done world.new)
        (says (trouble_line manner path.now why.now.trouble) ∷ left_said (option_map string_bytes why.now.left)) }
    ensures status { result ≡ 1 }
{
    say_trouble(world, manner, path, why.trouble);
    say_left(world, why.left.as_ref());
    1
}
