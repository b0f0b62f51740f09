//! The files of an order are read, in their order, before anything else is done.

ghost use Rattle.std.specs.Prelude.{◌≡◌, ◌∷◌, [], List, map};
ghost use Rattle.conduct.specs.Manner.{is_input_twice};
ghost use Rattle.conduct.specs.Reading.{IsReadBehind, AreRead, IsUnreadTold, line_unread};
ghost use Rattle.outside.specs.Events.{Event, Adds, says};

use crate::manner::{INPUT, Manner};
use outside::{Reason, Trouble, World};
use std::alloc::{AllocError, Global};

/// Reads what a path stands for, and puts its text behind others.
fn read_behind<W: World>(
    world: &mut W,
    alloc: Global,
    manner: Manner,
    path: &str,
    texts: &mut Vec<Vec<u8>>,
) -> Result<(), Trouble>
    ensures { (es : List Event) × Adds (W.done world.old) (W.done world.new) es
        × IsReadBehind manner path.now (map (λ t. t.items) texts.old.items) (map (λ t. t.items) texts.new.items) es result }
{
    match world.read(alloc, manner.origin(path)) {
        Ok(text) => match texts.push(text) {
            Ok(()) => Ok(()),
            Err(_) => Err(Trouble::NoMemory),
        },
        Err(trouble) => Err(trouble),
    }
}

/// Why the files of an order aren't read.
#[derive(Clone, Copy)]
pub enum Unread<'a> {
    /// What this path stands for can't be read, for this reason.
    File(&'a str, Reason),
    /// Memory ran out.
    NoMemory,
}

/// What is said where more than one path stands for the standard input.
pub const INPUT_TWICE: &str = "- stands for the standard input, which is read once";

/// Whether more than one of these paths stands for the standard input, which is read once.
pub fn is_input_twice(paths: &[&str]) -> bool
    ensures { result ≡ is_input_twice (map (λ p. p.now) paths.now) }
{
    let mut many: usize = 0;
    for path in paths {
        if *path == INPUT {
            many += 1;
        }
    }
    many > 1
}

/// Reads what these paths stand for in their order. Where one can't be read, the texts are those of the ones before it.
///
/// # Errors
///
/// The first that can't be read, or there is no memory for the texts.
pub fn read_all<'a, W: World>(
    world: &mut W,
    alloc: Global,
    manner: Manner,
    paths: &[&'a str],
    texts: &mut Vec<Vec<u8>>,
) -> Result<(), Unread<'a>>
    requires { texts.old.items ≡ [] }
    ensures { (es : List Event) × Adds (W.done world.old) (W.done world.new) es
        × AreRead manner (map (λ p. p.now) paths.now) (map (λ t. t.items) texts.new.items) es result }
{
    for path in paths {
        match read_behind(world, alloc, manner, *path, texts) {
            Ok(()) => {}
            Err(Trouble::NoMemory) => return Err(Unread::NoMemory),
            Err(Trouble::Refused(why)) => return Err(Unread::File(*path, why)),
        }
    }
    Ok(())
}

/// Says that what a path stands for can't be read.
pub(crate) fn say_unread<W: World>(world: &mut W, manner: Manner, path: &str, why: Reason)
    ensures { Adds (W.done world.old) (W.done world.new) (says (line_unread manner path.now why) ∷ []) }
{
    world.say_of(path, manner.unread_line(why));
}

/// Says which path of an order stands for what can't be read: status 1.
///
/// # Errors
///
/// Memory ran out for a text: nothing is said.
pub(crate) fn tell_unread<W: World>(
    world: &mut W,
    manner: Manner,
    unread: Unread<'_>,
) -> Result<u8, AllocError>
    ensures { (es : List Event) × Adds (W.done world.old) (W.done world.new) es × IsUnreadTold manner unread.entry es result }
{
    match unread {
        Unread::File(path, why) => {
            say_unread(world, manner, path, why);
            Ok(1)
        }
        Unread::NoMemory => Err(AllocError),
    }
}
