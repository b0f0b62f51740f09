//! What the passes at their places do.

ghost use Rattle.std.specs.Prelude.{◌≡◌, All};
ghost use Rattle.wordrows.specs.Seats.{is_named, RestsAt, RunsAt, StandsAt};

use crate::line::{Step, cut, letter_of, mode_of, place_of, read_numbers};
use crate::running::{begin_run, commit, go_on, leave};
use crate::seat::{Anything, Playing, Resting, Stand};
use crate::written::Written;
use std::alloc::{AllocError, Global};
use std::mem;
use tlwords::{Words, learn};

/// What a pass at rest does, and whether it does.
fn do_at_rest<'w>(
    alloc: Global,
    out: &mut Written,
    words: &'w Words<Anything>,
    rest: Resting,
    step: Step<'_>,
) -> (Stand<'w>, bool)
    requires { RestsAt words.now rest }
    ensures { StandsAt words.now result.0 }
{
    match (step.letter, mode_of(step.words)) {
        (b'b', Some(mode)) => {
            let playing = begin_run(alloc, out, words, rest, mode);
            (Stand::Running(playing), true)
        }
        _ => (Stand::AtRest(rest), false),
    }
}

/// What a run does, and whether it does.
fn do_running<'w>(
    out: &mut Written,
    words: &Words<Anything>,
    named: bool,
    mut playing: Playing<'w>,
    step: Step<'_>,
) -> (Stand<'w>, bool)
    requires named { is_named words.now ≡ named }
    requires runs { RunsAt words.now playing }
    ensures { StandsAt words.now result.0 }
{
    match (step.letter, step.numbers) {
        (b'e', _) => (Stand::AtRest(leave(out, words, playing)), true),
        (b'c', [note]) => (Stand::AtRest(commit(out, words, playing, *note)), true),
        _ => {
            let is_done = go_on(out, words, named, &mut playing, step);
            (Stand::Running(playing), is_done)
        }
    }
}

/// What stands at a place does a step. Whether it does.
fn do_step<'w>(
    alloc: Global,
    out: &mut Written,
    words: &'w Words<Anything>,
    named: bool,
    stand: Stand<'w>,
    step: Step<'_>,
) -> (Stand<'w>, bool)
    requires named { is_named words.now ≡ named }
    requires stands { StandsAt words.now stand }
    ensures { StandsAt words.now result.0 }
{
    match stand {
        Stand::AtRest(rest) => do_at_rest(alloc, out, words, rest, step),
        Stand::Running(playing) => do_running(out, words, named, playing, step),
        Stand::Gone => (Stand::Gone, false),
    }
}

/// A pass learns of another one, and of the ranges that it knows of.
fn teach(words: &Words<Anything>, rest: &mut Resting, other: &mut Resting) -> Result<(), AllocError>
    requires rests { RestsAt words.now rest.old }
    requires other { RestsAt words.now other.old }
    ensures rests { RestsAt words.now rest.new }
    ensures other { RestsAt words.now other.new }
{
    learn(words, &mut rest.pass, &mut other.pass);
    rest.ranges.extend_from_slice(other.ranges.as_slice())?;
    Ok(())
}

/// What stands at a place learns of what stands at another one, where both are passes at rest. Whether they are.
fn do_learn<'w>(
    out: &mut Written,
    words: &Words<Anything>,
    stand: Stand<'w>,
    other: Stand<'w>,
) -> (Stand<'w>, Stand<'w>, bool)
    requires stands { StandsAt words.now stand }
    requires other { StandsAt words.now other }
    ensures stands { StandsAt words.now result.0 }
    ensures other { StandsAt words.now result.1 }
{
    match (stand, other) {
        (Stand::AtRest(mut rest), Stand::AtRest(mut other)) => {
            let taught = teach(words, &mut rest, &mut other);
            out.note(taught);
            out.put(b"learnt");
            (Stand::AtRest(rest), Stand::AtRest(other), true)
        }
        (stand, other) => (stand, other, false),
    }
}

/// Takes away what stands at a place: nothing where there is no such place.
pub fn take_stand<'w>(
    words: &Words<Anything>,
    stands: &mut Vec<Stand<'w>>,
    place: usize,
) -> Stand<'w>
    requires { All (StandsAt words.now) stands.old.items }
    ensures stands { All (StandsAt words.now) stands.new.items }
    ensures taken { StandsAt words.now result }
{
    if place >= stands.len() {
        return Stand::Gone;
    }
    mem::replace(&mut stands[place], Stand::Gone)
}

/// Puts this at a place, if there is such a place.
fn put_stand<'w>(
    words: &Words<Anything>,
    stands: &mut Vec<Stand<'w>>,
    place: usize,
    stand: Stand<'w>,
)
    requires stands { All (StandsAt words.now) stands.old.items }
    requires stand { StandsAt words.now stand }
    ensures { All (StandsAt words.now) stands.new.items }
{
    if place < stands.len() {
        drop(mem::replace(&mut stands[place], stand));
    }
}

/// What stands at a place does a step. Whether it does.
fn do_step_at<'w>(
    alloc: Global,
    out: &mut Written,
    words: &'w Words<Anything>,
    named: bool,
    stands: &mut Vec<Stand<'w>>,
    place: usize,
    step: Step<'_>,
) -> bool
    requires named { is_named words.now ≡ named }
    requires stands { All (StandsAt words.now) stands.old.items }
    ensures { All (StandsAt words.now) stands.new.items }
{
    let stand = take_stand(words, stands, place);
    let (stand, is_done) = do_step(alloc, out, words, named, stand, step);
    put_stand(words, stands, place, stand);
    is_done
}

/// What stands at a place learns of what stands at another one. Whether it does.
fn do_learn_at<'w>(
    out: &mut Written,
    words: &Words<Anything>,
    stands: &mut Vec<Stand<'w>>,
    place: usize,
    other: usize,
) -> bool
    requires { All (StandsAt words.now) stands.old.items }
    ensures { All (StandsAt words.now) stands.new.items }
{
    let stand = take_stand(words, stands, place);
    let mate = take_stand(words, stands, other);
    let (stand, mate, is_done) = do_learn(out, words, stand, mate);
    // Where both are one place, what stood there comes back last.
    put_stand(words, stands, other, mate);
    put_stand(words, stands, place, stand);
    is_done
}

/// Does what a line between the opening and the close asks for, with these numbers to read into; false where it can't.
pub fn answer_line<'w>(
    alloc: Global,
    out: &mut Written,
    words: &'w Words<Anything>,
    named: bool,
    stands: &mut Vec<Stand<'w>>,
    numbers: &mut Vec<u64>,
    line: &str,
) -> bool
    requires named { is_named words.now ≡ named }
    requires stands { All (StandsAt words.now) stands.old.items }
    ensures { All (StandsAt words.now) stands.new.items }
{
    let (name, behind) = cut(line);
    let (verb, asked) = cut(behind);
    let place = place_of(name);
    if verb == "learns" {
        return do_learn_at(out, words, stands, place, place_of(asked));
    }
    numbers.clear();
    if !read_numbers(out, numbers, asked) && verb != "begins" {
        return false;
    }
    let step = Step {
        letter: letter_of(verb),
        words: asked,
        numbers: numbers.as_slice(),
    };
    do_step_at(alloc, out, words, named, stands, place, step)
}
