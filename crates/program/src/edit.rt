//! How scripts edit a source: nothing is written over, all files are read, the scripts are answered, and the answer is told.

ghost use Rattle.std.specs.Prelude.{is_some, ◌≡◌, ◌<◌, List, IfOk, length, map};
ghost use Rattle.std.specs.Option.{option_map};
ghost use Rattle.checking.specs.Tasks.{IsWithin};
ghost use Rattle.conduct.specs.Comparing.{AreCompared};
ghost use Rattle.outside.specs.Events.{Event, Adds};
ghost use Rattle.program.specs.Edits.{clash_line, clashes_if, clashes, file_of, source_in, IsAsked, IsAnsweredFor, IsReadConcluded, IsConcluded, IsEditFollowed, IsEditedApart, IsEmptied, IsEditDone, is_input_in_place, misuse_of};
ghost use Rattle.program.specs.Endings.{not_read};

use crate::ending::{NotDone, file, tell_edited, tell_not_done};
use commandline::{Destination, EditOrder, Outputs};
use conduct::{
    INPUT, INPUT_TWICE, Manner, Means, Unread, first_same, is_input_twice, misuse, read_all,
};
use edittext::{Told, answer_edit};
use following::Follow;
use jobs::Watch;
use outside::World;
use std::alloc::{AllocError, Global};
use std::hash::RandomState;
use std::sync::Wait;
use std::thread::Threads;

/// The answer for the texts of the files, of which the source's is the first. It may wait.
fn answer_texts<R: Threads + Wait + Sync, V: Watch + Follow + Sync>(
    means: &Means<'_, R, V>,
    keys: RandomState,
    order: &EditOrder<'_>,
    outputs: Outputs<'_>,
    texts: &[Vec<u8>],
) -> Result<Told, AllocError>
    requires within { IsWithin order.now.workers order.now.room }
    requires any { 0 < length order.now.paths.items }
    requires many { length texts.now ≡ length order.now.paths.items }
    ensures { IfOk result (IsAnsweredFor (map (λ p. p.now) order.now.paths.items) order.now.workers order.now.room outputs.entry
        order.now.allowed (map (λ t. t.items) texts.now)) }
{
    let paths = order.paths.as_slice();
    let asked = editopening::EditOrder {
        path: paths[0],
        paths,
        workers: order.workers,
        room: order.room,
        force: order.allowed.force,
        partial: order.allowed.partial,
        with_replies: outputs.replies.is_some(),
    };
    let (source, scripts) = (texts[0].as_slice(), &texts[1..]);
    answer_edit(
        means.rt,
        means.alloc,
        keys,
        asked,
        source,
        scripts,
        means.watch,
    )
}

/// The path of the file that the edited source goes to, if it goes to one.
fn file_of<'a>(place: Destination<'a>) -> Option<&'a str>
    ensures { option_map (λ p. p.now) result ≡ file_of place.entry }
{
    match place {
        Destination::File(path) => Some(path),
        Destination::Printed | Destination::Source => None,
    }
}

/// The path of the source, if the edited one goes in its place.
fn source_in<'a>(place: Destination<'_>, source: &'a str) -> Option<&'a str>
    ensures { option_map (λ p. p.now) result ≡ source_in place.entry source.entry.now }
{
    match place {
        Destination::Source => Some(source),
        Destination::Printed | Destination::File(_) => None,
    }
}

/// A file that would be written over.
#[derive(Clone, Copy)]
struct Clash<'a> {
    /// The path of the file.
    path: &'a str,
    /// What is said of it.
    text: &'static str,
}

/// The first of these files that would be written over by what goes to a path, if something goes to one.
fn clash_of<'a, W: World>(
    world: &mut W,
    written: Option<&str>,
    text: &'static str,
    others: &[&'a str],
) -> Option<Clash<'a>>
    ensures { (es : List Event) × Adds (W.done world.old) (W.done world.new) es
        × AreCompared (clashes_if (option_map (λ p. p.now) written.entry) text.now (map (λ p. p.now) others.now)) es
        (option_map (λ c. clash_line c.text.now c.path.now) result) }
{
    let here = written?;
    match first_same(world, here, others) {
        Some(path) => Some(Clash { path, text }),
        None => None,
    }
}

/// The first file that would be written over: by the edited source a script, or the source where it doesn't go in its place; by what became
/// of the transactions one of these, or the edited source.
fn first_clash<'a, W: World>(
    world: &mut W,
    outputs: Outputs<'a>,
    paths: &[&'a str],
) -> Option<Clash<'a>>
    requires { 0 < length paths.now }
    ensures { (es : List Event) × Adds (W.done world.old) (W.done world.new) es
        × AreCompared (clashes outputs.entry (map (λ p. p.now) paths.now)) es
        (option_map (λ c. clash_line c.text.now c.path.now) result) }
{
    let (file, replies) = (file_of(outputs.place), outputs.replies);
    if let Some(found) = clash_of(world, file, "--output would be written over it", paths) {
        return Some(found);
    }
    let source = source_in(outputs.place, paths[0]);
    if let Some(found) = clash_of(
        world,
        source,
        "SOURCE would be written over it",
        &paths[1..],
    ) {
        return Some(found);
    }
    if let Some(found) = clash_of(world, replies, "--replies would be written over it", paths) {
        return Some(found);
    }
    match file {
        Some(path) => clash_of(
            world,
            replies,
            "--replies would be written over it",
            &[path],
        ),
        None => None,
    }
}

/// Whether the source can be put in place: it is a plain file, which is asked where it is to be.
fn may_be_replaced<W: World>(world: &mut W, place: Destination<'_>, source: &str) -> bool
    ensures { (es : List Event) × Adds (W.done world.old) (W.done world.new) es × IsAsked place.entry source.now es result }
{
    match place {
        Destination::Source => world.is_plain(source),
        Destination::Printed | Destination::File(_) => true,
    }
}

/// Why nothing is done where a file isn't read.
fn not_read<'a>(unread: Unread<'a>) -> NotDone<'a>
    ensures { result ≡ not_read unread.entry }
{
    match unread {
        Unread::File(path, why) => NotDone::Unread(path, why),
        Unread::NoMemory => NotDone::NoMemory,
    }
}

/// Reads the files of an order, and answers for their texts; or why nothing is done. It may wait.
fn conclude_read<'a, R: Threads + Wait + Sync, W: World, V: Watch + Follow + Sync>(
    means: &Means<'_, R, V>,
    world: &mut W,
    keys: Option<RandomState>,
    order: &EditOrder<'a>,
    outputs: Outputs<'_>,
) -> Result<Told, NotDone<'a>>
    requires within { IsWithin order.now.workers order.now.room }
    requires any { 0 < length order.now.paths.items }
    ensures { (es : List Event) × Adds (W.done world.old) (W.done world.new) es
        × IsReadConcluded (is_some keys) (map (λ p. p.now) order.now.paths.items) order.now.workers order.now.room outputs.entry
        order.now.allowed es result }
{
    let paths = order.paths.as_slice();
    let mut texts = Vec::new(means.alloc);
    if let Err(unread) = read_all(world, means.alloc, Manner::Full, paths, &mut texts) {
        return Err(not_read(unread));
    }
    let Some(keys) = keys else {
        return Err(NotDone::Unkeyed);
    };
    match answer_texts(means, keys, order, outputs, texts.as_slice()) {
        Ok(told) => Ok(told),
        Err(_) => Err(NotDone::NoMemory),
    }
}

/// The answer to an order, for which it is asked first whether the source is a plain file, where it is to be put in place; or why nothing
/// is done. It may wait.
fn conclude<'a, R: Threads + Wait + Sync, W: World, V: Watch + Follow + Sync>(
    means: &Means<'_, R, V>,
    world: &mut W,
    keys: Option<RandomState>,
    order: &EditOrder<'a>,
    outputs: Outputs<'_>,
) -> Result<Told, NotDone<'a>>
    requires within { IsWithin order.now.workers order.now.room }
    requires any { 0 < length order.now.paths.items }
    ensures { (es : List Event) × Adds (W.done world.old) (W.done world.new) es
        × IsConcluded (is_some keys) (map (λ p. p.now) order.now.paths.items) order.now.workers order.now.room outputs.entry
        order.now.allowed es result }
{
    let source = order.paths.as_slice()[0];
    if !may_be_replaced(world, outputs.place, source) {
        return Err(NotDone::NotPlain(source));
    }
    conclude_read(means, world, keys, order, outputs)
}

/// Edits the source of an order, and tells the answer, of which all goes where it is to go; or why nothing is done. It may wait.
fn edit_files<R: Threads + Wait + Sync, W: World, V: Watch + Follow + Sync>(
    means: &Means<'_, R, V>,
    world: &mut W,
    keys: Option<RandomState>,
    order: &EditOrder<'_>,
    outputs: Outputs<'_>,
) -> u8
    requires within { IsWithin order.now.workers order.now.room }
    requires any { 0 < length order.now.paths.items }
    ensures { (es : List Event) × Adds (W.done world.old) (W.done world.new) es
        × IsEditFollowed (is_some keys) (map (λ p. p.now) order.now.paths.items) order.now.workers order.now.room outputs.entry
        order.now.allowed es result }
{
    let alloc = means.alloc;
    match conclude(means, world, keys, order, outputs) {
        Ok(told) => {
            let source = order.paths.as_slice()[0];
            tell_edited(world, alloc, outputs, source, &told)
        }
        Err(why) => tell_not_done(world, alloc, outputs.replies, why),
    }
}

/// Whether the file at a path, if there is one, was emptied; it is said why not.
fn empty<W: World>(world: &mut W, alloc: Global, path: Option<&str>) -> bool
    ensures { (es : List Event) × Adds (W.done world.old) (W.done world.new) es
        × IsEmptied (option_map (λ p. p.now) path.entry) es result }
{
    match path {
        Some(path) => file(world, alloc, path, &[]),
        None => true,
    }
}

/// Whether the source is to be put in place, and is the standard input.
fn is_input_in_place(place: Destination<'_>, paths: &[&str]) -> bool
    requires { 0 < length paths.now }
    ensures { result ≡ is_input_in_place place.entry (map (λ p. p.now) paths.now) }
{
    match place {
        Destination::Source => paths[0] == INPUT,
        Destination::Printed | Destination::File(_) => false,
    }
}

/// What is said of words that don't go together: the standard input can't be put in place, and is read once. None where they do.
fn misuse_of(place: Destination<'_>, paths: &[&str]) -> Option<&'static str>
    requires { 0 < length paths.now }
    ensures { option_map (λ line. line.now) result ≡ misuse_of place.entry (map (λ p. p.now) paths.now) }
{
    if is_input_in_place(place, paths) {
        return Some("--in-place and - do not go together");
    }
    if is_input_twice(paths) {
        return Some(INPUT_TWICE);
    }
    None
}

/// Edits the source of an order, unless that would write a text over another one that is read, or two texts to one file. Before anything is
/// read, the file for what became of the transactions is emptied. Who watches is told of the run, and how far the work on the source is. It
/// may wait.
fn edit_apart<R: Threads + Wait + Sync, W: World, V: Watch + Follow + Sync>(
    means: &Means<'_, R, V>,
    world: &mut W,
    keys: Option<RandomState>,
    order: &EditOrder<'_>,
    outputs: Outputs<'_>,
) -> u8
    requires within { IsWithin order.now.workers order.now.room }
    requires any { 0 < length order.now.paths.items }
    ensures { (es : List Event) × Adds (W.done world.old) (W.done world.new) es
        × IsEditedApart (is_some keys) (map (λ p. p.now) order.now.paths.items) order.now.workers order.now.room outputs.entry
        order.now.allowed es result }
{
    if let Some(found) = first_clash(world, outputs, order.paths.as_slice()) {
        world.say_of(found.path, found.text);
        return 1;
    }
    if !empty(world, means.alloc, outputs.replies) {
        return 1;
    }
    edit_files(means, world, keys, order, outputs)
}

/// Does what an order to edit asks for. Who watches is told of the run, and how far the work on the source is. It may wait.
pub(crate) fn follow_edit<R: Threads + Wait + Sync, W: World, V: Watch + Follow + Sync>(
    means: &Means<'_, R, V>,
    world: &mut W,
    keys: Option<RandomState>,
    order: &EditOrder<'_>,
) -> u8
    requires within { IsWithin order.now.workers order.now.room }
    requires any { 0 < length order.now.paths.items }
    ensures { (es : List Event) × Adds (W.done world.old) (W.done world.new) es
        × IsEditDone (is_some keys) (map (λ p. p.now) order.now.paths.items) order.now.workers order.now.room order.now.outputs
        order.now.allowed es result }
{
    let Some(outputs) = order.outputs else {
        return misuse(world, "--in-place and --output do not go together");
    };
    match misuse_of(outputs.place, order.paths.as_slice()) {
        Some(line) => misuse(world, line),
        None => edit_apart(means, world, keys, order, outputs),
    }
}
