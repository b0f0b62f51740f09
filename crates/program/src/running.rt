//! The program on files and streams, and on those of the system.

ghost use Rattle.std.specs.Prelude.{◌≡◌, Bool, List, [], Some, Result, is_some};
ghost use Rattle.clap.specs.Words.{Text};
ghost use Rattle.outside.specs.declared.trouble.Trouble.{Trouble as TroubleOfWords};
ghost use Rattle.outside.specs.Events.{Event};
ghost use Rattle.outside.specs.Output.{AreDone};
ghost use Rattle.program.specs.Obeying.{IsRun, no_words};

use crate::obeying::obey;
use conduct::{Means, refuse};
use following::Follow;
use jobs::Watch;
use outside::{
    Arguments, Disk, Host, Progress, Streams, SystemArguments, SystemFiles, SystemStreams, Trouble,
};
use std::hash::RandomState;
use std::random::RandomSource;
use std::rt::{Env, Files};
use std::sync::Wait;
use std::thread::Threads;
use std::time::Clock;

/// Why nothing was done: the words of the command line are not read.
fn unread_line(trouble: Trouble) -> &'static str
    ensures { result.now ≡ no_words trouble }
{
    match trouble {
        Trouble::NoMemory => "no memory",
        Trouble::Refused(_) => "the command line cannot be read",
    }
}

/// Does on files and streams what the words of a command line ask for, of which the first is the program's name, and answers the status
/// that the program ends with; where they are not read, it says why. Who watches is told of a run, and how far a library is taken. It may
/// wait.
///
/// Where the arguments tell their words, it obeys just those; and it says that they are not read only where they tell that.
///
/// On streams that tell what they hold, and hold nothing before, stands then just what was printed and said: each text and each line whole,
/// or a front of it where a write failed; unless the parser's text was shown, of which nothing is known. Each text that was read is all
/// that its file holds, or the standard input has, up to one byte more than any text may have, where that is known; a file that wasn't read
/// the system refused, for the reason that is told; and it told whether two paths lead to one file, and whether a path leads to a plain
/// one. A line that is noted stands on the standard error where that is a terminal, and nowhere else.
pub fn run_on<
    R: Threads + Wait + Sync,
    D: Disk + Drop,
    S: Streams + Drop,
    V: Watch + Follow + Sync,
    A: Arguments,
>(means: &Means<'_, R, V>, host: &mut Host<D, S>, keys: Option<RandomState>, arguments: &A) -> u8
    ensures { (es : List Event)
        × (S.out host.old.streams ≡ Some [] → S.err host.old.streams ≡ Some [] → AreDone (record {
          holds = D.holds host.new.disk;
          refuses = D.refuses;
          tells_one = D.tells_one;
          tells_plain = D.tells_plain;
          input = S.input;
          input_refuses = S.input_refuses;
          out = S.out host.new.streams;
          out_failed = S.out_failed host.new.streams;
          err = S.err host.new.streams;
          err_failed = S.err_failed host.new.streams;
          tells_terminal = S.tells_terminal;
        }) es)
        × (words : Result (List Text) TroubleOfWords) × A.tells arguments.now words × IsRun (is_some keys) words es result }
{
    match arguments.words(means.alloc) {
        Ok(words) => obey(means, host, keys, words.as_slice()),
        Err(trouble) => refuse(host, unread_line(trouble)),
    }
}

/// Does what the command line asks for, on the files and streams of the system, and answers the status that the program ends with. Where
/// the standard error is a terminal, a line there says how far a run is, and what an edit did at its end. It may wait.
///
/// It is `run_on` over the system's parts. These tell nothing, so its clause only says that there are words which it obeys.
pub fn run<R>(rt: &R, is_terminal: bool) -> u8
where
    R: Files
        + AllocGlobal
        + Input
        + Print
        + Eprint
        + RandomSource
        + Env
        + Clock
        + Threads
        + Wait
        + Sync,
    ensures { (keyed : Bool) × (words : Result (List Text) TroubleOfWords) × (es : List Event) × IsRun keyed words es result }
{
    run_over(rt, rt, is_terminal)
}

/// The same, where the files are those of one runtime, and all else is that of another one. It may wait.
pub fn run_over<F, R>(files: &F, rt: &R, is_terminal: bool) -> u8
where
    F: Files,
    R: AllocGlobal + Input + Print + Eprint + RandomSource + Env + Clock + Threads + Wait + Sync,
    ensures { (keyed : Bool) × (words : Result (List Text) TroubleOfWords) × (es : List Event) × IsRun keyed words es result }
{
    let mut host = Host {
        disk: SystemFiles { files },
        streams: SystemStreams { rt, is_terminal },
    };
    let progress = Progress::new(rt, is_terminal);
    let keys = RandomState::new(rt).ok();
    let means = Means {
        rt,
        alloc: rt.alloc(),
        watch: &progress,
    };
    run_on(&means, &mut host, keys, &SystemArguments { rt })
}
