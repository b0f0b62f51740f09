//! What is done on files and streams.

use crate::beside::{cut_over, put_at, put_over};
use crate::disk::{Disk, Lead};
use crate::reason::{Reason, reason_of};
use crate::streams::Streams;
use crate::trouble::{Trouble, Unwritten, not_written, trouble_of};
use crate::whole::{read_input, read_whole};
use crate::world::World;
use std::alloc::Global;

/// Files, and the standard input, output and error.
#[derive(Drop)]
pub struct Host<D, S> {
    /// Where the files lie.
    pub disk: D,
    /// The standard input, output and error.
    pub streams: S,
}

impl<D: Disk + Drop, S: Streams + Drop> World for Host<D, S> {
    ghost use Rattle.std.specs.Prelude.{List, ◌∷◌, []};
    ghost use Rattle.outside.specs.Deeds.{Deed};
    ghost use Rattle.outside.specs.Events.{Adds, writes, replaces, trouble_in, path_left, leaving};
    ghost use Rattle.outside.specs.Output.{AreDone};
    ghost use Rattle.outside.specs.Tried.{Turns};
    ghost use Rattle.outside.specs.Written.{IsWrittenTo, IsReplacedBy};

    ghost done = { λ h es. AreDone (record {
      holds = D.holds h.disk;
      refuses = D.refuses;
      tells_one = D.tells_one;
      tells_plain = D.tells_plain;
      input = S.input;
      input_refuses = S.input_refuses;
      out = S.out h.streams;
      out_failed = S.out_failed h.streams;
      err = S.err h.streams;
      err_failed = S.err_failed h.streams;
      tells_terminal = S.tells_terminal;
    }) es };

    fn read(&mut self, alloc: Global, path: Option<&str>) -> Result<Vec<u8>, Trouble> {
        match path {
            Some(path) => read_whole(&self.disk, alloc, path),
            None => read_input(&self.streams, alloc),
        }
    }

    fn is_one_file(&mut self, one: &str, other: &str) -> bool {
        one == other || self.disk.is_one_file(one, other)
    }

    fn is_plain(&mut self, path: &str) -> bool {
        self.disk.is_plain(path)
    }

    fn write(&mut self, alloc: Global, path: &str, text: &[u8]) -> Result<(), Unwritten>
        ensures done { Adds (AreDone (record {
          holds = D.holds self.old.disk;
          refuses = D.refuses;
          tells_one = D.tells_one;
          tells_plain = D.tells_plain;
          input = S.input;
          input_refuses = S.input_refuses;
          out = S.out self.old.streams;
          out_failed = S.out_failed self.old.streams;
          err = S.err self.old.streams;
          err_failed = S.err_failed self.old.streams;
          tells_terminal = S.tells_terminal;
        }))
            (AreDone (record {
              holds = D.holds self.new.disk;
              refuses = D.refuses;
              tells_one = D.tells_one;
              tells_plain = D.tells_plain;
              input = S.input;
              input_refuses = S.input_refuses;
              out = S.out self.new.streams;
              out_failed = S.out_failed self.new.streams;
              err = S.err self.new.streams;
              err_failed = S.err_failed self.new.streams;
              tells_terminal = S.tells_terminal;
            }))
            (writes path.now text.now (trouble_in result) ∷ leaving (path_left result)) }
        ensures written { (ds : List Deed) × Turns (record {
          before = D.did self.old.disk;
          after = D.did self.new.disk;
          known = D.holds self.old.disk;
          now = D.holds self.new.disk;
        }) ds
            × IsWrittenTo (record {
              plain = D.leads path.now;
              free = D.is_free path.now;
              other = D.is_other path.now;
              hidden = D.hides path.now;
            }) path.now text.now ds result }
    {
        match self.disk.lead(alloc, path) {
            Ok(Lead::Plain(real)) => {
                put_at(
                    &mut self.disk,
                    alloc,
                    Some(real.as_str()),
                    real.as_str(),
                    text,
                )
            }
            Ok(Lead::Free) => put_at(&mut self.disk, alloc, None, path, text),
            Ok(Lead::Other) => cut_over(&mut self.disk, path, text),
            Err(error) => Err(not_written(trouble_of(&error))),
        }
    }

    fn replace(&mut self, alloc: Global, path: &str, text: &[u8]) -> Result<(), Unwritten>
        ensures done { Adds (AreDone (record {
          holds = D.holds self.old.disk;
          refuses = D.refuses;
          tells_one = D.tells_one;
          tells_plain = D.tells_plain;
          input = S.input;
          input_refuses = S.input_refuses;
          out = S.out self.old.streams;
          out_failed = S.out_failed self.old.streams;
          err = S.err self.old.streams;
          err_failed = S.err_failed self.old.streams;
          tells_terminal = S.tells_terminal;
        }))
            (AreDone (record {
              holds = D.holds self.new.disk;
              refuses = D.refuses;
              tells_one = D.tells_one;
              tells_plain = D.tells_plain;
              input = S.input;
              input_refuses = S.input_refuses;
              out = S.out self.new.streams;
              out_failed = S.out_failed self.new.streams;
              err = S.err self.new.streams;
              err_failed = S.err_failed self.new.streams;
              tells_terminal = S.tells_terminal;
            }))
            (replaces path.now text.now (trouble_in result) ∷ leaving (path_left result)) }
        ensures replaced { (ds : List Deed) × Turns (record {
          before = D.did self.old.disk;
          after = D.did self.new.disk;
          known = D.holds self.old.disk;
          now = D.holds self.new.disk;
        }) ds
            × IsReplacedBy (record {
              plain = D.leads path.now;
              free = D.is_free path.now;
              other = D.is_other path.now;
              hidden = D.hides path.now;
            }) text.now ds result }
    {
        match self.disk.lead(alloc, path) {
            Ok(Lead::Plain(real)) => put_over(&mut self.disk, alloc, real.as_str(), text),
            Ok(Lead::Free) => Err(not_written(Trouble::Refused(Reason::NoSuchFile))),
            Ok(Lead::Other) => Err(not_written(Trouble::Refused(Reason::Untold))),
            Err(error) => Err(not_written(trouble_of(&error))),
        }
    }

    fn print(&mut self, text: &[u8]) -> Result<(), Reason> {
        match self.streams.print(text) {
            Ok(()) => Ok(()),
            Err(error) => Err(reason_of(&error)),
        }
    }

    fn say(&mut self, line: &str) {
        let _ = self.streams.say(line);
    }

    fn say_of(&mut self, path: &str, line: &str) {
        let _ = self.streams.say_of(path, line);
    }

    fn note(&mut self, line: &str) {
        if self.streams.is_terminal() {
            let _ = self.streams.say(line);
        }
    }

    fn show(&mut self, error: &clap::Error) -> Result<(), Reason> {
        match self.streams.show(error) {
            Ok(()) => Ok(()),
            Err(failed) => Err(reason_of(&failed)),
        }
    }
}
