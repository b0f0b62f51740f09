//! What is written, as long as there is memory: a want of it is told once, at the end, so that none of the many parts has to.

use std::alloc::{AllocError, Global};
use std::fmt::Display;
use std::io::Write;

/// What is written.
#[derive(Drop)]
pub struct Written {
    /// The bytes.
    pub bytes: Vec<u8>,
    /// Memory ran out, and some of it is missing.
    pub is_short: bool,
}

impl Written {
    /// Nothing yet.
    pub fn new(alloc: Global) -> Written {
        Written {
            bytes: Vec::new(alloc),
            is_short: false,
        }
    }

    /// Keeps whether memory ran out.
    pub fn note(&mut self, done: Result<(), AllocError>) {
        if done.is_err() {
            self.is_short = true;
        }
    }

    /// Writes these bytes.
    pub fn put(&mut self, bytes: &[u8]) {
        let done = self.bytes.extend_from_slice(bytes);
        self.note(done);
    }

    /// Writes these words. Writing into a vector fails only for want of memory.
    pub fn show(&mut self, words: impl Display + Drop) {
        if write!(self.bytes, "{words}").is_err() {
            self.is_short = true;
        }
    }
}
