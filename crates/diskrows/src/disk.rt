//! A disk in memory, on which deeds fail.

use outside::{Disk, Lead, Streams};
use std::alloc::{AllocError, Global};
use std::io;
use std::io::ErrorKind;

/// A file: its path and its text.
#[derive(Drop)]
pub(crate) struct Held {
    pub(crate) path: String,
    pub(crate) text: Vec<u8>,
}

/// Which deeds fail, counted from 1.
#[derive(Clone, Copy)]
pub(crate) struct Failing {
    /// The first; none where it is 0.
    pub(crate) first: usize,
    /// Whether each later one fails too.
    pub(crate) lasts: bool,
    /// The kind of the errors.
    pub(crate) kind: ErrorKind,
    /// Whether the folder allows no new file.
    pub(crate) denies: bool,
}

/// A disk in memory.
#[derive(Drop)]
pub(crate) struct Memory {
    alloc: Global,
    files: Vec<Held>,
    failing: Failing,
    deeds: usize,
}

impl Memory {
    /// A disk with one file.
    pub(crate) fn new(
        alloc: Global,
        path: &str,
        text: &[u8],
        failing: Failing,
    ) -> Result<Memory, AllocError> {
        let mut disk = Memory {
            alloc,
            files: Vec::new(alloc),
            failing,
            deeds: 0,
        };
        disk.put(path, text)?;
        Ok(disk)
    }

    /// All of its files.
    pub(crate) fn files(&self) -> &[Held] {
        self.files.as_slice()
    }

    /// One deed more: an error where it fails.
    fn begin(&mut self) -> io::Result<()> {
        self.deeds = self.deeds.saturating_add(1);
        let Failing {
            first,
            lasts,
            kind,
            ..
        } = self.failing;
        if first > 0 && (self.deeds == first || (lasts && self.deeds > first)) {
            return Err(io::Error::from(kind));
        }
        Ok(())
    }

    /// Where a file is among the others.
    fn find(&self, path: &str) -> Option<usize> {
        self.files
            .iter()
            .position(|held| held.path.as_str() == path)
    }

    /// A file more.
    fn put(&mut self, path: &str, text: &[u8]) -> Result<(), AllocError> {
        let path = String::from_str(self.alloc, path)?;
        let mut copy = Vec::new(self.alloc);
        copy.extend_from_slice(text)?;
        self.files.push(Held { path, text: copy })?;
        Ok(())
    }

    /// Takes a file away, if it is there, with its text.
    fn take(&mut self, path: &str) -> Option<Vec<u8>> {
        let at = self.find(path)?;
        if at >= self.files.len() {
            return None;
        }
        Some(self.files.remove(at).text)
    }

    /// Gives a file more text.
    fn extend(&mut self, path: &str, text: &[u8]) -> io::Result<()> {
        let mut all = match self.take(path) {
            Some(all) => all,
            None => Vec::new(self.alloc),
        };
        all.extend_from_slice(text)?;
        self.put(path, all.as_slice())?;
        Ok(())
    }
}

impl Disk for Memory {
    type File = String;

    fn open(&self, path: &str) -> io::Result<String> {
        Ok(String::from_str(self.alloc, path)?)
    }

    fn read_to(&self, _file: &mut String, _most: u64, _text: &mut Vec<u8>) -> io::Result<()> {
        Err(io::Error::from(ErrorKind::Unsupported))
    }

    fn lead(&self, alloc: Global, path: &str) -> io::Result<Lead> {
        match self.find(path) {
            Some(_) => Ok(Lead::Plain(String::from_str(alloc, path)?)),
            None => Ok(Lead::Free),
        }
    }

    fn create(&mut self, path: &str) -> io::Result<String> {
        self.begin()?;
        drop(self.take(path));
        self.put(path, b"")?;
        Ok(String::from_str(self.alloc, path)?)
    }

    fn create_new(&mut self, path: &str) -> io::Result<String> {
        self.begin()?;
        if self.failing.denies {
            return Err(io::Error::from(ErrorKind::PermissionDenied));
        }
        if self.find(path).is_some() {
            return Err(io::Error::from(ErrorKind::AlreadyExists));
        }
        self.put(path, b"")?;
        Ok(String::from_str(self.alloc, path)?)
    }

    fn take_permissions(&mut self, _file: &String, _path: &str) -> io::Result<()> {
        self.begin()
    }

    fn fill(&mut self, file: &mut String, text: &[u8]) -> io::Result<()> {
        if let Err(error) = self.begin() {
            self.extend(file.as_str(), &text[..text.len() / 2])?;
            return Err(error);
        }
        self.extend(file.as_str(), text)
    }

    fn sync(&mut self, _file: &String) -> io::Result<()> {
        self.begin()
    }

    fn rename(&mut self, from: &str, to: &str) -> io::Result<()> {
        self.begin()?;
        let Some(text) = self.take(from) else {
            return Err(io::Error::from(ErrorKind::NotFound));
        };
        drop(self.take(to));
        self.put(to, text.as_slice())?;
        Ok(())
    }

    fn remove(&mut self, path: &str) -> io::Result<()> {
        self.begin()?;
        drop(self.take(path));
        Ok(())
    }

    fn is_one_file(&self, one: &str, other: &str) -> bool {
        one == other
    }

    fn is_plain(&self, _path: &str) -> bool {
        true
    }
}

/// Streams that take everything, and give nothing.
#[derive(Drop)]
pub(crate) struct Silent {}

impl Streams for Silent {
    fn is_terminal(&self) -> bool {
        false
    }

    fn read_input(&self, _most: u64, _text: &mut Vec<u8>) -> io::Result<()> {
        Err(io::Error::from(ErrorKind::Unsupported))
    }

    fn print(&mut self, _text: &[u8]) -> io::Result<()> {
        Ok(())
    }

    fn say(&mut self, _line: &str) -> io::Result<()> {
        Ok(())
    }

    fn say_of(&mut self, _path: &str, _line: &str) -> io::Result<()> {
        Ok(())
    }

    fn show(&mut self, _error: &clap::Error) -> io::Result<()> {
        Ok(())
    }
}
