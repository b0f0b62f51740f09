//! The files and streams of a runtime, of which nothing is known.

use crate::disk::{Disk, Lead};
use crate::streams::Streams;
use std::alloc::Global;
use std::fs::{File, OpenFile};
use std::io::{ErrorKind, Read, Write};
use std::os::unix::fs::MetadataExt;
use std::path::Path;
use std::rt::Files;
use std::{fs, io};

/// The files of a runtime.
#[derive(Drop)]
pub struct SystemFiles<'r, F> {
    /// The runtime that has them.
    pub files: &'r F,
}

/// The path of the folder in which a path's file lies.
fn folder_of<'a>(path: Path<'a>) -> &'a str {
    match path.parent() {
        Some(folder) if !folder.as_str().is_empty() => folder.as_str(),
        _ => ".",
    }
}

impl<F: Files> SystemFiles<'_, F> {
    /// Whether something is at two paths, and it is one file or folder.
    fn lead_to_one(&self, one: &str, other: &str) -> bool {
        match (
            fs::metadata(self.files, one),
            fs::metadata(self.files, other),
        ) {
            (Ok(one), Ok(other)) => one.dev() == other.dev() && one.ino() == other.ino(),
            _ => false,
        }
    }

    /// Whether two paths have one name, in one folder: then they lead to one file as soon as one is there.
    fn is_one_place(&self, one: &str, other: &str) -> bool {
        let (one, other) = (Path::new(one), Path::new(other));
        one.file_name() == other.file_name() && self.lead_to_one(folder_of(one), folder_of(other))
    }
}

impl<F: Files> Disk for SystemFiles<'_, F> {
    type File = F::File;

    fn open(&self, path: &str) -> io::Result<F::File> {
        fs::open(self.files, path)
    }

    fn read_to(&self, file: &mut F::File, most: u64, text: &mut Vec<u8>) -> io::Result<()> {
        Read::by_ref(file).take(most).read_to_end(text)?;
        Ok(())
    }

    fn lead(&self, alloc: Global, path: &str) -> io::Result<Lead> {
        match fs::metadata(self.files, path) {
            Ok(found) if found.is_file() => {
                let real = self.files.canonicalize(alloc, path)?;
                Ok(Lead::Plain(real.into_string()))
            }
            Ok(_) => Ok(Lead::Other),
            Err(error) if error.kind() == ErrorKind::NotFound => {
                match fs::symlink_metadata(self.files, path) {
                    Ok(_) => Ok(Lead::Other),
                    Err(_) => Ok(Lead::Free),
                }
            }
            Err(error) => Err(error),
        }
    }

    fn create(&mut self, path: &str) -> io::Result<F::File> {
        fs::create(self.files, path)
    }

    fn create_new(&mut self, path: &str) -> io::Result<F::File> {
        File::create_new(self.files, path)
    }

    fn take_permissions(&mut self, file: &F::File, path: &str) -> io::Result<()> {
        let permissions = fs::metadata(self.files, path)?.permissions();
        file.set_permissions(permissions)
    }

    fn fill(&mut self, file: &mut F::File, text: &[u8]) -> io::Result<()> {
        file.write_all(text)
    }

    fn sync(&mut self, file: &F::File) -> io::Result<()> {
        file.sync_all()
    }

    fn rename(&mut self, from: &str, to: &str) -> io::Result<()> {
        fs::rename(self.files, from, to)
    }

    fn remove(&mut self, path: &str) -> io::Result<()> {
        fs::remove_file(self.files, path)
    }

    fn is_one_file(&self, one: &str, other: &str) -> bool {
        self.lead_to_one(one, other) || self.is_one_place(one, other)
    }

    fn is_plain(&self, path: &str) -> bool {
        match fs::metadata(self.files, path) {
            Ok(found) => found.is_file(),
            // (where nothing is, that is told when it is read)
            Err(_) => true,
        }
    }
}

/// The standard input, output and error of a runtime.
#[derive(Drop)]
pub struct SystemStreams<'r, R> {
    /// The runtime that has them.
    pub rt: &'r R,
    /// Whether the standard error is a terminal.
    pub is_terminal: bool,
}

impl<R: Input + Print + Eprint> Streams for SystemStreams<'_, R> {
    fn is_terminal(&self) -> bool {
        self.is_terminal
    }

    fn read_input(&self, most: u64, text: &mut Vec<u8>) -> io::Result<()> {
        self.rt.reader().take(most).read_to_end(text)?;
        Ok(())
    }

    fn print(&mut self, text: &[u8]) -> io::Result<()> {
        self.rt.write_all(text)
    }

    fn say(&mut self, line: &str) -> io::Result<()> {
        self.rt.eprintln(line)
    }

    fn say_of(&mut self, path: &str, line: &str) -> io::Result<()> {
        self.rt.eprintln(format_args!("{path}: {line}"))
    }

    fn show(&mut self, error: &clap::Error) -> io::Result<()> {
        error.print(self.rt)
    }
}
