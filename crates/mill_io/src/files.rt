ghost use Rattle.std.specs.Prelude.{◌≡◌, ◌≤◌, [], length, IfOk};
ghost use Rattle.mill_io.specs.Views.{untold, unwritten};

use crate::log::{Log, Note};
use crate::{Failed, Shelf, Sink};
use std::alloc::Global;
use std::io::{Read, Seek, SeekFrom, Write};
use std::rt::Files;
use std::{fs, io};

/// A file that is open for reading.
#[derive(Drop)]
struct OpenFile<F: Drop> {
    name: Vec<u8>,
    file: F,
    /// Where the last read ended.
    at: u64,
}

impl<F: Read + Seek + Drop> OpenFile<F> {
    fn read(&mut self, from: u64, buf: &mut [u8]) -> io::Result<usize>
        ensures { IfOk result (λ n. n ≤ length buf.new) }
    {
        let count = read_at(&mut self.file, self.at, from, buf)?;
        // The sum stays under 2^64: no place that can be read at comes near that.
        self.at = from.saturating_add(count as u64);
        Ok(count)
    }
}

// Reads from a place on in a file that stands at another, or at the same.
fn read_at<F: Read + Seek>(file: &mut F, at: u64, from: u64, buf: &mut [u8]) -> io::Result<usize>
    ensures { IfOk result (λ n. n ≤ length buf.new) }
{
    if from != at {
        file.seek(SeekFrom::Start(from))?;
    }
    file.read(buf)
}

/// Real files, by their paths. It tells no contents, but what each read gave.
///
/// The file that is read stays open until a file of another name is read, a read fails, or a file is
/// created or appended to. So a file that is read piece by piece is opened once, and is read as it
/// was then, also where another is put in its place meanwhile. Without memory for its name a file is
/// opened anew for each read. Each append opens its file.
///
/// An error raises the count of its kind, and so does an append of a piece that isn't empty and takes
/// nothing. The counts stop at the greatest `u64`.
#[derive(Drop)]
pub struct FileShelf<'a, R: Files> {
    rt: &'a R,
    alloc: Global,
    open: Option<OpenFile<R::File>>,
    read_faults: u64,
    write_faults: u64,
    log: Log,
}

impl<'a, R: Files> FileShelf<'a, R> {
    /// The files of the system behind this runtime.
    pub fn new(alloc: Global, rt: &'a R) -> Self
        ensures read_faults { (⟦<FileShelf<'a, R> as Shelf>⟧.shows result).read_faults ≡ 0 }
        ensures write_faults { (⟦<FileShelf<'a, R> as Shelf>⟧.shows result).write_faults ≡ 0 }
        ensures unread { (⟦<FileShelf<'a, R> as Shelf>⟧.shows result).log ≡ [] }
    {
        FileShelf {
            rt,
            alloc,
            open: None,
            read_faults: 0,
            write_faults: 0,
            log: Log::new(),
        }
    }

    // Reads in the open file, if it has this name, or else opens the one that has.
    fn try_read(&mut self, name: &str, from: u64, buf: &mut [u8]) -> io::Result<usize>
        ensures within { IfOk result (λ n. n ≤ length buf.new) }
        ensures read_faults { self.new.read_faults ≡ self.old.read_faults }
        ensures write_faults { self.new.write_faults ≡ self.old.write_faults }
        ensures log { self.new.log ≡ self.old.log }
    {
        let mut open = match self.open.take() {
            Some(open) if open.name.as_slice() == name.as_bytes() => open,
            _ => {
                let mut file = fs::open(self.rt, name)?;
                match Vec::from_slice(self.alloc, name.as_bytes()) {
                    Ok(name) => OpenFile { name, file, at: 0 },
                    Err(_) => return read_at(&mut file, 0, from, buf),
                }
            }
        };
        let count = open.read(from, buf)?;
        self.open = Some(open);
        Ok(count)
    }

    fn try_append(&self, name: &str, bytes: &[u8]) -> io::Result<usize>
        ensures { IfOk result (λ n. n ≤ length bytes.now) }
    {
        let mut file = fs::OpenOptions::new().append(true).open(self.rt, name)?;
        file.write(bytes)
    }
}

impl<'a, R: Files> Shelf for FileShelf<'a, R> {
    ghost shows = { λ s. untold s.read_faults s.write_faults s.log.reads };

    fn read(&mut self, name: &str, from: u64, buf: &mut [u8]) -> Result<usize, Failed> {
        match self.try_read(name, from, buf) {
            Ok(count) => {
                self.log = self.log.then(&Note::Gave(name, from, count, buf));
                Ok(count)
            }
            Err(_) => {
                self.read_faults = self.read_faults.saturating_add(1);
                self.log = self.log.then(&Note::Failed(name, from));
                Err(Failed)
            }
        }
    }

    fn create(&mut self, name: &str) -> Result<(), Failed> {
        self.open = None;
        match fs::create(self.rt, name) {
            Ok(_) => Ok(()),
            Err(_) => {
                self.write_faults = self.write_faults.saturating_add(1);
                Err(Failed)
            }
        }
    }

    fn append(&mut self, name: &str, bytes: &[u8]) -> Result<usize, Failed> {
        self.open = None;
        match self.try_append(name, bytes) {
            Ok(count) if count > 0 || bytes.is_empty() => Ok(count),
            _ => {
                self.write_faults = self.write_faults.saturating_add(1);
                Err(Failed)
            }
        }
    }
}

/// Standard output. It tells nothing of what was written.
///
/// An error raises its count, and so does a write of a piece that isn't empty and takes nothing.
/// The count stops at the greatest `u64`.
#[derive(Drop)]
pub struct StdSink<'a, R: Print> {
    rt: &'a R,
    faults: u64,
}

impl<'a, R: Print> StdSink<'a, R> {
    /// The standard output of the process behind this runtime.
    pub fn new(rt: &'a R) -> Self
        ensures { (⟦<StdSink<'a, R> as Sink>⟧.shows result).faults ≡ 0 }
    {
        StdSink { rt, faults: 0 }
    }
}

impl<'a, R: Print> Sink for StdSink<'a, R> {
    ghost shows = { λ s. unwritten s.faults };

    fn write(&mut self, bytes: &[u8]) -> Result<usize, Failed> {
        match io::writer(self.rt).write(bytes) {
            Ok(count) if count > 0 || bytes.is_empty() => Ok(count),
            _ => {
                self.faults = self.faults.saturating_add(1);
                Err(Failed)
            }
        }
    }
}
