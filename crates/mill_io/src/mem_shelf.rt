ghost use Rattle.std.specs.Prelude.{◌≡◌, ◌<◌, ◌≤◌, [], ◌∷◌, Some, length, take, is_err, IfOk, IfSome, OnErr};
ghost use Rattle.std.specs.Option.{option_copied};
ghost use Rattle.mill_io.specs.Causes.{HasCause};
ghost use Rattle.mill_io.specs.Contents.{GivesFrom, Appended, AppendedPart, Emptied};
ghost use Rattle.mill_io.specs.Memory.{HoldsFiles, IsFresh, CountsCall, SameOutFile, contents_of, find_file, out_name_of, shelf_capacity, shelf_script, shelf_takes, shelf_view, read_fails, create_fails, append_fails};
ghost use Rattle.mill_io.specs.Readings.{reading_of};
ghost use Rattle.mill_io.specs.Views.{ReadsOnly, WritesOnly};

use crate::log::{Log, Note};
use crate::room::Room;
use crate::script::Script;
use crate::{Failed, Shelf};
use mill_base::WantOfMemory;
use std::alloc::Global;

/// A file in memory.
#[derive(Drop)]
pub struct MemFile {
    pub name: Vec<u8>,
    pub bytes: Vec<u8>,
}

/// A shelf of files in memory, of which one can be written. It tells all its contents.
#[derive(Drop)]
pub struct MemShelf {
    files: Vec<MemFile>,
    out_name: Vec<u8>,
    out: Room,
    is_told: bool,
    script: Script,
    read_faults: u64,
    write_faults: u64,
    log: Log,
}

impl MemShelf {
    /// A shelf of these files, of which the first counts where names are equal.
    ///
    /// The file `out_name` can be written. It is told from the start if one of the files has its
    /// name, and else from the first create on. It holds at most `capacity` bytes, taken now, or as
    /// many as it begins with. The calls whose numbers are listed fail, counted from 0 over all
    /// calls, and so do a read of a name that isn't there, a create or an append of another name,
    /// and an append of a piece that isn't empty and finds no room left. The only error is that
    /// there is no memory.
    pub fn new(
        alloc: Global,
        files: Vec<MemFile>,
        out_name: &str,
        capacity: usize,
        fails: &[u64],
    ) -> Result<MemShelf, WantOfMemory>
        ensures shows { IfOk result (λ s. HoldsFiles files.items (⟦<MemShelf as Shelf>⟧.shows s)) }
        ensures out { IfOk result (λ s. out_name_of s ≡ out_name.now) }
        ensures capacity { IfOk result (λ s. shelf_capacity s ≡ capacity) }
        ensures script { IfOk result (λ s. IsFresh fails.now (shelf_script s)) }
    {
        let script = Script::new(alloc, fails)?;
        let out_name = Vec::from_slice(alloc, out_name.as_bytes())?;
        let (out, is_told) = match find_in(&files, out_name.as_slice()) {
            Some(bytes) => (Room::holding(alloc, capacity, bytes)?, true),
            None => (Room::new(alloc, capacity)?, false),
        };
        Ok(MemShelf {
            files,
            out_name,
            out,
            is_told,
            script,
            read_faults: 0,
            write_faults: 0,
            log: Log::new(),
        })
    }

    fn find(&self, name: &[u8]) -> Option<&[u8]>
        ensures { option_copied result ≡ contents_of self.now name.now }
    {
        if name == self.out_name.as_slice() {
            return if self.is_told {
                Some(self.out.bytes())
            } else {
                None
            };
        }
        find_in(&self.files, name)
    }
}

// The bytes of the first file of a name.
fn find_in<'a>(files: &'a [MemFile], name: &[u8]) -> Option<&'a [u8]>
    ensures { option_copied result ≡ find_file name.now files.now }
{
    for file in files {
        if file.name.as_slice() == name {
            return Some(file.bytes.as_slice());
        }
    }
    None
}

// Copies bytes from a place on into the buffer, as many as there are and fit.
fn copy_from(bytes: &[u8], from: u64, buf: &mut [u8]) -> usize
    ensures within { result ≤ length buf.new }
    ensures gives { GivesFrom bytes.now from result buf.new }
{
    let from = (from as usize).min(bytes.len());
    let count = buf.len().min(bytes.len() - from);
    buf[..count].copy_from_slice(&bytes[from..from + count]);
    count
}

impl Shelf for MemShelf {
    ghost shows = { shelf_view };

    fn read(&mut self, name: &str, from: u64, buf: &mut [u8]) -> Result<usize, Failed>
        ensures within { IfOk result (λ n. n ≤ length buf.new) }
        ensures bytes { IfOk result (λ n.
            IfSome (contents_of self.old name.now) (λ bytes. GivesFrom bytes from n buf.new)) }
        ensures only { ReadsOnly (shelf_view self.old) (shelf_view self.new) }
        ensures cause { HasCause self.old.read_faults self.new.read_faults result }
        ensures logged { (shelf_view self.new).log ≡ reading_of name.now from buf.new result ∷ (shelf_view self.old).log }

        // Which reads fail, and that each call is counted.
        ensures fails { is_err result ≡ read_fails self.old name.now }
        ensures counts { CountsCall (shelf_script self.old) (shelf_script self.new) }
        ensures keeps { SameOutFile self.old self.new }
    {
        if !self.script.fails_now() {
            if let Some(bytes) = self.find(name.as_bytes()) {
                let count = copy_from(bytes, from, buf);
                self.log = self.log.then(&Note::Gave(name, from, count, buf));
                return Ok(count);
            }
        }
        self.read_faults = self.read_faults.saturating_add(1);
        self.log = self.log.then(&Note::Failed(name, from));
        Err(Failed)
    }

    fn create(&mut self, name: &str) -> Result<(), Failed>
        ensures emptied { Emptied (contents_of self.old name.now) (contents_of self.new name.now) result }
        ensures only { WritesOnly name.now (shelf_view self.old) (shelf_view self.new) }
        ensures cause { HasCause self.old.write_faults self.new.write_faults result }
        ensures unread { (shelf_view self.new).log ≡ (shelf_view self.old).log }

        // Which creates fail, that an Ok tells the contents, and that each call is counted.
        ensures fails { is_err result ≡ create_fails self.old name.now }
        ensures told { IfOk result (λ _. contents_of self.new name.now ≡ Some []) }
        ensures counts { CountsCall (shelf_script self.old) (shelf_script self.new) }
        ensures keeps { SameOutFile self.old self.new }
    {
        if !self.script.fails_now() && name.as_bytes() == self.out_name.as_slice() {
            self.out.clear();
            self.is_told = true;
            return Ok(());
        }
        self.write_faults = self.write_faults.saturating_add(1);
        Err(Failed)
    }

    fn append(&mut self, name: &str, bytes: &[u8]) -> Result<usize, Failed>
        ensures within { IfOk result (λ n. n ≤ length bytes.now) }
        ensures some { 0 < length bytes.now → IfOk result (λ n. 0 < n) }
        ensures appended { IfOk result (λ n. Appended (take n bytes.now)
            (contents_of self.old name.now) (contents_of self.new name.now)) }
        ensures part { OnErr result (AppendedPart bytes.now
            (contents_of self.old name.now) (contents_of self.new name.now)) }
        ensures only { WritesOnly name.now (shelf_view self.old) (shelf_view self.new) }
        ensures cause { HasCause self.old.write_faults self.new.write_faults result }
        ensures unread { (shelf_view self.new).log ≡ (shelf_view self.old).log }

        // How much is taken, which appends fail, and that each call is counted.
        ensures takes { IfOk result (λ n. n ≡ shelf_takes self.old bytes.now) }
        ensures fails { is_err result ≡ append_fails self.old name.now bytes.now }
        ensures counts { CountsCall (shelf_script self.old) (shelf_script self.new) }
        ensures keeps { SameOutFile self.old self.new }
    {
        if !self.script.fails_now() && name.as_bytes() == self.out_name.as_slice() {
            if let Some(count) = self.out.add(bytes) {
                return Ok(count);
            }
        }
        self.write_faults = self.write_faults.saturating_add(1);
        Err(Failed)
    }
}
