//! The files of the system as a store of files.
#![tactic(auto)]

ghost use Rattle.std.specs.Prelude.{◌≡◌, ◌≢◌, ◌<◌, ◌≤◌, [], map, length, string_bytes, IfOk, OnOk, OnErr, Err};
ghost use Rattle.std.specs.Thread.{IsSync};
ghost use Rattle.lk_real.specs.Reading.{IsOfNames};
ghost use Rattle.lk_real.specs.RealFiles.{store_of, with_unread, after_load, after_loads, after_begin, after_append};

use crate::output::{Output, at_end, begun};
use crate::reading::{bytes_of, read_files};
use lk_depot::{Depot, Failed, FileKind, LoadAllStop, LoadStop};
use std::alloc::{AllocError, Global};
use std::fs::File;
use std::io;
use std::io::{ErrorKind, Write};
use std::marker::Model;
use std::thread::Threads;

/// The files of the system, by path.
///
/// Its ghost view is a `RealFiles`: how many calls failed, how many files were begun, and the names that could not be read. Contracts
/// see neither its files nor their kinds, so a load answers `Failed` if there is no file, and never `Absent`. The file that was begun
/// or written to last stays open, so what is appended goes to it whatever has its name by then. It is closed once another is
/// begun or written to, or when the depot is dropped; an append to a closed one opens what has its name.
#[derive(Drop)]
pub struct RealDepot<'a> {
    rt: &'a HostRuntime,
    alloc: Global,
    open: Option<Output>,
    unread: Vec<String>,
    faults: u64,
    begun: u64,
}

impl<'a> Model for RealDepot<'a> {
    ghost use Rattle.std.specs.Prelude.{map, string_bytes};
    ghost use Rattle.lk_real.specs.RealFiles.{RealFiles};

    ghost Value = { RealFiles };

    ghost view = { λ d. record {
      faults = d.faults;
      begun = d.begun;
      unread = map string_bytes d.unread.items;
    } };
}

/// One write, made again if a signal interrupts it.
fn write_some(file: &mut File, piece: &[u8]) -> io::Result<usize>
    ensures { IfOk result (λ n. n ≤ length piece.now) }
{
    for _ in 0..u64::MAX {
        match file.write(piece) {
            Ok(written) => return Ok(written),
            Err(error) => {
                if error.kind() != ErrorKind::Interrupted {
                    return Err(error);
                }
            }
        }
    }
    Err(io::Error::from(ErrorKind::Interrupted))
}

impl<'a> RealDepot<'a> {
    /// The files of the system, with names as paths from the current folder. It keeps the reference, takes no memory, and
    /// keeps the allocator for the names that it cannot read.
    pub fn new(rt: &'a HostRuntime, alloc: Global) -> RealDepot<'a>
        ensures { result ≡ record { faults = 0; begun = 0; unread = [] } }
    {
        RealDepot {
            rt,
            alloc,
            open: None,
            unread: Vec::new(alloc),
            faults: 0,
            begun: 0,
        }
    }

    /// How many calls failed.
    pub fn faults(&self) -> u64
        ensures { result ≡ self.now.faults }
    {
        self.faults
    }

    /// How many calls of begin there were.
    pub fn begun(&self) -> u64
        ensures { result ≡ self.now.begun }
    {
        self.begun
    }

    /// The names whose load failed, in the order of the loads.
    pub fn unread(&self) -> &[String]
        ensures { map string_bytes result.now ≡ self.now.unread }
    {
        self.unread.as_slice()
    }

    /// Counts a load that failed, and keeps its name. If there is no memory for the name nothing changes.
    fn keep_unread(&mut self, name: &str) -> Result<(), AllocError>
        ensures kept { OnOk result (self.new ≡ with_unread self.old name.now) }
        ensures same { OnErr result (self.new ≡ self.old) }
    {
        let kept = String::from_str(self.alloc, name)?;
        self.unread.push(kept)?;
        self.faults = self.faults.saturating_add(1);
        Ok(())
    }

    /// Writes some of a piece to the end of the file of this name.
    fn write_to(&mut self, name: &str, piece: &[u8]) -> io::Result<usize>
        ensures most { IfOk result (λ n. n ≤ length piece.now) }
        ensures same { self.new ≡ self.old }
    {
        if let Some(open) = &mut self.open {
            if open.name.as_str() == name {
                return write_some(&mut open.file, piece);
            }
        }
        let mut output = at_end(self.rt, name)?;
        let written = write_some(&mut output.file, piece)?;
        self.open = Some(output);
        Ok(written)
    }
}

impl Depot for RealDepot<'_> {
    ghost store = { store_of };

    /// The file's bytes to its end, or the first 2^31 of a longer one.
    fn load(&mut self, alloc: Global, name: &str) -> Result<Vec<u8>, LoadStop>
        ensures untold { result ≢ Err LoadStop.Absent }
        ensures after { self.new ≡ after_load self.old name.now result }
    {
        let error = match bytes_of(self.rt, alloc, name) {
            Ok(bytes) => return Ok(bytes),
            Err(error) => error,
        };
        if error.kind() == ErrorKind::OutOfMemory {
            return Err(LoadStop::Memory);
        }
        match self.keep_unread(name) {
            Ok(()) => Err(LoadStop::Failed),
            Err(_) => Err(LoadStop::Memory),
        }
    }

    /// Each worker opens and reads the files of its share of the list, each as [`RealDepot::load`] does, up to the first that
    /// it cannot read. Up to 47 files are read with no thread. The first failure in the list is counted, and only its name kept.
    fn load_files<R: Threads + Sync>(
        &mut self,
        rt: &R,
        alloc: Global,
        names: &[String],
        workers: u32,
    ) -> Result<Vec<Vec<u8>>, LoadAllStop>
        requires sync { IsSync R.row }
        requires some { 1 ≤ workers }
        requires most { workers ≤ 64 }
        ensures names { IsOfNames (length names.now) result }
        ensures after { self.new ≡ after_loads self.old (map string_bytes names.now) result }
    {
        let stop = match read_files(self.rt, rt, alloc, names, workers) {
            Ok(contents) => return Ok(contents),
            Err(stop) => stop,
        };
        let LoadAllStop::Failed { index } = stop else {
            return Err(LoadAllStop::Memory);
        };
        match self.keep_unread(names[index].as_str()) {
            Ok(()) => Err(LoadAllStop::Failed { index }),
            Err(_) => Err(LoadAllStop::Memory),
        }
    }

    /// The file is a new one, with the permissions 0755 or 0644, less the umask. A regular file that is there makes way for
    /// it: its other names and those who have it open keep it. A symbolic link, a device or a FIFO is written in place; a
    /// file to which a link leads may then be run by those who may read it, if it is begun as an executable. A begin that
    /// fails leaves what is there. Takes no memory.
    fn begin(&mut self, name: &str, kind: FileKind) -> Result<(), Failed>
        ensures after { self.new ≡ after_begin self.old result }
    {
        self.begun = self.begun.saturating_add(1);
        let Ok(output) = begun(self.rt, name, kind) else {
            self.faults = self.faults.saturating_add(1);
            return Err(Failed);
        };
        self.open = Some(output);
        Ok(())
    }

    fn append(&mut self, name: &str, piece: &[u8]) -> Result<usize, Failed>
        requires { 0 < length piece.now }
        ensures some { IfOk result (λ n. 0 < n) }
        ensures most { IfOk result (λ n. n ≤ length piece.now) }
        ensures after { self.new ≡ after_append self.old result }
    {
        let written = self.write_to(name, piece).unwrap_or(0);
        if written == 0 {
            self.faults = self.faults.saturating_add(1);
            // Nothing may go to the file from here on, whatever takes its number.
            self.open = None;
            return Err(Failed);
        }
        Ok(written)
    }
}
