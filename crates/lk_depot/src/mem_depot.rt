//! A store of files in memory, whose memory for outputs is taken at its making, and whose calls can be made to fail.
#![tactic(auto)]

ghost use Rattle.std.specs.Prelude.{◌≡◌, ◌≢◌, ◌<◌, ◌≤◌, [], map, length, option_copied, string_bytes, IfOk, IfErr, IsErrOf};
ghost use Rattle.std.specs.FinMap.{get, empty};
ghost use Rattle.lk_depot.specs.Loading.{AfterLoads};
ghost use Rattle.lk_depot.specs.Overlays.{files_from, place_of, input_name};
ghost use Rattle.lk_depot.specs.Shelf.{Shelf, store_of, answer_load, after_load, answer_begin, after_begin, answer_append, after_append};
ghost use Rattle.lk_depot.specs.ShelfLoads.{LoadsEnd};

use crate::faults::counted;
use crate::kinds::FileKind;
use crate::script::Script;
use crate::slot::{NAME_ROOM, Slot};
use crate::stops::{Failed, LoadAllStop, LoadStop};
use crate::store::Depot;
use std::alloc::{AllocError, Global};
use std::marker::Model;
use std::thread::Threads;

/// A store of files in memory, for tests of what is written and of what follows a fault.
///
/// It means a `Shelf`, which has all of it: the files, the kinds of the outputs, the counts, the names that could not be read, the
/// calls that are to fail and the limits. Load, begin and append are numbered together, from 0.
#[derive(Drop)]
pub struct MemDepot {
    inputs: Vec<(String, Vec<u8>)>,
    outputs: Vec<Slot>,
    spare: Vec<Slot>,
    unread: Vec<String>,
    faults: u64,
    begun: u64,
    script: Script,
    most: usize,
    room: usize,
}

impl Model for MemDepot {
    ghost use Rattle.lk_depot.specs.Shelf.{Shelf};
    ghost use Rattle.lk_depot.specs.ShelfCode.{shelf_code};

    ghost Value = { Shelf };

    ghost coded = { shelf_code };

    ghost use Rattle.std.specs.Prelude.{◌≡◌, ◌+◌, ◌≤◌, map, string_bytes, vec_len, vec_capacity, All};
    ghost use Rattle.std.specs.FinMap.{len};
    ghost use Rattle.lk_depot.specs.Overlays.{files_from, files_with, kinds_of};

    ghost view = { λ d. record {
      files = files_with d.outputs.items (files_from d.inputs.items);
      kinds = kinds_of d.outputs.items;
      faults = d.faults;
      begun = d.begun;
      calls = d.script.calls;
      unread = map string_bytes d.unread.items;
      fails = d.script.fails.items;
      most = d.most;
      room = d.room;
    } };

    ghost invariant = { λ d. record {
      two : vec_len d.outputs + vec_len d.spare ≡ 2;
      capacity : 2 ≤ vec_capacity d.outputs;
      apart : len (kinds_of d.outputs.items) ≡ vec_len d.outputs;
      outputs_room : All (λ held. held.room ≡ d.room) d.outputs.items;
      spare_room : All (λ held. held.room ≡ d.room) d.spare.items;
      some : 1 ≤ d.most;
    } };
}

/// The place of the first output of this name.
fn output_place(outputs: &[Slot], name: &str) -> Option<usize>
    ensures { result ≡ place_of (λ held. held.name) outputs.now name.now }
{
    outputs.iter().position(|slot| slot.name() == name)
}

/// The place of the first input of this name.
fn input_place(inputs: &[(String, Vec<u8>)], name: &str) -> Option<usize>
    ensures { result ≡ place_of input_name inputs.now name.now }
{
    inputs.iter().position(|input| input.0.as_str() == name)
}

impl MemDepot {
    /// A depot that holds these files, whose calls with the numbers in `fails` fail, and whose appends take at most `most`
    /// bytes each.
    ///
    /// It takes memory for two outputs of `room` bytes each, with names of at most 256 bytes. Of two files of one name the
    /// first counts.
    pub fn new(
        alloc: Global,
        files: Vec<(String, Vec<u8>)>,
        fails: Vec<u64>,
        most: usize,
        room: usize,
    ) -> Result<MemDepot, AllocError>
        requires { 1 ≤ most }
        ensures { IfOk result (λ depot. depot ≡ record {
          files = files_from files.items;
          kinds = empty;
          faults = 0;
          begun = 0;
          calls = 0;
          unread = [];
          fails = fails.items;
          most = most;
          room = room;
        }) }
    {
        let mut spare = Vec::new(alloc);
        spare.push(Slot::new(alloc, room)?)?;
        spare.push(Slot::new(alloc, room)?)?;
        Ok(MemDepot {
            inputs: files,
            outputs: Vec::with_capacity(alloc, 2)?,
            spare,
            unread: Vec::new(alloc),
            faults: 0,
            begun: 0,
            script: Script { fails, calls: 0 },
            most,
            room,
        })
    }

    /// The bytes of the file of this name.
    pub fn bytes(&self, name: &str) -> Option<&[u8]>
        ensures { option_copied result ≡ get self.now.files name.now }
    {
        if let Some(place) = output_place(self.outputs.as_slice(), name) {
            let slot = &self.outputs[place];
            return Some(slot.bytes());
        }
        if let Some(place) = input_place(self.inputs.as_slice(), name) {
            return Some(self.inputs[place].1.as_slice());
        }
        None
    }

    /// The kind of the output of this name.
    pub fn kind(&self, name: &str) -> Option<FileKind>
        ensures { result ≡ get self.now.kinds name.now }
    {
        if let Some(place) = output_place(self.outputs.as_slice(), name) {
            let slot = &self.outputs[place];
            return Some(slot.kind());
        }
        None
    }

    /// The names whose load failed, in the order of the loads.
    pub fn unread(&self) -> &[String]
        ensures { map string_bytes result.now ≡ self.now.unread }
    {
        self.unread.as_slice()
    }

    /// How many calls failed.
    pub fn faults(&self) -> u64
        ensures { result ≡ self.now.faults }
    {
        self.faults
    }

    /// How many calls of begin there were.
    pub fn begun(&self) -> u64
        ensures { result ≡ self.now.begun }
    {
        self.begun
    }

    /// How many calls of load, begin and append there were.
    pub fn calls(&self) -> u64
        ensures { result ≡ self.now.calls }
    {
        self.script.calls
    }
}

impl Depot for MemDepot {
    ghost store = { store_of };

    fn load(&mut self, alloc: Global, name: &str) -> Result<Vec<u8>, LoadStop>
        ensures ok { IfOk result (λ bytes. answer_load self.old name.now ≡ Ok bytes.items) }
        ensures err { IfErr result (λ stop. stop ≢ LoadStop.Memory → answer_load self.old name.now ≡ Err stop) }
        ensures memory { IsErrOf result LoadStop.Memory → answer_load self.old name.now ≢ Err LoadStop.Absent }
        ensures after { self.new ≡ after_load self.old name.now result }
    {
        if self.script.next_fails() {
            let Ok(kept) = String::from_str(alloc, name) else {
                return Err(LoadStop::Memory);
            };
            if self.unread.push(kept).is_err() {
                return Err(LoadStop::Memory);
            }
            let _ = counted(&mut self.faults);
            return Err(LoadStop::Failed);
        }
        let Some(bytes) = self.bytes(name) else {
            return Err(LoadStop::Absent);
        };
        match Vec::from_slice(alloc, bytes) {
            Ok(copy) => Ok(copy),
            Err(_) => Err(LoadStop::Memory),
        }
    }

    /// One worker loads the files, one after another. The first load that gives no file is the last that is made.
    fn load_files<R: Threads + Sync>(
        &mut self,
        _rt: &R,
        alloc: Global,
        names: &[String],
        _workers: u32,
    ) -> Result<Vec<Vec<u8>>, LoadAllStop>
        ensures loads { AfterLoads (store_of self.old) (store_of self.new) (map string_bytes names.now) result }
        ensures ends { LoadsEnd self.old self.new (map string_bytes names.now) result }
    {
        let mut contents = Vec::new(alloc);
        for (index, name) in names.iter().enumerate() {
            let bytes = match self.load(alloc, name.as_str()) {
                Ok(bytes) => bytes,
                Err(LoadStop::Absent) => return Err(LoadAllStop::Absent { index }),
                Err(LoadStop::Failed) => return Err(LoadAllStop::Failed { index }),
                Err(LoadStop::Memory) => return Err(LoadAllStop::Memory),
            };
            if contents.push(bytes).is_err() {
                return Err(LoadAllStop::Memory);
            }
        }
        Ok(contents)
    }

    fn begin(&mut self, name: &str, kind: FileKind) -> Result<(), Failed>
        ensures answer { result ≡ answer_begin self.old name.now }
        ensures after { self.new ≡ after_begin self.old name.now kind }
    {
        self.begun = self.begun.saturating_add(1);
        if self.script.next_fails() {
            return Err(counted(&mut self.faults));
        }
        if name.len() > NAME_ROOM {
            return Err(counted(&mut self.faults));
        }
        if let Some(place) = output_place(self.outputs.as_slice(), name) {
            let slot = &mut self.outputs[place];
            slot.start(name, kind);
            return Ok(());
        }
        let Some(mut slot) = self.spare.pop() else {
            return Err(counted(&mut self.faults));
        };
        slot.start(name, kind);
        if self.outputs.push(slot).is_err() {
            unreachable!()
        }
        Ok(())
    }

    /// As many of the first bytes of `piece` as one append takes and as there is room for.
    fn append(&mut self, name: &str, piece: &[u8]) -> Result<usize, Failed>
        requires { 0 < length piece.now }
        ensures answer { result ≡ answer_append self.old name.now piece.now }
        ensures after { self.new ≡ after_append self.old name.now piece.now }
        ensures some { 0 < self.old.most }
    {
        if self.script.next_fails() {
            return Err(counted(&mut self.faults));
        }
        let Some(place) = output_place(self.outputs.as_slice(), name) else {
            return Err(counted(&mut self.faults));
        };
        let written = &self.outputs[place];
        let room_left = self.room - written.bytes().len();
        if room_left == 0 {
            return Err(counted(&mut self.faults));
        }
        let taken = piece.len().min(self.most).min(room_left);
        let slot = &mut self.outputs[place];
        slot.add(&piece[..taken]);
        Ok(taken)
    }
}
