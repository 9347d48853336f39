//! A stream in memory, whose room is taken at its making, and whose calls can be made to fail.
#![tactic(auto)]

ghost use Rattle.std.specs.Prelude.{◌≡◌, ◌<◌, [], length, IfOk};
ghost use Rattle.lk_depot.specs.Tape.{Tape, output_of, answer_put, after_put};

use crate::faults::counted;
use crate::output::Sink;
use crate::script::Script;
use crate::stops::Failed;
use std::alloc::{AllocError, Global};
use std::marker::Model;

/// A stream in memory, for tests of what is written and of what follows a fault.
///
/// It means a `Tape`, which has all of it: the bytes written, the faults, the calls so far, the calls that are to fail and
/// the room.
#[derive(Drop)]
pub struct MemSink {
    written: Vec<u8>,
    faults: u64,
    script: Script,
    room: usize,
}

impl Model for MemSink {
    ghost use Rattle.std.specs.Prelude.{◌≤◌, vec_len, vec_capacity};
    ghost use Rattle.lk_depot.specs.Tape.{Tape};

    ghost Value = { Tape };

    ghost view = { λ s. record {
      written = s.written.items;
      faults = s.faults;
      calls = s.script.calls;
      fails = s.script.fails.items;
      room = s.room;
    } };

    ghost invariant = { λ s. (vec_len s.written ≤ s.room) × (s.room ≤ vec_capacity s.written) };
}

impl MemSink {
    /// An empty stream that takes `room` bytes in all, and whose puts with the numbers in `fails` fail. They are numbered
    /// from 0.
    pub fn new(alloc: Global, fails: Vec<u64>, room: usize) -> Result<MemSink, AllocError>
        ensures { IfOk result (λ sink. sink ≡ record {
          written = [];
          faults = 0;
          calls = 0;
          fails = fails.items;
          room = room;
        }) }
    {
        Ok(MemSink {
            written: Vec::with_capacity(alloc, room)?,
            faults: 0,
            script: Script { fails, calls: 0 },
            room,
        })
    }

    /// The bytes that were written.
    pub fn written(&self) -> &[u8]
        ensures { result.now ≡ self.now.written }
    {
        self.written.as_slice()
    }

    /// How many puts failed.
    pub fn faults(&self) -> u64
        ensures { result ≡ self.now.faults }
    {
        self.faults
    }

    /// How many puts there were.
    pub fn calls(&self) -> u64
        ensures { result ≡ self.now.calls }
    {
        self.script.calls
    }
}

impl Sink for MemSink {
    ghost output = { output_of };

    /// As many of the first bytes of `piece` as there is room for.
    fn put(&mut self, piece: &[u8]) -> Result<usize, Failed>
        requires { 0 < length piece.now }
        ensures answer { result ≡ answer_put self.old piece.now }
        ensures after { self.new ≡ after_put self.old piece.now }
    {
        if self.script.next_fails() {
            return Err(counted(&mut self.faults));
        }
        let room_left = self.room - self.written.len();
        if room_left == 0 {
            return Err(counted(&mut self.faults));
        }
        let taken = piece.len().min(room_left);
        if self.written.extend_from_slice(&piece[..taken]).is_err() {
            unreachable!()
        }
        Ok(taken)
    }
}
