//! An output file in memory, whose name and bytes never take more memory than at its making.
#![tactic(auto)]

ghost use Rattle.std.specs.Prelude.{◌≡◌, ◌+◌, ◌≤◌, [], ◌++◌, length, IfOk};

use crate::kinds::FileKind;
use std::alloc::{AllocError, Global};
use std::marker::Model;

/// The greatest length of an output's name, in bytes.
pub const NAME_ROOM: usize = 256;

#[derive(Drop)]
pub struct Slot {
    name: String,
    kind: FileKind,
    bytes: Vec<u8>,
    room: usize,
}

impl Model for Slot {
    ghost use Rattle.std.specs.Prelude.{◌≤◌, vec_len, vec_capacity, string_bytes, string_capacity};
    ghost use Rattle.lk_depot.specs.Held.{Held};

    ghost Value = { Held };

    ghost view = { λ s. record {
      name = string_bytes s.name;
      kind = s.kind;
      bytes = s.bytes.items;
      room = s.room;
    } };

    ghost invariant = { λ s. record {
      name_room : 256 ≤ string_capacity s.name;
      within : vec_len s.bytes ≤ s.room;
      bytes_room : s.room ≤ vec_capacity s.bytes;
    } };
}

impl Slot {
    /// An empty file without a name, with room for a name and for `room` bytes.
    pub fn new(alloc: Global, room: usize) -> Result<Slot, AllocError>
        ensures { IfOk result (λ slot. slot.room ≡ room) }
    {
        Ok(Slot {
            name: String::with_capacity(alloc, NAME_ROOM)?,
            kind: FileKind::Plain,
            bytes: Vec::with_capacity(alloc, room)?,
            room,
        })
    }

    pub fn name(&self) -> &str
        ensures { result.now ≡ self.now.name }
    {
        self.name.as_str()
    }

    pub fn kind(&self) -> FileKind
        ensures { result ≡ self.now.kind }
    {
        self.kind
    }

    pub fn bytes(&self) -> &[u8]
        ensures bytes { result.now ≡ self.now.bytes }
        ensures within { length self.now.bytes ≤ self.now.room }
    {
        self.bytes.as_slice()
    }

    /// Makes it an empty file of this name and kind.
    pub fn start(&mut self, name: &str, kind: FileKind)
        requires { length name.now ≤ 256 }
        ensures { self.new ≡ record { name = name.now; kind = kind; bytes = []; room = self.old.room } }
    {
        self.name.clear();
        if self.name.push_str(name).is_err() {
            unreachable!()
        }
        self.kind = kind;
        self.bytes.clear();
    }

    /// Adds a piece that fits to its end.
    pub fn add(&mut self, piece: &[u8])
        requires { length self.old.bytes + length piece.now ≤ self.old.room }
        ensures { self.new ≡ record self.old { bytes = self.old.bytes ++ piece.now } }
    {
        if self.bytes.extend_from_slice(piece).is_err() {
            unreachable!()
        }
    }
}
