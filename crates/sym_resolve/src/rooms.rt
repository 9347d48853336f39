//! The room that COMMON symbols ask for.

ghost use Rattle.std.specs.Prelude.{◌≡◌, ◌<◌, false, [], length, IfOk};
ghost use Rattle.lk_tables.specs.Binding.{demands};
ghost use Rattle.lk_tables.specs.NameNumbers.{NumbersNames, heads_alone};
ghost use Rattle.lk_tables.specs.TablesView.{files_of};
ghost use Rattle.sym_resolve.specs.Asks.{AreRooms, after_asks, ask, ask_at, room_at, widened};
ghost use Rattle.sym_resolve.specs.Symbols.{in_file};

use crate::counts::{common_count, file};
use lk_tables::{NameNumbers, Tables, is_common};
use std::alloc::{AllocError, Global};

/// Room for the COMMON symbols of a name.
#[derive(Clone, Copy)]
pub struct Room {
    /// Bytes.
    pub size: u64,
    /// Alignment in bytes.
    pub align: u64,
}

const NO_ROOM: Room = Room { size: 0, align: 1 };

/// By word, the room that the COMMON symbols of the live files ask for. If there are none, the table is empty and takes no memory.
pub fn rooms_of(
    alloc: Global,
    tables: &Tables,
    names: &NameNumbers,
) -> Result<Vec<Room>, AllocError>
    requires numbered { NumbersNames (heads_alone (files_of tables.now)) names.now }
    ensures { IfOk result (λ rooms. AreRooms (files_of tables.now) rooms.items) }
{
    if !has_commons(tables) {
        return Ok(Vec::new(alloc));
    }
    let mut rooms = vec![in alloc; NO_ROOM; tables.symbol_count()]?;
    for f in 0..tables.file_count() {
        widen_each(&mut rooms, tables, names, f);
    }
    Ok(rooms)
}

// Whether a live file has a COMMON symbol.
fn has_commons(tables: &Tables) -> bool
    ensures { result ≡ false → demands (files_of tables.now) ≡ [] }
{
    for f in 0..tables.file_count() {
        if common_count(tables, f) != 0 {
            return true;
        }
    }
    false
}

// What the COMMON symbols of one file ask for, if it is live.
fn widen_each(rooms: &mut Vec<Room>, tables: &Tables, names: &NameNumbers, f: usize)
    requires numbered { NumbersNames (heads_alone (files_of tables.now)) names.now }
    requires file { f < length (files_of tables.now) }
    ensures { rooms.new.items ≡ after_asks rooms.old.items (in_file (files_of tables.now) (ask_at (files_of tables.now)) f) }
{
    if common_count(tables, f) == 0 {
        return;
    }
    let file = file(tables, f);
    for i in 0..file.symbols().len() {
        let symbol = file.symbol(i);
        if is_common(&symbol) {
            widen(rooms, names.number(f, i), symbol.size, symbol.value.max(1));
        }
    }
}

// Makes the room of a word as large as is asked.
fn widen(rooms: &mut Vec<Room>, word: u32, size: u64, align: u64)
    ensures { rooms.new.items ≡ widened rooms.old.items (ask word size align) }
{
    let at = word as usize;
    if at < rooms.len() {
        let size = rooms[at].size.max(size);
        let align = rooms[at].align.max(align);
        rooms[at] = Room { size, align };
    }
}

/// The room of a word.
pub fn room_at(rooms: &[Room], word: u32) -> Room
    ensures { result ≡ room_at rooms.now word }
{
    match rooms.get(word as usize) {
        Some(room) => *room,
        None => NO_ROOM,
    }
}
