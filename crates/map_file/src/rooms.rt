//! About how many bytes the text has, so that it is not moved as it grows.

use link_sections::{OutputSection, View};
use lk_tables::{File, Section, section_count};
use symbol_table::TableSymbol;

/// What the lines have beside names: two words, two numbers of 16 digits, an index, spaces.
const LINE: usize = 56;

/// About how many bytes the text has: more, unless names are shown escaped. Each section has one line at most.
pub fn room_of(view: &View, symbols: &[TableSymbol]) -> usize {
    LINE.saturating_add(outputs_room(view.layout.outputs.as_slice()))
        .saturating_add(files_room(view))
        .saturating_add(symbols_room(symbols))
}

/// About how many bytes the lines of output sections, of pools and of the linker's table have.
fn outputs_room(outputs: &[OutputSection]) -> usize {
    let mut room: usize = LINE;
    for output in outputs {
        room = room.saturating_add(LINE).saturating_add(output.name.len());
    }
    room
}

/// About how many bytes the lines of all sections have.
fn files_room(view: &View) -> usize {
    let mut room: usize = 0;
    for (file, entry) in view.tables.files().iter().enumerate() {
        room = room.saturating_add(file_room(entry, shown_len(view.names, file)));
    }
    room
}

/// How many bytes show a file.
fn shown_len(names: &[Vec<u8>], file: usize) -> usize {
    match names.get(file) {
        Some(name) => name.len(),
        None => 0,
    }
}

/// About how many bytes the lines of a file's sections have.
fn file_room(file: &File, shown: usize) -> usize {
    LINE.saturating_add(shown)
        .saturating_mul(section_count(file))
        .saturating_add(names_room(file.sections()))
}

/// About how many bytes the names of sections have.
fn names_room(sections: &[Section]) -> usize {
    let mut room: usize = 0;
    for section in sections {
        room = room.saturating_add(section.name.len as usize);
    }
    room
}

/// About how many bytes the lines of symbols have.
fn symbols_room(symbols: &[TableSymbol]) -> usize {
    let mut room: usize = 0;
    for symbol in symbols {
        room = room.saturating_add(LINE).saturating_add(symbol.name.len());
    }
    room
}
