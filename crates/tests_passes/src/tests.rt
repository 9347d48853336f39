//! One file for each pass, and `alone` for what a call answers where there is nothing to do.

/// A table, several rows a line.
macro_rules! table {
    ($($row:expr);+ $(;)?) => {
        &[$($row),+]
    };
}

/// A struct of this name, its fields in one line.
macro_rules! record {
    ($name:ident; $($field:ident: $value:expr),+) => {
        $name { $($field: $value),+ }
    };
}

mod alone;
mod archives;
mod bound_names;
mod commands;
mod defect_lines;
mod frames;
mod generated;
mod known_names;
mod objects;
mod tables;
mod text_table;

use std::alloc::{AllocError, Global};

/// The parts of a file, one after the other.
fn joined(alloc: Global, parts: &[&[u8]]) -> Result<Vec<u8>, AllocError> {
    let mut bytes = Vec::new(alloc);
    for part in parts {
        bytes.extend_from_slice(*part)?;
    }
    Ok(bytes)
}

/// Puts a byte at a place, where the file has it.
fn put(bytes: &mut [u8], at: usize, byte: u8) {
    if let Some(place) = bytes.get_mut(at) {
        *place = byte;
    }
}
