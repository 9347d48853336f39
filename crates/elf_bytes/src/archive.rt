//! Archives (System V ar format with GNU long names), built for examples.

use crate::object::{Object, object_of};
use std::alloc::{AllocError, Global};

/// What an archive begins with.
pub const ARCHIVE: &[u8] = b"!<arch>\n";

/// What a thin archive begins with, which has no members' bytes.
pub const THIN: &[u8] = b"!<thin>\n";

/// What a member holds.
#[derive(Clone, Copy)]
pub enum Contents<'a> {
    /// So many bytes of an object at most.
    Built(Object<'a>, usize),
    Text(&'a [u8]),
}

#[derive(Clone, Copy)]
pub struct Member<'a> {
    pub name: &'a [u8],
    pub contents: Contents<'a>,
}

#[derive(Clone, Copy)]
pub struct Archive<'a> {
    /// What it begins with.
    pub magic: &'a [u8],
    /// The index of symbols. An archive without one has no member `/`.
    pub index: Option<&'a [u8]>,
    pub members: &'a [Member<'a>],
}

/// Adds a field: a text, and spaces up to a width.
fn push_field(out: &mut Vec<u8>, text: &[u8], width: usize) -> Result<(), AllocError> {
    out.extend_from_slice(text)?;
    for _ in text.len()..width {
        out.push(b' ')?;
    }
    Ok(())
}

/// Adds a header and the data after it, up to an even size.
fn push_data(alloc: Global, out: &mut Vec<u8>, name: &[u8], data: &[u8]) -> Result<(), AllocError> {
    push_field(out, name, 16)?;
    push_field(out, b"0", 12)?;
    push_field(out, b"0", 6)?;
    push_field(out, b"0", 6)?;
    push_field(out, b"644", 8)?;
    push_field(out, data.len().to_string(alloc)?.as_bytes(), 10)?;
    out.extend_from_slice(b"`\n")?;
    out.extend_from_slice(data)?;
    if data.len() % 2 == 1 {
        out.push(b'\n')?;
    }
    Ok(())
}

/// Whether a name and its `/` are too long for a header.
fn is_long(name: &[u8]) -> bool {
    name.len() > 15
}

/// The table of long names.
fn long_names(alloc: Global, members: &[Member]) -> Result<Vec<u8>, AllocError> {
    let mut out = Vec::new(alloc);
    for member in members {
        if is_long(member.name) {
            out.extend_from_slice(member.name)?;
            out.extend_from_slice(b"/\n")?;
        }
    }
    Ok(out)
}

/// A member's bytes.
fn bytes_of(alloc: Global, contents: &Contents) -> Result<Vec<u8>, AllocError> {
    match contents {
        Contents::Built(object, most) => {
            let mut bytes = object_of(alloc, object)?;
            bytes.truncate(*most);
            Ok(bytes)
        }
        Contents::Text(text) => Vec::from_slice(alloc, *text),
    }
}

/// The name that the header of a member has; `place` is that of its name in the table of long names.
fn header_name(alloc: Global, name: &[u8], place: usize) -> Result<Vec<u8>, AllocError> {
    let mut out = Vec::new(alloc);
    if is_long(name) {
        out.push(b'/')?;
        out.extend_from_slice(place.to_string(alloc)?.as_bytes())?;
    } else {
        out.extend_from_slice(name)?;
        out.push(b'/')?;
    }
    Ok(out)
}

fn push_members(alloc: Global, out: &mut Vec<u8>, members: &[Member]) -> Result<(), AllocError> {
    let mut place = 0usize;
    for member in members {
        let name = header_name(alloc, member.name, place)?;
        let bytes = bytes_of(alloc, &member.contents)?;
        push_data(alloc, out, &name, &bytes)?;
        if is_long(member.name) {
            place = place.wrapping_add(member.name.len()).wrapping_add(2);
        }
    }
    Ok(())
}

/// The bytes of an archive: the index, the table of long names where there are any, and the members in order.
pub fn archive_of(alloc: Global, archive: &Archive) -> Result<Vec<u8>, AllocError> {
    let mut out = Vec::from_slice(alloc, archive.magic)?;
    if let Some(index) = archive.index {
        push_data(alloc, &mut out, b"/", index)?;
    }
    let names = long_names(alloc, archive.members)?;
    if !names.is_empty() {
        push_data(alloc, &mut out, b"//", &names)?;
    }
    push_members(alloc, &mut out, archive.members)?;
    Ok(out)
}
