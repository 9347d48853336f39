//! Rows that are made in parts, each those of a run of things, and joined.

ghost use Rattle.std.specs.Prelude.{◌≡◌, ◌++◌, flat_map, IfOk, OnOk};

use crate::rows::Rows;
use std::alloc::{AllocError, Global};

/// A list of one part.
pub fn one_part<T: Copy + Drop>(alloc: Global, rows: Rows<T>) -> Result<Vec<Rows<T>>, AllocError>
    ensures { IfOk result (λ parts. flat_map (λ part. part) parts.items ≡ rows) }
{
    let mut parts = Vec::new(alloc);
    parts.push(rows)?;
    Ok(parts)
}

/// The rows of all parts, one part after the other. Those of the first are not copied, but once where room is made for all.
pub fn join_rows<T: Copy + Drop>(alloc: Global, parts: Vec<Rows<T>>) -> Result<Rows<T>, AllocError>
    ensures { IfOk result (λ rows. rows ≡ flat_map (λ part. part) parts.items) }
{
    let room = room_of(parts.as_slice());
    let mut rows = Rows::empty(alloc)?;
    for part in parts {
        take_rows(&mut rows, part, room)?;
    }
    Ok(rows)
}

/// How many items all parts have.
fn room_of<T: Copy + Drop>(parts: &[Rows<T>]) -> usize {
    let mut room: usize = 0;
    for part in parts {
        room = room.saturating_add(part.items().len());
    }
    room
}

/// Adds all rows of another list. If there are no others, these are not copied, and room is made for so many items as all lists have.
fn take_rows<T: Copy + Drop>(
    rows: &mut Rows<T>,
    more: Rows<T>,
    room: usize,
) -> Result<(), AllocError>
    ensures { OnOk result (rows.new ≡ rows.old ++ more) }
{
    if rows.count() == 0 {
        *rows = more;
        rows.reserve(room.saturating_sub(rows.items().len()))?;
        return Ok(());
    }
    rows.append(&more)?;
    Ok(())
}
