//! The pieces of sections that are merged, and where they stand in their pool.

use super::links::{PLAIN, inputs_of, run_passes};
use super::objects::object_with;
use elf_bytes::{Section, section};
use link_sections::{Part, Piece, Pool};
use lk_base::LinkStop;
use lk_tables::{Heads, Tables};
use std::alloc::{AllocError, Global};
use std::test::Fail;
use std::thread::Threads;
use str_merge::{merge, piece_count};
use work_split::OpenGate;

/// Strings of characters of one byte, and after them constants of four.
const STRINGS: Section = section!(b".rodata.str", 1, 0x32, 8; b"abc\0\0\0\0\0xyz\0"; entsize: 1);

const CONSTANTS: Section = section!(STRINGS => flags: 0x12, entsize: 4);
/// Strings of characters of two bytes.
const WIDE: Section = section!(b".rodata.str", 1, 0x32, 8; b"a\0\0\0\0b\0\0c\0\0\0"; entsize: 2);

/// Where each of these parts begins in its section, and how many bytes its piece has.
fn lengths_of(
    alloc: Global,
    parts: &[Part],
    pieces: &[Piece],
) -> Result<Vec<(u64, u64)>, AllocError> {
    let mut list = Vec::new(alloc);
    for part in parts {
        if let Some(piece) = pieces.get(part.piece as usize) {
            list.push((part.start, piece.text.len))?;
        }
    }
    Ok(list)
}

/// Where each piece of the first of these sections begins in it, and how many bytes it has.
fn lengths<R: Threads + Sync>(
    rt: &R,
    alloc: Global,
    sections: &[Section],
) -> Result<Vec<(u64, u64)>, LinkStop> {
    let inputs = inputs_of(alloc, &[object_with(sections)])?;
    let made = run_passes(rt, alloc, &inputs, &PLAIN)?;
    let Some((pool, parts)) = made.pools.parts(1) else {
        return Ok(Vec::new(alloc));
    };
    Ok(lengths_of(alloc, parts, made.pools.pieces(pool))?)
}

/// Sections, and where each piece of them begins, and how many bytes it has.
const PIECES: &[(Section, &[(u64, u64)])] = &[
    (STRINGS, &[(0, 4), (4, 1), (5, 1), (6, 1), (7, 1), (8, 4)]),
    (CONSTANTS, &[(0, 4), (4, 4), (8, 4)]),
    (WIDE, &[(0, 4), (4, 4), (8, 4)]),
];

#[test]
fn pieces_of_sections(rt: HostRuntime) -> Result<(), Fail> {
    for (index, row) in PIECES.iter().enumerate() {
        let (section, expected) = *row;
        let found = lengths(&rt, rt.alloc(), &[section])?;
        assert!(rt; found.as_slice() == expected, "example {index}");
    }
    Ok(())
}

// The distinct ones of `abc`, the empty string, the empty string and `xyz`, at multiples of 8. The last one is that of another section.
#[test]
fn pieces_of_a_pool(rt: HostRuntime) -> Result<(), Fail> {
    let sections = [
        section!(STRINGS => bytes: b"abc\0\0\0"),
        section!(STRINGS => bytes: b"xyz\0"),
    ];
    let inputs = inputs_of(rt.alloc(), &[object_with(&sections)])?;
    let made = run_passes(&rt, rt.alloc(), &inputs, &PLAIN)?;
    let mut positions = Vec::new(rt.alloc());
    for piece in made.pools.pieces(0) {
        positions.push(piece.position)?;
    }
    assert!(rt; positions.as_slice() == [0, 8, 16].as_slice());
    let pool = Pool { first: 1, size: 20 };
    assert_eq!(rt; made.pools.pools(), &[pool][..]);
    Ok(())
}

// A file that takes no part has nothing to merge.
#[test]
fn no_files_no_pools(rt: HostRuntime) -> Result<(), Fail> {
    let alloc = rt.alloc();
    let mut heads = Heads::empty(alloc);
    heads.add(b"archive", None, true)?;
    let mut objects = Vec::new(alloc);
    objects.push(None)?;
    let tables = Tables::of(alloc, heads, objects)?;
    assert!(rt; piece_count(&tables) == 0);
    let pools = merge(&rt, alloc, &tables, &[], 2, &OpenGate)?;
    assert!(rt; pools.pools().is_empty());
    Ok(())
}
