//! An object whose unwind records are cut or altered, and what is wrong with them: the expected answers are worked out from the format.

use super::{joined, put};
use eh_frame::read_frames;
use elf_read::{read_body, read_head};
use lk_base::abi::FILE_MAX;
use lk_base::kinds::BAD_FRAME;
use lk_base::{Flaw, ReadFault};
use std::alloc::{AllocError, Global};
use std::test::Fail;

const PARTS: &[&[u8]] = table![
    // The file header: 64 bits, relocatable, RISC-V, six section headers at 264.
    b"\x7fELF\x02\x01\x01\0\0\0\0\0\0\0\0\0\x01\0\xf3\0\x01\0\0\0\0\0\0\0\0\0\0\0\0\0\0\0\0\0\0\0\x08\x01\0\0\0\0\0\0\x01\0\0\0@\0\0\0\0\0@\0\x06\0\x05\0";
    b"\x10\0\0\0\0\0\0\0\x01zR\0\x01\x7c\x01\x01\x1b\x0c\x02\0"; // .eh_frame at 64: a CIE of 20 bytes.
    b"\x10\0\0\0\x18\0\0\0\0\0\0\0\x08\0\0\0\0\0\0\0\0\0\0\0\0\0\0\0"; // An FDE of 20, a Length of 0, and four bytes of padding.
    // .rela.eh_frame at 112: two entries for symbol 1.
    b"\0\0\0\0\0\0\0\0\0\0\0\0\x01\0\0\0\0\0\0\0\0\0\0\0\0\0\0\0\0\0\0\0\0\0\0\0\x01\0\0\0\0\0\0\0\0\0\0\0";
    // .symtab at 160: symbol 0, and `f`, which is not defined here.
    b"\0\0\0\0\0\0\0\0\0\0\0\0\0\0\0\0\0\0\0\0\0\0\0\0\x01\0\0\0\x10\0\0\0\0\0\0\0\0\0\0\0\0\0\0\0\0\0\0\0";
    b"\0f\0\0.eh_frame\0.rela.eh_frame\0.symtab\0.strtab\0.shstrtab\0\0"; // .strtab at 208, .shstrtab at 211, and a byte of padding.
    // The section table: section 0.
    b"\0\0\0\0\0\0\0\0\0\0\0\0\0\0\0\0\0\0\0\0\0\0\0\0\0\0\0\0\0\0\0\0\0\0\0\0\0\0\0\0\0\0\0\0\0\0\0\0\0\0\0\0\0\0\0\0\0\0\0\0\0\0\0\0";
    // 1: .eh_frame.
    b"\x01\0\0\0\x01\0\0\0\x02\0\0\0\0\0\0\0\0\0\0\0\0\0\0\0@\0\0\0\0\0\0\0\x2c\0\0\0\0\0\0\0\0\0\0\0\0\0\0\0\x08\0\0\0\0\0\0\0\0\0\0\0\0\0\0\0";
    // 2: .rela.eh_frame.
    b"\x0b\0\0\0\x04\0\0\0@\0\0\0\0\0\0\0\0\0\0\0\0\0\0\0p\0\0\0\0\0\0\0\0\0\0\0\0\0\0\0\x03\0\0\0\x01\0\0\0\x08\0\0\0\0\0\0\0\x18\0\0\0\0\0\0\0";
    // 3: .symtab.
    b"\x1a\0\0\0\x02\0\0\0\0\0\0\0\0\0\0\0\0\0\0\0\0\0\0\0\xa0\0\0\0\0\0\0\00\0\0\0\0\0\0\0\x04\0\0\0\x01\0\0\0\x08\0\0\0\0\0\0\0\x18\0\0\0\0\0\0\0";
    // 4: .strtab.
    b"\"\0\0\0\x03\0\0\0\0\0\0\0\0\0\0\0\0\0\0\0\0\0\0\0\xd0\0\0\0\0\0\0\0\x03\0\0\0\0\0\0\0\0\0\0\0\0\0\0\0\x01\0\0\0\0\0\0\0\0\0\0\0\0\0\0\0";
    // 5: .shstrtab.
    b"*\0\0\0\x03\0\0\0\0\0\0\0\0\0\0\0\0\0\0\0\0\0\0\0\xd3\0\0\0\0\0\0\x004\0\0\0\0\0\0\0\0\0\0\0\0\0\0\0\x01\0\0\0\0\0\0\0\0\0\0\0\0\0\0\0";
];

/// Bytes of the records with what they become, the section's size, and its relocations, each with offset and kind in the file's order:
/// then how many records there are, or section and place of what is wrong.
type Row = (
    &'static [(usize, u8)],
    u8,
    &'static [(u8, u8)],
    usize,
    Option<(u32, u64)>,
);

/// The FDE's PC Begin, a R_RISCV_32_PCREL. Others are 2, R_RISCV_64, 33, R_RISCV_ADD8, and 51, R_RISCV_RELAX.
const BEGIN: &[(u8, u8)] = &[(28, 57)];

const LENGTHS: &[Row] = table![
    (&[], 44, BEGIN, 2, None); (&[], 40, BEGIN, 2, None); (&[], 0, &[], 0, None); (&[], 20, &[], 1, None); (&[(0, 0)], 44, &[], 0, None);
    (&[(20, 0)], 44, &[], 1, None); (&[], 41, BEGIN, 0, Some((1, 104))); (&[], 43, BEGIN, 0, Some((1, 104))); (&[], 1, &[], 0, Some((1, 64)));
    (&[], 23, &[], 0, Some((1, 84))); (&[], 39, BEGIN, 0, Some((1, 84))); (&[(20, 0x20)], 44, BEGIN, 0, Some((1, 84)));
    (&[(20, 0x14)], 44, BEGIN, 2, None); (&[(20, 0x15)], 44, BEGIN, 0, Some((1, 84))); (&[(0, 3)], 44, BEGIN, 0, Some((1, 64)));
    (&[(0, 4), (8, 0), (9, 0), (10, 0)], 44, &[], 1, None); (&[(0, 0xff), (1, 0xff), (2, 0xff), (3, 0xff)], 44, BEGIN, 0, Some((1, 64)));
];

const POINTERS: &[Row] = table![
    (&[(20, 8)], 44, BEGIN, 0, Some((1, 84))); (&[(20, 11)], 44, BEGIN, 0, Some((1, 84))); (&[(20, 12), (36, 4)], 44, BEGIN, 3, None);
    (&[(24, 4)], 44, BEGIN, 0, Some((1, 84))); (&[(24, 0x17)], 44, BEGIN, 0, Some((1, 84))); (&[(24, 0x19)], 44, BEGIN, 0, Some((1, 84)));
    (&[(25, 1)], 44, BEGIN, 0, Some((1, 84))); (&[(24, 0)], 44, BEGIN, 2, None); (&[(4, 4)], 44, BEGIN, 0, Some((1, 64)));
    (&[(4, 0x18)], 44, BEGIN, 0, Some((1, 64)));
];

const RELOCS: &[Row] = table![
    (&[], 44, &[], 2, None); (&[], 44, &[(24, 51), (28, 57)], 2, None); (&[], 44, &[(43, 51)], 2, None); (&[], 44, &[(27, 57)], 0, Some((1, 84)));
    (&[], 44, &[(32, 57)], 0, Some((1, 84))); (&[], 44, &[(28, 2)], 0, Some((1, 84))); (&[], 44, &[(24, 33), (28, 57)], 0, Some((1, 84)));
    (&[], 44, &[(28, 57), (32, 2)], 2, None); (&[], 44, &[(28, 57), (33, 2)], 0, Some((2, 136))); (&[], 44, &[(4, 33), (28, 57)], 0, Some((2, 112)));
    (&[], 44, &[(7, 33), (28, 57)], 0, Some((2, 112))); (&[], 44, &[(8, 33), (28, 57)], 2, None); (&[], 44, &[(12, 2), (28, 57)], 2, None);
    (&[], 44, &[(13, 2), (28, 57)], 0, Some((2, 112))); (&[], 44, &[(28, 57), (39, 33)], 2, None);
    (&[], 44, &[(28, 57), (40, 33)], 0, Some((2, 136))); (&[], 44, &[(28, 57), (43, 33)], 0, Some((2, 136)));
    (&[], 40, &[(28, 57), (39, 33)], 2, None);
    // Entries in another order than their offsets.
    (&[], 44, &[(40, 33), (28, 57)], 0, Some((2, 112))); (&[], 44, &[(28, 57), (4, 33)], 0, Some((2, 136))); (&[], 44, &[(32, 2), (28, 57)], 2, None);
];

/// The object of a row.
fn object_of(alloc: Global, row: &Row) -> Result<Vec<u8>, AllocError> {
    let (changes, size, relocs, _, _) = *row;
    let mut bytes = joined(alloc, PARTS)?;
    for (at, byte) in changes {
        put(bytes.as_mut_slice(), 64usize.saturating_add(*at), *byte);
    }
    put(bytes.as_mut_slice(), 360, size);
    let mut entry = 112usize;
    for (offset, kind) in relocs {
        put(bytes.as_mut_slice(), entry, *offset);
        put(bytes.as_mut_slice(), entry.saturating_add(8), *kind);
        entry = entry.saturating_add(24);
        let size = (entry.saturating_sub(112) % 256) as u8;
        put(bytes.as_mut_slice(), 424, size);
    }
    Ok(bytes)
}

/// How many records section 1 has.
fn count(alloc: Global, bytes: &[u8]) -> Result<usize, ReadFault> {
    let head = read_head(alloc, bytes)?;
    let object = read_body(alloc, bytes, &head)?;
    if bytes.len() as u64 > FILE_MAX || head.sections.len() < 2 {
        return Ok(0);
    }
    Ok(read_frames(alloc, bytes, &head, &object, 1)?.len())
}

/// Whether a row is as it says.
fn holds(alloc: Global, row: &Row) -> Result<bool, AllocError> {
    let bytes = object_of(alloc, row)?;
    match count(alloc, bytes.as_slice()) {
        Ok(count) => Ok(row.4.is_none() && count == row.3),
        Err(ReadFault::Bad(flaw)) => match row.4 {
            Some((section, place)) => {
                Ok(flaw == record!(Flaw; kind: BAD_FRAME, section: section, place: place, other: 0))
            }
            None => Ok(false),
        },
        Err(ReadFault::Memory) => Err(AllocError),
    }
}

/// The first row that is not as it says.
fn first_wrong(alloc: Global, rows: &[Row]) -> Result<Option<usize>, AllocError> {
    for number in 0..rows.len() {
        if !holds(alloc, &rows[number])? {
            return Ok(Some(number));
        }
    }
    Ok(None)
}

#[test]
fn lengths_lead_from_record_to_record(rt: HostRuntime) -> Result<(), Fail> {
    assert_eq!(rt; first_wrong(rt.alloc(), LENGTHS)?, None);
    Ok(())
}

#[test]
fn cie_pointers_lead_to_earlier_cies(rt: HostRuntime) -> Result<(), Fail> {
    assert_eq!(rt; first_wrong(rt.alloc(), POINTERS)?, None);
    Ok(())
}

#[test]
fn relocations_lie_in_records(rt: HostRuntime) -> Result<(), Fail> {
    assert_eq!(rt; first_wrong(rt.alloc(), RELOCS)?, None);
    Ok(())
}
