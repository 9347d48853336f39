//! One object, in which most names are undefined and known to the linker: what each is bound to is worked out by hand.

use super::{joined, put};
use elf_read::{read_body, read_head};
use lk_base::{ReadFault, SymNo};
use lk_tables::{Bound, Heads, Tables};
use std::alloc::{AllocError, Global};
use std::test::Fail;
use sym_resolve::bind;
use work_split::OpenGate;

const PARTS: &[&[u8]] = table![
    // The file header: 64 bits, relocatable, RISC-V with compressed instructions, seven section headers at 1064.
    b"\x7fELF\x02\x01\x01\0\0\0\0\0\0\0\0\0\x01\0\xf3\0\x01\0\0\0\0\0\0\0\0\0\0\0\0\0\0\0\0\0\0\0(\x04\0\0\0\0\0\0\x01\0\0\0@\0\0\0\0\0@\0\x07\0\x06\0";
    // .text at 64: `ret` in four bytes, and four of padding.
    b"g\x80\0\0\0\0\0\0";
    // .symtab at 72: symbol 0.
    b"\0\0\0\0\0\0\0\0\0\0\0\0\0\0\0\0\0\0\0\0\0\0\0\0";
    b"\x01\0\0\0\0\0\x01\0\0\0\0\0\0\0\0\0\0\0\0\0\0\0\0\0"; // 1: `end`, local, at 0 of section 1.
    b"\x05\0\0\0\x10\0\0\0\0\0\0\0\0\0\0\0\0\0\0\0\0\0\0\0"; // 2: `__ehdr_start`, strong, undefined.
    b"\x12\0\0\0 \0\0\0\0\0\0\0\0\0\0\0\0\0\0\0\0\0\0\0"; // 3: `__rela_iplt_start`, weak, undefined.
    b"$\0\0\0\x10\0\0\0\0\0\0\0\0\0\0\0\0\0\0\0\0\0\0\0"; // 4: `__rela_iplt_end`, strong, undefined.
    b"4\0\0\0 \0\0\0\0\0\0\0\0\0\0\0\0\0\0\0\0\0\0\0"; // 5: `_etext`, weak, undefined.
    b";\0\0\0\x10\0\0\0\0\0\0\0\0\0\0\0\0\0\0\0\0\0\0\0"; // 6: `etext`, strong, undefined.
    b"A\0\0\0 \0\0\0\0\0\0\0\0\0\0\0\0\0\0\0\0\0\0\0"; // 7: `_edata`, weak, undefined.
    b"H\0\0\0\x10\0\0\0\0\0\0\0\0\0\0\0\0\0\0\0\0\0\0\0"; // 8: `edata`, strong, undefined.
    b"N\0\0\0 \0\0\0\0\0\0\0\0\0\0\0\0\0\0\0\0\0\0\0"; // 9: `__bss_start`, weak, undefined.
    b"Z\0\0\0\x10\0\0\0\0\0\0\0\0\0\0\0\0\0\0\0\0\0\0\0"; // 10: `_end`, strong, undefined.
    b"_\0\0\0 \0\0\0\0\0\0\0\0\0\0\0\0\0\0\0\0\0\0\0"; // 11: `end`, weak, undefined.
    b"c\0\0\0\x10\0\0\0\0\0\0\0\0\0\0\0\0\0\0\0\0\0\0\0"; // 12: `_GLOBAL_OFFSET_TABLE_`, strong, undefined.
    b"y\0\0\0 \0\0\0\0\0\0\0\0\0\0\0\0\0\0\0\0\0\0\0"; // 13: `__global_pointer$`, weak, undefined.
    b"\x8b\0\0\0\x10\0\0\0\0\0\0\0\0\0\0\0\0\0\0\0\0\0\0\0"; // 14: `__preinit_array_start`, strong, undefined.
    b"\xa1\0\0\0 \0\0\0\0\0\0\0\0\0\0\0\0\0\0\0\0\0\0\0"; // 15: `__preinit_array_end`, weak, undefined.
    b"\xb5\0\0\0\x10\0\0\0\0\0\0\0\0\0\0\0\0\0\0\0\0\0\0\0"; // 16: `__init_array_start`, strong, undefined.
    b"\xc8\0\0\0 \0\0\0\0\0\0\0\0\0\0\0\0\0\0\0\0\0\0\0"; // 17: `__init_array_end`, weak, undefined.
    b"\xd9\0\0\0\x10\0\0\0\0\0\0\0\0\0\0\0\0\0\0\0\0\0\0\0"; // 18: `__fini_array_start`, strong, undefined.
    b"\xec\0\0\0 \0\0\0\0\0\0\0\0\0\0\0\0\0\0\0\0\0\0\0"; // 19: `__fini_array_end`, weak, undefined.
    b"\xfd\0\0\0\x10\0\0\0\0\0\0\0\0\0\0\0\0\0\0\0\0\0\0\0"; // 20: `__start_part`, strong, undefined.
    b"\x0a\x01\0\0 \0\0\0\0\0\0\0\0\0\0\0\0\0\0\0\0\0\0\0"; // 21: `__stop_part`, weak, undefined.
    b"\x16\x01\0\0\x10\0\0\0\0\0\0\0\0\0\0\0\0\0\0\0\0\0\0\0"; // 22: `__start_COMMON`, strong, undefined.
    b"%\x01\0\0 \0\0\0\0\0\0\0\0\0\0\0\0\0\0\0\0\0\0\0"; // 23: `__stop_COMMON`, weak, undefined.
    b"3\x01\0\0\x11\0\xf2\xff\x08\0\0\0\0\0\0\0\x08\0\0\0\0\0\0\0"; // 24: `room`, COMMON, 8 bytes at a multiple of 8.
    b"8\x01\0\0 \0\0\0\0\0\0\0\0\0\0\0\0\0\0\0\0\0\0\0"; // 25: `__start_none`, weak, undefined.
    // .strtab at 696.
    b"\0end\0__ehdr_start\0__rela_iplt_start\0__rela_iplt_end\0_etext\0etext\0_edata\0edata\0__bss_start\0_end\0end\0_GLOBAL_OFFSET_TABLE_\0__global_pointer$\0__preinit_array_start\0__preinit_array_end\0__init_array_start\0__init_array_end\0__fini_array_start\0__fini_array_end\0__start_part\0__stop_part\0__start_COMMON\0__stop_COMMON\0room\0__start_none\0";
    // .shstrtab at 1021, and padding.
    b"\0.text\0part\0.symtab\0.strtab\0.shstrtab\0\0\0\0\0\0";
    // The section table: section 0.
    b"\0\0\0\0\0\0\0\0\0\0\0\0\0\0\0\0\0\0\0\0\0\0\0\0\0\0\0\0\0\0\0\0\0\0\0\0\0\0\0\0\0\0\0\0\0\0\0\0\0\0\0\0\0\0\0\0\0\0\0\0\0\0\0\0";
    // 1: .text.
    b"\x01\0\0\0\x01\0\0\0\x06\0\0\0\0\0\0\0\0\0\0\0\0\0\0\0@\0\0\0\0\0\0\0\x04\0\0\0\0\0\0\0\0\0\0\0\0\0\0\0\x04\0\0\0\0\0\0\0\0\0\0\0\0\0\0\0";
    // 2: `part`, of no bytes.
    b"\x07\0\0\0\x01\0\0\0\x03\0\0\0\0\0\0\0\0\0\0\0\0\0\0\0H\0\0\0\0\0\0\0\0\0\0\0\0\0\0\0\0\0\0\0\0\0\0\0\x01\0\0\0\0\0\0\0\0\0\0\0\0\0\0\0";
    // 3: `part` again.
    b"\x07\0\0\0\x01\0\0\0\x03\0\0\0\0\0\0\0\0\0\0\0\0\0\0\0H\0\0\0\0\0\0\0\0\0\0\0\0\0\0\0\0\0\0\0\0\0\0\0\x01\0\0\0\0\0\0\0\0\0\0\0\0\0\0\0";
    // 4: .symtab.
    b"\x0c\0\0\0\x02\0\0\0\0\0\0\0\0\0\0\0\0\0\0\0\0\0\0\0H\0\0\0\0\0\0\0p\x02\0\0\0\0\0\0\x05\0\0\0\x02\0\0\0\x08\0\0\0\0\0\0\0\x18\0\0\0\0\0\0\0";
    // 5: .strtab.
    b"\x14\0\0\0\x03\0\0\0\0\0\0\0\0\0\0\0\0\0\0\0\0\0\0\0\xb8\x02\0\0\0\0\0\0E\x01\0\0\0\0\0\0\0\0\0\0\0\0\0\0\x01\0\0\0\0\0\0\0\0\0\0\0\0\0\0\0";
    // 6: .shstrtab.
    b"\x1c\0\0\0\x03\0\0\0\0\0\0\0\0\0\0\0\0\0\0\0\0\0\0\0\xfd\x03\0\0\0\0\0\0&\0\0\0\0\0\0\0\0\0\0\0\0\0\0\0\x01\0\0\0\0\0\0\0\0\0\0\0\0\0\0\0";
];

/// The object with a number in the place of the section of `_end`; 0 is none.
fn object(alloc: Global, end_section: u8) -> Result<Vec<u8>, AllocError> {
    let mut bytes = joined(alloc, PARTS)?;
    put(bytes.as_mut_slice(), 318, end_section);
    Ok(bytes)
}

/// The tables of one small object.
fn tables_of<'a>(alloc: Global, bytes: &'a [u8]) -> Result<Tables<'a>, ReadFault> {
    let head = read_head(alloc, bytes)?;
    let object = read_body(alloc, bytes, &head)?;
    if 4096 < bytes.len() || 100 < head.symbols.len() || 100 < head.sections.len() {
        return Err(ReadFault::Memory);
    }
    let mut heads = Heads::empty(alloc);
    heads.add(bytes, Some(head), false)?;
    let mut objects = Vec::new(alloc);
    objects.push(Some(object))?;
    Ok(Tables::of(alloc, heads, objects)?)
}

/// What the linker's symbols of sections stand for here: sections 2 and 3 are named `part`, and 7 is the room of `room`.
const BOUND: &[(SymNo, Bound)] = table![
    (2, Bound::Linker(0)); (3, Bound::Linker(1)); (4, Bound::Linker(2)); (5, Bound::Linker(3)); (6, Bound::Linker(4)); (7, Bound::Linker(5));
    (8, Bound::Linker(6)); (9, Bound::Linker(7)); (10, Bound::Linker(8)); (11, Bound::Linker(9)); (12, Bound::Linker(10)); (13, Bound::Linker(11));
    (14, Bound::Linker(12)); (15, Bound::Linker(13)); (16, Bound::Linker(14)); (17, Bound::Linker(15)); (18, Bound::Linker(16));
    (19, Bound::Linker(17));
    // 19 + 2 * 2, and one more; 19 + 2 * 7, and one more.
    (20, Bound::Linker(23)); (21, Bound::Linker(24)); (22, Bound::Linker(33)); (23, Bound::Linker(34));
    (24, Bound::InSection { section: 7, offset: 0 }); (25, Bound::Nobody);
];

/// The start of section 1.
const IN_TEXT: Bound = Bound::InSection {
    section: 1,
    offset: 0,
};

#[test]
fn binds_what_no_file_offers(rt: HostRuntime) -> Result<(), Fail> {
    let bytes = object(rt.alloc(), 0)?;
    let tables = tables_of(rt.alloc(), bytes.as_slice())?;
    let binding = bind(&rt, rt.alloc(), &tables, &[], b"_end", 2, &OpenGate)?;
    for row in BOUND {
        let (symbol, bound) = *row;
        assert_eq!(rt; binding.bound(&tables, 0, symbol), bound, "symbol {symbol}");
    }
    // A local symbol of a name that the linker knows stands for itself.
    assert_eq!(rt; binding.bound(&tables, 0, 1), IN_TEXT);
    assert_eq!(rt; binding.entry_bound(&tables), Bound::Linker(8));
    Ok(())
}

#[test]
fn a_file_that_defines_a_name_wins(rt: HostRuntime) -> Result<(), Fail> {
    let bytes = object(rt.alloc(), 1)?;
    let tables = tables_of(rt.alloc(), bytes.as_slice())?;
    let binding = bind(&rt, rt.alloc(), &tables, &[], b"_end", 1, &OpenGate)?;
    assert_eq!(rt; binding.bound(&tables, 0, 10), IN_TEXT);
    assert_eq!(rt; binding.bound(&tables, 0, 11), Bound::Linker(9));
    assert_eq!(rt; binding.entry_bound(&tables), IN_TEXT);
    Ok(())
}

#[test]
fn the_first_section_that_may_stay_is_named(rt: HostRuntime) -> Result<(), Fail> {
    let bytes = object(rt.alloc(), 0)?;
    let tables = tables_of(rt.alloc(), bytes.as_slice())?;
    // Section 2 was discarded, and then both were.
    for (discarded, start) in [
        ([false, false, true, false], Bound::Linker(25)),
        ([false, false, true, true], Bound::Nobody),
    ] {
        let entry = b"__start_COMMON".as_slice();
        let binding = bind(&rt, rt.alloc(), &tables, &discarded, entry, 1, &OpenGate)?;
        assert_eq!(rt; binding.bound(&tables, 0, 20), start);
        assert_eq!(rt; binding.entry_bound(&tables), Bound::Linker(33));
    }
    Ok(())
}
