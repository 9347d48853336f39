//! Where sections stand, and in which order.

ghost use Rattle.lk_base.specs.Limits.{IsWithinStandard};

use super::links::{PLAIN, inputs_of, run_passes, run_within};
use super::objects::{CODE, LABEL, START, object_with};
use elf_bytes::{Object, Section, object, record, reloc, section, symbol};
use link_sections::{Content, Layout, Member, OutputPlace};
use lk_base::abi::SHT_NOBITS;
use lk_base::kinds::{NOPS_SHORT, TOO_BIG};
use lk_base::{Defect, Limits, LinkStop, count_defect};
use lk_tables::Class;
use std::alloc::Global;
use std::test::Fail;
use std::thread::Threads;

macro_rules! place {
    ($name:expr, $class:expr, $start:expr; $end:expr) => {
        OutputPlace { name: $name, class: $class, start: $start, end: $end }
    };
}

fn section(name: &'static [u8], sort: u64, flags: u64, size: u64, align: u64) -> Section<'static> {
    let zeros = if sort == SHT_NOBITS as u64 {
        0
    } else {
        size as usize
    };
    record!(Section, CODE => name: name, sort: sort, flags: flags, size: size, align: align, zeros: zeros)
}

/// Sections: name, type, flags, size and alignment of each.
macro_rules! sections {
    ($($name:literal, $sort:literal, $flags:literal, $size:literal, $align:literal);+ $(;)?) => {
        [$(section($name, $sort, $flags, $size, $align)),+]
    };
}

/// An output section as it is to be.
#[derive(Drop)]
struct Expected {
    name: &'static [u8],
    sh_type: u32,
    flags: u64,
    address: u64,
    size: u64,
    align: u64,
}

/// Output sections: name, type, flags, address, size and alignment of each.
macro_rules! outputs {
    ($($name:literal, $sh_type:literal, $flags:literal, $address:literal, $size:literal, $align:literal);+ $(;)?) => {
        [$(Expected { name: $name, sh_type: $sh_type, flags: $flags, address: $address, size: $size, align: $align }),+]
    };
}

/// The sections' starts are given from number 1 on.
fn check(
    rt: &impl std::process::Abort,
    layout: &Layout,
    starts: &[u64],
    rows: &[Expected],
    headers: u64,
    image_end: u64,
) {
    let own = layout.starts.iter().skip(1).take(starts.len());
    assert!(rt; own.eq(starts.iter()));
    assert_eq!(rt; layout.outputs.len(), rows.len());
    for (output, row) in layout.outputs.iter().zip(rows.iter()) {
        assert_eq!(rt; output.name, row.name);
        assert_eq!(rt; output.sh_type, row.sh_type);
        assert_eq!(rt; output.flags, row.flags);
        assert_eq!(rt; output.address, row.address);
        assert_eq!(rt; output.size, row.size);
        assert_eq!(rt; output.align, row.align);
    }
    assert_eq!(rt; layout.bounds.headers, headers);
    assert_eq!(rt; layout.bounds.image_end, image_end);
}

/// Whether the sections among these members are those of these numbers.
fn are_sections(members: &[Member], numbers: &[u32]) -> bool {
    let mut left = numbers.iter();
    for member in members {
        if let Content::Section(number) = member.content {
            if left.next() != Some(&number) {
                return false;
            }
        }
    }
    left.next().is_none()
}

/// The standard limits but for those of output sections and of the image.
fn limits_of(outputs: u64, image: u64) -> Limits
    ensures { IsWithinStandard result }
{
    let standard = Limits::standard();
    record!(Limits, standard => outputs: outputs.min(standard.outputs), image: image.min(standard.image))
}

/// How many output sections a link of these sections has, within limits.
fn count_within<R: Threads + Sync>(
    rt: &R,
    alloc: Global,
    sections: &[Section],
    outputs: u64,
    image: u64,
) -> Result<usize, LinkStop> {
    let inputs = inputs_of(alloc, &[object_with(sections)])?;
    let made = run_within(rt, alloc, &limits_of(outputs, image), &inputs, &PLAIN)?;
    Ok(made.layout.outputs.len())
}

#[test]
fn text_alone_is_laid_out(rt: HostRuntime) -> Result<(), Fail> {
    let sections = sections![b".text", 1, 6, 8, 4];
    let inputs = inputs_of(rt.alloc(), &[object_with(&sections)])?;
    let made = run_passes(&rt, rt.alloc(), &inputs, &PLAIN)?;
    let rows = outputs![b".text", 1, 6, 0x11000, 8, 4];
    check(&rt, &made.layout, &[0x11000], &rows, 3, 0x11008);
    assert_eq!(rt; made.layout.got, 0x12000);
    Ok(())
}

/// The first thread-local output section starts at the greatest alignment of all; those without bits and the empty table do not move the cursor.
#[test]
fn sections_of_each_class_are_laid_out(rt: HostRuntime) -> Result<(), Fail> {
    let sections = sections![
        b".tbss", 8, 0x403, 32, 0x4000; b".bss", 8, 3, 16, 16; b".data", 1, 3, 8, 4; b".tdata", 1, 0x403, 4, 4;
        b".text", 1, 6, 4, 4; b".rodata", 1, 2, 5, 8;
    ];
    let inputs = inputs_of(rt.alloc(), &[object_with(&sections)])?;
    let made = run_passes(&rt, rt.alloc(), &inputs, &PLAIN)?;
    let rows = outputs![
        b".rodata", 1, 2, 0x10158, 5, 8; b".text", 1, 6, 0x11000, 4, 4; b".tdata", 1, 0x403, 0x14000, 4, 4;
        b".tbss", 8, 0x403, 0x18000, 32, 0x4000; b".data", 1, 3, 0x14004, 8, 4; b".bss", 8, 3, 0x14010, 16, 16;
    ];
    let starts = [0x18000, 0x14010, 0x14004, 0x14000, 0x11000, 0x10158];
    let layout = &made.layout;
    check(&rt, layout, &starts, &rows, 5, 0x14020);
    assert_eq!(rt; layout.got, 0x14008);
    assert_eq!(rt; layout.members.len(), 4);
    assert_eq!(rt; layout.nobits_members.len(), 2);
    // Where the file ends, before the section with no bytes in it.
    assert_eq!(rt; layout.bounds.file_end, 0x1400c);
    assert_eq!(rt; layout.bounds.tls_start, 0x14000);
    assert_eq!(rt; layout.bounds.tls_end, 0x18020);
    assert_eq!(rt; layout.bounds.tls_align, 0x4000);
    Ok(())
}

#[test]
fn priorities_and_the_linkers_table(rt: HostRuntime) -> Result<(), Fail> {
    let sections =
        sections![b".got", 1, 3, 4, 4; b".init_array", 1, 3, 8, 8; b".init_array.00005", 1, 3, 8, 8; b".init_array.3", 1, 3, 8, 8;];
    let inputs = inputs_of(rt.alloc(), &[object_with(&sections)])?;
    let made = run_passes(&rt, rt.alloc(), &inputs, &PLAIN)?;
    let rows = outputs![b".init_array", 1, 3, 0x11000, 24, 8; b".got", 1, 3, 0x11018, 8, 8];
    let starts = [0x11018, 0x11010, 0x11008, 0x11000];
    check(&rt, &made.layout, &starts, &rows, 3, 0x11020);
    assert_eq!(rt; made.layout.got, 0x11020);
    Ok(())
}

/// A call at offset 4 that keeps four of its eight bytes.
const CALLING: Section =
    section!(b".text", 1, 6, 4; b"\x13\0\0\0\x97\0\0\0\xe7\x80\0\0\x13\0\0\0\x13\0\0\0"; relocs: &[reloc!(4, 19, 1, 0), reloc!(4, 51, 0, 0)]);

/// Two instructions that need an entry of the linker's table each.
const BY_TABLE: Section =
    section!(b".text.b", 1, 6, 8; b"\x17\x05\0\0\x17\x05\0\0"; relocs: &[reloc!(0, 20, 1, 0), reloc!(4, 20, 2, 0)]);

const STRINGS: Section = section!(b".rodata.str1.1", 1, 0x32, 1; b"four\0"; entsize: 1);

const NO_DATA: Section = section!(b".data", 1, 3, 32; b"");

const WITH_ALL: Object =
    object!(1; [CALLING, BY_TABLE, STRINGS, NO_DATA]; [symbol!(b"_start", 1, 0, 1, 0, 0), symbol!(b"end_of_text", 1, 0, 1, 20, 0)]);

/// Where its output sections are.
const PLACES: &[OutputPlace] = table![
    place!(b".rodata", Class::R, 0x10120; 0x10125); place!(b".text", Class::Rx, 0x11000; 0x11018);
    place!(b".got", Class::RwBits, 0x12000; 0x12010); place!(b".data", Class::RwBits, 0x12020; 0x12020);
];

/// What follows a shortened call moves; an empty output section has a place, and moves nothing.
#[test]
fn a_pool_a_table_and_a_short_call(rt: HostRuntime) -> Result<(), Fail> {
    let inputs = inputs_of(rt.alloc(), &[WITH_ALL])?;
    let made = run_passes(&rt, rt.alloc(), &inputs, &PLAIN)?;
    let layout = &made.layout;
    let rows =
        outputs![b".rodata", 1, 2, 0x10120, 5, 1; b".text", 1, 6, 0x11000, 24, 8; b".got", 1, 3, 0x12000, 16, 8;];
    // Strings have the place of their pool.
    let starts = [0x11000, 0x11010, 0, 0x12020];
    check(&rt, layout, &starts, &rows, 4, 0x12010);
    assert!(rt; layout.pools.as_slice() == [0x10120].as_slice());
    assert_eq!(rt; layout.got, 0x12000);
    let sizes = [5, 16, 8, 16];
    assert_eq!(rt; layout.members.len(), 4);
    for (member, size) in layout.members.iter().zip(sizes.iter()) {
        assert_eq!(rt; member.size, *size);
    }
    assert_eq!(rt; layout.places.len(), 4);
    for (place, expected) in layout.places.iter().zip(PLACES.iter()) {
        assert_eq!(rt; place, expected);
    }
    Ok(())
}

#[test]
fn an_image_past_its_limit_is_refused(rt: HostRuntime) -> Result<(), Fail> {
    let sections = sections![b".bss", 8, 3, 0x8000_0000, 8; b".text", 1, 6, 4, 4];
    let found = count_within(&rt, rt.alloc(), &sections, 65_000, 0x8000_0000);
    let defect = Defect::linkwide(TOO_BIG, 2147491840, 0);
    assert_eq!(rt; found, Err(LinkStop::Defect(defect)));
    Ok(())
}

#[test]
fn output_sections_past_their_limit_are_refused(rt: HostRuntime) -> Result<(), Fail> {
    let sections = sections![b".text", 1, 6, 4, 4; b".rodata", 1, 2, 5, 8];
    let found = count_within(&rt, rt.alloc(), &sections, 2, 0x8000_0000);
    assert_eq!(rt; found, Ok(2));
    // The count comes first, even if the image is too large as well.
    let found = count_within(&rt, rt.alloc(), &sections, 1, 1);
    assert_eq!(rt; found, Err(LinkStop::Defect(count_defect(2))));
    Ok(())
}

/// A function with its unwind records.
const UNWOUND: Object = object!(1; [
    section!(b".text", 1, 6, 4; b"\x67\x80\0\0"),
    section!(b".eh_frame", 1, 2, 8;
        b"\x10\0\0\0\0\0\0\0\x01zR\0\x01|\x01\x01\x1b\x0c\x02\0\x10\0\0\0\x18\0\0\0\0\0\0\0\x04\0\0\0\0\0\0\0";
        relocs: &[reloc!(28, 57, 1, 0)]),
]; [LABEL, START]);

/// They and their table are output sections of the linker's own.
#[test]
fn unwind_records_stand_last_in_what_is_read(rt: HostRuntime) -> Result<(), Fail> {
    let inputs = inputs_of(rt.alloc(), &[UNWOUND])?;
    let made = run_within(&rt, rt.alloc(), &limits_of(3, 0x8000_0000), &inputs, &PLAIN)?;
    let rows =
        outputs![b".eh_frame_hdr", 1, 2, 0x10120, 20, 4; b".eh_frame", 1, 2, 0x10138, 44, 8; b".text", 1, 6, 0x11000, 4, 4;];
    check(&rt, &made.layout, &[0x11000, 0], &rows, 4, 0x11004);
    assert_eq!(rt; made.layout.members.len(), 1);
    let found = run_within(&rt, rt.alloc(), &limits_of(2, 0x8000_0000), &inputs, &PLAIN);
    assert!(rt; found.err() == Some(LinkStop::Defect(count_defect(3))));
    Ok(())
}

/// Code of seven instructions of two bytes, of which the second to the fourth are an alignment.
const ALIGNED: Section =
    section!(b".text", 1, 6, 2; b"\x01\0\x01\0\x01\0\x01\0\x01\0\x01\0\x01\0"; relocs: &[reloc!(2, 43, 0, 6)]);

/// Three instructions.
const BEFORE: Section = section!(b".text", 1, 6, 2; b"\x01\0\x01\0\x01\0");

/// How many bytes are left of each section of an object.
fn sizes_of<R: Threads + Sync>(
    rt: &R,
    alloc: Global,
    sections: &[Section],
) -> Result<Vec<u64>, LinkStop> {
    let inputs = inputs_of(alloc, &[object_with(sections)])?;
    let made = run_passes(rt, alloc, &inputs, &PLAIN)?;
    let mut sizes = Vec::new(alloc);
    for member in made.layout.members.iter() {
        sizes.push(member.size)?;
    }
    Ok(sizes)
}

#[test]
fn alignments_lose_the_nops_that_they_do_not_need(rt: HostRuntime) -> Result<(), Fail> {
    // At 0x11002 six bytes are missing to a multiple of 8; at 0x11008 none.
    let sizes = sizes_of(&rt, rt.alloc(), &[ALIGNED])?;
    assert!(rt; sizes.as_slice() == [14].as_slice());
    let sizes = sizes_of(&rt, rt.alloc(), &[BEFORE, ALIGNED])?;
    assert!(rt; sizes.as_slice() == [6, 8].as_slice());
    // Four bytes are not enough where six are needed.
    let less = section!(ALIGNED => relocs: &[reloc!(2, 43, 0, 4)]);
    let short =
        record!(Defect; kind: NOPS_SHORT, file: 0, section: 1, place: 2, symbol: 0, other: 6);
    let found = sizes_of(&rt, rt.alloc(), &[less]);
    assert!(rt; found.err() == Some(LinkStop::Defect(short)));
    Ok(())
}

/// Notes stand first if the member that stands first in their output section is one.
#[test]
fn notes_stand_first_in_the_layout(rt: HostRuntime) -> Result<(), Fail> {
    let sections = sections![
        b".rodata.a", 1, 2, 4, 4; b".init_array", 7, 2, 4, 4; b"own", 1, 2, 4, 4; b".note.a", 7, 2, 4, 4;
        b".init_array.5", 1, 2, 4, 4; b".rodata.b", 7, 2, 4, 4;
    ];
    let inputs = inputs_of(rt.alloc(), &[object_with(&sections)])?;
    let made = run_passes(&rt, rt.alloc(), &inputs, &PLAIN)?;
    assert!(rt; are_sections(made.layout.members.as_slice(), &[4, 1, 6, 5, 2, 3]));
    Ok(())
}

/// Thread-local sections are of no other class, and stand in the order of the command.
#[test]
fn thread_local_sections_stand_by_themselves(rt: HostRuntime) -> Result<(), Fail> {
    let sections = sections![
        b".tdata.b", 1, 0x403, 4, 4; b"own", 1, 0x402, 4, 4; b".tbss", 8, 0x403, 4, 4; b".tdata", 1, 0x406, 4, 4;
        b".data", 1, 3, 4, 4; b".got", 1, 3, 4, 4;
    ];
    let inputs = inputs_of(rt.alloc(), &[object_with(&sections)])?;
    let made = run_passes(&rt, rt.alloc(), &inputs, &PLAIN)?;
    // Thread-local sections with bits, and then sections that are written.
    assert!(rt; are_sections(made.layout.members.as_slice(), &[1, 4, 2, 6, 5]));
    assert!(rt; are_sections(made.layout.nobits_members.as_slice(), &[3]));
    Ok(())
}
